//! What the first bytes of a reply are: a whole head and what it says, the front of one, or none.
#![tactic(auto)]

mod fields;
mod framing;
mod laws;
mod lengths;
mod look;
mod metadata;
mod part;
mod whole;

pub use laws::{more_bytes, one_outcome};
pub use lengths::{ToldLength, length_of};
pub use look::{Look, begins_too_many, look_at};
pub use metadata::Metadata;
pub use part::Extent;

#[cfg(test)]
mod tests;
