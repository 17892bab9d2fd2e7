//! Entity tags, content ranges and content lengths (RFC 9110), as readers over a field's value.
//!
//! Each reader gives a value exactly where the bytes are in its grammar, and takes no memory.
#![tactic(auto)]

mod laws;
mod length;
mod number;
mod range;
mod runs;
mod tag;
mod units;

pub use laws::one_reading;
pub use length::read_length;
pub use range::{ContentRange, read_content_range};
pub use tag::{Tag, read_tag, strong_equal};
pub use units::takes_ranges;

#[cfg(test)]
mod tests;
#[cfg(test)]
mod yardstick;
