//! The name under which a file is kept: cleaned of what a file system or a shell would take amiss, and unique.
#![tactic(auto)]

mod clean;
mod forms;
mod laws;
mod runs;
mod wish;

pub use forms::{NameFault, unique_name};
pub use laws::name_laws;
pub use wish::wish_name;

#[cfg(test)]
mod tests;
