//! The list of a disk is found in its journal, and is begun: that it was opened is recorded.
#![tactic(auto)]

mod beginning;
mod bodies;
mod finding;
mod hindered;

pub use beginning::begin_list;
pub use finding::{FoundList, find_list};
pub use hindered::Hindered;
