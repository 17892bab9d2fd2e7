//! The top call: a command's words go in, and what it did is in the disk, the printed texts and the status.
#![tactic(auto)]

mod program;
mod words;

pub use dm_list::{Ran, print_ending};
pub use dm_report::{Ending, Verdict};
pub use program::run_program;
pub use words::{refused, run_words};
