//! The rounds of an attempt: asks for a content, and lands what comes, in one part or several.
#![tactic(auto)]

mod asking;
mod beginning;
mod first;
mod fresh;
mod lane;
mod lanes;
mod opening;
mod rounding;
mod running;
mod serving;
mod telling;
mod tools;

pub use asking::ask_part;
pub use beginning::begin_round;
pub use first::{Reply, first_reply};
pub use fresh::run_fresh;
pub use lane::{Lane, Turn};
pub use lanes::{close_all, read_lanes, run_round};
pub use opening::{ask_rest, open_parts};
pub use rounding::open_round;
pub use running::{run_kept, run_rounds};
pub use telling::told_of;
pub use tools::Tools;
