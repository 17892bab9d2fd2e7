//! What a rehearsal comes to: the image that a crash leaves between its two sessions, the counts of its journal, and
//! the four lines that it prints. All of it is pure.
#![tactic(auto)]

mod counting;
mod lines;
mod picking;

pub use counting::{Counts, count};
pub use lines::lines_of;
pub use picking::pick_of;
