//! The calls of a desk by which its list is changed with no attempt and no file: an item is added,
//! resumed, cancelled, removed or archived. And what is read of the list.
#![tactic(auto)]

mod adding;
mod changing;
mod checking;
mod finding;
mod laws;
mod listing;

pub use adding::add;
pub use changing::{archived, cancel, remove, resume};
pub use finding::due;
pub use laws::one_answer;
pub use listing::page;
