//! What the list of items and the history show together: the history shows the rows whose id is no item's.
#![tactic(auto)]

mod answering;
mod named;
mod page;

pub use answering::{add_by_row, get_by_row};
pub use named::{Named, find_named};
pub use page::shown_rows;
