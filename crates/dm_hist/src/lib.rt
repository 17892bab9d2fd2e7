//! The history: a row for each item that has left the list, and what a keeper of such rows does.
#![tactic(auto)]

mod calls;
mod keeper;
mod laws;
mod memory;
mod row;
mod rows;
mod shown;

pub use keeper::{Keeper, KeeperFault};
pub use laws::a_word_finds_the_least_id;
pub use memory::MemoryKeeper;
pub use row::{Row, RowFilter, RowList};
pub use shown::{is_listed, row_of_item};
