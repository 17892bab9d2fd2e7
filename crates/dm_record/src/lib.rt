//! The entries of the journal as bytes, written and read.
#![tactic(auto)]

mod fault;
mod fields;
mod items;
mod kinds;
mod laws;
mod parts;
mod puts;
mod reader;
mod writer;

pub use fault::RecordFault;
pub use laws::{longest_spelling, one_spelling, three_ways};
pub use reader::read_entry;
pub use writer::{write_broke, write_done, write_entry};
