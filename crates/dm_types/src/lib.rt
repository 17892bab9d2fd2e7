//! The words that every crate of `dm` speaks: texts, lists, ids, reasons, items and entries.
#![tactic(auto)]

mod address;
mod entry;
mod item;
mod kinds;
mod listed;
mod memory;
mod name;
mod reason;
mod slices;
mod text;

pub use address::Address;
pub use entry::Entry;
pub use item::{Attempt, Epoch, Item, ItemId, Key, LIMITS, Limits, Phase};
pub use kinds::{By, DiskKind, Mode};
pub use listed::{Listed, NumberList};
pub use memory::{NoMemory, let_go};
pub use name::{part_name, same_folded};
pub use reason::Reason;
pub use slices::{MOST_SLICES, Slice, Slices};
pub use text::Text;

#[cfg(test)]
mod tests;
