//! The journal: a list of bodies in one file, of which a crash leaves all that were acknowledged.
#![tactic(auto)]

mod appending;
mod cell;
mod fault;
mod finding;
mod journal;
mod reading;
mod starting;
mod text;

pub use fault::{JournalFault, TextFault};
pub use journal::Journal;
pub use text::Bodies;
