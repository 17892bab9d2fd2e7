//! The keeper of a history over SQLite: one table, and one statement for each call.
#![tactic(auto)]

mod fault;
mod keeper;
mod reading;
mod statements;

pub use keeper::SqlKeeper;
