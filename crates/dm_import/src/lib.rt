//! A file of the user's is imported: what it tells is added to the list, one item after another.
#![tactic(auto)]

mod adding;
mod lines;
mod reading;
mod rows;
mod run;
mod running;
mod saying;
mod words;
mod working;

pub use run::run_import;
pub use words::read_import;
