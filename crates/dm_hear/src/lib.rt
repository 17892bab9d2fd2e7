//! A request to the service is read from a source, and a reply is written to a connection.
#![tactic(auto)]

mod fault;
mod judge;
mod length;
mod read;
mod write;

pub use fault::{ApiFault, Rule};
pub use read::read_api;
pub use write::write_api;
