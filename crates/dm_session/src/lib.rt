//! The service: the list of a disk is opened, connections are answered from it and from the history one after another, and it is shut.
#![tactic(auto)]

mod closing;
mod opening;
mod session;
mod turning;

pub use session::{Session, run_session};
pub use turning::Closed;
