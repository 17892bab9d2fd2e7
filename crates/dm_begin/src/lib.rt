//! How an attempt of a desk begins: it is begun, the first reply is taken, and its rounds are planned.
#![tactic(auto)]

mod beginning;
mod describing;
mod entering;
mod making;
mod naming;
mod pairing;
mod passing;
mod planning;
mod readying;
mod recording;
mod starting;

pub use beginning::begin;
pub use describing::describe;
pub use planning::plan;
