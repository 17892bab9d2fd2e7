//! The net of a rehearsal: its wires bring a content that a number generates, and three of them end early.
#![tactic(auto)]

mod chain;
mod net;
mod wire;

pub use net::GeneratedNet;
pub use wire::GeneratedWire;
