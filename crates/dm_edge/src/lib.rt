//! The outside as `dm` meets it: wires, nets, sinks and clocks, and the origin that says the bytes.
#![tactic(auto)]

mod cause;
mod chain;
mod clock;
mod clock_list;
mod counts;
mod fault;
mod framing;
mod limits;
mod net;
mod net_script;
mod origin;
mod script;
mod sink;
mod sink_mem;
mod wanted;
mod wire;
mod wire_mem;

pub use cause::{net_cause, wire_cause};
pub use clock::Clock;
pub use clock_list::ClockList;
pub use counts::{NetCounts, WireCounts};
pub use dm_types::NumberList;
pub use fault::{EdgeFault, NetFault, WireFault};
pub use framing::Framing;
pub use limits::{MOST_CONTENT, MOST_FIELDS, MOST_HEAD, MOST_INTERIM, MOST_MODIFIED, MOST_TAG};
pub use net::Net;
pub use net_script::NetScript;
pub use origin::{EveryByte, Generated, Origin};
pub use script::{Exchange, NetFails, WireFails, WireScript, WireScripts};
pub use sink::Sink;
pub use sink_mem::SinkMem;
pub use wanted::{Wanted, ask_for};
pub use wire::Wire;
pub use wire_mem::WireMem;
