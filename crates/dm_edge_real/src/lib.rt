//! The system's sockets, streams and clock as `dm` meets the outside. They tell nothing of content.
#![tactic(auto)]

mod clock;
mod faults;
mod stream;
mod tcp;

pub use clock::SystemClock;
pub use stream::StreamSink;
pub use tcp::{TcpNet, TcpWire};

#[cfg(test)]
mod tests;
