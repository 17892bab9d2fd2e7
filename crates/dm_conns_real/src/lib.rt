//! The system's connections on 127.0.0.1 as `dm` serves them. They tell nothing of content.
#![tactic(auto)]

mod conn;
mod listener;

pub use conn::TcpConn;
pub use listener::TcpConns;
