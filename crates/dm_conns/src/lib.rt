//! Connections that come to `dm`: where a request is read from, what a reply is written to, and what
//! takes them one after another.
#![tactic(auto)]

mod calls;
mod chain;
mod conn;
mod conn_mem;
mod conns;
mod conns_mem;
mod feed;
mod source;
mod source_mem;

pub use conn::Conn;
pub use conn_mem::ConnMem;
pub use conns::Conns;
pub use conns_mem::{ConnMems, ConnsMem, Served};
pub use source::Source;
pub use source_mem::SourceMem;
