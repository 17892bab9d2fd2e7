//! The sweep of a desk: parts that none needs are removed.
#![tactic(auto)]

mod leftover;
mod sweeping;

pub use sweeping::sweep;
