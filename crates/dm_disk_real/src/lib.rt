//! The disk over two folders of the operating system. It tells nothing of what they hold.
#![tactic(auto)]

mod counts;
mod fault;
mod folder;
mod name;
mod real;
mod recent;
mod syncs;

pub use counts::Counts;
pub use real::RealDisk;
