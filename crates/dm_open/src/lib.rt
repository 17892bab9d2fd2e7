//! A desk's list is opened over a disk, or opened anew: its journal is found or started, what was being
//! finished is settled, and parts that none needs are removed.
#![tactic(auto)]

mod finishing;
mod opening;
mod reopening;
mod resuming;

pub use opening::open;
pub use reopening::reopen;
