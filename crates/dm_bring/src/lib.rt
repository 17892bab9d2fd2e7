//! The step of a command between its own part and what it says: the item is brought, where the course says so.
#![tactic(auto)]

mod bringing;

pub use bringing::bring;
