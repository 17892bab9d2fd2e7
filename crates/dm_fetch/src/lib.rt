//! Attempts: one, and as many as an item makes by itself.
#![tactic(auto)]

mod attempting;
mod driving;
mod fetching;
mod keeping;
mod starting;

pub use attempting::attempt;
pub use fetching::fetch;
