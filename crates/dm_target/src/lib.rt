//! Whether bytes end inside the target of a request line.
#![tactic(auto)]

mod laws;
mod target;

pub use laws::no_target_comes;
pub use target::ends_in_target;
