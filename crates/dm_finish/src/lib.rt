//! How an attempt that has brought all ends: the sum of its part is taken, and its file gets its name.
#![tactic(auto)]

mod closing;
mod confirming;
mod finishing;
mod naming;

pub use closing::close;
pub use confirming::{Confirmed, confirm};
pub use finishing::{Ending, finish};
pub use naming::{Naming, give_name};
