//! The two tables of `dm`: which reason a cause has, and how an item with a reason may go on.
#![tactic(auto)]

mod cause;
mod laws;
mod mode;

pub use cause::{Cause, reason_of};
pub use laws::{cause_rows, mode_rows};
pub use mode::{
    MOST_AUTOS, ModeFacts, because_of, is_continue, is_immediate, is_invalid, is_restart, mode_of,
};

#[cfg(test)]
mod tests;
