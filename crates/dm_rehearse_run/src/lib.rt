//! `dm rehearse`: a content that a number generates is brought in four parts at once, over a net whose wires end
//! early and with a crash between two sessions, wholly in memory.
#![tactic(auto)]

mod crash;
mod reading;
mod rehearsal;
mod run;
mod session;

pub use crash::crashed;
pub use reading::{counts_on, sum_on};
pub use rehearsal::rehearse;
pub use run::{read_rehearsal, run_rehearsal};
pub use session::{Brought, first_session, second_session};
