//! What a command does, what a run of it says, and what it leaves on the disk. These are definitions and
//! their laws; the commands themselves stand above.
#![tactic(auto)]

mod course;
mod job;
mod laws;

pub use course::{Course, Show};
pub use job::Job;
pub use laws::{any_runs, jobs_fit};
