//! The commands of the list, each one run over a disk and a net: what words ask is done, and what it comes to is printed.
#![tactic(auto)]

mod deciding;
mod job;
mod opening;
mod order;
mod printing;
mod run;
mod running;
mod saying;
mod working;

pub use deciding::add;
pub use job::read_job;
pub use opening::{Over, refuse};
pub use printing::{print_ending, write_all};
pub use run::{Ran, run_list};
pub use running::run_job;
pub use working::work;
