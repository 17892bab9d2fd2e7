//! Complete and cancelled items move from the list to the history. Stopped anywhere, each is shown exactly
//! once: its row is kept first, and the list lets it go only then; and a row is shown where no item has its id.
#![tactic(auto)]

mod fault;
mod moving;
mod removing;

pub use fault::ArchiveFault;
pub use moving::archive_all;
pub use removing::remove;
