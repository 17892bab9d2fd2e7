//! A disk of two folders as `dm` sees it: what its calls do, and what a crash at any moment may leave.
#![tactic(auto)]

mod counts;
mod disk;
mod place;

pub use counts::{KindCounts, one_more};
pub use disk::{Disk, ends_far};
pub use place::{Area, DiskFault, NameList, NamesFault, Place};
