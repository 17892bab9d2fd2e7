//! What the calls of a desk say and leave: rows over a disk in memory.
#![tactic(auto)]

#[cfg(test)]
mod disks;
#[cfg(test)]
mod rows;
