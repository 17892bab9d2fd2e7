//! Items brought by attempts, over a disk and a net in memory.
#![tactic(auto)]

#[cfg(test)]
mod bench;
#[cfg(test)]
mod rows;
