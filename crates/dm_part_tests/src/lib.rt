//! Parts on a disk in memory: their names, their digests, and what a crash leaves of them.
#![tactic(auto)]

#[cfg(test)]
mod bench;
#[cfg(test)]
mod parts;
