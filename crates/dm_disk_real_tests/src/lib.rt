//! The disk over real folders, in new folders of the system.
#![tactic(auto)]

#[cfg(test)]
mod bench;
#[cfg(test)]
mod folders;
