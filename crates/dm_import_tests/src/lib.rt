//! Imports on a disk, a net and a history in memory: what they print, what the list then has, and what is left
//! where they stop.
#![tactic(auto)]

#[cfg(test)]
mod bench;
#[cfg(test)]
mod rows;
#[cfg(test)]
mod sizes;
#[cfg(test)]
mod stops;
