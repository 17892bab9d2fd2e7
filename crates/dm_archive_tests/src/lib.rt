//! The commands of the history over a disk, a history and a net in memory: what they print, and where each item
//! is shown when a call fails or the disk stops.
#![tactic(auto)]

#[cfg(test)]
mod bench;
#[cfg(test)]
mod limit;
#[cfg(test)]
mod rows;
#[cfg(test)]
mod stops;
