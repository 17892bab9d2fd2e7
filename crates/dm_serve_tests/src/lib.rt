//! The service over a disk, a history and connections in memory: what it replies, what the list and the history then
//! have, how it ends, and what is left where a call fails or the disk stops.
#![tactic(auto)]

#[cfg(test)]
mod asks;
#[cfg(test)]
mod bench;
#[cfg(test)]
mod codes;
#[cfg(test)]
mod cuts;
#[cfg(test)]
mod desks;
#[cfg(test)]
mod faults;
#[cfg(test)]
mod history;
#[cfg(test)]
mod rows;
#[cfg(test)]
mod told;
