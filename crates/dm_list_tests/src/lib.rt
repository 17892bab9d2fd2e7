//! The commands of the list on a disk and a net in memory: what they print, what the journal then holds, which
//! files stand, and what is left where they stop.
#![tactic(auto)]

#[cfg(test)]
mod brought;
#[cfg(test)]
mod changes;
#[cfg(test)]
mod limit;
#[cfg(test)]
mod rows;
#[cfg(test)]
mod runs;
#[cfg(test)]
mod stops;
#[cfg(test)]
mod swept;
