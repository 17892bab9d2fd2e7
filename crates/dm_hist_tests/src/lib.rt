//! The rows of a history, over the keeper in memory and over SQLite.
#![tactic(auto)]

#[cfg(test)]
mod bench;
#[cfg(test)]
mod keepers;
#[cfg(test)]
mod shown;
