//! Entries written and read, and wrong bytes with their places.
#![tactic(auto)]

#[cfg(test)]
mod entries;
