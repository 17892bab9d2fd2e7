//! What entries make of a list of items, and in which phases they come.
#![tactic(auto)]

#[cfg(test)]
mod rows;
