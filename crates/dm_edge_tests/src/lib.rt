//! Each object in memory, run through once.
#![tactic(auto)]

#[cfg(test)]
mod edges;
