//! Covers that are planned, grown and saved.
#![tactic(auto)]

#[cfg(test)]
mod covers;
