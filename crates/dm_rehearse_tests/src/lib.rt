//! Rehearsals: what they print, byte for byte.
#![tactic(auto)]

#[cfg(test)]
mod rows;
