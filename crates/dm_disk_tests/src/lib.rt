//! A disk in memory read back: small files, both images, and calls that are listed, stopped or refused.
#![tactic(auto)]

#[cfg(test)]
mod memory;
