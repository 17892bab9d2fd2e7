//! Asking over nets in memory.
#![tactic(auto)]

#[cfg(test)]
mod asks;
#[cfg(test)]
mod bench;
