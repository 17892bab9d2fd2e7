//! Journals on a disk in memory: stopped at each call, with each call failing, and as a crash leaves them.
#![tactic(auto)]

#[cfg(test)]
mod bench;
#[cfg(test)]
mod journals;
