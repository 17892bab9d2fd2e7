//! What a first reply tells, and what is asked for next.
#![tactic(auto)]

#[cfg(test)]
mod telling;
