//! `dm serve`: the words, a session of the service, and what is printed at its end.
#![tactic(auto)]

mod run;

pub use run::{is_serve, run_serve};
