//! What bringing an item does, as what a run's clause says of its driver. These are definitions and lemmas.
#![tactic(auto)]

mod course;

pub use course::course_behind;
