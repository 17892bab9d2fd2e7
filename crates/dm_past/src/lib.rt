//! Runs over a list and a history: items are moved to the history, its rows are shown, and a row answers a
//! command of the list where no item does.
#![tactic(auto)]

mod all;
mod answering;
mod lines;
mod listed;
mod run;
mod running;
mod saying;
mod task;
mod words;
mod working;

pub use all::run_with_history;
pub use lines::row_line;
pub use run::run_task;
pub use task::Task;
pub use words::read_task;
