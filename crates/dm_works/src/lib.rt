//! Requests to the service are answered from the list and the history: what each asks is done on both, and the reply goes out
//! to its connection.
#![tactic(auto)]

mod answering;
mod changing;
mod deciding;
mod jobs;
mod recalling;
mod serve;

pub use answering::answer;
pub use serve::serve_one;
