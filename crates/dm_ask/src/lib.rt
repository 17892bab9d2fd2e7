//! Asks for a content: connects, sends the request, reads the head, and follows redirects.
#![tactic(auto)]

mod aim;
mod asked;
mod asking;
mod following;
mod key;

pub use asked::{Asked, ask};
