//! What a number generates: a content, and the replies that bring it whole or in parts.
#![tactic(auto)]

mod content;
mod head;
mod laws;
mod reply;
mod request;

pub use content::{address_of, fill, size_of, tag_of};
pub use head::head_text;
pub use laws::{brings_generated, one_answer, reads_back};
pub use reply::{Reply, brought_of, reply_to};
