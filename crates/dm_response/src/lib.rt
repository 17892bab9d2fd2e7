//! What the service answers: the bytes of a reply, and items, rows of the history and refusals as JSON.
#![tactic(auto)]

mod history;
mod json;
mod reply;
mod trouble;

pub use history::{row_text, rows_text};
pub use json::{item_text, items_text, text_of};
pub use reply::{ApiReply, Media, fixed_memory_reply, reply_with};
pub use trouble::{Trouble, trouble_reply};
