//! What a request to the service does to the list of items and to the history, and what is replied.
#![tactic(auto)]

mod reply;
mod shown;
mod task;

pub use reply::{
    archived_reply, page_reply, removed_reply, reply_to, report_reply, row_reply, rows_reply,
    stop_reply,
};
pub use shown::{item_of, removed_id};
pub use task::{Task, task_of};
