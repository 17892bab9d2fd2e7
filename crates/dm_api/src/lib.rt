//! One connection to the service: what goes out to it, and that it is written.
#![tactic(auto)]

mod outgoing;
mod send;

pub use dm_call::{ApiRequest, MethodKind};
pub use dm_hear::{ApiFault, Rule, read_api, write_api};
pub use dm_response::ApiReply;
pub use outgoing::{Outgoing, outgoing_of, refusal};
pub use send::{Served, send_out};
