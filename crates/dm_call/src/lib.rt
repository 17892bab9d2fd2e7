//! What a request to the service asks: its route, its query and its content, read into a call or refused.
#![tactic(auto)]

mod call;
mod content;
mod numbers;
mod query;
mod read;
mod request;
mod routes;

pub use call::{Call, CallFault, Named, Refusal, Target, Window};
pub use read::read_call;
pub use request::{ApiRequest, MethodKind, method_kind};
