//! Which bytes of a content are there, and which parts of it are asked for next.
#![tactic(auto)]

mod cover;
mod plan;
mod words;

pub use cover::{Cover, MOST_BYTES, is_cover_within};
pub use plan::{Part, Plan};
pub use words::{cover_end, covered, has_byte, holds, is_full, is_normal, is_within};
