//! Reads one reply from a wire: its head, and then its content piece by piece.
#![tactic(auto)]

mod ahead;
mod body;
mod chunked;
mod found;
mod got;
mod head;
mod laws;
mod lines;
mod part;
mod plain;
mod reader;
mod receiving;

pub use dm_edge::Wanted;
pub use got::Got;
pub use head::{Head, HeadFault, Kind};
pub use laws::one_outcome;
pub use reader::ReplyReader;
