//! What an attempt does at a desk, step by step, and the words for all that an attempt did.
#![tactic(auto)]

mod describing;
mod desk;
mod ended;
mod ending;
mod finishing;
mod landing;
mod planning;
mod source;
mod stop;

pub use describing::describe;
pub use desk::Desk;
pub use ended::Ended;
pub use ending::end;
pub use finishing::finish;
pub use landing::{land_piece, save};
pub use planning::plan_round;
pub use source::{Source, parts_wanted, source_of};
pub use stop::{Going, Stop, stop_of};
