//! The calls of an attempt that brings content: which place of a part comes next, a piece that is
//! written into the part, what was landed saved, and the attempt's ends.
#![tactic(auto)]

mod breaking;
mod checking;
mod checkpoints;
mod landing;
mod passes;
mod pausing;
mod saving;
mod shutting;

pub use breaking::broke;
pub use checking::check;
pub use checkpoints::checkpoint;
pub use landing::land;
pub use passes::declined;
pub use pausing::pause;
pub use saving::{Prepared, prepare_saving, save_if, unsaved};
pub use shutting::shut;
