//! The part of an item, and how it becomes the file: made anew, written, settled, and published by one rename.
#![tactic(auto)]

mod hashing;
mod keeping;
mod making;
mod naming;
mod part;

pub use hashing::{PartFault, digest};
pub use keeping::{held_is_sound, others_leave, own_calls_keep, rows_of_keeping, sound_is_held};
pub use making::{create, place_of};
pub use naming::{one_part, read_part_name};
pub use part::{discard, publish, put, settle};
