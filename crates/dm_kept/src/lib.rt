//! What a crash leaves of a list of items and of their files, and what is recovered from it. No code
//! runs here.
#![tactic(auto)]

mod files;
mod laws;

pub use files::{
    an_empty_disk_is_kept, found_is_kept, items_are_small, kept_is_sound, sits_exactly,
};
pub use laws::{damage_is_one, recovery_is_one};
