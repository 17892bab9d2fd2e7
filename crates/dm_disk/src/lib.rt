//! The disk of `dm`: the model of what a crash may leave, and a disk in memory that keeps to it.
#![tactic(auto)]

mod call;
mod content;
mod failing;
mod find;
mod image;
mod index;
mod laws;
mod listing;
mod log;
mod memory;
mod meter;

pub use dm_disk_model::{Area, Disk, DiskFault, NameList, NamesFault, Place};
pub use failing::{FailList, FailingCall};
pub use image::Pick;
pub use laws::{
    calls_stay_in_their_folder, images_are_made_of_both, names_leave_the_bytes,
    other_names_are_left, reads_as_an_image, writes_stay_in_their_file,
};
pub use memory::MemoryDisk;
