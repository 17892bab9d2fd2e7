//! A desk: the list of items over a disk's journal, and the attempts that bring their content. Each entry
//! is recorded in the journal before the call that made it answers, and a crash at any moment leaves the
//! list as after some of the entries that were tried, with all that were acknowledged.
#![tactic(auto)]

mod calls;
mod desk;
mod laws;
mod listing;
mod opening;
mod running;
mod sweeping;

pub use desk::Desk;
pub use dm_answers::{
    Begun, DeskFault, Finished, IdList, Named, OpenFault, Order, SlicePass, SlicePasses, Taken,
    Told,
};
pub use dm_store::Pass;
pub use laws::old_passes;
