use crate::Life;
use dm_disk_model::Disk;
use dm_edge::Origin;
use dm_item::Items;
use dm_journal::Journal;
use dm_types::{Entry, Limits};
use std::alloc::Global;

/// The parts of a desk. In contracts it is seen as `view_of` says.
#[derive(Drop)]
pub struct Store<D: Disk, O: Origin> {
    pub disk: D,
    pub origin: O,
    pub limits: Limits,
    pub items: Items,
    pub lives: Vec<Life>,
    pub journal: Journal,
    /// The journal failed, or a reopening was refused, and the desk wasn't reopened since.
    pub broken: bool,
    /// The entries that were recorded since the opening.
    pub list: Vec<Entry>,
    /// The entry whose append failed, where one did.
    pub failed: Option<Entry>,
    pub alloc: Global,
}
