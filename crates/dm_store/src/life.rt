use dm_disk_model::Place;
use dm_slice::{Cover, Plan};
use dm_types::ItemId;

/// An attempt that runs.
#[derive(Drop)]
pub struct Life {
    pub id: ItemId,
    /// Where the content comes.
    pub part: Place,
    /// What was received so far.
    pub cover: Cover,
    /// The bytes that were received since the last checkpoint.
    pub unsaved: u64,
    /// How often it was planned.
    pub round: u32,
    /// The parts of the last round.
    pub plan: Plan,
}
