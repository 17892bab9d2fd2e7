use dm_types::{Attempt, Epoch, ItemId};

/// What an attempt shows with each of its calls.
#[derive(Clone, Copy, Debug, PartialEq, Eq)]
pub struct Pass {
    pub id: ItemId,
    pub attempt: Attempt,
    pub epoch: Epoch,
}

/// Why a pass is refused.
#[derive(Clone, Copy, Debug, PartialEq, Eq)]
pub enum Gone {
    /// No item has the id.
    NoItem(ItemId),
    /// The attempt is over. It holds the item's attempt, and its round or 0.
    Stale { attempt: Attempt, round: u32 },
}
