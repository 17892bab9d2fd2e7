use dm_answers::Order;
use dm_types::ItemId;

/// What is to be done, read of words: where they told an address, it was read.
#[derive(Debug, Drop)]
pub enum Job {
    /// Add the order, or take the item that has its word, and bring it in so many slices.
    Get(Order, u32),
    Add(Order),
    /// Ask for the item again, and bring it in so many slices.
    Resume(ItemId, u32),
    Pause(ItemId),
    Cancel(ItemId),
    Remove(ItemId),
    Show(ItemId),
    List,
    /// Count the items.
    Report,
    /// Tell the list as CSV.
    Export,
}
