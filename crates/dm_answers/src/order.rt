use dm_types::{Address, ItemId, Text};

/// An item to be added.
#[derive(Debug, Drop)]
pub struct Order {
    /// The user's word for it, of at most 64 bytes, or empty.
    pub word: Text,
    /// Where it is brought from. Its text has at most 4,096 bytes.
    pub address: Address,
    /// The name that was handed in, of at most 255 bytes, or empty.
    pub wish: Text,
    /// The SHA-256 that the content is to have, where it was stated.
    pub digest: Option<[u8; 32]>,
}

/// What became of an order.
#[derive(Clone, Copy, Debug, PartialEq, Eq)]
pub enum Taken {
    /// It is this new item.
    New(ItemId),
    /// This item has its word and its address, and nothing was added.
    Same(ItemId),
}
