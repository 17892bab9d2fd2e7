use dm_store::Pass;
use dm_types::{Attempt, ItemId, Key, Listed, Text};

/// How an attempt begins. Lengths are in bytes.
#[derive(Clone, Copy, Debug, PartialEq, Eq)]
pub enum Begun {
    /// The content is to be asked for from its start.
    Fresh(Pass),
    /// The part holds all that was saved, and what is missing is to be asked for.
    Continue(Pass),
    /// The part is shorter than what was saved, or missing. The item is interrupted.
    Short { have: u64, wanted: u64 },
}

/// What the first reply of an epoch told.
#[derive(Debug, Drop)]
pub struct Told {
    pub key: Key,
    /// The address that brought the content, of at most 4,096 bytes.
    pub last_address: Text,
    /// The content's length in bytes, where it was told: at most 2^40.
    pub total: Option<u64>,
    /// The name that the item is to have where it is free: a cleaned one.
    pub wish: Text,
    /// The value of Last-Modified, of at most 128 bytes, or empty.
    pub modified: Text,
}

/// What became of a wish for a name.
#[derive(Clone, Copy, Debug, PartialEq, Eq)]
pub enum Named {
    /// The item has its name.
    Named,
    /// The wish and its hundred forms are taken. The item is interrupted.
    AllTaken,
}

/// What an attempt shows with each piece: one part of a round.
#[derive(Clone, Copy, Debug, PartialEq, Eq)]
pub struct SlicePass {
    pub id: ItemId,
    pub attempt: Attempt,
    pub round: u32,
    /// The part's number in the round.
    pub index: u32,
    /// The part's first place, in bytes.
    pub first: u64,
    /// The place behind its last one.
    pub end: u64,
}

/// The parts of a round.
pub type SlicePasses = Listed<SlicePass>;

/// Ids, rising.
pub type IdList = Listed<ItemId>;

/// How an attempt that has brought all ends.
#[derive(Clone, Copy, Debug, PartialEq, Eq)]
pub enum Finished {
    /// The file has its name.
    Complete,
    /// The content has this SHA-256, and another was stated. The item is interrupted.
    Mismatch { have: [u8; 32], wanted: [u8; 32] },
    /// The part ends early. The item is interrupted.
    Short { have: u64, wanted: u64 },
}
