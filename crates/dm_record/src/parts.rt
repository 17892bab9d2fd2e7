//! An item in parts, as its bytes are read.

use dm_types::{Attempt, Epoch, ItemId, Key, Slices, Text};

/// What was asked for.
#[derive(Drop)]
pub(crate) struct Order {
    pub id: ItemId,
    pub word: Text,
    pub first_address: Text,
    pub wish: Text,
    pub digest: Option<[u8; 32]>,
}

/// How far it has come.
#[derive(Clone, Copy)]
pub(crate) struct Course {
    pub epoch: Epoch,
    pub attempt: Attempt,
    pub autos: u32,
    pub begun: bool,
}

/// What a reply told of the content.
#[derive(Drop)]
pub(crate) struct Told {
    pub key: Option<Key>,
    pub last_address: Option<Text>,
    pub total: Option<u64>,
    pub name: Option<Text>,
    pub modified: Option<Text>,
}

/// What is there of the content.
#[derive(Drop)]
pub(crate) struct Kept {
    pub slices: Slices,
    pub have: Option<[u8; 32]>,
    pub at_ms: u64,
}
