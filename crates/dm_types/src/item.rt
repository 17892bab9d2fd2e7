ghost use Rattle.std.specs.Prelude.{◌≡◌, IfOk, IsTrue, ◌↔◌};

use crate::{NoMemory, Reason, Slices, Text};
use std::alloc::Global;

/// The number of an item. The first is 1.
#[derive(Clone, Copy, Debug, PartialEq, Eq, PartialOrd, Ord)]
pub struct ItemId(pub u32);

/// How often an item's content has begun anew, from 1.
#[derive(Clone, Copy, Debug, PartialEq, Eq, PartialOrd, Ord)]
pub struct Epoch(pub u32);

/// How often an item was asked for. 0 is not yet.
#[derive(Clone, Copy, Debug, PartialEq, Eq, PartialOrd, Ord)]
pub struct Attempt(pub u32);

/// Where an item stands.
#[derive(Clone, Copy, Debug, PartialEq, Eq)]
pub enum Phase {
    Waiting,
    Running,
    Paused,
    /// Its content is whole, and its name is being given.
    Finishing,
    Complete,
    Cancelled,
    Interrupted(Reason),
}

/// What two replies have in common where their bytes are of one representation.
#[derive(Debug, Drop)]
pub enum Key {
    /// A strong entity tag with its quotes (RFC 9110, section 8.8.3).
    Strong(Text),
    /// A reply without one stands for this attempt alone.
    Once(ItemId, Attempt),
}

impl Key {
    /// Another value of the same key.
    pub fn copy(&self, alloc: Global) -> Result<Key, NoMemory>
        ensures { IfOk result (λ key. key ≡ self.now) }
    {
        match self {
            Key::Strong(tag) => match tag.copy(alloc) {
                Ok(tag) => Ok(Key::Strong(tag)),
                Err(NoMemory) => Err(NoMemory),
            },
            Key::Once(id, attempt) => Ok(Key::Once(*id, *attempt)),
        }
    }

    /// Whether two keys are equal: the bytes of both tags, or both the item and the attempt.
    pub fn same(&self, other: &Key) -> bool
        ensures { IsTrue result ↔ (self.now ≡ other.now) }
    {
        match (self, other) {
            (Key::Strong(tag), Key::Strong(told)) => tag.same(told),
            (Key::Once(id, attempt), Key::Once(of, later)) => *id == *of && *attempt == *later,
            (Key::Strong(_), Key::Once(..)) | (Key::Once(..), Key::Strong(_)) => false,
        }
    }
}

/// One address that is being brought into one file.
#[derive(Debug, Drop)]
pub struct Item {
    pub id: ItemId,
    /// The user's word for it, or empty.
    pub word: Text,
    pub first_address: Text,
    /// The name that was handed in, or empty.
    pub wish: Text,
    /// The SHA-256 that the content is to have, where it was stated.
    pub digest: Option<[u8; 32]>,
    pub phase: Phase,
    pub reason: Option<Reason>,
    pub epoch: Epoch,
    pub attempt: Attempt,
    /// Attempts by itself since the last one by the user.
    pub autos: u32,
    /// An attempt has begun in this epoch.
    pub begun: bool,
    pub key: Option<Key>,
    pub last_address: Option<Text>,
    /// The content's length in bytes, where it is known.
    pub total: Option<u64>,
    pub name: Option<Text>,
    /// The value of Last-Modified, or empty.
    pub modified: Option<Text>,
    /// The saved cover: which places of the content the part holds.
    pub slices: Slices,
    /// The SHA-256 of the published file.
    pub have: Option<[u8; 32]>,
    /// Milliseconds since 1970: when it was added, or published.
    pub at_ms: u64,
}

/// How much a desk takes on.
#[derive(Clone, Copy, Debug, PartialEq, Eq)]
pub struct Limits {
    /// Items in the list.
    pub items: u32,
    /// Unsaved bytes at which a checkpoint is due.
    pub checkpoint: u64,
    /// Bytes of one landed piece.
    pub piece: u64,
    /// The least part, in bytes, where a hole is cut.
    pub min_slice: u64,
    /// The journal's length in bytes at which it is compacted.
    pub journal: u64,
}

/// The greatest number of each limit, with which the program runs.
pub const LIMITS: Limits = Limits {
    items: 4096,
    checkpoint: 1_048_576,
    piece: 65_536,
    min_slice: 1_048_576,
    journal: 16_777_216,
};
