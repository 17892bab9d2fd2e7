ghost use Rattle.std.specs.Prelude.{◌≡◌};
ghost use Rattle.dm_types.specs.Kind.{kind_of};

use crate::{Attempt, By, Epoch, Item, ItemId, Key, Reason, Slices, Text};

/// What the journal records. Moments are milliseconds since 1970.
#[derive(Debug, Drop)]
pub enum Entry {
    /// An item was added.
    Added {
        id: ItemId,
        word: Text,
        address: Text,
        wish: Text,
        digest: Option<[u8; 32]>,
        at: u64,
    },
    /// An attempt began.
    Began {
        id: ItemId,
        attempt: Attempt,
        by: By,
        at: u64,
    },
    /// The first reply of an epoch told what the content is.
    Described {
        id: ItemId,
        key: Key,
        last_address: Text,
        total: Option<u64>,
        name: Text,
        modified: Text,
    },
    /// The part holds these slices, synced.
    Progress {
        id: ItemId,
        slices: Slices,
    },
    /// An attempt was interrupted.
    Broke {
        id: ItemId,
        reason: Reason,
    },
    Paused {
        id: ItemId,
    },
    Cancelled {
        id: ItemId,
    },
    /// The content is brought anew. `because` says why, by the first rule that holds.
    Restarted {
        id: ItemId,
        epoch: Epoch,
        because: u8,
    },
    /// The content is whole, and its name may be given from here on.
    Finishing {
        id: ItemId,
        total: u64,
    },
    /// The file stands under its name, with this SHA-256.
    Done {
        id: ItemId,
        digest: [u8; 32],
        at: u64,
    },
    Removed {
        id: ItemId,
    },
    /// The item has moved to the history.
    Archived {
        id: ItemId,
    },
    /// The journal was opened. `next` is the id that the next item gets.
    Reopened {
        next: u32,
        at: u64,
    },
    /// An item as a compaction found it.
    Restored {
        item: Item,
    },
    /// The user asks for it again.
    Asked {
        id: ItemId,
    },
}

impl Entry {
    /// The number of its kind, which its bytes in the journal begin with.
    pub fn kind(&self) -> u8
        ensures { result ≡ kind_of self.now }
    {
        match self {
            Entry::Added { .. } => 1,
            Entry::Began { .. } => 2,
            Entry::Described { .. } => 3,
            Entry::Progress { .. } => 4,
            Entry::Broke { .. } => 5,
            Entry::Paused { .. } => 6,
            Entry::Cancelled { .. } => 7,
            Entry::Restarted { .. } => 8,
            Entry::Finishing { .. } => 9,
            Entry::Done { .. } => 10,
            Entry::Removed { .. } => 11,
            Entry::Archived { .. } => 12,
            Entry::Reopened { .. } => 13,
            Entry::Restored { .. } => 14,
            Entry::Asked { .. } => 15,
        }
    }
}
