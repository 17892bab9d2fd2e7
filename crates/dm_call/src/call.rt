//! What requests ask, and why they are refused.
use dm_types::{Address, ItemId, NoMemory, Text};

/// What a path names.
#[derive(Clone, Copy, Debug, PartialEq, Eq)]
pub enum Target {
    Items,
    Item(ItemId),
    Pause(ItemId),
    Resume(ItemId),
    Cancel(ItemId),
    Archive,
    History,
    Report,
    Stop,
}

/// Which part of a list is shown: so many, from the first id above `after` on.
#[derive(Clone, Copy, Debug, PartialEq, Eq)]
pub struct Window {
    pub after: u32,
    /// 1 to 100.
    pub limit: u32,
}

/// An item that is to be added under a word.
#[derive(Debug, Drop)]
pub struct Named {
    /// 1 to 64 letters, digits, dots, underscores and hyphens.
    pub word: Text,
    pub address: Address,
    /// What its file is to be named, of at most 255 bytes, or empty.
    pub name: Text,
    /// The SHA-256 that the content is to have, where it is told.
    pub digest: Option<[u8; 32]>,
}

/// What a request asks.
#[derive(Debug, Drop)]
pub enum Call {
    /// Items of the list, by rising id.
    Page(Window),
    Add(Named),
    Show(ItemId),
    Remove(ItemId),
    Pause(ItemId),
    Resume(ItemId),
    Cancel(ItemId),
    Archive,
    /// Rows of the history, by rising id.
    History(Window),
    /// How many items are in each state, as text.
    Report,
    Stop,
}

/// Why a request asks nothing. The first of these that holds is told.
#[derive(Clone, Copy, Debug, PartialEq, Eq)]
pub enum Refusal {
    /// No route has the path, or its id isn't a number.
    Path,
    /// What the path names hasn't this method.
    Method(Target),
    /// The query of a list isn't one.
    Query,
    /// The content isn't an object of texts with the keys `url` and `word`, and with no others than
    /// `name` and `sha256`.
    Json,
    /// The value of this key breaks its rule.
    Word,
    Url,
    Name,
    Sha256,
}

/// Why no call was read of a request.
#[derive(Clone, Copy, Debug, PartialEq, Eq)]
pub enum CallFault {
    Refused(Refusal),
    NoMemory,
}

impl From<NoMemory> for CallFault {
    ghost use Rattle.std.specs.Prelude.{◌≡◌};
    ghost use Rattle.dm_call.specs.declared.call.CallFault.TheVariants as faults;

    ghost from_gives = { λ _ fault. fault ≡ faults.NoMemory };

    fn from(_: NoMemory) -> CallFault {
        CallFault::NoMemory
    }
}
