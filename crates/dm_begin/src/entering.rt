ghost use Rattle.std.specs.Prelude.{◌≡◌};
ghost use Rattle.dm_begin.specs.Pair.{began_of};

use dm_types::{Attempt, By, Entry, ItemId};

/// An attempt that begins.
#[derive(Clone, Copy)]
pub(crate) struct Begins {
    pub(crate) id: ItemId,
    pub(crate) attempt: Attempt,
    pub(crate) by: By,
    /// The moment, in milliseconds since 1970.
    pub(crate) at: u64,
}

/// Its entry.
pub(crate) fn began_entry(what: Begins) -> Entry
    ensures { result ≡ began_of what }
{
    Entry::Began {
        id: what.id,
        attempt: what.attempt,
        by: what.by,
        at: what.at,
    }
}
