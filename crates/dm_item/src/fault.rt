use dm_types::{ItemId, Phase};
use std::error::Error;
use std::fmt;

/// Why the list doesn't take an entry. The first that applies is answered, in this order.
#[derive(Clone, Copy, Debug, PartialEq, Eq)]
pub enum ApplyFault {
    /// No item has the id that the entry names.
    NoItem(ItemId),
    /// The entry may not come in the item's phase.
    WrongPhase(Phase),
    /// The list is full, or the ids are used up. It holds how many items there are.
    Full(u32),
    /// The entry's further condition fails. It holds the number of the entry's kind.
    Unlawful(u8),
    NoMemory,
}

impl fmt::Display for ApplyFault {
    fn fmt<W: fmt::Write>(&self, f: &mut fmt::Formatter<W>) -> fmt::Result {
        f.write_str(match self {
            ApplyFault::NoItem(_) => "no such item",
            ApplyFault::WrongPhase(_) => "not in this state",
            ApplyFault::Full(_) => "the list is full",
            ApplyFault::Unlawful(_) => "the entry is not lawful",
            ApplyFault::NoMemory => "no memory",
        })
    }
}

impl Error for ApplyFault {}
