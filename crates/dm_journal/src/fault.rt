ghost use Rattle.std.specs.Prelude.{◌≡◌};
ghost use Rattle.dm_journal.specs.declared.fault.TextFault.TheVariants as faults;

use dm_types::{DiskKind, NoMemory};

/// Why bytes could not be read as a journal.
#[derive(Clone, Copy, Debug, PartialEq, Eq)]
pub enum TextFault {
    /// They are no journal. The place is that of the first gate that is missing or whose cell isn't
    /// whole, or 0 for the header.
    Damaged(u64),
    NoMemory,
}

impl From<NoMemory> for TextFault {
    ghost from_gives = { λ _ fault. fault ≡ faults.NoMemory };

    fn from(_: NoMemory) -> TextFault {
        TextFault::NoMemory
    }
}

/// Why a journal could not be started or found.
#[derive(Clone, Copy, Debug, PartialEq, Eq)]
pub enum JournalFault {
    /// A call on the disk failed in this way.
    Disk(DiskKind),
    /// What stands as `journal` is no journal. The place, in bytes, is that of the first gate that is
    /// missing or whose cell isn't whole, or 0 for the header.
    Damaged(u64),
    NoMemory,
}
