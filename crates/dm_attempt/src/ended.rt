ghost use Rattle.std.specs.Prelude.{◌≡◌, ℕ};
ghost use Rattle.std.specs.Option.{option_map};
ghost use Rattle.dm_attempt.specs.Ending.{journal_kind_of};

use dm_answers::DeskFault;
use dm_types::{DiskKind, Reason};

/// How an attempt ended.
#[derive(Clone, Copy, Debug, PartialEq, Eq)]
pub enum Ended {
    /// The file has its name.
    Complete,
    /// The item was interrupted, for this reason.
    Stopped(Reason),
    /// The desk, or the memory, took no more.
    Fault(DeskFault),
}

impl Ended {
    /// The kind of the fault of the journal that ended it.
    pub fn journal_kind(&self) -> Option<DiskKind>
        ensures { result ≡ journal_kind_of self.now }
    {
        match self {
            Ended::Fault(DeskFault::Journal(kind)) => Some(*kind),
            _ => None,
        }
    }
}
