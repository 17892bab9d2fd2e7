ghost use Rattle.std.specs.Prelude.{◌≡◌};
ghost use Rattle.dm_disk.specs.Failing.{listed_kind};

use dm_types::{DiskKind, Listed};

/// A call of a disk in memory that is to fail.
#[derive(Clone, Copy, Debug, PartialEq, Eq)]
pub struct FailingCall {
    /// Its number: the disk's calls are numbered from 0 in the order in which they are made.
    pub call: u64,
    pub kind: DiskKind,
}

/// The calls that are to fail. Of two for one call the first counts.
pub type FailList = Listed<FailingCall>;

/// How the call with this number is to fail, where it is listed.
pub(crate) fn listed_kind(failing: &[FailingCall], call: u64) -> Option<DiskKind>
    ensures { result ≡ listed_kind call failing.now }
{
    for listed in failing {
        if listed.call == call {
            return Some(listed.kind);
        }
    }
    None
}
