ghost use Rattle.std.specs.Prelude.{◌≡◌};
ghost use Rattle.dm_types.specs.Faults.{NoneFell, Rose};
ghost use Rattle.dm_disk_model.specs.Counts.{one_more, count_of, no_faults, counted};

use crate::DiskFault;
use dm_types::DiskKind;

/// How often the calls of a disk failed, by kind. A count never falls, and stays at `u64::MAX`.
#[derive(Clone, Copy, Debug, PartialEq, Eq)]
pub struct KindCounts {
    pub failed: u64,
    pub denied: u64,
    pub no_space: u64,
    pub name_too_long: u64,
}

impl KindCounts {
    /// Nothing has failed.
    pub fn new() -> KindCounts
        ensures { result ≡ no_faults }
    {
        KindCounts {
            failed: 0,
            denied: 0,
            no_space: 0,
            name_too_long: 0,
        }
    }

    /// Counts a failed call.
    pub fn fail(&mut self, kind: DiskKind) -> DiskFault
        ensures fault { result ≡ record { 0 = kind } }
        ensures counts { self.new ≡ counted kind self.old }
        ensures later { NoneFell (count_of self.old) (count_of self.new) }
        ensures cause { Rose (count_of self.old kind) (count_of self.new kind) }
    {
        match kind {
            DiskKind::Failed => self.failed = one_more(self.failed),
            DiskKind::Denied => self.denied = one_more(self.denied),
            DiskKind::NoSpace => self.no_space = one_more(self.no_space),
            DiskKind::NameTooLong => self.name_too_long = one_more(self.name_too_long),
        }
        DiskFault(kind)
    }
}

/// A count after one more. At its last value it stays.
pub fn one_more(count: u64) -> u64
    ensures is { result ≡ one_more count }
    ensures rose { Rose count result }
{
    count.saturating_add(1)
}
