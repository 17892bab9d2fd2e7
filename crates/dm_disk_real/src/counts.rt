ghost use Rattle.std.specs.Prelude.{◌≡◌};
ghost use Rattle.std.specs.IoError.{error_kind};
ghost use Rattle.dm_types.specs.Faults.{HasCause, NoneFell, Rose};
ghost use Rattle.dm_disk_model.specs.Faults.{disk_kind};
ghost use Rattle.dm_disk_model.specs.Counts.{count_of};
ghost use Rattle.dm_disk_real.specs.Counts.{Answers, kind_of, none_failed};

use dm_disk_model::{DiskFault, KindCounts, one_more};
use dm_types::DiskKind;
use std::io;
use std::io::ErrorKind;

/// How often the calls of a disk failed. A count at 2^64 - 1 stays there.
#[derive(Clone, Copy, Debug, PartialEq, Eq)]
pub struct Counts {
    pub kinds: KindCounts,
    /// Writes that were refused since their range would have ended at 2^63 or above.
    pub far: u64,
}

impl Counts {
    pub(crate) fn new() -> Counts
        ensures { result ≡ none_failed }
    {
        Counts {
            kinds: KindCounts::new(),
            far: 0,
        }
    }

    /// What a call that the system answered comes to, where a failure is counted.
    pub(crate) fn answer<T: Drop>(&mut self, answer: io::Result<T>) -> Result<T, DiskFault>
        ensures answers { Answers answer self.old.kinds self.new.kinds result }
        ensures cause { HasCause disk_kind (count_of self.old.kinds) (count_of self.new.kinds) result }
        ensures far { self.new.far ≡ self.old.far }
    {
        match answer {
            Ok(value) => Ok(value),
            Err(e) => Err(self.kinds.fail(kind_of_error(&e))),
        }
    }

    /// Counts a write that was refused since its range would have ended too far.
    pub(crate) fn refuse_far(&mut self) -> DiskFault
        ensures fault { result ≡ record { 0 = DiskKind.NoSpace } }
        ensures rose { Rose self.old.far self.new.far }
        ensures later { NoneFell (count_of self.old.kinds) (count_of self.new.kinds) }
        ensures cause { Rose (count_of self.old.kinds result.0) (count_of self.new.kinds result.0) }
    {
        self.far = one_more(self.far);
        self.kinds.fail(DiskKind::NoSpace)
    }
}

/// The disk's kind of an error of the system. Those without one of their own have failed.
pub(crate) fn kind_of_error(error: &io::Error) -> DiskKind
    ensures { result ≡ kind_of (error_kind error.now) }
{
    match error.kind() {
        ErrorKind::StorageFull => DiskKind::NoSpace,
        ErrorKind::PermissionDenied => DiskKind::Denied,
        ErrorKind::InvalidFilename => DiskKind::NameTooLong,
        _ => DiskKind::Failed,
    }
}
