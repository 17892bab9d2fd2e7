ghost use Rattle.std.specs.Prelude.{◌≡◌};
ghost use Rattle.dm_archive.specs.Faults as kinds;

use dm_answers::DeskFault;
use std::error::Error;
use std::fmt;

/// How a call on the list and on the history failed.
#[derive(Clone, Copy, Debug, PartialEq, Eq)]
pub enum ArchiveFault {
    /// A call on the history failed.
    Keeper,
    /// The list refused it. Where items are moved it was broken, or its journal failed.
    Desk(DeskFault),
    /// There was no memory for it.
    NoMemory,
}

impl fmt::Display for ArchiveFault {
    fn fmt<W: fmt::Write>(&self, f: &mut fmt::Formatter<W>) -> fmt::Result {
        match self {
            ArchiveFault::Keeper => f.write_str("the history failed"),
            ArchiveFault::Desk(fault) => fault.fmt(f),
            ArchiveFault::NoMemory => f.write_str("no memory"),
        }
    }
}

impl Error for ArchiveFault {}

/// What a refusal of the list is.
pub(crate) fn desk_fault(fault: DeskFault) -> ArchiveFault
    ensures { result ≡ kinds.desk_fault fault }
{
    match fault {
        DeskFault::NoMemory => ArchiveFault::NoMemory,
        _ => ArchiveFault::Desk(fault),
    }
}
