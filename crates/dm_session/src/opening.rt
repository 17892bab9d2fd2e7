//! A list that can't be opened.
ghost use Rattle.std.specs.Prelude.{◌≡◌};
ghost use Rattle.dm_answers.specs.Opening.{disk_in};
ghost use Rattle.dm_session.specs.Refusing.{SaysRefusal};

use crate::session::Session;
use dm_answers::OpenFault;
use dm_report::{Ending, Verdict};
use dm_types::Text;
use std::alloc::Global;

/// How a session ends whose list can't be opened.
pub(crate) fn refuse<D>(alloc: Global, fault: OpenFault<D>) -> Session<D>
    ensures disk { result.disk ≡ disk_in fault }
    ensures says { SaysRefusal fault result.ending }
{
    match fault {
        OpenFault::Disk(kind, disk) => Session {
            ending: Ending::fixed(alloc, Verdict::DiskFailed(kind)),
            disk,
        },
        OpenFault::Damaged(place, disk) => Session {
            ending: Ending::new(alloc, Verdict::Damaged(place), Text::new(alloc)),
            disk,
        },
        OpenFault::NoMemory(disk) => Session {
            ending: Ending::fixed(alloc, Verdict::NoMemory),
            disk,
        },
    }
}
