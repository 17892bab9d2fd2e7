//! A list that is opened, or can't be.
ghost use Rattle.std.specs.Prelude.{◌≡◌};
ghost use Rattle.dm_answers.specs.Opening.{disk_in};
ghost use Rattle.dm_list.specs.Running.{SaysRefusal};

use dm_answers::OpenFault;
use dm_report::{Ending, Verdict};
use dm_types::Text;
use std::alloc::Global;

/// A run that is over but for what it prints.
#[derive(Debug, Drop)]
pub struct Over<D> {
    pub ending: Ending,
    pub disk: D,
}

/// How a command ends whose list can't be opened.
pub fn refuse<D>(alloc: Global, fault: OpenFault<D>) -> Over<D>
    ensures disk { result.disk ≡ disk_in fault }
    ensures says { SaysRefusal fault result.ending }
{
    match fault {
        OpenFault::Disk(kind, disk) => Over {
            ending: Ending::fixed(alloc, Verdict::DiskFailed(kind)),
            disk,
        },
        OpenFault::Damaged(place, disk) => Over {
            ending: Ending::new(alloc, Verdict::Damaged(place), Text::new(alloc)),
            disk,
        },
        OpenFault::NoMemory(disk) => Over {
            ending: Ending::fixed(alloc, Verdict::NoMemory),
            disk,
        },
    }
}
