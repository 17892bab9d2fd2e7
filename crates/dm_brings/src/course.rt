ghost use Rattle.std.specs.Prelude.{◌≡◌};
ghost use Rattle.dm_brings.specs.Bringing.{course_behind};

use dm_answers::DeskFault;
use dm_attempt::Ended;
use dm_does::{Course, Show};
use dm_report::Verdict;

/// How a command goes on behind an item that was brought, by how that ended: where the journal or a publication failed,
/// or memory was wanting, perhaps for an attempt that the item would have made by itself, that is told.
pub fn course_behind(ended: &Ended, course: Course) -> Course
    ensures { result ≡ course_behind ended.now course }
{
    match ended {
        Ended::Fault(DeskFault::Journal(kind)) => {
            Course::Ends(Verdict::DiskFailed(*kind), Show::Nothing)
        }
        Ended::Fault(DeskFault::NoMemory) => Course::Ends(Verdict::NoMemory, Show::Nothing),
        _ => course,
    }
}
