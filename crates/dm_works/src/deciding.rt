//! The course that a job takes by the answer of the desk's call.
ghost use Rattle.std.specs.Prelude.{◌≡◌, Ok};
ghost use Rattle.dm_report.specs.declared.verdict.Verdict.TheVariants.{Done};
ghost use Rattle.dm_does.specs.declared.course.Course.TheVariants.{Ends};
ghost use Rattle.dm_does.specs.declared.course.Show.TheVariants.{Line, Nothing};
ghost use Rattle.dm_works.specs.Courses.{course_by, course_by_order, course_of_refusal};

use dm_answers::{DeskFault, Taken};
use dm_does::{Course, Show};
use dm_report::Verdict;
use dm_types::ItemId;

/// The list is broken: it takes no change until it is opened anew.
#[derive(Clone, Copy, Debug, PartialEq, Eq)]
pub(crate) struct Broken;

fn ends(verdict: Verdict) -> Result<Course, Broken>
    ensures { result ≡ Ok (Ends verdict Nothing) }
{
    Ok(Course::Ends(verdict, Show::Nothing))
}

/// The course of a job that is refused so. Faults that no change of a list gives are told as want of memory.
pub(crate) fn refused(fault: DeskFault) -> Result<Course, Broken>
    ensures { result ≡ course_of_refusal fault }
{
    match fault {
        DeskFault::Broken => Err(Broken),
        DeskFault::NoItem(id) => ends(Verdict::NoItem(id)),
        DeskFault::WrongState(phase) => ends(Verdict::WrongState(phase)),
        DeskFault::ItemsFull(count) => ends(Verdict::ItemsFull(count)),
        DeskFault::WordTaken(id) => ends(Verdict::OtherWord(id)),
        DeskFault::Journal(kind) => ends(Verdict::DiskFailed(kind)),
        DeskFault::File(kind) => ends(Verdict::DiskFailed(kind)),
        DeskFault::Stale { .. } => ends(Verdict::NoMemory),
        DeskFault::NotNext(_) => ends(Verdict::NoMemory),
        DeskFault::PastEnd(_) => ends(Verdict::NoMemory),
        DeskFault::CheckpointDue(_) => ends(Verdict::NoMemory),
        DeskFault::NoMemory => ends(Verdict::NoMemory),
        DeskFault::Damaged(_) => ends(Verdict::NoMemory),
    }
}

/// The course by the answer to a change, where Ok leads on so.
pub(crate) fn by_change(course: Course, answer: Result<(), DeskFault>) -> Result<Course, Broken>
    ensures { result ≡ course_by course answer }
{
    match answer {
        Ok(()) => Ok(course),
        Err(fault) => refused(fault),
    }
}

/// The course by the answer to an order: the item that it is.
pub(crate) fn by_order(answer: Result<Taken, DeskFault>) -> Result<Course, Broken>
    ensures { result ≡ course_by_order answer }
{
    match answer {
        Ok(Taken::New(id)) => Ok(shows(id)),
        Ok(Taken::Same(id)) => Ok(shows(id)),
        Err(fault) => refused(fault),
    }
}

fn shows(id: ItemId) -> Course
    ensures { result ≡ Ends Done (Line id) }
{
    Course::Ends(Verdict::Done, Show::Line(id))
}
