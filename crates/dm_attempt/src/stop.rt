ghost use Rattle.std.specs.Prelude.{◌≡◌};
ghost use Rattle.dm_answers.specs.Broke.{IsMet};
ghost use Rattle.dm_attempt.specs.Ending.{IfBroke, IsOfDesk};
ghost use Rattle.dm_attempt.specs.Stops.{stop_by};

use dm_answers::DeskFault;
use dm_policy::Cause;
use dm_store::Pass;
use dm_types::Reason;

/// An attempt that runs, and the number of its live round.
#[derive(Clone, Copy, Debug, PartialEq, Eq)]
pub struct Going {
    pub pass: Pass,
    pub round: u32,
}

/// Why an attempt goes no further.
#[derive(Clone, Copy, Debug, PartialEq, Eq)]
pub enum Stop {
    /// It met a cause, which is to be recorded.
    Broke(Cause),
    /// Memory was wanting, which is to be recorded.
    NoMemory,
    /// A call on the files or the journal failed. The desk has ended the attempt.
    Fault(DeskFault),
    /// The desk has ended the attempt, for this reason.
    Recorded(Reason),
}

/// How an attempt stops where the desk refuses.
pub fn stop_of(fault: DeskFault) -> Stop
    ensures is { result ≡ stop_by fault }
    ensures met { IfBroke result IsMet }
    ensures apart { IsOfDesk result }
{
    match fault {
        DeskFault::NoMemory => Stop::NoMemory,
        other => Stop::Fault(other),
    }
}
