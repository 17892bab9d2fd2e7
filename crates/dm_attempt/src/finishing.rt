ghost use Rattle.std.specs.Prelude.{◌≡◌, IsSome, IfErr, IfSome};
ghost use Rattle.dm_store.specs.Origin.{said_of};
ghost use Rattle.dm_answers.specs.Broke.{IsMet};
ghost use Rattle.dm_attempt.specs.Ending.{IfBroke};
ghost use Rattle.dm_attempt.specs.Live.{LiveDesk};
ghost use Rattle.dm_attempt.specs.Scene.{Scene, told_by};
ghost use Rattle.dm_attempt.specs.Finishes.{FinishLeaves, finish_stop, finished_by};
ghost use Rattle.dm_attempt.specs.Trace.{Trace};

use crate::stop::stop_of;
use crate::{Desk, Stop};
use dm_answers::{DeskFault, Finished};
use dm_store::Pass;
use dm_types::Reason;

/// How an attempt stops that can't be finished, unless a place is left that hasn't come.
fn unless_hole(fault: DeskFault) -> Option<Stop>
    ensures is { result ≡ finish_stop fault }
    ensures met { IfSome result (λ stop. IfBroke stop IsMet) }
{
    match fault {
        DeskFault::NotNext(_) => None,
        other => Some(stop_of(other)),
    }
}

/// How an attempt ended that was finished, or that the desk interrupted in its place.
fn finished_as(finished: Finished) -> Result<bool, Stop>
    ensures is { result ≡ finished_by finished }
    ensures met { IfErr result (λ stop. IfBroke stop IsMet) }
{
    match finished {
        Finished::Complete => Ok(true),
        Finished::Mismatch { .. } => Err(Stop::Recorded(Reason::FileHashMismatch)),
        Finished::Short { .. } => Err(Stop::Recorded(Reason::FileTooShort)),
    }
}

/// Ends an attempt that has brought all, and says so; else a place is left that hasn't come, and nothing changed.
pub fn finish<S: Desk>(desk: &mut S, pass: &Pass, at: u64) -> Result<bool, Stop>
    ensures goes { (scene : Scene S.D S.O) (trace : Trace)
        → LiveDesk S.D.tells S.D.history (λ o. said_of (S.O.says o)) S.D.far S.D.faults scene pass.now (S.view desk.old) trace
        → IsSome (told_by scene trace.told).key → at ≡ scene.at
        → FinishLeaves S.D.tells S.D.history (λ o. said_of (S.O.says o)) S.D.far S.D.faults scene pass.now (S.view desk.old) (S.view desk.new) trace result }
    ensures met { IfErr result (λ stop. IfBroke stop IsMet) }
{
    match desk.finish(pass, at) {
        Ok(finished) => finished_as(finished),
        Err(fault) => match unless_hole(fault) {
            Some(stop) => Err(stop),
            None => Ok(false),
        },
    }
}
