ghost use Rattle.std.specs.Prelude.{Bool};
ghost use Rattle.dm_store.specs.Origin.{said_of};
ghost use Rattle.dm_answers.specs.Broke.{IsMet};
ghost use Rattle.dm_attempt.specs.Ending.{EndsBy, StopHolds, IfBroke};
ghost use Rattle.dm_attempt.specs.Live.{LiveDesk, NothingUnsaved};
ghost use Rattle.dm_attempt.specs.Scene.{Scene};
ghost use Rattle.dm_attempt.specs.Stops.{Refused};
ghost use Rattle.dm_attempt.specs.Trace.{Trace};
ghost use Rattle.dm_attempt.specs.declared.stop.Stop.TheVariants as stops;

use crate::landing::save;
use crate::{Desk, Ended, Stop};
use dm_answers::DeskFault;
use dm_policy::{Cause, reason_of};
use dm_store::Pass;

/// Records that memory was wanting.
fn wanting<S: Desk>(desk: &mut S, pass: &Pass) -> Ended
    ensures goes { (scene : Scene S.D S.O) (trace : Trace) (came : Bool)
        → LiveDesk S.D.tells S.D.history (λ o. said_of (S.O.says o)) S.D.far S.D.faults scene pass.now (S.view desk.old) trace
        → EndsBy came S.D.tells S.D.history (λ o. said_of (S.O.says o)) S.D.far S.D.faults scene pass.now (S.view desk.new) trace stops.NoMemory result }
{
    match desk.broke(pass, &Cause::Memory) {
        Ok(()) => Ended::Fault(DeskFault::NoMemory),
        Err(fault) => Ended::Fault(fault),
    }
}

/// Records the cause.
fn interrupt<S: Desk>(desk: &mut S, pass: &Pass, cause: &Cause) -> Ended
    requires met { IsMet cause.now }
    requires none { NothingUnsaved (S.view desk.old) pass.now }
    ensures goes { (scene : Scene S.D S.O) (trace : Trace) (came : Bool)
        → LiveDesk S.D.tells S.D.history (λ o. said_of (S.O.says o)) S.D.far S.D.faults scene pass.now (S.view desk.old) trace
        → EndsBy came S.D.tells S.D.history (λ o. said_of (S.O.says o)) S.D.far S.D.faults scene pass.now (S.view desk.new) trace (stops.Broke cause.now) result }
{
    match desk.broke(pass, cause) {
        Ok(()) => Ended::Stopped(reason_of(cause)),
        Err(fault) => Ended::Fault(fault),
    }
}

/// Ends an attempt whose save was refused.
fn end_refused<S: Desk>(desk: &mut S, pass: &Pass, stop: Stop) -> Ended
    ensures goes { (scene : Scene S.D S.O) (trace : Trace) (came : Bool)
        → Refused S.D.tells S.D.history (λ o. said_of (S.O.says o)) S.D.far S.D.faults scene pass.now (S.view desk.old) trace stop
        → EndsBy came S.D.tells S.D.history (λ o. said_of (S.O.says o)) S.D.far S.D.faults scene pass.now (S.view desk.new) trace stop result }
{
    match stop {
        Stop::NoMemory => wanting(desk, pass),
        Stop::Fault(fault) => Ended::Fault(fault),
        Stop::Recorded(reason) => Ended::Stopped(reason),
        Stop::Broke(cause) => Ended::Stopped(reason_of(&cause)),
    }
}

/// Saves what was landed, and records the cause.
fn end_by<S: Desk>(desk: &mut S, pass: &Pass, cause: &Cause) -> Ended
    requires met { IsMet cause.now }
    ensures goes { (scene : Scene S.D S.O) (trace : Trace) (came : Bool)
        → LiveDesk S.D.tells S.D.history (λ o. said_of (S.O.says o)) S.D.far S.D.faults scene pass.now (S.view desk.old) trace
        → EndsBy came S.D.tells S.D.history (λ o. said_of (S.O.says o)) S.D.far S.D.faults scene pass.now (S.view desk.new) trace (stops.Broke cause.now) result }
{
    match save(desk, pass) {
        Ok(()) => interrupt(desk, pass, cause),
        Err(stop) => end_refused(desk, pass, stop),
    }
}

/// Ends an attempt that stopped. What was landed is saved before a cause is recorded, unless memory was wanting.
pub fn end<S: Desk>(desk: &mut S, pass: &Pass, stop: Stop) -> Ended
    requires met { IfBroke stop IsMet }
    ensures goes { (scene : Scene S.D S.O) (trace : Trace) (came : Bool)
        → StopHolds came S.D.tells S.D.history (λ o. said_of (S.O.says o)) S.D.far S.D.faults scene pass.now (S.view desk.old) trace stop
        → EndsBy came S.D.tells S.D.history (λ o. said_of (S.O.says o)) S.D.far S.D.faults scene pass.now (S.view desk.new) trace stop result }
{
    match stop {
        Stop::Broke(cause) => end_by(desk, pass, &cause),
        Stop::NoMemory => wanting(desk, pass),
        Stop::Fault(fault) => Ended::Fault(fault),
        Stop::Recorded(reason) => Ended::Stopped(reason),
    }
}
