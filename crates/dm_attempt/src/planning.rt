ghost use Rattle.std.specs.Prelude.{◌≡◌, ◌<◌, ◌≤◌, ℕ, length, slice_index_or, IsSome, IfErr, IfOk};
ghost use Rattle.dm_store.specs.Origin.{said_of};
ghost use Rattle.dm_answers.specs.Broke.{IsMet};
ghost use Rattle.dm_answers.specs.declared.answer.SlicePass.{SlicePass as ASlice};
ghost use Rattle.dm_attempt.specs.Ending.{IfBroke};
ghost use Rattle.dm_attempt.specs.Asking.{Asking};
ghost use Rattle.dm_attempt.specs.Live.{LiveDesk};
ghost use Rattle.dm_attempt.specs.Scene.{Scene, told_by};
ghost use Rattle.dm_attempt.specs.Ends.{PlanLeaves, plan_stop};
ghost use Rattle.dm_attempt.specs.Trace.{Trace};

use crate::stop::stop_of;
use crate::{Desk, Stop};
use dm_answers::{DeskFault, SlicePasses};
use dm_policy::Cause;
use dm_store::Pass;

/// How an attempt stops where no round can be planned: where the rounds are used up, the server has brought too little with each range.
fn no_plan(fault: DeskFault) -> Stop
    ensures is { result ≡ plan_stop fault }
    ensures met { IfBroke result IsMet }
{
    match fault {
        DeskFault::WrongState(_) => Stop::Broke(Cause::RangeRefused(206)),
        other => stop_of(other),
    }
}

/// Plans the next round of at most `n` parts.
pub fn plan_round<S: Desk>(desk: &mut S, pass: &Pass, n: u32) -> Result<SlicePasses, Stop>
    requires some { 1 ≤ n }
    requires few { n ≤ 16 }
    ensures goes { (scene : Scene S.D S.O) (trace : Trace) (asking : Asking)
        → LiveDesk S.D.tells S.D.history (λ o. said_of (S.O.says o)) S.D.far S.D.faults scene pass.now (S.view desk.old) trace
        → IsSome (told_by scene trace.told).key → trace.count ≡ n
        → PlanLeaves S.D.tells S.D.history (λ o. said_of (S.O.says o)) S.D.far S.D.faults scene pass.now (S.view desk.new) trace asking result }
    ensures few { IfOk result (λ passes. length passes ≤ n) }
    ensures ordered { IfOk result (λ passes. (k : ℕ) (d : ASlice) → k < length passes → (slice_index_or passes k d).first < (slice_index_or passes k d).end) }
    ensures met { IfErr result (λ stop. IfBroke stop IsMet) }
{
    match desk.plan(pass, n) {
        Ok(passes) => Ok(passes),
        Err(fault) => Err(no_plan(fault)),
    }
}
