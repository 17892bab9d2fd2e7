ghost use Rattle.std.specs.Prelude.{◌≡◌, ◌≤◌, [], vec_capacity, IsSome, IfErr};
ghost use Rattle.dm_types.specs.Faults.{NoneFell};
ghost use Rattle.dm_store.specs.Origin.{said_of};
ghost use Rattle.dm_answers.specs.Broke.{IsMet};
ghost use Rattle.dm_attempt.specs.Asking.{Asking};
ghost use Rattle.dm_attempt.specs.Ending.{IfBroke};
ghost use Rattle.dm_attempt.specs.Live.{LiveDesk};
ghost use Rattle.dm_attempt.specs.Scene.{Scene, told_by};
ghost use Rattle.dm_attempt.specs.Trace.{Trace};
ghost use Rattle.dm_rounds.specs.Reading.{IsKeyed, closed_before};
ghost use Rattle.dm_rounds.specs.Rounding.{AsksAll, OpenLeaves};

use crate::Lane;
use crate::opening::open_parts;
use dm_attempt::{Desk, Source, Stop, plan_round};
use dm_edge::{Net, Wire};
use dm_store::Pass;
use std::alloc::Global;

/// Plans the next round and asks for its parts. Where that fails no wire is open.
pub fn open_round<S: Desk, N: Net<O = S::O>>(
    alloc: Global,
    desk: &mut S,
    net: &mut N,
    source: &Source,
    pass: &Pass,
    n: u32,
    lanes: &mut Vec<Lane<N::W>>,
) -> Result<(), Stop>
    requires some { 1 ≤ n }
    requires few { n ≤ 16 }
    requires none { lanes.old.items ≡ [] }
    requires room { 16 ≤ vec_capacity lanes.old }
    ensures goes { (scene : Scene S.D S.O) (trace : Trace) (asking : Asking)
        → LiveDesk S.D.tells S.D.history (λ o. said_of (S.O.says o)) S.D.far S.D.faults scene pass.now (S.view desk.old) trace
        → IsSome (told_by scene trace.told).key → trace.count ≡ n → AsksAll asking source.now pass.now → IsKeyed pass.now asking (told_by scene trace.told)
        → (N.tells → N.closed net.old ≡ closed_before scene trace) → N.origin_of net.old ≡ scene.start.origin
        → OpenLeaves S.D.tells S.D.history (λ o. said_of (S.O.says o)) S.D.far S.D.faults N.tells N.W.tells N.W.purpose N.W.told N.W.origin scene pass.now (S.view desk.new) (N.closed net.new)
        (N.faults net.old) (N.faults net.new) trace asking source.now lanes.new.items result }
    ensures none { IfErr result (λ stop. lanes.new.items ≡ []) }
    ensures met { IfErr result (λ stop. IfBroke stop IsMet) }
    ensures capacity { vec_capacity lanes.new ≡ vec_capacity lanes.old }
    ensures stays { N.origin_of net.new ≡ N.origin_of net.old }
    ensures later { NoneFell (N.faults net.old) (N.faults net.new) }
{
    let passes = match plan_round(desk, pass, n) {
        Ok(passes) => passes,
        Err(stop) => return Err(stop),
    };
    match open_parts(alloc, net, source, pass, passes.items(), lanes) {
        Ok(()) => Ok(()),
        Err(stop) => Err(stop),
    }
}
