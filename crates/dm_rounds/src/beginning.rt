ghost use Rattle.std.specs.Prelude.{◌≡◌, ◌≤◌, ◌<◌, ℕ, List, None, length, slice_index_or, IfOk, IfErr, OnOk};
ghost use Rattle.dm_types.specs.declared.item.Key.{Key as AKey};
ghost use Rattle.dm_edge.specs.Fair.{key_of};
ghost use Rattle.dm_edge.specs.Wire.{Closed};
ghost use Rattle.dm_edge.specs.declared.wanted.Wanted.TheVariants as wants;
ghost use Rattle.dm_item.specs.Fields.{no_bytes};
ghost use Rattle.dm_request.specs.Fault.{IsRead};
ghost use Rattle.dm_reply.specs.Content.{IsPlainHead};
ghost use Rattle.dm_ask.specs.Redirects.{purpose_of};
ghost use Rattle.dm_store.specs.Origin.{said_of};
ghost use Rattle.dm_answers.specs.Broke.{IsMet};
ghost use Rattle.dm_answers.specs.Describe.{IsTelling};
ghost use Rattle.dm_answers.specs.declared.answer.SlicePass.{SlicePass as ASlice};
ghost use Rattle.dm_attempt.specs.Ending.{IfBroke, IsOfDesk};
ghost use Rattle.dm_attempt.specs.Live.{LiveDesk};
ghost use Rattle.dm_attempt.specs.Scene.{Scene, begun_by};
ghost use Rattle.dm_attempt.specs.Trace.{untold};
ghost use Rattle.dm_rounds.specs.Beginning.{BeginLeaves, TellLeaves};
ghost use Rattle.dm_rounds.specs.Telling.{IsToldOf};

use crate::Reply;
use crate::telling::told_of;
use dm_answers::{SlicePasses, Told};
use dm_attempt::{Desk, Stop, describe, plan_round};
use dm_store::Pass;
use dm_types::NoMemory;
use std::alloc::Global;

/// What the first reply tells, which may be told to the desk.
fn told_by<W>(alloc: Global, pass: &Pass, wish: &[u8], reply: &Reply<W>) -> Result<Told, NoMemory>
    requires plain { IsPlainHead wants.Whole reply.now.head }
    requires key { reply.now.key ≡ key_of (purpose_of pass.now.id pass.now.attempt reply.now.address) reply.now.head.strong }
    requires read { IsRead reply.now.address.text reply.now.address }
    ensures is { IfOk result (IsToldOf wish.now reply.now.head reply.now.address reply.now.key) }
    ensures telling { IfOk result (IsTelling pass.now) }
{
    match told_of(alloc, wish, &reply.head, &reply.address, &reply.key) {
        Ok(told) => Ok(told),
        Err(NoMemory) => Err(NoMemory),
    }
}

/// Tells the desk what the first reply tells.
fn tell<S: Desk, W>(
    alloc: Global,
    desk: &mut S,
    pass: &Pass,
    wish: &[u8],
    reply: &Reply<W>,
) -> Result<(), Stop>
    requires plain { IsPlainHead wants.Whole reply.now.head }
    requires key { reply.now.key ≡ key_of (purpose_of pass.now.id pass.now.attempt reply.now.address) reply.now.head.strong }
    requires read { IsRead reply.now.address.text reply.now.address }
    ensures goes { (scene : Scene S.D S.O) (led lost : List Closed) (count : ℕ)
        → LiveDesk S.D.tells S.D.history (λ o. said_of (S.O.says o)) S.D.far S.D.faults scene pass.now (S.view desk.old) (untold led lost count)
        → (begun_by scene).key ≡ None
        → TellLeaves S.D.tells S.D.history (λ o. said_of (S.O.says o)) S.D.far S.D.faults scene pass.now (S.view desk.old) (S.view desk.new) led lost count wish.now reply.now.head reply.now.address reply.now.key result }
    ensures bare { OnOk result ((scene : Scene S.D S.O) (led lost : List Closed) (count : ℕ)
        → LiveDesk S.D.tells S.D.history (λ o. said_of (S.O.says o)) S.D.far S.D.faults scene pass.now (S.view desk.old) (untold led lost count)
        → (begun_by scene).key ≡ None → (begun_by scene).slices ≡ no_bytes) }
    ensures met { IfErr result (λ stop. IfBroke stop IsMet) }
{
    let told = match told_by(alloc, pass, wish, reply) {
        Ok(told) => told,
        Err(NoMemory) => return Err(Stop::NoMemory),
    };
    match describe(desk, pass, told) {
        Ok(()) => Ok(()),
        Err(stop) => Err(stop),
    }
}

/// Tells the desk what the first reply tells, and plans the first round of so many parts.
pub fn begin_round<S: Desk, W>(
    alloc: Global,
    desk: &mut S,
    pass: &Pass,
    wish: &[u8],
    reply: &Reply<W>,
    count: u32,
) -> Result<SlicePasses, Stop>
    requires plain { IsPlainHead wants.Whole reply.now.head }
    requires key { reply.now.key ≡ key_of (purpose_of pass.now.id pass.now.attempt reply.now.address) reply.now.head.strong }
    requires read { IsRead reply.now.address.text reply.now.address }
    requires some { 1 ≤ count }
    requires few { count ≤ 16 }
    ensures goes { (scene : Scene S.D S.O) (led lost : List Closed)
        → LiveDesk S.D.tells S.D.history (λ o. said_of (S.O.says o)) S.D.far S.D.faults scene pass.now (S.view desk.old) (untold led lost count)
        → (begun_by scene).key ≡ None
        → BeginLeaves S.D.tells S.D.history (λ o. said_of (S.O.says o)) S.D.far S.D.faults scene pass.now (S.view desk.old) (S.view desk.new) led lost count wish.now reply.now.head reply.now.address reply.now.key result }
    ensures bare { OnOk result ((scene : Scene S.D S.O) (led lost : List Closed)
        → LiveDesk S.D.tells S.D.history (λ o. said_of (S.O.says o)) S.D.far S.D.faults scene pass.now (S.view desk.old) (untold led lost count)
        → (begun_by scene).key ≡ None → (begun_by scene).slices ≡ no_bytes) }
    ensures few { IfOk result (λ passes. length passes ≤ count) }
    ensures ordered { IfOk result (λ passes. (k : ℕ) (d : ASlice) → k < length passes → (slice_index_or passes k d).first < (slice_index_or passes k d).end) }
    ensures met { IfErr result (λ stop. IfBroke stop IsMet) }
{
    match tell(alloc, desk, pass, wish, reply) {
        Ok(()) => match plan_round(desk, pass, count) {
            Ok(passes) => Ok(passes),
            Err(stop) => Err(stop),
        },
        Err(stop) => Err(stop),
    }
}
