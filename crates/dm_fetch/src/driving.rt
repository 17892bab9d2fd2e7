ghost use Rattle.std.specs.Prelude.{◌≡◌, ◌<◌, ◌≤◌, [], None, vec_len, vec_capacity, IfErr};
ghost use Rattle.dm_types.specs.Faults.{NoneFell};
ghost use Rattle.dm_store.specs.Origin.{said_of};
ghost use Rattle.dm_answers.specs.Broke.{IsMet};
ghost use Rattle.dm_attempt.specs.Ending.{IfBroke};
ghost use Rattle.dm_attempt.specs.Scene.{Scene, begun_by};
ghost use Rattle.dm_fetch.specs.Drive.{DriveLeaves, HasBegun, MayAsk, MayGo};
ghost use Rattle.dm_fetch.specs.Starts.{IsKept};

use crate::keeping::{first_asked, kept_source};
use dm_attempt::{Desk, Stop};
use dm_edge::{Net, Wire};
use dm_rounds::{Tools, run_fresh, run_kept};
use dm_store::Pass;
use std::alloc::Global;

/// Brings a content from its start, and ends the attempt where all came.
pub fn drive_fresh<S: Desk, N: Net<O = S::O>>(
    alloc: Global,
    desk: &mut S,
    net: &mut N,
    pass: &Pass,
    slices: u32,
    at: u64,
    tools: &mut Tools<N::W>,
    turns: &[u8],
) -> Result<(), Stop>
    requires some { 1 ≤ slices }
    requires few { slices ≤ 16 }
    requires none { tools.old.lanes.items ≡ [] }
    requires place { 16 ≤ vec_capacity tools.old.lanes }
    requires room { 0 < vec_len tools.old.buffer }
    requires most { vec_len tools.old.buffer ≤ (S.view desk.old).limits.piece }
    requires may { MayAsk S.D.tells S.D.history (λ o. said_of (S.O.says o)) S.D.far S.D.faults N.tells pass.now (S.view desk.old) (N.closed net.old) (N.faults net.old) (N.origin_of net.old) at }
    ensures goes { (scene : Scene S.D S.O)
        → HasBegun S.D.tells S.D.history (λ o. said_of (S.O.says o)) S.D.far S.D.faults N.tells scene pass.now (S.view desk.old) (N.closed net.old) (N.faults net.old) (N.origin_of net.old) at
        → (begun_by scene).key ≡ None
        → DriveLeaves S.D.tells S.D.history (λ o. said_of (S.O.says o)) S.D.far S.D.faults N.tells scene pass.now (S.view desk.new) (N.closed net.new) (N.faults net.old) (N.faults net.new) slices result }
    ensures none { tools.new.lanes.items ≡ [] }
    ensures met { IfErr result (λ stop. IfBroke stop IsMet) }
    ensures stays { N.origin_of net.new ≡ N.origin_of net.old }
    ensures later { NoneFell (N.faults net.old) (N.faults net.new) }
{
    let asked = match first_asked(alloc, desk, pass.id) {
        Ok(asked) => asked,
        Err(stop) => return Err(stop),
    };
    run_fresh(
        alloc,
        desk,
        net,
        &asked.address,
        pass,
        asked.wish.bytes(),
        slices,
        at,
        tools,
        turns,
    )
}

/// Brings what is missing of a content, and ends the attempt where all came.
pub fn drive_kept<S: Desk, N: Net<O = S::O>>(
    alloc: Global,
    desk: &mut S,
    net: &mut N,
    pass: &Pass,
    slices: u32,
    at: u64,
    tools: &mut Tools<N::W>,
    turns: &[u8],
) -> Result<(), Stop>
    requires some { 1 ≤ slices }
    requires few { slices ≤ 16 }
    requires none { tools.old.lanes.items ≡ [] }
    requires place { 16 ≤ vec_capacity tools.old.lanes }
    requires room { 0 < vec_len tools.old.buffer }
    requires most { vec_len tools.old.buffer ≤ (S.view desk.old).limits.piece }
    requires may { MayGo S.D.tells S.D.history (λ o. said_of (S.O.says o)) S.D.far S.D.faults N.tells pass.now (S.view desk.old) (N.closed net.old) (N.faults net.old) (N.origin_of net.old) at }
    ensures goes { (scene : Scene S.D S.O)
        → HasBegun S.D.tells S.D.history (λ o. said_of (S.O.says o)) S.D.far S.D.faults N.tells scene pass.now (S.view desk.old) (N.closed net.old) (N.faults net.old) (N.origin_of net.old) at
        → IsKept (begun_by scene)
        → DriveLeaves S.D.tells S.D.history (λ o. said_of (S.O.says o)) S.D.far S.D.faults N.tells scene pass.now (S.view desk.new) (N.closed net.new) (N.faults net.old) (N.faults net.new) slices result }
    ensures none { tools.new.lanes.items ≡ [] }
    ensures met { IfErr result (λ stop. IfBroke stop IsMet) }
    ensures stays { N.origin_of net.new ≡ N.origin_of net.old }
    ensures later { NoneFell (N.faults net.old) (N.faults net.new) }
{
    let source = match kept_source(alloc, desk, pass.id) {
        Ok(source) => source,
        Err(stop) => return Err(stop),
    };
    run_kept(alloc, desk, net, &source, pass, slices, at, tools, turns)
}
