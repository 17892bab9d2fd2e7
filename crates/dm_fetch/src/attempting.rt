ghost use Rattle.std.specs.Prelude.{◌≡◌, ◌<◌, ◌≤◌, ℕ, [], vec_len, vec_capacity, IfOk, IfErr};
ghost use Rattle.dm_types.specs.Faults.{NoneFell};
ghost use Rattle.dm_edge.specs.declared.fault.NetFault.{NetFault as Fault};
ghost use Rattle.dm_store.specs.Origin.{said_of};
ghost use Rattle.dm_answers.specs.Broke.{IsMet};
ghost use Rattle.dm_attempt.specs.Ending.{IfBroke};
ghost use Rattle.dm_attempt.specs.Scene.{Scene};
ghost use Rattle.dm_fetch.specs.Attempts.{Attempts, TriedBy};
ghost use Rattle.dm_fetch.specs.Completes.{CompletesOr, IsSmooth};
ghost use Rattle.dm_fetch.specs.Drive.{DriveLeaves};

use crate::driving::{drive_fresh, drive_kept};
use crate::starting::{Started, start};
use dm_answers::DeskFault;
use dm_attempt::{Desk, Ended, Stop, end};
use dm_edge::{Net, Wire};
use dm_rounds::Tools;
use dm_store::Pass;
use dm_types::{By, ItemId, NoMemory};
use std::alloc::Global;

/// How many bytes are read at once: those of a piece, and at least one.
fn room_of(piece: u64) -> usize
    ensures some { 0 < result }
    ensures most { 1 ≤ piece → result ≤ piece }
{
    if piece == 0 { 1 } else { piece as usize }
}

/// The answer of an attempt that brought all, and is over, or that stopped. The net is the one that it asked over.
fn end_as<S: Desk, N: Net<O = S::O>>(
    desk: &mut S,
    _net: &N,
    pass: &Pass,
    came: Result<(), Stop>,
) -> Ended
    requires met { IfErr came (λ stop. IfBroke stop IsMet) }
    ensures { (scene : Scene S.D S.O) (before : Fault → ℕ) (slices : ℕ)
        → DriveLeaves S.D.tells S.D.history (λ o. said_of (S.O.says o)) S.D.far S.D.faults N.tells scene pass.now (S.view desk.old) (N.closed _net.now) before (N.faults _net.now) slices came
        → TriedBy S.D.tells S.D.history (λ o. said_of (S.O.says o)) S.D.far S.D.faults N.tells scene pass.now (S.view desk.new) (N.closed _net.now) before (N.faults _net.now) slices result }
{
    match came {
        Ok(()) => Ended::Complete,
        Err(stop) => end(desk, pass, stop),
    }
}

/// One attempt, with what it takes at hand.
fn attempt_with<S: Desk, N: Net<O = S::O>>(
    alloc: Global,
    desk: &mut S,
    net: &mut N,
    id: ItemId,
    by: By,
    slices: u32,
    at: u64,
    tools: &mut Tools<N::W>,
    turns: &[u8],
) -> Ended
    requires some { 1 ≤ slices }
    requires few { slices ≤ 16 }
    requires origin { N.origin_of net.old ≡ (S.view desk.old).origin }
    requires none { tools.old.lanes.items ≡ [] }
    requires place { 16 ≤ vec_capacity tools.old.lanes }
    requires room { 0 < vec_len tools.old.buffer }
    requires most { 1 ≤ (S.view desk.old).limits.piece → vec_len tools.old.buffer ≤ (S.view desk.old).limits.piece }
    ensures did { Attempts S.D.tells S.D.history (λ o. said_of (S.O.says o)) S.D.far S.D.faults N.tells (S.view desk.old) (S.view desk.new) (N.closed net.old) (N.closed net.new) (N.faults net.old) (N.faults net.new)
        id by slices at result }
    ensures none { tools.new.lanes.items ≡ [] }
    ensures stays { N.origin_of net.new ≡ N.origin_of net.old }
    ensures later { NoneFell (N.faults net.old) (N.faults net.new) }
{
    match start(desk, id, by, at) {
        Ok(Started::Fresh(pass)) => {
            let came = drive_fresh(alloc, desk, net, &pass, slices, at, tools, turns);
            end_as(desk, net, &pass, came)
        }
        Ok(Started::Continue(pass)) => {
            let came = drive_kept(alloc, desk, net, &pass, slices, at, tools, turns);
            end_as(desk, net, &pass, came)
        }
        Err(ended) => ended,
    }
}

/// Brings an item's content by one attempt: from its start, or from what was saved of it. `slices`, 1 to 16, is how many
/// parts are asked for at once, where the server gives ranges; `turns` says which open connection is read next, and they
/// go round where it is empty; `at` is in milliseconds since 1970. A cause that the attempt met interrupts the item.
/// Memory that is wanting is a fault, and so is what the desk refuses.
pub fn attempt<S: Desk, N: Net<O = S::O>>(
    alloc: Global,
    desk: &mut S,
    net: &mut N,
    id: ItemId,
    by: By,
    slices: u32,
    turns: &[u8],
    at: u64,
) -> Ended
    requires some { 1 ≤ slices }
    requires few { slices ≤ 16 }
    requires origin { N.origin_of net.old ≡ (S.view desk.old).origin }
    ensures did { Attempts S.D.tells S.D.history (λ o. said_of (S.O.says o)) S.D.far S.D.faults N.tells (S.view desk.old) (S.view desk.new) (N.closed net.old) (N.closed net.new) (N.faults net.old) (N.faults net.new)
        id by slices at result }
    ensures completes { IsSmooth S.D.tells S.D.history (λ o. said_of (S.O.says o)) S.D.faults N.tells (S.view desk.old) (S.view desk.new) (N.closed net.old) (N.closed net.new) (N.faults net.old) (N.faults net.new) id by at
        → CompletesOr result }
    ensures stays { N.origin_of net.new ≡ N.origin_of net.old }
    ensures later { NoneFell (N.faults net.old) (N.faults net.new) }
{
    let limits = desk.limits();
    let mut tools = match Tools::new(alloc, room_of(limits.piece)) {
        Ok(tools) => tools,
        Err(NoMemory) => return Ended::Fault(DeskFault::NoMemory),
    };
    let ended = attempt_with(alloc, desk, net, id, by, slices, at, &mut tools, turns);
    let _buffer = tools.let_go();
    ended
}
