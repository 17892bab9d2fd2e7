ghost use Rattle.std.specs.Prelude.{◌≡◌, ◌≤◌, ◌<◌, ℕ, List, [], ◌∷◌, ◌++◌, None, Some, length, vec_len, vec_capacity, slice_get, slice_index_or, IfErr};
ghost use Rattle.dm_types.specs.Faults.{NoneFell};
ghost use Rattle.dm_types.specs.declared.address.Address.{Address as AnAddress};
ghost use Rattle.dm_edge.specs.Wire.{Closed, closed_of};
ghost use Rattle.dm_item.specs.Fields.{no_bytes};
ghost use Rattle.dm_request.specs.Fault.{IsRead};
ghost use Rattle.dm_store.specs.Origin.{said_of};
ghost use Rattle.dm_store.specs.View.{View};
ghost use Rattle.dm_answers.specs.Broke.{IsMet};
ghost use Rattle.dm_answers.specs.declared.answer.SlicePass.{SlicePass as ASlice};
ghost use Rattle.dm_attempt.specs.Asking.{source_by};
ghost use Rattle.dm_attempt.specs.Ending.{IfBroke};
ghost use Rattle.dm_attempt.specs.Scene.{Scene, begun_by};
ghost use Rattle.dm_attempt.specs.Trace.{Tale, Trace};
ghost use Rattle.dm_rounds.specs.First.{FreshLeaves, IsFreshStart, MayBegin, first_asking};
ghost use Rattle.dm_rounds.specs.Serving.{IsAnswered, IsFirstOpen, IsServing, MayBring, MayServe, MayTake};
ghost use Rattle.dm_rounds.specs.Trail.{RunLeaves};

use crate::beginning::begin_round;
use crate::first::first_reply;
use crate::running::{first_of, read_one, run_rounds};
use crate::serving::{open_lane, open_others};
use crate::{Reply, Tools};
use dm_answers::SlicePass;
use dm_attempt::{Desk, Source, Stop, finish, parts_wanted};
use dm_edge::{Net, Wire};
use dm_store::Pass;
use dm_types::Address;
use std::alloc::Global;

/// Hands the first reply's wire back.
fn close_reply<N: Net>(net: &mut N, reply: Reply<N::W>)
    ensures closed { N.tells → N.closed net.new ≡ N.closed net.old ++ closed_of (N.W.purpose reply.wire) (N.W.told reply.wire) ∷ [] }
    ensures later { NoneFell (N.faults net.old) (N.faults net.new) }
    ensures stays { N.origin_of net.new ≡ N.origin_of net.old }
{
    let Reply {
        wire,
        reader: _,
        head: _,
        address: _,
        key: _,
    } = reply;
    net.close(wire);
}

/// Reads the one part that the first reply brings, and ends the attempt.
fn bring_alone<S: Desk, N: Net<O = S::O>>(
    desk: &mut S,
    net: &mut N,
    pass: &Pass,
    at: u64,
    tools: &mut Tools<N::W>,
    turns: &[u8],
) -> Result<(), Stop>
    requires room { 0 < vec_len tools.old.buffer }
    requires most { vec_len tools.old.buffer ≤ (S.view desk.old).limits.piece }
    requires may { (passes : List ASlice) × (length passes ≡ 1) × MayBring S.D.tells S.D.history (λ o. said_of (S.O.says o)) S.D.far S.D.faults N.tells N.W.tells N.W.purpose N.W.told N.W.origin pass.now (S.view desk.old) (N.closed net.old) (N.origin_of net.old) None 1 passes tools.old.lanes.items at }
    ensures goes { (scene : Scene S.D S.O) (trace : Trace) (tale : Tale) (passes : List ASlice)
        → IsFirstOpen S.D.tells S.D.history (λ o. said_of (S.O.says o)) S.D.far S.D.faults N.tells N.W.tells N.W.purpose N.W.told N.W.origin scene pass.now (S.view desk.old) (N.closed net.old) (N.origin_of net.old) trace tale passes tools.old.lanes.items at
        → length passes ≡ 1 → trace.count ≡ 1 → (begun_by scene).slices ≡ no_bytes
        → RunLeaves S.D.tells S.D.history (λ o. said_of (S.O.says o)) S.D.far S.D.faults N.tells scene pass.now (S.view desk.new) (N.closed net.new) (N.faults net.old) (N.faults net.new) trace (first_asking pass.now tale) result }
    ensures none { tools.new.lanes.items ≡ [] }
    ensures capacity { vec_capacity tools.new.lanes ≡ vec_capacity tools.old.lanes }
    ensures met { IfErr result (λ stop. IfBroke stop IsMet) }
    ensures later { NoneFell (N.faults net.old) (N.faults net.new) }
    ensures stays { N.origin_of net.new ≡ N.origin_of net.old }
{
    match read_one(desk, net, &first_of(pass), at, tools, turns) {
        // No place is left behind the whole content.
        Ok(_) => Ok(()),
        Err(stop) => Err(stop),
    }
}

/// Asks for the other parts, reads all, and goes on until all came.
fn bring_all<S: Desk, N: Net<O = S::O>>(
    alloc: Global,
    desk: &mut S,
    net: &mut N,
    source: &Source,
    pass: &Pass,
    plan: &[SlicePass],
    count: u32,
    at: u64,
    tools: &mut Tools<N::W>,
    turns: &[u8],
) -> Result<(), Stop>
    requires some { 1 ≤ count }
    requires few { count ≤ 16 }
    requires planned { 0 < length plan.now }
    requires place { 16 ≤ vec_capacity tools.old.lanes }
    requires open_lanes { vec_len tools.old.lanes ≤ 1 }
    requires parts { length plan.now ≤ count }
    requires ordered { (k : ℕ) (d : ASlice) → k < length plan.now → (slice_index_or plan.now k d).first < (slice_index_or plan.now k d).end }
    requires room { 0 < vec_len tools.old.buffer }
    requires most { vec_len tools.old.buffer ≤ (S.view desk.old).limits.piece }
    requires may { MayBring S.D.tells S.D.history (λ o. said_of (S.O.says o)) S.D.far S.D.faults N.tells N.W.tells N.W.purpose N.W.told N.W.origin pass.now (S.view desk.old) (N.closed net.old) (N.origin_of net.old) (Some source.now) count plan.now tools.old.lanes.items at }
    ensures goes { (scene : Scene S.D S.O) (trace : Trace) (tale : Tale)
        → IsFirstOpen S.D.tells S.D.history (λ o. said_of (S.O.says o)) S.D.far S.D.faults N.tells N.W.tells N.W.purpose N.W.told N.W.origin scene pass.now (S.view desk.old) (N.closed net.old) (N.origin_of net.old) trace tale plan.now tools.old.lanes.items at
        → source_by tale.address tale.key tale.total ≡ Some source.now → trace.count ≡ count
        → RunLeaves S.D.tells S.D.history (λ o. said_of (S.O.says o)) S.D.far S.D.faults N.tells scene pass.now (S.view desk.new) (N.closed net.new) (N.faults net.old) (N.faults net.new) trace (first_asking pass.now tale) result }
    ensures none { tools.new.lanes.items ≡ [] }
    ensures capacity { vec_capacity tools.new.lanes ≡ vec_capacity tools.old.lanes }
    ensures met { IfErr result (λ stop. IfBroke stop IsMet) }
    ensures later { NoneFell (N.faults net.old) (N.faults net.new) }
    ensures stays { N.origin_of net.new ≡ N.origin_of net.old }
{
    match open_others(alloc, net, source, pass, plan, &mut tools.lanes) {
        Ok(()) => run_rounds(
            alloc,
            desk,
            net,
            source,
            first_of(pass),
            count,
            at,
            tools,
            turns,
        ),
        Err(stop) => Err(stop),
    }
}

/// Hands the first reply's wire back where nothing is to be brought, and ends the attempt.
fn finish_bare<S: Desk, N: Net<O = S::O>>(
    desk: &mut S,
    net: &mut N,
    pass: &Pass,
    reply: Reply<N::W>,
    count: u32,
    at: u64,
) -> Result<(), Stop>
    requires some { 1 ≤ count }
    ensures goes { (scene : Scene S.D S.O) (old : View S.D S.O) (first : AnAddress) (handed : List ℕ) (slices : ℕ) (led : List Closed)
        → IsServing S.D.tells S.D.history (λ o. said_of (S.O.says o)) S.D.far S.D.faults N.tells N.W.tells N.W.purpose N.W.told N.W.origin scene pass.now old (S.view desk.old) (N.closed net.old) (N.origin_of net.old) first handed slices reply led count [] at
        → FreshLeaves S.D.tells S.D.history (λ o. said_of (S.O.says o)) S.D.far S.D.faults N.tells scene pass.now old (S.view desk.new) (N.closed net.new) (N.faults net.old) (N.faults net.new) first handed slices result }
    ensures met { IfErr result (λ stop. IfBroke stop IsMet) }
    ensures later { NoneFell (N.faults net.old) (N.faults net.new) }
    ensures stays { N.origin_of net.new ≡ N.origin_of net.old }
{
    close_reply(net, reply);
    match finish(desk, pass, at) {
        // No place is left where nothing was planned.
        Ok(_) => Ok(()),
        Err(stop) => Err(stop),
    }
}

/// Brings the parts of the first round, the first of them from the first reply, and goes on until all came.
fn bring_parts<S: Desk, N: Net<O = S::O>>(
    alloc: Global,
    desk: &mut S,
    net: &mut N,
    pass: &Pass,
    reply: Reply<N::W>,
    slice: &SlicePass,
    plan: &[SlicePass],
    count: u32,
    at: u64,
    tools: &mut Tools<N::W>,
    turns: &[u8],
) -> Result<(), Stop>
    requires some { 1 ≤ count }
    requires few { count ≤ 16 }
    requires none { tools.old.lanes.items ≡ [] }
    requires place { 16 ≤ vec_capacity tools.old.lanes }
    requires parts { length plan.now ≤ count }
    requires ordered { (k : ℕ) (d : ASlice) → k < length plan.now → (slice_index_or plan.now k d).first < (slice_index_or plan.now k d).end }
    requires slice { slice_get plan.now 0 ≡ Some slice.now }
    requires room { 0 < vec_len tools.old.buffer }
    requires most { vec_len tools.old.buffer ≤ (S.view desk.old).limits.piece }
    requires may { MayServe S.D.tells S.D.history (λ o. said_of (S.O.says o)) S.D.far S.D.faults N.tells N.W.tells N.W.purpose N.W.told N.W.origin pass.now (S.view desk.old) (N.closed net.old) (N.origin_of net.old) reply count plan.now at }
    ensures goes { (scene : Scene S.D S.O) (old : View S.D S.O) (first : AnAddress) (handed : List ℕ) (slices : ℕ) (led : List Closed)
        → IsServing S.D.tells S.D.history (λ o. said_of (S.O.says o)) S.D.far S.D.faults N.tells N.W.tells N.W.purpose N.W.told N.W.origin scene pass.now old (S.view desk.old) (N.closed net.old) (N.origin_of net.old) first handed slices reply led count plan.now at
        → FreshLeaves S.D.tells S.D.history (λ o. said_of (S.O.says o)) S.D.far S.D.faults N.tells scene pass.now old (S.view desk.new) (N.closed net.new) (N.faults net.old) (N.faults net.new) first handed slices result }
    ensures none { tools.new.lanes.items ≡ [] }
    ensures capacity { vec_capacity tools.new.lanes ≡ vec_capacity tools.old.lanes }
    ensures met { IfErr result (λ stop. IfBroke stop IsMet) }
    ensures later { NoneFell (N.faults net.old) (N.faults net.new) }
    ensures stays { N.origin_of net.new ≡ N.origin_of net.old }
{
    match open_lane(&mut tools.lanes, reply, slice) {
        Some(source) => bring_all(
            alloc, desk, net, &source, pass, plan, count, at, tools, turns,
        ),
        None => bring_alone(desk, net, pass, at, tools, turns),
    }
}

/// Brings what the first reply and further ones give.
fn bring<S: Desk, N: Net<O = S::O>>(
    alloc: Global,
    desk: &mut S,
    net: &mut N,
    pass: &Pass,
    reply: Reply<N::W>,
    plan: &[SlicePass],
    count: u32,
    at: u64,
    tools: &mut Tools<N::W>,
    turns: &[u8],
) -> Result<(), Stop>
    requires some { 1 ≤ count }
    requires few { count ≤ 16 }
    requires none { tools.old.lanes.items ≡ [] }
    requires place { 16 ≤ vec_capacity tools.old.lanes }
    requires parts { length plan.now ≤ count }
    requires ordered { (k : ℕ) (d : ASlice) → k < length plan.now → (slice_index_or plan.now k d).first < (slice_index_or plan.now k d).end }
    requires room { 0 < vec_len tools.old.buffer }
    requires most { vec_len tools.old.buffer ≤ (S.view desk.old).limits.piece }
    requires may { MayServe S.D.tells S.D.history (λ o. said_of (S.O.says o)) S.D.far S.D.faults N.tells N.W.tells N.W.purpose N.W.told N.W.origin pass.now (S.view desk.old) (N.closed net.old) (N.origin_of net.old) reply count plan.now at }
    ensures goes { (scene : Scene S.D S.O) (old : View S.D S.O) (first : AnAddress) (handed : List ℕ) (slices : ℕ) (led : List Closed)
        → IsServing S.D.tells S.D.history (λ o. said_of (S.O.says o)) S.D.far S.D.faults N.tells N.W.tells N.W.purpose N.W.told N.W.origin scene pass.now old (S.view desk.old) (N.closed net.old) (N.origin_of net.old) first handed slices reply led count plan.now at
        → FreshLeaves S.D.tells S.D.history (λ o. said_of (S.O.says o)) S.D.far S.D.faults N.tells scene pass.now old (S.view desk.new) (N.closed net.new) (N.faults net.old) (N.faults net.new) first handed slices result }
    ensures none { tools.new.lanes.items ≡ [] }
    ensures capacity { vec_capacity tools.new.lanes ≡ vec_capacity tools.old.lanes }
    ensures met { IfErr result (λ stop. IfBroke stop IsMet) }
    ensures later { NoneFell (N.faults net.old) (N.faults net.new) }
    ensures stays { N.origin_of net.new ≡ N.origin_of net.old }
{
    match plan.first() {
        Some(slice) => bring_parts(
            alloc, desk, net, pass, reply, slice, plan, count, at, tools, turns,
        ),
        None => finish_bare(desk, net, pass, reply, count, at),
    }
}

/// Takes the first reply, and brings what it and further ones give.
fn serve<S: Desk, N: Net<O = S::O>>(
    alloc: Global,
    desk: &mut S,
    net: &mut N,
    pass: &Pass,
    wish: &[u8],
    reply: Reply<N::W>,
    slices: u32,
    at: u64,
    tools: &mut Tools<N::W>,
    turns: &[u8],
) -> Result<(), Stop>
    requires some { 1 ≤ slices }
    requires few { slices ≤ 16 }
    requires none { tools.old.lanes.items ≡ [] }
    requires place { 16 ≤ vec_capacity tools.old.lanes }
    requires room { 0 < vec_len tools.old.buffer }
    requires most { vec_len tools.old.buffer ≤ (S.view desk.old).limits.piece }
    requires may { MayTake S.D.tells S.D.history (λ o. said_of (S.O.says o)) S.D.far S.D.faults N.tells N.W.tells N.W.purpose N.W.told N.W.origin pass.now (S.view desk.old) (N.closed net.old) (N.origin_of net.old) reply at }
    ensures goes { (scene : Scene S.D S.O) (first : AnAddress) (led : List Closed)
        → IsAnswered S.D.tells S.D.history (λ o. said_of (S.O.says o)) S.D.far S.D.faults N.tells N.W.tells N.W.purpose N.W.told N.W.origin scene pass.now (S.view desk.old) (N.closed net.old) (N.origin_of net.old) first reply led at
        → FreshLeaves S.D.tells S.D.history (λ o. said_of (S.O.says o)) S.D.far S.D.faults N.tells scene pass.now (S.view desk.old) (S.view desk.new) (N.closed net.new) (N.faults net.old) (N.faults net.new) first wish.now slices result }
    ensures none { tools.new.lanes.items ≡ [] }
    ensures capacity { vec_capacity tools.new.lanes ≡ vec_capacity tools.old.lanes }
    ensures met { IfErr result (λ stop. IfBroke stop IsMet) }
    ensures later { NoneFell (N.faults net.old) (N.faults net.new) }
    ensures stays { N.origin_of net.new ≡ N.origin_of net.old }
{
    let count = parts_wanted(slices, &reply.head);
    match begin_round(alloc, desk, pass, wish, &reply, count) {
        Ok(passes) => bring(
            alloc,
            desk,
            net,
            pass,
            reply,
            passes.items(),
            count,
            at,
            tools,
            turns,
        ),
        Err(stop) => {
            close_reply(net, reply);
            Err(stop)
        }
    }
}

/// Brings a content anew: asks for it at its first address, takes what the first reply tells, and brings all parts.
pub fn run_fresh<S: Desk, N: Net<O = S::O>>(
    alloc: Global,
    desk: &mut S,
    net: &mut N,
    address: &Address,
    pass: &Pass,
    wish: &[u8],
    slices: u32,
    at: u64,
    tools: &mut Tools<N::W>,
    turns: &[u8],
) -> Result<(), Stop>
    requires some { 1 ≤ slices }
    requires few { slices ≤ 16 }
    requires none { tools.old.lanes.items ≡ [] }
    requires place { 16 ≤ vec_capacity tools.old.lanes }
    requires room { 0 < vec_len tools.old.buffer }
    requires most { vec_len tools.old.buffer ≤ (S.view desk.old).limits.piece }
    requires read { IsRead address.now.text address.now }
    requires may { MayBegin S.D.tells S.D.history (λ o. said_of (S.O.says o)) S.D.far S.D.faults N.tells pass.now (S.view desk.old) (N.closed net.old) (N.origin_of net.old) at }
    ensures goes { (scene : Scene S.D S.O)
        → IsFreshStart S.D.tells S.D.history (λ o. said_of (S.O.says o)) S.D.far S.D.faults N.tells scene pass.now (S.view desk.old) (N.closed net.old) (N.origin_of net.old) at
        → FreshLeaves S.D.tells S.D.history (λ o. said_of (S.O.says o)) S.D.far S.D.faults N.tells scene pass.now (S.view desk.old) (S.view desk.new) (N.closed net.new) (N.faults net.old) (N.faults net.new) address.now wish.now slices result }
    ensures none { tools.new.lanes.items ≡ [] }
    ensures capacity { vec_capacity tools.new.lanes ≡ vec_capacity tools.old.lanes }
    ensures met { IfErr result (λ stop. IfBroke stop IsMet) }
    ensures later { NoneFell (N.faults net.old) (N.faults net.new) }
    ensures stays { N.origin_of net.new ≡ N.origin_of net.old }
{
    let reply = match first_reply(alloc, net, address, pass) {
        Ok(reply) => reply,
        Err(stop) => return Err(stop),
    };
    match serve(
        alloc, desk, net, pass, wish, reply, slices, at, tools, turns,
    ) {
        Ok(()) => Ok(()),
        Err(stop) => Err(stop),
    }
}
