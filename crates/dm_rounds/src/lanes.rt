ghost use Rattle.std.specs.Prelude.{◌≡◌, ◌<◌, ◌≤◌, ℕ, List, [], ◌∷◌, ◌++◌, length, vec_len, vec_capacity, slice_index_or, remove, OnOk, OnErr, IfErr};
ghost use Rattle.std.specs.List.{AllByRecursion, Contains};
ghost use Rattle.dm_types.specs.Faults.{NoneFell, Rose};
ghost use Rattle.dm_types.specs.declared.slices.Slice.{Slice};
ghost use Rattle.dm_edge.specs.Faults.{net_count_of};
ghost use Rattle.dm_edge.specs.Wire.{Closed, closed_of};
ghost use Rattle.dm_edge.specs.declared.fault.WireFault.{WireFault as OnWire};
ghost use Rattle.dm_store.specs.Origin.{said_of};
ghost use Rattle.dm_answers.specs.Broke.{IsMet};
ghost use Rattle.dm_attempt.specs.Asking.{Asking};
ghost use Rattle.dm_attempt.specs.Ending.{IfBroke};
ghost use Rattle.dm_attempt.specs.Scene.{Scene};
ghost use Rattle.dm_attempt.specs.Shares.{Share};
ghost use Rattle.dm_attempt.specs.Trace.{Trace};
ghost use Rattle.dm_rounds.specs.Lanes.{Closes, IsOfContent, NetCounts, SomeShows, left_of};
ghost use Rattle.dm_rounds.specs.Reading.{IsReading, MayRead, ReadLeaves, RoundLeaves};
ghost use Rattle.dm_rounds.specs.declared.lane.Lane.{Lane as ALane};

use crate::lane::turn_of;
use crate::{Lane, Tools, Turn};
use dm_attempt::{Desk, Going, Stop};
use dm_edge::{Net, Wire};

/// Hands a lane's wire back.
pub fn close_lane<N: Net>(net: &mut N, lanes: &mut Vec<Lane<N::W>>, k: usize)
    requires { k < vec_len lanes.old }
    ensures items { lanes.new.items ≡ remove lanes.old.items k }
    ensures capacity { vec_capacity lanes.new ≡ vec_capacity lanes.old }
    ensures closed { N.tells → (lane : ALane N.W) → lane ≡ slice_index_or lanes.old.items k lane
        → N.closed net.new ≡ N.closed net.old ++ closed_of (N.W.purpose lane.wire) (N.W.told lane.wire) ∷ [] }
    ensures counted { (lane : ALane N.W) → lane ≡ slice_index_or lanes.old.items k lane → (kind : OnWire) → 0 < N.W.faults lane.wire kind
        → Rose (N.faults net.old (net_count_of kind)) (N.faults net.new (net_count_of kind)) }
    ensures later { NoneFell (N.faults net.old) (N.faults net.new) }
    ensures origin { N.origin_of net.new ≡ N.origin_of net.old }
{
    let Lane {
        wire,
        reader: _,
        part: _,
        at: _,
        bounded: _,
    } = lanes.remove(k);
    net.close(wire);
}

/// Which lane comes next.
fn pick(turns: &[u8], turn: usize, count: usize) -> usize
    requires { 0 < count }
    ensures { result < count }
{
    if turns.is_empty() {
        turn % count
    } else {
        turns[turn % turns.len()] as usize % count
    }
}

/// One turn of the lane at k.
fn take_turn<S: Desk, N: Net<O = S::O>>(
    desk: &mut S,
    net: &mut N,
    going: &Going,
    lanes: &mut Vec<Lane<N::W>>,
    k: usize,
    buffer: &mut [u8],
) -> Result<(), Stop>
    requires room { 0 < length buffer.old }
    requires few { length buffer.old ≤ (S.view desk.old).limits.piece }
    requires within { k < vec_len lanes.old }
    requires may { MayRead S.D.tells S.D.history (λ o. said_of (S.O.says o)) S.D.far S.D.faults N.tells N.W.tells N.W.purpose N.W.told N.W.origin going.now (S.view desk.old) (N.closed net.old) lanes.old.items }
    ensures goes { (scene : Scene S.D S.O) (older : Trace) (asking : Asking) (cover : List Slice) (shares : List Share)
        → IsReading S.D.tells S.D.history (λ o. said_of (S.O.says o)) S.D.far S.D.faults N.tells N.W.tells N.W.purpose N.W.told N.W.origin scene going.now (S.view desk.old) (N.closed net.old) older asking cover shares lanes.old.items
        → ReadLeaves S.D.tells S.D.history (λ o. said_of (S.O.says o)) S.D.far S.D.faults N.tells N.W.tells N.W.purpose N.W.told N.W.origin scene going.now (S.view desk.new) (N.closed net.new) older asking cover shares lanes.new.items result }
    ensures smaller { OnOk result (left_of lanes.new.items < left_of lanes.old.items) }
    ensures capacity { vec_capacity lanes.new ≡ vec_capacity lanes.old }
    ensures met { IfErr result (λ stop. IfBroke stop IsMet) }
    ensures own { IfErr result IsOfContent }
    ensures shown { IfErr result (SomeShows N.W.faults lanes.new.items) }
    ensures limits { OnOk result ((S.view desk.new).limits ≡ (S.view desk.old).limits) }
    ensures later { NoneFell (N.faults net.old) (N.faults net.new) }
    ensures origin { N.origin_of net.new ≡ N.origin_of net.old }
{
    match turn_of(desk, going, &mut lanes[k], buffer) {
        Ok(Turn::More) => Ok(()),
        Ok(Turn::Whole) => {
            close_lane(net, lanes, k);
            Ok(())
        }
        Err(stop) => Err(stop),
    }
}

/// Reads all lanes to their ends, piece by piece, in the order of the turns.
pub fn read_lanes<S: Desk, N: Net<O = S::O>>(
    desk: &mut S,
    net: &mut N,
    going: &Going,
    lanes: &mut Vec<Lane<N::W>>,
    turns: &[u8],
    buffer: &mut [u8],
) -> Result<(), Stop>
    requires room { 0 < length buffer.old }
    requires few { length buffer.old ≤ (S.view desk.old).limits.piece }
    requires may { MayRead S.D.tells S.D.history (λ o. said_of (S.O.says o)) S.D.far S.D.faults N.tells N.W.tells N.W.purpose N.W.told N.W.origin going.now (S.view desk.old) (N.closed net.old) lanes.old.items }
    ensures goes { (scene : Scene S.D S.O) (older : Trace) (asking : Asking) (cover : List Slice) (shares : List Share)
        → IsReading S.D.tells S.D.history (λ o. said_of (S.O.says o)) S.D.far S.D.faults N.tells N.W.tells N.W.purpose N.W.told N.W.origin scene going.now (S.view desk.old) (N.closed net.old) older asking cover shares lanes.old.items
        → ReadLeaves S.D.tells S.D.history (λ o. said_of (S.O.says o)) S.D.far S.D.faults N.tells N.W.tells N.W.purpose N.W.told N.W.origin scene going.now (S.view desk.new) (N.closed net.new) older asking cover shares lanes.new.items result }
    ensures none { OnOk result (lanes.new.items ≡ []) }
    ensures capacity { vec_capacity lanes.new ≡ vec_capacity lanes.old }
    ensures met { IfErr result (λ stop. IfBroke stop IsMet) }
    ensures own { IfErr result IsOfContent }
    ensures shown { IfErr result (SomeShows N.W.faults lanes.new.items) }
    ensures later { NoneFell (N.faults net.old) (N.faults net.new) }
    ensures origin { N.origin_of net.new ≡ N.origin_of net.old }
{
    let mut turn = 0;
    while !lanes.is_empty() {
        let k = pick(turns, turn, lanes.len());
        match take_turn(desk, net, going, lanes, k, buffer) {
            Ok(()) => {}
            Err(stop) => return Err(stop),
        }
        turn = turn.wrapping_add(1);
    }
    Ok(())
}

/// Hands back all wires that are open.
pub fn close_all<N: Net>(net: &mut N, lanes: &mut Vec<Lane<N::W>>)
    ensures none { lanes.new.items ≡ [] }
    ensures capacity { vec_capacity lanes.new ≡ vec_capacity lanes.old }
    ensures closed { N.tells → Closes N.W.purpose N.W.told (N.closed net.old) (N.closed net.new) lanes.old.items }
    ensures counted { (lane : ALane N.W) → Contains lanes.old.items lane → (kind : OnWire) → 0 < N.W.faults lane.wire kind
        → Rose (N.faults net.old (net_count_of kind)) (N.faults net.new (net_count_of kind)) }
    ensures later { NoneFell (N.faults net.old) (N.faults net.new) }
    ensures origin { N.origin_of net.new ≡ N.origin_of net.old }
{
    while !lanes.is_empty() {
        close_lane(net, lanes, 0);
    }
}

/// Reads a round to its end, and hands all wires back.
pub fn run_round<S: Desk, N: Net<O = S::O>>(
    desk: &mut S,
    net: &mut N,
    going: &Going,
    tools: &mut Tools<N::W>,
    turns: &[u8],
) -> Result<(), Stop>
    requires room { 0 < vec_len tools.old.buffer }
    requires few { vec_len tools.old.buffer ≤ (S.view desk.old).limits.piece }
    requires may { MayRead S.D.tells S.D.history (λ o. said_of (S.O.says o)) S.D.far S.D.faults N.tells N.W.tells N.W.purpose N.W.told N.W.origin going.now (S.view desk.old) (N.closed net.old) tools.old.lanes.items }
    ensures goes { (scene : Scene S.D S.O) (older : Trace) (asking : Asking) (cover : List Slice) (shares : List Share)
        → IsReading S.D.tells S.D.history (λ o. said_of (S.O.says o)) S.D.far S.D.faults N.tells N.W.tells N.W.purpose N.W.told N.W.origin scene going.now (S.view desk.old) (N.closed net.old) older asking cover shares tools.old.lanes.items
        → RoundLeaves S.D.tells S.D.history (λ o. said_of (S.O.says o)) S.D.far S.D.faults N.tells scene going.now (S.view desk.new) (N.closed net.new) older asking cover shares result }
    ensures none { tools.new.lanes.items ≡ [] }
    ensures capacity { vec_capacity tools.new.lanes ≡ vec_capacity tools.old.lanes }
    ensures buffer { vec_len tools.new.buffer ≡ vec_len tools.old.buffer }
    ensures met { IfErr result (λ stop. IfBroke stop IsMet) }
    ensures own { IfErr result IsOfContent }
    ensures counted { IfErr result (NetCounts (N.faults net.old) (N.faults net.new)) }
    ensures later { NoneFell (N.faults net.old) (N.faults net.new) }
    ensures origin { N.origin_of net.new ≡ N.origin_of net.old }
{
    match read_lanes(desk, net, going, &mut tools.lanes, turns, &mut tools.buffer) {
        Ok(()) => Ok(()),
        Err(stop) => {
            close_all(net, &mut tools.lanes);
            Err(stop)
        }
    }
}
