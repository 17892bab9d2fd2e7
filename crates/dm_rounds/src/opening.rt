ghost use Rattle.std.specs.Prelude.{◌≡◌, ◌<◌, ◌≤◌, ◌+◌, ℕ, List, [], length, vec_len, vec_capacity, slice_index_or, false, IfErr, OnOk};
ghost use Rattle.dm_types.specs.Faults.{NoneFell};
ghost use Rattle.dm_edge.specs.Wire.{Closed};
ghost use Rattle.dm_answers.specs.Broke.{IsMet};
ghost use Rattle.dm_answers.specs.Slices as slices;
ghost use Rattle.dm_answers.specs.declared.answer.SlicePass.{SlicePass as ASlice};
ghost use Rattle.dm_attempt.specs.Asking.{Asking};
ghost use Rattle.dm_attempt.specs.Ending.{IfBroke};
ghost use Rattle.dm_attempt.specs.Shares.{Share};
ghost use Rattle.dm_rounds.specs.Opened.{IsOpened, LosesRound};
ghost use Rattle.dm_rounds.specs.Opening.{AreAsked, IsOpening, StopsOpening};
ghost use Rattle.dm_rounds.specs.Parts.{IsOfNet};

use crate::Lane;
use crate::asking::ask_part;
use crate::lanes::close_all;
use dm_answers::SlicePass;
use dm_attempt::{Source, Stop};
use dm_edge::{Net, Wire};
use dm_slice::Part;
use dm_store::Pass;
use std::alloc::Global;

/// The part that a pass is of.
pub fn part_of(slice: &SlicePass) -> Part
    ensures { result ≡ slices.part_of slice.now }
{
    Part {
        index: slice.index,
        first: slice.first,
        end: slice.end,
    }
}

/// Asks for parts by their ranges, in their order. Each gets a lane.
pub fn ask_rest<N: Net>(
    alloc: Global,
    net: &mut N,
    source: &Source,
    pass: &Pass,
    plan: &[SlicePass],
    lanes: &mut Vec<Lane<N::W>>,
) -> Result<(), Stop>
    requires room { vec_len lanes.old + length plan.now ≤ vec_capacity lanes.old }
    requires ordered { (k : ℕ) (d : ASlice) → k < length plan.now → (slice_index_or plan.now k d).first < (slice_index_or plan.now k d).end }
    ensures goes { OnOk result ((asking : Asking) (shares : List Share) (start : List Closed) (from : ℕ) → AreAsked asking source.now pass.now shares from plan.now
        → IsOpening N.tells N.W.tells N.W.purpose N.W.told N.W.origin (N.origin_of net.old) asking start (N.closed net.old) shares from lanes.old.items
        → IsOpening N.tells N.W.tells N.W.purpose N.W.told N.W.origin (N.origin_of net.old) asking start (N.closed net.new) shares (from + length plan.now) lanes.new.items) }
    ensures stopped { IfErr result (λ stop. (asking : Asking) (shares : List Share) (start : List Closed) (from : ℕ) → AreAsked asking source.now pass.now shares from plan.now
        → IsOpening N.tells N.W.tells N.W.purpose N.W.told N.W.origin (N.origin_of net.old) asking start (N.closed net.old) shares from lanes.old.items
        → StopsOpening N.tells N.W.tells N.W.purpose N.W.told N.W.origin (N.origin_of net.old) asking source.now pass.now start (N.closed net.new) (N.faults net.old) (N.faults net.new) shares lanes.new.items stop) }
    ensures met { IfErr result (λ stop. IfBroke stop IsMet) }
    ensures own { IfErr result IsOfNet }
    ensures capacity { vec_capacity lanes.new ≡ vec_capacity lanes.old }
    ensures stays { N.origin_of net.new ≡ N.origin_of net.old }
    ensures later { NoneFell (N.faults net.old) (N.faults net.new) }
{
    for slice in plan {
        match ask_part(alloc, net, source, pass, &part_of(slice)) {
            Ok(lane) => lanes.push_reserved(lane),
            Err(stop) => return Err(stop),
        }
    }
    Ok(())
}

/// Asks for all parts of a round by their ranges. Where one can't be had, all wires are handed back.
pub fn open_parts<N: Net>(
    alloc: Global,
    net: &mut N,
    source: &Source,
    pass: &Pass,
    plan: &[SlicePass],
    lanes: &mut Vec<Lane<N::W>>,
) -> Result<(), Stop>
    requires none { lanes.old.items ≡ [] }
    requires room { length plan.now ≤ vec_capacity lanes.old }
    requires ordered { (k : ℕ) (d : ASlice) → k < length plan.now → (slice_index_or plan.now k d).first < (slice_index_or plan.now k d).end }
    ensures opened { OnOk result ((asking : Asking) (shares : List Share) (start : List Closed) → asking.served ≡ false → AreAsked asking source.now pass.now shares 0 plan.now → length shares ≡ length plan.now
        → (N.tells → N.closed net.old ≡ start)
        → IsOpened N.tells N.W.tells N.W.purpose N.W.told N.W.origin (N.origin_of net.old) asking start (N.closed net.new) shares lanes.new.items) }
    ensures stopped { IfErr result (λ stop. (asking : Asking) (shares : List Share) (start : List Closed) → AreAsked asking source.now pass.now shares 0 plan.now
        → (N.tells → N.closed net.old ≡ start)
        → LosesRound N.tells asking source.now pass.now start (N.closed net.new) (N.faults net.old) (N.faults net.new) shares stop) }
    ensures none { IfErr result (λ stop. lanes.new.items ≡ []) }
    ensures met { IfErr result (λ stop. IfBroke stop IsMet) }
    ensures own { IfErr result IsOfNet }
    ensures capacity { vec_capacity lanes.new ≡ vec_capacity lanes.old }
    ensures stays { N.origin_of net.new ≡ N.origin_of net.old }
    ensures later { NoneFell (N.faults net.old) (N.faults net.new) }
{
    match ask_rest(alloc, net, source, pass, plan, lanes) {
        Ok(()) => Ok(()),
        Err(stop) => {
            close_all(net, lanes);
            Err(stop)
        }
    }
}
