ghost use Rattle.std.specs.Prelude.{◌≡◌, ◌≤◌, ◌<◌, ◌+◌, ℕ, List, [], ◌∷◌, ◌++◌, length, vec_len, vec_capacity, slice_index_or, drop, IfErr, OnOk};
ghost use Rattle.dm_types.specs.Faults.{NoneFell};
ghost use Rattle.dm_edge.specs.Wire.{Closed};
ghost use Rattle.dm_answers.specs.Broke.{IsMet};
ghost use Rattle.dm_answers.specs.Slices as slices;
ghost use Rattle.dm_answers.specs.declared.answer.SlicePass.{SlicePass as ASlice};
ghost use Rattle.dm_attempt.specs.Asking.{Asking, source_by};
ghost use Rattle.dm_attempt.specs.Ending.{IfBroke};
ghost use Rattle.dm_attempt.specs.Shares.{Share};
ghost use Rattle.dm_rounds.specs.Opened.{IsOpened, LosesRound};
ghost use Rattle.dm_rounds.specs.Opening.{AreAsked, IsOpening};
ghost use Rattle.dm_rounds.specs.Parts.{IsOfNet};
ghost use Rattle.dm_rounds.specs.Serving.{first_lane};

use crate::lanes::close_all;
use crate::opening::{ask_rest, part_of};
use crate::{Lane, Reply};
use dm_answers::SlicePass;
use dm_attempt::{Source, Stop, source_of};
use dm_edge::{Net, Wire};
use dm_store::Pass;
use std::alloc::Global;

/// Makes the first reply the lane of the first part. The other parts may be asked for of this source.
pub fn open_lane<W>(lanes: &mut Vec<Lane<W>>, reply: Reply<W>, slice: &SlicePass) -> Option<Source>
    requires { vec_len lanes.old < vec_capacity lanes.old }
    ensures source { result ≡ source_by reply.address reply.key reply.head.total }
    ensures items { lanes.new.items ≡ lanes.old.items ++ first_lane reply (slices.part_of slice.now) ∷ [] }
    ensures capacity { vec_capacity lanes.new ≡ vec_capacity lanes.old }
{
    let Reply {
        wire,
        reader,
        head,
        address,
        key,
    } = reply;
    lanes.push_reserved(Lane {
        wire,
        reader,
        part: part_of(slice),
        at: slice.first,
        bounded: head.total.is_some(),
    });
    source_of(address, key, head.total)
}

/// Asks for the parts behind the first one by their ranges. Where one can't be had, all wires are handed back.
pub fn open_others<N: Net>(
    alloc: Global,
    net: &mut N,
    source: &Source,
    pass: &Pass,
    plan: &[SlicePass],
    lanes: &mut Vec<Lane<N::W>>,
) -> Result<(), Stop>
    requires some { 0 < length plan.now }
    requires room { vec_len lanes.old + length (drop 1 plan.now) ≤ vec_capacity lanes.old }
    requires ordered { (k : ℕ) (d : ASlice) → k < length plan.now → (slice_index_or plan.now k d).first < (slice_index_or plan.now k d).end }
    ensures opened { OnOk result ((asking : Asking) (shares : List Share) (start : List Closed) → AreAsked asking source.now pass.now shares 1 (drop 1 plan.now) → length shares ≡ length plan.now
        → IsOpening N.tells N.W.tells N.W.purpose N.W.told N.W.origin (N.origin_of net.old) asking start (N.closed net.old) shares 1 lanes.old.items
        → IsOpened N.tells N.W.tells N.W.purpose N.W.told N.W.origin (N.origin_of net.old) asking start (N.closed net.new) shares lanes.new.items) }
    ensures stopped { IfErr result (λ stop. (asking : Asking) (shares : List Share) (start : List Closed) → AreAsked asking source.now pass.now shares 1 (drop 1 plan.now)
        → IsOpening N.tells N.W.tells N.W.purpose N.W.told N.W.origin (N.origin_of net.old) asking start (N.closed net.old) shares 1 lanes.old.items
        → LosesRound N.tells asking source.now pass.now start (N.closed net.new) (N.faults net.old) (N.faults net.new) shares stop) }
    ensures none { IfErr result (λ stop. lanes.new.items ≡ []) }
    ensures met { IfErr result (λ stop. IfBroke stop IsMet) }
    ensures own { IfErr result IsOfNet }
    ensures capacity { vec_capacity lanes.new ≡ vec_capacity lanes.old }
    ensures stays { N.origin_of net.new ≡ N.origin_of net.old }
    ensures later { NoneFell (N.faults net.old) (N.faults net.new) }
{
    match ask_rest(alloc, net, source, pass, &plan[1..], lanes) {
        Ok(()) => Ok(()),
        Err(stop) => {
            close_all(net, lanes);
            Err(stop)
        }
    }
}
