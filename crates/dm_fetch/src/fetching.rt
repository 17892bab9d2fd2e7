ghost use Rattle.std.specs.Prelude.{◌≡◌, ◌≤◌, true, false};
ghost use Rattle.dm_types.specs.Faults.{NoneFell};
ghost use Rattle.dm_store.specs.Origin.{said_of};
ghost use Rattle.dm_types.specs.declared.kinds.By.TheVariants as user;
ghost use Rattle.dm_fetch.specs.Completes.{CompletesAtOnce, IsSmooth};
ghost use Rattle.dm_fetch.specs.Fetches.{Fetched, GoesOn};

use crate::attempt;
use dm_attempt::{Desk, Ended};
use dm_edge::Net;
use dm_policy::is_immediate;
use dm_types::{By, ItemId};
use std::alloc::Global;

/// Whether the item goes on by itself behind an attempt that ended so.
fn goes_on<S: Desk>(desk: &S, id: ItemId, ended: &Ended) -> bool
    ensures yes { result ≡ true → GoesOn (S.view desk.now) id ended.now }
    ensures no { result ≡ false → GoesOn (S.view desk.now) id ended.now → ⊥ }
{
    match ended {
        Ended::Stopped(_) => match desk.mode(id) {
            Some(mode) => is_immediate(mode),
            None => false,
        },
        Ended::Complete => false,
        Ended::Fault(_) => false,
    }
}

/// Brings an item's content: an attempt by the user, and then attempts by the item itself, as long as its mode is an
/// immediate one. `slices`, 1 to 16, is how many parts are asked for at once, where the server gives ranges; `turns` says
/// which open connection is read next, and they go round where it is empty; `at` is in milliseconds since 1970. The item
/// waits at the start. Memory that is wanting is a fault.
pub fn fetch<S: Desk, N: Net<O = S::O>>(
    alloc: Global,
    desk: &mut S,
    net: &mut N,
    id: ItemId,
    slices: u32,
    turns: &[u8],
    at: u64,
) -> Ended
    requires some { 1 ≤ slices }
    requires few { slices ≤ 16 }
    requires origin { N.origin_of net.old ≡ (S.view desk.old).origin }
    ensures did { Fetched S.D.tells S.D.history (λ o. said_of (S.O.says o)) S.D.far S.D.faults N.tells (S.view desk.old) (S.view desk.new) (N.closed net.old) (N.closed net.new) (N.faults net.old) (N.faults net.new)
        id slices at result }
    ensures completes { IsSmooth S.D.tells S.D.history (λ o. said_of (S.O.says o)) S.D.faults N.tells (S.view desk.old) (S.view desk.new) (N.closed net.old) (N.closed net.new) (N.faults net.old) (N.faults net.new) id user.User at
        → CompletesAtOnce S.D.tells S.D.history (λ o. said_of (S.O.says o)) S.D.far S.D.faults N.tells (S.view desk.old) (S.view desk.new) (N.closed net.old) (N.closed net.new) (N.faults net.old) (N.faults net.new) id user.User slices at result }
    ensures later { NoneFell (N.faults net.old) (N.faults net.new) }
    ensures stays { N.origin_of net.new ≡ N.origin_of net.old }
{
    let mut ended = attempt(alloc, desk, net, id, By::User, slices, turns, at);
    while goes_on(desk, id, &ended) {
        ended = attempt(alloc, desk, net, id, By::Itself, slices, turns, at);
    }
    ended
}
