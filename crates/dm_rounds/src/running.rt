ghost use Rattle.std.specs.Prelude.{◌≡◌, ◌≢◌, ◌<◌, ◌≤◌, ◌+◌, ℕ, List, [], vec_len, vec_capacity, true, Ok, IfErr};
ghost use Rattle.dm_types.specs.Faults.{NoneFell};
ghost use Rattle.dm_store.specs.Origin.{said_of};
ghost use Rattle.dm_answers.specs.Broke.{IsMet};
ghost use Rattle.dm_answers.specs.Plan.{last_round};
ghost use Rattle.dm_attempt.specs.Asking.{Asking};
ghost use Rattle.dm_attempt.specs.Ending.{IfBroke};
ghost use Rattle.dm_attempt.specs.Scene.{Scene};
ghost use Rattle.dm_attempt.specs.Shares.{Share};
ghost use Rattle.dm_attempt.specs.Trace.{Trace, untold};
ghost use Rattle.dm_rounds.specs.Rounding.{AsksAll};
ghost use Rattle.dm_rounds.specs.Running.{IsRunning, MayGoOn, MayRun, ReadsOne, RunsOnce, later_asking};
ghost use Rattle.dm_rounds.specs.Trail.{IsKeptStart, MayKeep, RunLeaves, kept_asking};

use crate::Tools;
use crate::lanes::run_round;
use crate::rounding::open_round;
use dm_attempt::{Desk, Going, Source, Stop, finish};
use dm_edge::{Net, Wire};
use dm_store::Pass;
use std::alloc::Global;

/// Reads a round to its end, and ends the attempt where all came.
pub fn read_one<S: Desk, N: Net<O = S::O>>(
    desk: &mut S,
    net: &mut N,
    going: &Going,
    at: u64,
    tools: &mut Tools<N::W>,
    turns: &[u8],
) -> Result<bool, Stop>
    requires room { 0 < vec_len tools.old.buffer }
    requires most { vec_len tools.old.buffer ≤ (S.view desk.old).limits.piece }
    requires may { MayRun S.D.tells S.D.history (λ o. said_of (S.O.says o)) S.D.far S.D.faults N.tells N.W.tells N.W.purpose N.W.told N.W.origin going.now (S.view desk.old) (N.closed net.old) (N.origin_of net.old) tools.old.lanes.items at }
    ensures goes { (scene : Scene S.D S.O) (older : Trace) (first : Asking) (shares : List Share)
        → IsRunning S.D.tells S.D.history (λ o. said_of (S.O.says o)) S.D.far S.D.faults N.tells N.W.tells N.W.purpose N.W.told N.W.origin scene going.now (S.view desk.old) (N.closed net.old) (N.origin_of net.old) older first shares tools.old.lanes.items at
        → ReadsOne S.D.tells S.D.history (λ o. said_of (S.O.says o)) S.D.far S.D.faults N.tells scene going.now (S.view desk.new) (N.closed net.new) (N.faults net.old) (N.faults net.new) older first result }
    ensures none { tools.new.lanes.items ≡ [] }
    ensures capacity { vec_capacity tools.new.lanes ≡ vec_capacity tools.old.lanes }
    ensures buffer { vec_len tools.new.buffer ≡ vec_len tools.old.buffer }
    ensures met { IfErr result (λ stop. IfBroke stop IsMet) }
    ensures later { NoneFell (N.faults net.old) (N.faults net.new) }
    ensures stays { N.origin_of net.new ≡ N.origin_of net.old }
{
    match run_round(desk, net, going, tools, turns) {
        Ok(()) => finish(desk, &going.pass, at),
        Err(stop) => Err(stop),
    }
}

/// Reads a round to its end, and opens the next one where a place is left.
fn run_once<S: Desk, N: Net<O = S::O>>(
    alloc: Global,
    desk: &mut S,
    net: &mut N,
    source: &Source,
    going: &Going,
    n: u32,
    at: u64,
    tools: &mut Tools<N::W>,
    turns: &[u8],
) -> Result<bool, Stop>
    requires some { 1 ≤ n }
    requires few { n ≤ 16 }
    requires place { 16 ≤ vec_capacity tools.old.lanes }
    requires room { 0 < vec_len tools.old.buffer }
    requires most { vec_len tools.old.buffer ≤ (S.view desk.old).limits.piece }
    requires may { MayRun S.D.tells S.D.history (λ o. said_of (S.O.says o)) S.D.far S.D.faults N.tells N.W.tells N.W.purpose N.W.told N.W.origin going.now (S.view desk.old) (N.closed net.old) (N.origin_of net.old) tools.old.lanes.items at }
    ensures goes { (scene : Scene S.D S.O) (older : Trace) (first : Asking) (shares : List Share)
        → IsRunning S.D.tells S.D.history (λ o. said_of (S.O.says o)) S.D.far S.D.faults N.tells N.W.tells N.W.purpose N.W.told N.W.origin scene going.now (S.view desk.old) (N.closed net.old) (N.origin_of net.old) older first shares tools.old.lanes.items at
        → older.count ≡ n → AsksAll (later_asking first) source.now going.now.pass
        → RunsOnce S.D.tells S.D.history (λ o. said_of (S.O.says o)) S.D.far S.D.faults N.tells N.W.tells N.W.purpose N.W.told N.W.origin scene going.now (S.view desk.new) (N.closed net.new) (N.origin_of net.new)
        (N.faults net.old) (N.faults net.new) older first tools.new.lanes.items at result }
    ensures none { IfErr result (λ stop. tools.new.lanes.items ≡ []) }
    ensures done { result ≡ Ok true → tools.new.lanes.items ≡ [] }
    ensures capacity { vec_capacity tools.new.lanes ≡ vec_capacity tools.old.lanes }
    ensures buffer { vec_len tools.new.buffer ≡ vec_len tools.old.buffer }
    ensures met { IfErr result (λ stop. IfBroke stop IsMet) }
    ensures later { NoneFell (N.faults net.old) (N.faults net.new) }
    ensures stays { N.origin_of net.new ≡ N.origin_of net.old }
{
    match read_one(desk, net, going, at, tools, turns) {
        Ok(true) => Ok(true),
        Ok(false) => match open_round(alloc, desk, net, source, &going.pass, n, &mut tools.lanes) {
            Ok(()) => Ok(false),
            Err(stop) => Err(stop),
        },
        Err(stop) => Err(stop),
    }
}

/// Reads the open round and further ones until all came, and ends the attempt then.
pub fn run_rounds<S: Desk, N: Net<O = S::O>>(
    alloc: Global,
    desk: &mut S,
    net: &mut N,
    source: &Source,
    going: Going,
    n: u32,
    at: u64,
    tools: &mut Tools<N::W>,
    turns: &[u8],
) -> Result<(), Stop>
    requires some { 1 ≤ n }
    requires few { n ≤ 16 }
    requires place { 16 ≤ vec_capacity tools.old.lanes }
    requires room { 0 < vec_len tools.old.buffer }
    requires most { vec_len tools.old.buffer ≤ (S.view desk.old).limits.piece }
    requires may { MayGoOn S.D.tells S.D.history (λ o. said_of (S.O.says o)) S.D.far S.D.faults N.tells N.W.tells N.W.purpose N.W.told N.W.origin going (S.view desk.old) (N.closed net.old) (N.origin_of net.old) tools.old.lanes.items source.now n at }
    ensures goes { (scene : Scene S.D S.O) (older : Trace) (first : Asking) (shares : List Share)
        → IsRunning S.D.tells S.D.history (λ o. said_of (S.O.says o)) S.D.far S.D.faults N.tells N.W.tells N.W.purpose N.W.told N.W.origin scene going (S.view desk.old) (N.closed net.old) (N.origin_of net.old) older first shares tools.old.lanes.items at
        → older.count ≡ n → AsksAll (later_asking first) source.now going.pass
        → RunLeaves S.D.tells S.D.history (λ o. said_of (S.O.says o)) S.D.far S.D.faults N.tells scene going.pass (S.view desk.new) (N.closed net.new) (N.faults net.old) (N.faults net.new) older first result }
    ensures none { tools.new.lanes.items ≡ [] }
    ensures capacity { vec_capacity tools.new.lanes ≡ vec_capacity tools.old.lanes }
    ensures met { IfErr result (λ stop. IfBroke stop IsMet) }
    ensures later { NoneFell (N.faults net.old) (N.faults net.new) }
    ensures stays { N.origin_of net.new ≡ N.origin_of net.old }
{
    let mut now = going;
    loop {
        match run_once(alloc, desk, net, source, &now, n, at, tools, turns) {
            Ok(true) => return Ok(()),
            Ok(false) => now = next_of(&now),
            Err(stop) => return Err(stop),
        }
    }
}

/// The attempt in its next round.
fn next_of(going: &Going) -> Going
    requires { going.now.round ≢ last_round }
    ensures { result ≡ record going.now { round = going.now.round + 1 } }
{
    Going {
        pass: going.pass,
        round: going.round + 1,
    }
}

/// The first round of an attempt.
pub fn first_of(pass: &Pass) -> Going
    ensures { result ≡ record { pass = pass.now; round = 1 } }
{
    Going {
        pass: *pass,
        round: 1,
    }
}

/// Goes on with what was saved of a content: asks for what is missing, round behind round, until all came, and ends
/// the attempt then.
pub fn run_kept<S: Desk, N: Net<O = S::O>>(
    alloc: Global,
    desk: &mut S,
    net: &mut N,
    source: &Source,
    pass: &Pass,
    slices: u32,
    at: u64,
    tools: &mut Tools<N::W>,
    turns: &[u8],
) -> Result<(), Stop>
    requires some { 1 ≤ slices }
    requires few { slices ≤ 16 }
    requires none { tools.old.lanes.items ≡ [] }
    requires place { 16 ≤ vec_capacity tools.old.lanes }
    requires room { 0 < vec_len tools.old.buffer }
    requires most { vec_len tools.old.buffer ≤ (S.view desk.old).limits.piece }
    requires may { MayKeep S.D.tells S.D.history (λ o. said_of (S.O.says o)) S.D.far S.D.faults N.tells pass.now (S.view desk.old) (N.closed net.old) (N.origin_of net.old) source.now slices at }
    ensures goes { (scene : Scene S.D S.O)
        → IsKeptStart S.D.tells S.D.history (λ o. said_of (S.O.says o)) S.D.far S.D.faults N.tells scene pass.now (S.view desk.old) (N.closed net.old) (N.origin_of net.old) source.now slices at
        → RunLeaves S.D.tells S.D.history (λ o. said_of (S.O.says o)) S.D.far S.D.faults N.tells scene pass.now (S.view desk.new) (N.closed net.new) (N.faults net.old) (N.faults net.new) (untold [] [] slices) (kept_asking pass.now source.now) result }
    ensures none { tools.new.lanes.items ≡ [] }
    ensures capacity { vec_capacity tools.new.lanes ≡ vec_capacity tools.old.lanes }
    ensures met { IfErr result (λ stop. IfBroke stop IsMet) }
    ensures later { NoneFell (N.faults net.old) (N.faults net.new) }
    ensures stays { N.origin_of net.new ≡ N.origin_of net.old }
{
    match open_round(alloc, desk, net, source, pass, slices, &mut tools.lanes) {
        Ok(()) => run_rounds(
            alloc,
            desk,
            net,
            source,
            first_of(pass),
            slices,
            at,
            tools,
            turns,
        ),
        Err(stop) => Err(stop),
    }
}
