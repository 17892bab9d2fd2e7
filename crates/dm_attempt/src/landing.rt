ghost use Rattle.std.specs.Prelude.{◌≡◌, ◌≤◌, ◌+◌, ℕ, List, length, OnOk, IfErr, IfSome};
ghost use Rattle.dm_store.specs.Origin.{said_of};
ghost use Rattle.dm_answers.specs.Broke.{IsMet};
ghost use Rattle.dm_answers.specs.Land.{SaysPiece};
ghost use Rattle.dm_attempt.specs.Ending.{IfBroke, IsOfDesk};
ghost use Rattle.dm_answers.specs.Plan.{slice_pass};
ghost use Rattle.dm_attempt.specs.Live.{LiveDesk, NothingUnsaved};
ghost use Rattle.dm_attempt.specs.Scene.{Scene};
ghost use Rattle.dm_attempt.specs.Shares.{IsNext};
ghost use Rattle.dm_attempt.specs.Stops.{LandLeaves, SaveLeaves, due_by};
ghost use Rattle.dm_attempt.specs.Trace.{Round, Trace, opened};

use crate::stop::stop_of;
use crate::{Desk, Going, Stop};
use dm_answers::{DeskFault, SlicePass};
use dm_slice::Part;
use dm_store::Pass;

/// What is shown with each piece of a part.
fn slice_of(going: &Going, part: &Part) -> SlicePass
    ensures { result ≡ slice_pass going.now.pass.id going.now.pass.attempt going.now.round part.now }
{
    SlicePass {
        id: going.pass.id,
        attempt: going.pass.attempt,
        round: going.round,
        index: part.index,
        first: part.first,
        end: part.end,
    }
}

/// How a refused piece stops the attempt, unless what was landed is to be saved first.
fn unless_due(fault: DeskFault) -> Option<Stop>
    ensures is { result ≡ due_by fault }
    ensures met { IfSome result (λ stop. IfBroke stop IsMet) }
    ensures apart { IfSome result IsOfDesk }
{
    match fault {
        DeskFault::CheckpointDue(_) => None,
        other => Some(stop_of(other)),
    }
}

/// Saves what was landed.
pub fn save<S: Desk>(desk: &mut S, pass: &Pass) -> Result<(), Stop>
    ensures goes { (scene : Scene S.D S.O) (trace : Trace)
        → LiveDesk S.D.tells S.D.history (λ o. said_of (S.O.says o)) S.D.far S.D.faults scene pass.now (S.view desk.old) trace
        → SaveLeaves S.D.tells S.D.history (λ o. said_of (S.O.says o)) S.D.far S.D.faults scene pass.now (S.view desk.new) trace result }
    ensures none { OnOk result (NothingUnsaved (S.view desk.new) pass.now) }
    ensures said { OnOk result ((place : ℕ) (bytes : List ℕ) → SaysPiece (said_of (S.O.says (S.view desk.old).origin)) (S.view desk.old).items.items pass.now.id place bytes
        → SaysPiece (said_of (S.O.says (S.view desk.new).origin)) (S.view desk.new).items.items pass.now.id place bytes) }
    ensures met { IfErr result (λ stop. IfBroke stop IsMet) }
    ensures apart { IfErr result IsOfDesk }
    ensures limits { OnOk result ((S.view desk.new).limits ≡ (S.view desk.old).limits) }
{
    match desk.checkpoint(pass) {
        Ok(()) => Ok(()),
        Err(fault) => Err(stop_of(fault)),
    }
}

/// Lands a piece behind what was saved.
fn land_saved<S: Desk>(
    desk: &mut S,
    going: &Going,
    part: &Part,
    at: u64,
    piece: &[u8],
) -> Result<(), Stop>
    requires some { 1 ≤ length piece.now }
    requires few { length piece.now ≤ (S.view desk.old).limits.piece }
    requires said { SaysPiece (said_of (S.O.says (S.view desk.old).origin)) (S.view desk.old).items.items going.now.pass.id at piece.now }
    requires none { NothingUnsaved (S.view desk.old) going.now.pass }
    ensures goes { (scene : Scene S.D S.O) (older : Trace) (round : Round)
        → LiveDesk S.D.tells S.D.history (λ o. said_of (S.O.says o)) S.D.far S.D.faults scene going.now.pass (S.view desk.old) (opened older round)
        → IsNext round.shares part.now at piece.now → going.now.round ≡ length older.rounds + 1
        → LandLeaves S.D.tells S.D.history (λ o. said_of (S.O.says o)) S.D.far S.D.faults scene going.now.pass (S.view desk.new) older round part.now.index piece.now result }
    ensures met { IfErr result (λ stop. IfBroke stop IsMet) }
    ensures apart { IfErr result IsOfDesk }
    ensures limits { OnOk result ((S.view desk.new).limits ≡ (S.view desk.old).limits) }
{
    match desk.land(&slice_of(going, part), at, piece) {
        Ok(()) => Ok(()),
        Err(fault) => Err(stop_of(fault)),
    }
}

/// Lands the next piece of a part. Where what was landed is to be saved first, it is.
pub fn land_piece<S: Desk>(
    desk: &mut S,
    going: &Going,
    part: &Part,
    at: u64,
    piece: &[u8],
) -> Result<(), Stop>
    requires some { 1 ≤ length piece.now }
    requires few { length piece.now ≤ (S.view desk.old).limits.piece }
    requires said { SaysPiece (said_of (S.O.says (S.view desk.old).origin)) (S.view desk.old).items.items going.now.pass.id at piece.now }
    ensures goes { (scene : Scene S.D S.O) (older : Trace) (round : Round)
        → LiveDesk S.D.tells S.D.history (λ o. said_of (S.O.says o)) S.D.far S.D.faults scene going.now.pass (S.view desk.old) (opened older round)
        → IsNext round.shares part.now at piece.now → going.now.round ≡ length older.rounds + 1
        → LandLeaves S.D.tells S.D.history (λ o. said_of (S.O.says o)) S.D.far S.D.faults scene going.now.pass (S.view desk.new) older round part.now.index piece.now result }
    ensures met { IfErr result (λ stop. IfBroke stop IsMet) }
    ensures apart { IfErr result IsOfDesk }
    ensures limits { OnOk result ((S.view desk.new).limits ≡ (S.view desk.old).limits) }
{
    match desk.land(&slice_of(going, part), at, piece) {
        Ok(()) => Ok(()),
        Err(fault) => match unless_due(fault) {
            Some(stop) => Err(stop),
            None => save_and_land(desk, going, part, at, piece),
        },
    }
}

/// Saves what was landed, and lands the piece.
fn save_and_land<S: Desk>(
    desk: &mut S,
    going: &Going,
    part: &Part,
    at: u64,
    piece: &[u8],
) -> Result<(), Stop>
    requires some { 1 ≤ length piece.now }
    requires few { length piece.now ≤ (S.view desk.old).limits.piece }
    requires said { SaysPiece (said_of (S.O.says (S.view desk.old).origin)) (S.view desk.old).items.items going.now.pass.id at piece.now }
    ensures goes { (scene : Scene S.D S.O) (older : Trace) (round : Round)
        → LiveDesk S.D.tells S.D.history (λ o. said_of (S.O.says o)) S.D.far S.D.faults scene going.now.pass (S.view desk.old) (opened older round)
        → IsNext round.shares part.now at piece.now → going.now.round ≡ length older.rounds + 1
        → LandLeaves S.D.tells S.D.history (λ o. said_of (S.O.says o)) S.D.far S.D.faults scene going.now.pass (S.view desk.new) older round part.now.index piece.now result }
    ensures met { IfErr result (λ stop. IfBroke stop IsMet) }
    ensures apart { IfErr result IsOfDesk }
    ensures limits { OnOk result ((S.view desk.new).limits ≡ (S.view desk.old).limits) }
{
    match save(desk, &going.pass) {
        Ok(()) => land_saved(desk, going, part, at, piece),
        Err(stop) => Err(stop),
    }
}
