ghost use Rattle.std.specs.Prelude.{◌≡◌, ◌<◌, ◌≤◌, ◌+◌, ℕ, List, length, None, false, IfErr, IsTrue, OnOk};
ghost use Rattle.dm_types.specs.declared.item.Key.{Key};
ghost use Rattle.dm_types.specs.declared.slices.Slice.{Slice};
ghost use Rattle.dm_edge.specs.Causes.{is_content_cause};
ghost use Rattle.dm_reply.specs.Content.{EndsAll};
ghost use Rattle.dm_reply.specs.Faults.{cause_kind};
ghost use Rattle.dm_reply.specs.Reads.{GoesOn as GivesOn};
ghost use Rattle.dm_store.specs.Origin.{said_of};
ghost use Rattle.dm_answers.specs.Broke.{IsMet};
ghost use Rattle.dm_attempt.specs.Asking.{Asking};
ghost use Rattle.dm_attempt.specs.Ending.{IfBroke};
ghost use Rattle.dm_attempt.specs.Scene.{Scene};
ghost use Rattle.dm_attempt.specs.Shares.{Share};
ghost use Rattle.dm_attempt.specs.Trace.{Trace};
ghost use Rattle.dm_rounds.specs.Lanes.{GoesOn, HasGiven, IsOfContent, PieceMoves, PieceSays, ShownOn, TurnIs, TurnMoves, most_given, stop_met, told_count};
ghost use Rattle.dm_rounds.specs.Reading.{HasRound, IsTurn, MayTurn, TurnLeaves};

use dm_attempt::{Desk, Going, Stop, land_piece};
use dm_edge::Wire;
use dm_policy::Cause;
use dm_reply::{Got, ReplyReader};
use dm_slice::Part;

/// An open wire that brings a part.
pub struct Lane<W> {
    pub wire: W,
    pub reader: ReplyReader,
    pub part: Part,
    /// The next place.
    pub at: u64,
    /// The content's length is known, so the part ends at its end. Else it ends where the reply does.
    pub bounded: bool,
}

/// What became of a turn.
#[derive(Clone, Copy, Debug)]
pub enum Turn {
    More,
    Whole,
}

/// How an attempt stops by a cause that its content has. Want of memory is no cause.
fn stop_of(cause: Cause) -> Stop
    ensures is { result ≡ stop_met cause }
    ensures met { IsTrue (is_content_cause cause) → IfBroke result IsMet }
    ensures own { IsTrue (is_content_cause cause) → IsOfContent result }
{
    match cause {
        Cause::Memory => Stop::NoMemory,
        other => Stop::Broke(other),
    }
}

/// How many bytes are asked for next: no more than the part lacks, and one where an open part ends, since then none come.
fn room_of<W>(lane: &Lane<W>, most: usize) -> usize
    requires within { lane.now.at ≤ lane.now.part.end }
    requires room { 0 < most }
    ensures some { 0 < result }
    ensures most { result ≤ most }
    ensures fits { lane.now.at < lane.now.part.end → lane.now.at + result ≤ lane.now.part.end }
{
    let left = lane.part.end - lane.at;
    if left == 0 {
        1
    } else if left < most as u64 {
        left as usize
    } else {
        most
    }
}

/// The place behind so many bytes more, which is no more than the end.
fn moved(at: u64, count: usize, end: u64) -> u64
    requires fits { at + count ≤ end }
    ensures { result ≡ at + count }
{
    at + count as u64
}

/// Reads the next piece of a lane.
pub fn next_piece<W: Wire>(lane: &mut Lane<W>, buffer: &mut [u8]) -> Result<Got, Cause>
    requires room { 0 < length buffer.old }
    requires within { lane.old.at ≤ lane.old.part.end }
    requires on { GoesOn lane.old }
    requires at { lane.old.at ≡ lane.old.part.first + lane.old.reader.reading.given }
    requires unbroken { lane.old.reader.reading.broke ≡ None }
    ensures says { W.tells → (key : Key) (bytes : List ℕ) → HasGiven key (W.purpose lane.old.wire) lane.old.reader.wanted (W.told lane.old.wire).given lane.old.reader bytes
        → PieceSays key W.purpose W.told lane.old lane.new result buffer.new bytes }
    ensures moves { PieceMoves lane.old lane.new result (length buffer.old) }
    ensures limit { most_given lane.new.reader ≡ most_given lane.old.reader }
    ensures counted { told_count lane.new.reader ≡ told_count lane.old.reader }
    ensures all { EndsAll lane.old.reader result }
    ensures part { lane.new.part ≡ lane.old.part }
    ensures bounded { lane.new.bounded ≡ lane.old.bounded }
    ensures wanted { lane.new.reader.wanted ≡ lane.old.reader.wanted }
    ensures stays { W.purpose lane.new.wire ≡ W.purpose lane.old.wire }
    ensures origin { W.origin lane.new.wire ≡ W.origin lane.old.wire }
    ensures sent { W.tells → (W.told lane.new.wire).sent ≡ (W.told lane.old.wire).sent }
    ensures given { W.tells → GivesOn (W.told lane.old.wire) (W.told lane.new.wire) }
    ensures own { IfErr result (λ broke. IsTrue (is_content_cause broke)) }
    ensures shown { IfErr result (λ broke. ShownOn W.faults lane.new (stop_met broke)) }
{
    let room = room_of(lane, buffer.len());
    match lane.reader.content(&mut lane.wire, &mut buffer[..room]) {
        Ok(Got::Bytes(count)) => {
            lane.at = moved(lane.at, count, lane.part.end);
            Ok(Got::Bytes(count))
        }
        Ok(Got::End) => Ok(Got::End),
        Err(broke) => Err(broke),
    }
}

/// Whether a lane is at its part's end.
fn turn_at<W>(lane: &Lane<W>) -> Turn
    requires within { lane.now.at ≤ lane.now.part.end }
    ensures { TurnIs lane.now result }
{
    if !lane.bounded {
        Turn::More
    } else if lane.at == lane.part.end {
        Turn::Whole
    } else {
        Turn::More
    }
}

/// Reads a piece of a lane, and lands it.
pub fn turn_of<S: Desk, W: Wire<O = S::O>>(
    desk: &mut S,
    going: &Going,
    lane: &mut Lane<W>,
    buffer: &mut [u8],
) -> Result<Turn, Stop>
    requires room { 0 < length buffer.old }
    requires few { length buffer.old ≤ (S.view desk.old).limits.piece }
    requires may { MayTurn S.D.tells S.D.history (λ o. said_of (S.O.says o)) S.D.far S.D.faults W.tells W.purpose W.told W.origin going.now (S.view desk.old) lane.old }
    ensures goes { (scene : Scene S.D S.O) (older : Trace) (asking : Asking) (cover : List Slice) (shares : List Share)
        → HasRound S.D.tells S.D.history (λ o. said_of (S.O.says o)) S.D.far S.D.faults scene going.now (S.view desk.old) older asking cover shares
        → IsTurn W.tells W.purpose W.told W.origin scene.start.origin asking shares lane.old
        → TurnLeaves S.D.tells S.D.history (λ o. said_of (S.O.says o)) S.D.far S.D.faults W.tells W.purpose W.told scene going.now (S.view desk.new) older asking cover shares lane.new result }
    ensures moves { TurnMoves lane.old lane.new result }
    ensures part { lane.new.part ≡ lane.old.part }
    ensures bounded { lane.new.bounded ≡ lane.old.bounded }
    ensures wanted { lane.new.reader.wanted ≡ lane.old.reader.wanted }
    ensures stays { W.purpose lane.new.wire ≡ W.purpose lane.old.wire }
    ensures origin { W.origin lane.new.wire ≡ W.origin lane.old.wire }
    ensures sent { W.tells → (W.told lane.new.wire).sent ≡ (W.told lane.old.wire).sent }
    ensures given { W.tells → GivesOn (W.told lane.old.wire) (W.told lane.new.wire) }
    ensures met { IfErr result (λ stop. IfBroke stop IsMet) }
    ensures own { IfErr result IsOfContent }
    ensures shown { IfErr result (ShownOn W.faults lane.new) }
    ensures limits { OnOk result ((S.view desk.new).limits ≡ (S.view desk.old).limits) }
{
    let at = lane.at;
    match next_piece(lane, buffer) {
        Ok(Got::Bytes(count)) => match land_piece(desk, going, &lane.part, at, &buffer[..count]) {
            Ok(()) => Ok(turn_at(lane)),
            Err(stop) => Err(stop),
        },
        Ok(Got::End) => Ok(Turn::Whole),
        Err(broke) => Err(stop_of(broke)),
    }
}
