//! Content that stands in the stream as it is: by a count, or up to the connection's end.
ghost use Rattle.std.specs.Prelude.{◌≡◌, ◌<◌, ◌≤◌, ℕ, List, [], length, min, IsTrue, IfOk, IfErr, MatchResult};
ghost use Rattle.httparse.specs.Grammar.{ResponseHead};
ghost use Rattle.dm_types.specs.Faults.{HasCause};
ghost use Rattle.dm_edge.specs.declared.wanted.Wanted.{Wanted};
ghost use Rattle.dm_edge.specs.Causes.{is_content_cause};
ghost use Rattle.dm_edge.specs.Faults.{wire_kind};
ghost use Rattle.dm_edge.specs.Wire.{WantsBy};
ghost use Rattle.dm_edge.specs.Begins.{most_content};
ghost use Rattle.dm_reply.specs.Ahead.{Stays};
ghost use Rattle.dm_reply.specs.Content.{HasFramed};
ghost use Rattle.dm_reply.specs.Faults.{cause_kind};
ghost use Rattle.dm_reply.specs.Reads.{OnlyReads};
ghost use Rattle.dm_reply.specs.Unfinished.{LeavesFramed};
ghost use Rattle.dm_reply.specs.Steps.{Nexts, ShowsWant, going, settled, KeepsTo, FramedSays, EndSays};
ghost use Rattle.dm_reply.specs.declared.body.Body.TheVariants as body;
ghost use Rattle.dm_reply.specs.declared.got.Got.TheVariants as got;

use crate::Got;
use crate::ahead::Ahead;
use dm_edge::{MOST_CONTENT, Wire, WireFault, wire_cause};
use dm_policy::Cause;

/// The next bytes of a counted content. It receives at most what is lacking.
pub fn give_counted<W: Wire>(
    ahead: &mut Ahead,
    count: u64,
    given: u64,
    wire: &mut W,
    buf: &mut [u8],
) -> Result<Got, Cause>
    requires room { 0 < length buf.old }
    requires within { (given ≤ count) × (count ≤ most_content) }
    ensures keeps { KeepsTo count given (length buf.old) result }
    ensures all { IfOk result (λ answer. answer ≡ got.End → given ≡ count) }
    ensures says { W.tells → (wanted : Wanted) (head : ResponseHead) (content : List ℕ) → HasFramed wanted head (W.told wire.old).given (going ahead.old (body.Counted count) given) content
        → FramedSays wanted head (W.told wire.new) (settled (going ahead.new (body.Counted count) given) result) result buf.new content }
    ensures unfinished { W.tells → (wanted : Wanted) (head : ResponseHead) (content : List ℕ) → HasFramed wanted head (W.told wire.old).given (going ahead.old (body.Counted count) given) content
        → LeavesFramed wanted head (W.told wire.new).given content result }
    ensures own { IfErr result (λ broke. IsTrue (is_content_cause broke)) }
    ensures reads { OnlyReads W.tells W.told W.purpose W.origin W.wants wire.old wire.new }
    ensures cause { HasCause cause_kind (W.faults wire.old) (W.faults wire.new) result }
    ensures memory { IfErr result (ShowsWant (W.wants wire.old) (W.wants wire.new)) }
{
    if given == count {
        return Ok(Got::End);
    }
    match next(ahead, least(count - given, buf.len()), wire, buf) {
        Ok(0) => Err(Cause::ContentShort {
            have: given,
            wanted: Some(count),
        }),
        Ok(size) => Ok(Got::Bytes(size)),
        Err(fault) => Err(wire_cause(fault)),
    }
}

/// The next bytes of a content that goes on to the connection's end. Behind 2^40 of them it asks for more, and none is to come.
pub fn give_to_end<W: Wire>(
    ahead: &mut Ahead,
    given: u64,
    wire: &mut W,
    buf: &mut [u8],
) -> Result<Got, Cause>
    requires room { 0 < length buf.old }
    requires within { given ≤ most_content }
    ensures keeps { KeepsTo most_content given (length buf.old) result }
    ensures says { W.tells → (wanted : Wanted) (head : ResponseHead) (content : List ℕ) → HasFramed wanted head (W.told wire.old).given (going ahead.old body.ToEnd given) content
        → FramedSays wanted head (W.told wire.new) (settled (going ahead.new body.ToEnd given) result) result buf.new content }
    ensures unfinished { W.tells → (wanted : Wanted) (head : ResponseHead) (content : List ℕ) → HasFramed wanted head (W.told wire.old).given (going ahead.old body.ToEnd given) content
        → LeavesFramed wanted head (W.told wire.new).given content result }
    ensures own { IfErr result (λ broke. IsTrue (is_content_cause broke)) }
    ensures reads { OnlyReads W.tells W.told W.purpose W.origin W.wants wire.old wire.new }
    ensures cause { HasCause cause_kind (W.faults wire.old) (W.faults wire.new) result }
    ensures memory { IfErr result (ShowsWant (W.wants wire.old) (W.wants wire.new)) }
{
    if given == MOST_CONTENT {
        return end_full(ahead, wire);
    }
    match next(ahead, least(MOST_CONTENT - given, buf.len()), wire, buf) {
        Ok(0) => Ok(Got::End),
        Ok(count) => Ok(Got::Bytes(count)),
        Err(fault) => Err(wire_cause(fault)),
    }
}

/// The end of a content that has as many bytes as one may have.
fn end_full<W: Wire>(ahead: &mut Ahead, wire: &mut W) -> Result<Got, Cause>
    ensures no_bytes { IfOk result (λ answer. answer ≡ got.End) }
    ensures says { W.tells → (wanted : Wanted) (head : ResponseHead) (content : List ℕ) → HasFramed wanted head (W.told wire.old).given (going ahead.old body.ToEnd most_content) content
        → EndSays wanted head (W.told wire.new) (going ahead.new body.ToEnd most_content) result content }
    ensures unfinished { W.tells → (wanted : Wanted) (head : ResponseHead) (content : List ℕ) → HasFramed wanted head (W.told wire.old).given (going ahead.old body.ToEnd most_content) content
        → LeavesFramed wanted head (W.told wire.new).given content result }
    ensures own { IfErr result (λ broke. IsTrue (is_content_cause broke)) }
    ensures reads { OnlyReads W.tells W.told W.purpose W.origin W.wants wire.old wire.new }
    ensures cause { HasCause cause_kind (W.faults wire.old) (W.faults wire.new) result }
    ensures memory { IfErr result (ShowsWant (W.wants wire.old) (W.wants wire.new)) }
{
    if !ahead.is_empty() {
        return Err(Cause::TooLarge(MOST_CONTENT + 1));
    }
    match ahead.receive(wire) {
        Ok(0) => Ok(Got::End),
        Ok(_) => Err(Cause::TooLarge(MOST_CONTENT + 1)),
        Err(fault) => Err(wire_cause(fault)),
    }
}

/// The next bytes of the stream, at most so many: those that came already, or else more from the wire. 0 is the end.
pub fn next<W: Wire>(
    ahead: &mut Ahead,
    room: usize,
    wire: &mut W,
    buf: &mut [u8],
) -> Result<usize, WireFault>
    requires { (0 < room) × (room ≤ length buf.old) }
    ensures within { IfOk result (λ n. n ≤ room) }
    ensures told { W.tells → MatchResult result (Nexts (W.told wire.old) (W.told wire.new) ahead.old ahead.new buf.new) (λ _. Stays (W.told wire.old) (W.told wire.new)) }
    ensures in_place { IfErr result (λ _. ahead.old ≡ []) }
    ensures reads { OnlyReads W.tells W.told W.purpose W.origin W.wants wire.old wire.new }
    ensures cause { HasCause wire_kind (W.faults wire.old) (W.faults wire.new) result }
    ensures wants { WantsBy (W.wants wire.old) (W.wants wire.new) result }
{
    if ahead.is_empty() {
        wire.receive(&mut buf[..room])
    } else {
        Ok(ahead.give(room, buf))
    }
}

/// The smaller of the two.
pub fn least(lacking: u64, room: usize) -> usize
    ensures { result ≡ min lacking room }
{
    if lacking < room as u64 {
        lacking as usize
    } else {
        room
    }
}
