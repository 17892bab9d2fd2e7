//! Content that comes in chunks (RFC 9112, section 7.1).
ghost use Rattle.std.specs.Prelude.{◌≡◌, ◌<◌, ◌≤◌, ◌-◌, ℕ, List, length, min, max, IsTrue, IfErr};
ghost use Rattle.httparse.specs.Grammar.{ResponseHead};
ghost use Rattle.dm_types.specs.Faults.{HasCause};
ghost use Rattle.dm_edge.specs.declared.wanted.Wanted.{Wanted};
ghost use Rattle.dm_edge.specs.Begins.{most_content};
ghost use Rattle.dm_reply.specs.Content.{HasFramed};
ghost use Rattle.dm_edge.specs.Causes.{is_content_cause};
ghost use Rattle.dm_reply.specs.Faults.{cause_kind};
ghost use Rattle.dm_reply.specs.Reads.{OnlyReads};
ghost use Rattle.dm_reply.specs.Unfinished.{LeavesFramed};
ghost use Rattle.dm_reply.specs.Steps.{going, settled, KeepsTo, ShowsWant, FramedSays};
ghost use Rattle.dm_reply.specs.declared.body.Body.TheVariants as body;

use crate::Got;
use crate::ahead::Ahead;
use crate::plain::least;
use dm_chunk::{Chunks, Step};
use dm_edge::{MOST_CONTENT, Wire, wire_cause};
use dm_policy::Cause;

/// The next data of the chunks. Behind 2^40 bytes of it the decoder is still asked for one, and none is to come. The
/// limits on chunk lines and trailers bound what is received before that.
pub fn give_chunked<W: Wire>(
    ahead: &mut Ahead,
    chunks: &mut Chunks,
    given: u64,
    wire: &mut W,
    buf: &mut [u8],
) -> Result<Got, Cause>
    requires room { 0 < length buf.old }
    requires within { given ≤ most_content }
    ensures keeps { KeepsTo most_content given (length buf.old) result }
    ensures says { W.tells → (wanted : Wanted) (head : ResponseHead) (content : List ℕ) → HasFramed wanted head (W.told wire.old).given (going ahead.old (body.Chunked chunks.old) given) content
        → FramedSays wanted head (W.told wire.new) (settled (going ahead.new (body.Chunked chunks.new) given) result) result buf.new content }
    ensures unfinished { W.tells → (wanted : Wanted) (head : ResponseHead) (content : List ℕ) → HasFramed wanted head (W.told wire.old).given (going ahead.old (body.Chunked chunks.old) given) content
        → LeavesFramed wanted head (W.told wire.new).given content result }
    ensures own { IfErr result (λ broke. IsTrue (is_content_cause broke)) }
    ensures reads { OnlyReads W.tells W.told W.purpose W.origin W.wants wire.old wire.new }
    ensures cause { HasCause cause_kind (W.faults wire.old) (W.faults wire.new) result }
    ensures memory { IfErr result (ShowsWant (W.wants wire.old) (W.wants wire.new)) }
{
    let room = room_for(given, buf.len());
    loop {
        match chunks.step(ahead.bytes(), room) {
            Step::Data { from, count } => {
                if given == MOST_CONTENT {
                    return Err(Cause::TooLarge(MOST_CONTENT + 1));
                }
                ahead.give_behind(from, count, buf);
                return Ok(Got::Bytes(count));
            }
            Step::End(count) => {
                ahead.pass(count);
                return Ok(Got::End);
            }
            Step::Broken => return Err(Cause::BadFraming),
            Step::More => match ahead.refill(wire) {
                Ok(0) => {
                    return Err(Cause::ContentShort {
                        have: given,
                        wanted: None,
                    });
                }
                Ok(_) => {}
                Err(fault) => return Err(wire_cause(fault)),
            },
        }
    }
}

/// How much is asked of the decoder: what the caller takes and a content may still have, or the one byte that is too much.
fn room_for(given: u64, room: usize) -> usize
    requires some { 0 < room }
    requires within { given ≤ most_content }
    ensures { result ≡ max 1 (min (most_content - given) room) }
{
    least(MOST_CONTENT - given, room).max(1)
}
