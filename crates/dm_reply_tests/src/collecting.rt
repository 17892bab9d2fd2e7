//! A caller that reads a reply to its end, and follows no redirect.
ghost use Rattle.std.specs.Prelude.{◌≡◌, [], IfOk, IfErr};
ghost use Rattle.dm_edge.specs.Wire.{stream_of};
ghost use Rattle.dm_edge.specs.Reply.{IsWhole};
ghost use Rattle.dm_reply_tests.specs.Collected.{CollectBreaks};

use dm_edge::Wire;
use dm_policy::Cause;
use dm_reply::{Got, HeadFault, Kind, ReplyReader, Wanted};
use std::alloc::Global;

/// The content in memory: what a caller learns from the clauses of `head` and `content`.
pub fn collected<W: Wire>(alloc: Global, wire: &mut W, wanted: Wanted) -> Result<Vec<u8>, HeadFault>
    ensures whole { W.tells → (W.told wire.old).given ≡ []
        → IfOk result (λ content. IsWhole wanted (stream_of (W.told wire.new)) content.items) }
    ensures broke { W.tells → (W.told wire.old).given ≡ []
        → IfErr result (CollectBreaks wanted (stream_of (W.told wire.new))) }
{
    let mut reader = match ReplyReader::new(alloc, wanted) {
        Ok(reader) => reader,
        Err(_) => return Err(HeadFault::NoMemory),
    };
    let head = match reader.head(alloc, wire) {
        Ok(head) => head,
        Err(fault) => return Err(fault),
    };
    match head.kind {
        Kind::Content => {}
        Kind::Redirect(_) => return Err(HeadFault::Broke(Cause::TooManyRedirects)),
    }
    let mut content = Vec::new(alloc);
    let mut piece = [0; 4];
    loop {
        match reader.content(wire, &mut piece) {
            Ok(Got::Bytes(count)) => match content.extend_from_slice(&piece[..count]) {
                Ok(()) => {}
                Err(_) => return Err(HeadFault::NoMemory),
            },
            Ok(Got::End) => return Ok(content),
            Err(cause) => return Err(HeadFault::Broke(cause)),
        }
    }
}
