//! Receives the head.
ghost use Rattle.std.specs.Prelude.{◌≡◌, ◌<◌, ◌≤◌, ℕ, [], length, false, IfOk, IfErr};
ghost use Rattle.dm_types.specs.Faults.{HasCause, NoneFell};
ghost use Rattle.dm_edge.specs.Wire.{stream_of};
ghost use Rattle.dm_edge.specs.Head.{most_head, IsHeadCut};
ghost use Rattle.dm_edge.specs.Begins.{most_content};
ghost use Rattle.dm_edge.specs.declared.fault.WireFault.{WireFault as OnWire};
ghost use Rattle.dm_reply.specs.Ahead.{Continues, LeftBy, ShownBy, HeadShows};
ghost use Rattle.dm_reply.specs.Causes.{IsHeadFault};
ghost use Rattle.dm_reply.specs.Content.{HeadSays, HeadBreaks, IsFramedAs, IsPlainHead};
ghost use Rattle.dm_reply.specs.Faults.{head_kind};
ghost use Rattle.dm_edge.specs.declared.wanted.Wanted.{Wanted};
ghost use Rattle.dm_reply.specs.Found.{MoreSays, started};
ghost use Rattle.dm_reply.specs.Reads.{OnlyReads};
ghost use Rattle.dm_reply.specs.Unfinished.{LeavesHead};
ghost use Rattle.dm_reply.specs.Steps.{most_of, head_fault_of};
ghost use Rattle.dm_reply.specs.declared.receiving.Came.TheVariants as came_as;

use crate::HeadFault;
use crate::ahead::Ahead;
use crate::found::{Found, content_head, redirect_head};
use crate::lines::Lines;
use crate::part::content_status;
use dm_edge::{MOST_HEAD, MOST_INTERIM, Wanted, Wire, WireFault};
use dm_head::{Look, look_at};
use dm_policy::Cause;
use std::alloc::Global;

/// What the last receives brought.
#[derive(Clone, Copy)]
pub enum Came {
    /// Bytes, and more may come.
    Bytes,
    /// The stream's end.
    End,
    Fault(WireFault),
}

/// Receives until a head is there whole that isn't interim. Each turn but the last takes at least one byte of a head, of
/// at most 65,536, passes one over, or ends the receiving.
pub fn receive_head<W: Wire>(
    alloc: Global,
    wanted: &Wanted,
    ahead: &mut Ahead,
    wire: &mut W,
) -> Result<Found, HeadFault>
    requires { ahead.old ≡ [] }
    ensures says { W.tells → (W.told wire.old).given ≡ []
        → IfOk result (λ found. HeadSays wanted.now (W.told wire.new) (started wanted.now ahead.new found) found.head) }
    ensures plain { IfOk result (λ found. IsPlainHead wanted.now found.head) }
    ensures framed { IfOk result (λ found. IsFramedAs wanted.now found.head (started wanted.now ahead.new found) found.head.kind) }
    ensures limit { IfOk result (λ found. most_of found.body ≤ most_content) }
    ensures broke { W.tells → (W.told wire.old).given ≡ [] → IfErr result (HeadBreaks wanted.now (stream_of (W.told wire.new))) }
    ensures unfinished { W.tells → (W.told wire.old).given ≡ [] → IfErr result (LeavesHead (W.told wire.new).given) }
    ensures own { IfErr result IsHeadFault }
    ensures reads { OnlyReads W.tells W.told W.purpose W.origin W.wants wire.old wire.new }
    ensures cause { HasCause head_kind (W.faults wire.old) (W.faults wire.new) result }
{
    let mut passed = 0;
    let mut came = Came::Bytes;
    loop {
        match look_at(ahead.bytes(), wanted) {
            Look::Interim { size, status } => {
                if passed == MOST_INTERIM {
                    return Err(HeadFault::Broke(Cause::Status(status)));
                }
                ahead.pass(size);
                passed += 1;
            }
            Look::Content {
                start,
                framing,
                extent,
                metadata,
            } => {
                let status = content_status(wanted);
                return content_head(alloc, ahead, status, start, framing, extent, metadata);
            }
            Look::Redirect {
                status,
                location,
                metadata,
            } => return redirect_head(alloc, ahead, status, location, metadata),
            Look::Refused(cause) => return Err(HeadFault::Broke(cause)),
            Look::Open => match receive_more(ahead, wire, came) {
                Ok(next) => came = next,
                Err(fault) => return Err(fault),
            },
        }
    }
}

/// Receives behind an open head, where more may come.
fn receive_more<W: Wire>(ahead: &mut Ahead, wire: &mut W, came: Came) -> Result<Came, HeadFault>
    requires { IsHeadCut ahead.old }
    ensures size { IfOk result (λ _. length ahead.new ≤ most_head) }
    ensures grows { IfOk result (λ next. (came ≡ came_as.Bytes) × (length ahead.old ≤ length ahead.new)
        × (next ≡ came_as.Bytes → length ahead.old < length ahead.new)) }
    ensures says { W.tells → LeftBy (W.told wire.old) came → (wanted : Wanted) → MoreSays wanted (W.told wire.old) (W.told wire.new) ahead.old ahead.new result }
    ensures left { W.tells → IfOk result (LeftBy (W.told wire.new)) }
    ensures own { IfErr result IsHeadFault }
    ensures reads { OnlyReads W.tells W.told W.purpose W.origin W.wants wire.old wire.new }
    ensures later { NoneFell (W.faults wire.old) (W.faults wire.new) }
    ensures shown { IfOk result (ShownBy (W.faults wire.old) (W.faults wire.new)) }
    ensures cause { (before : OnWire → ℕ) → ShownBy before (W.faults wire.old) came → IfErr result (HeadShows before (W.faults wire.new)) }
{
    match came {
        Came::Bytes => Ok(receive_on(ahead, wire)),
        Came::End => Err(HeadFault::Broke(Cause::HeadCut)),
        Came::Fault(fault) => Err(head_fault_of(fault)),
    }
}

/// Receives behind the first bytes of a head until looking at it again may tell more: a line that is empty came behind
/// one that isn't, as much came again as was looked at, the head is as long as one may be, or nothing more comes. So a
/// head that comes byte by byte isn't looked at for each of them.
fn receive_on<W: Wire>(ahead: &mut Ahead, wire: &mut W) -> Came
    requires { length ahead.old < most_head }
    ensures size { (length ahead.old ≤ length ahead.new) × (length ahead.new ≤ most_head) }
    ensures grows { result ≡ came_as.Bytes → length ahead.old < length ahead.new }
    ensures on { W.tells → Continues (W.told wire.old) (W.told wire.new) ahead.old ahead.new }
    ensures left { W.tells → LeftBy (W.told wire.new) result }
    ensures reads { OnlyReads W.tells W.told W.purpose W.origin W.wants wire.old wire.new }
    ensures later { NoneFell (W.faults wire.old) (W.faults wire.new) }
    ensures shown { ShownBy (W.faults wire.old) (W.faults wire.new) result }
{
    let looked = ahead.bytes().len();
    let mut lines = Lines::NONE.after(ahead.bytes());
    loop {
        let before = ahead.bytes().len();
        match ahead.receive(wire) {
            Ok(0) => return Came::End,
            Ok(_) => {}
            Err(fault) => return Came::Fault(fault),
        }
        lines = lines.after(ahead.behind(before));
        if is_due(lines, looked, ahead.bytes().len()) {
            return Came::Bytes;
        }
    }
}

/// Whether a head of so many bytes, of which the first were looked at, is looked at again.
fn is_due(lines: Lines, looked: usize, length: usize) -> bool
    requires within { length ≤ most_head }
    requires order { looked ≤ length }
    ensures { result ≡ false → length < most_head }
{
    lines.ended || length - looked >= looked || length == MOST_HEAD
}

/// What a fault of the wire is while the head is read.
fn head_fault_of(fault: WireFault) -> HeadFault
    ensures { result ≡ head_fault_of fault }
{
    match fault {
        WireFault::Failed => HeadFault::Broke(Cause::NetFailed),
        WireFault::Timeout => HeadFault::Broke(Cause::NetTimeout),
        WireFault::NoMemory => HeadFault::NoMemory,
    }
}
