//! One connection: the request, and the head of the reply.
ghost use Rattle.std.specs.Prelude.{◌≡◌, ◌<◌, ℕ, IsTrue, IfOk, IfErr};
ghost use Rattle.dm_types.specs.Faults.{NoneFell};
ghost use Rattle.dm_edge.specs.Wire.{stream_of, IsFresh};
ghost use Rattle.dm_edge.specs.declared.fault.WireFault.{WireFault as OnWire};
ghost use Rattle.dm_reply.specs.Content.{unread, HeadSays};
ghost use Rattle.dm_reply.specs.declared.head.Kind.TheVariants as kind;
ghost use Rattle.dm_ask.specs.Following as following;
ghost use Rattle.dm_ask.specs.Following.{IsHeard, TalkBroke, ShowsOn, SentBy, SentWith, IsContent, MeetsNone, ShownOn, IsAnswered, NoneSays, NoneShown, LeadsFor};
ghost use Rattle.dm_ask.specs.Causes.{is_talk_cause};
ghost use Rattle.dm_ask.specs.Redirects.{purpose_of};

use crate::aim::Aim;
use crate::key::key_for;
use dm_edge::{Net, Wanted, Wire, net_cause, wire_cause};
use dm_policy::Cause;
use dm_reply::{Head, HeadFault, Kind, ReplyReader};
use dm_types::{Attempt, ItemId, Key, NoMemory, Text};
use std::alloc::Global;

/// A head that content follows, and the key of the content.
#[derive(Drop)]
struct Heard {
    head: Head,
    key: Key,
}

/// A connection whose head was read, and content follows.
pub struct Answered<W> {
    pub wire: W,
    pub reader: ReplyReader,
    pub head: Head,
    pub key: Key,
}

/// Why a connection brings no content.
#[derive(Drop)]
pub enum NoContent {
    /// Its reply leads to this Location.
    Redirect(Text),
    Broke(Cause),
}

fn head_cause(fault: HeadFault) -> Cause
    ensures { result ≡ following.head_cause fault }
{
    match fault {
        HeadFault::Broke(cause) => cause,
        HeadFault::NoMemory => Cause::Memory,
    }
}

/// Sends the request, and reads the head of the reply.
fn talk<W: Wire>(
    alloc: Global,
    wire: &mut W,
    request: &[u8],
    reader: &mut ReplyReader,
) -> Result<Head, Cause>
    requires unread { reader.old ≡ unread reader.old.wanted }
    ensures says { W.tells → IsFresh (W.told wire.old) → IfOk result (HeadSays reader.old.wanted (W.told wire.new) reader.new) }
    ensures heard { IfOk result (IsHeard reader.old.wanted reader.new) }
    ensures broke { W.tells → IsFresh (W.told wire.old)
        → IfErr result (TalkBroke reader.old.wanted (W.faults wire.new) (stream_of (W.told wire.new))) }
    ensures sent { W.tells → IsFresh (W.told wire.old) → SentBy (W.faults wire.new) request.now (W.told wire.new).sent result }
    ensures own { IfErr result (λ broke. IsTrue (is_talk_cause broke)) }
    ensures shown { IfErr result (ShowsOn (W.faults wire.new)) }
    ensures stays { (W.purpose wire.new ≡ W.purpose wire.old) × (W.origin wire.new ≡ W.origin wire.old) }
{
    match wire.send(request) {
        Ok(()) => {}
        Err(fault) => return Err(wire_cause(fault)),
    }
    match reader.head(alloc, wire) {
        Ok(head) => Ok(head),
        Err(fault) => Err(head_cause(fault)),
    }
}

/// The head, where content follows, and else the Location that it leads to.
fn content_of(head: Head) -> Result<Head, Text>
    ensures content { IfOk result (λ same. (same ≡ head) × (head.kind ≡ kind.Content)) }
    ensures redirect { IfErr result (λ location. head.kind ≡ kind.Redirect location) }
{
    let Head {
        kind,
        status,
        strong,
        first,
        last,
        total,
        ranges,
        disposition,
        modified,
    } = head;
    match kind {
        Kind::Content => Ok(Head {
            kind: Kind::Content,
            status,
            strong,
            first,
            last,
            total,
            ranges,
            disposition,
            modified,
        }),
        Kind::Redirect(location) => Err(location),
    }
}

/// Sends the request, and reads a head that content follows.
fn converse<W: Wire>(
    alloc: Global,
    wire: &mut W,
    request: &[u8],
    reader: &mut ReplyReader,
    id: ItemId,
    attempt: Attempt,
) -> Result<Heard, NoContent>
    requires unread { reader.old ≡ unread reader.old.wanted }
    ensures says { W.tells → IsFresh (W.told wire.old) → IfOk result (λ heard. HeadSays reader.old.wanted (W.told wire.new) reader.new heard.head) }
    ensures heard { IfOk result (λ heard. IsContent reader.old.wanted (purpose_of id attempt) reader.new heard.head heard.key) }
    ensures none { W.tells → IsFresh (W.told wire.old)
        → IfErr result (MeetsNone reader.old.wanted (W.faults wire.new) (stream_of (W.told wire.new))) }
    ensures sent { W.tells → IsFresh (W.told wire.old) → SentWith (W.faults wire.new) request.now (W.told wire.new).sent result }
    ensures leads { IfErr result (LeadsFor reader.old.wanted) }
    ensures shown { IfErr result (ShownOn (W.faults wire.new)) }
    ensures stays { (W.purpose wire.new ≡ W.purpose wire.old) × (W.origin wire.new ≡ W.origin wire.old) }
{
    let told = match talk(alloc, wire, request, reader) {
        Ok(told) => told,
        Err(cause) => return Err(NoContent::Broke(cause)),
    };
    let head = match content_of(told) {
        Ok(head) => head,
        Err(location) => return Err(NoContent::Redirect(location)),
    };
    match key_for(alloc, &head, id, attempt) {
        Ok(key) => Ok(Heard { head, key }),
        Err(NoMemory) => Err(NoContent::Broke(Cause::Memory)),
    }
}

/// Asks on a new connection. It is handed back, unless content follows.
fn hear<N: Net>(
    alloc: Global,
    net: &mut N,
    wire: N::W,
    aim: &Aim,
    reader: ReplyReader,
    id: ItemId,
    attempt: Attempt,
) -> Result<Answered<N::W>, NoContent>
    requires unread { reader ≡ unread reader.wanted }
    requires unfailed { (kind : OnWire) → N.W.faults wire kind ≡ 0 }
    ensures content { N.W.tells → IsFresh (N.W.told wire) → N.W.purpose wire ≡ purpose_of id attempt aim.now.address
        → IfOk result (λ answered. IsAnswered reader.wanted (purpose_of id attempt aim.now.address) aim.now.request
        (N.W.purpose answered.wire) (N.W.told answered.wire) answered.reader answered.head) }
    ensures heard { IfOk result (λ answered. IsContent reader.wanted (purpose_of id attempt) answered.reader answered.head answered.key) }
    ensures closed { IfOk result (λ _. N.closed net.new ≡ N.closed net.old) }
    ensures none { N.tells → IsFresh (N.W.told wire) → N.W.purpose wire ≡ purpose_of id attempt aim.now.address
        → IfErr result (NoneSays reader.wanted (purpose_of id attempt aim.now.address) aim.now.request
        (N.faults net.old) (N.faults net.new) (N.closed net.old) (N.closed net.new)) }
    ensures leads { IfErr result (LeadsFor reader.wanted) }
    ensures shown { IfErr result (NoneShown (N.faults net.old) (N.faults net.new)) }
    ensures origin { IfOk result (λ answered. N.W.origin answered.wire ≡ N.W.origin wire) }
    ensures stays { N.origin_of net.new ≡ N.origin_of net.old }
    ensures later { NoneFell (N.faults net.old) (N.faults net.new) }
{
    let mut wire = wire;
    let mut reader = reader;
    match converse(
        alloc,
        &mut wire,
        aim.request.bytes(),
        &mut reader,
        id,
        attempt,
    ) {
        Ok(Heard { head, key }) => Ok(Answered {
            wire,
            reader,
            head,
            key,
        }),
        Err(none) => {
            net.close(wire);
            Err(none)
        }
    }
}

/// Connects for the address, and asks for what is wanted.
pub fn ask_once<N: Net>(
    alloc: Global,
    net: &mut N,
    aim: &Aim,
    id: ItemId,
    attempt: Attempt,
    wanted: Wanted,
) -> Result<Answered<N::W>, NoContent>
    ensures content { N.W.tells
        → IfOk result (λ answered. IsAnswered wanted (purpose_of id attempt aim.now.address) aim.now.request
        (N.W.purpose answered.wire) (N.W.told answered.wire) answered.reader answered.head) }
    ensures heard { IfOk result (λ answered. IsContent wanted (purpose_of id attempt) answered.reader answered.head answered.key) }
    ensures closed { IfOk result (λ _. N.closed net.new ≡ N.closed net.old) }
    ensures none { N.tells
        → IfErr result (NoneSays wanted (purpose_of id attempt aim.now.address) aim.now.request
        (N.faults net.old) (N.faults net.new) (N.closed net.old) (N.closed net.new)) }
    ensures leads { IfErr result (LeadsFor wanted) }
    ensures shown { IfErr result (NoneShown (N.faults net.old) (N.faults net.new)) }
    ensures origin { IfOk result (λ answered. N.W.origin answered.wire ≡ N.origin_of net.old) }
    ensures stays { N.origin_of net.new ≡ N.origin_of net.old }
    ensures later { NoneFell (N.faults net.old) (N.faults net.new) }
{
    let reader = match ReplyReader::new(alloc, wanted) {
        Ok(reader) => reader,
        Err(NoMemory) => return Err(NoContent::Broke(Cause::Memory)),
    };
    match net.connect(alloc, &aim.address, id, attempt) {
        Ok(wire) => hear(alloc, net, wire, aim, reader, id, attempt),
        Err(fault) => Err(NoContent::Broke(net_cause(fault))),
    }
}
