//! A whole head, and what it makes of the reader.
ghost use Rattle.std.specs.Prelude.{◌≡◌, ◌≤◌, length, drop, IfOk, IfErr, IfSome};
ghost use Rattle.std.specs.Option.{option_map};
ghost use Rattle.httparse.specs.Spans.{IsWithin, span_bytes};
ghost use Rattle.dm_edge.specs.Begins.{KeepsLimit, most_content};
ghost use Rattle.dm_reply.specs.Content.{extent_of};
ghost use Rattle.dm_reply.specs.Found.{AreShort, AreWithin, HasTexts, IsShortHead, Starts, IsContentHead, IsRedirectHead};
ghost use Rattle.dm_reply.specs.Steps.{most_of};
ghost use Rattle.dm_reply.specs.declared.head.HeadFault.TheVariants as faults;

use crate::ahead::Ahead;
use crate::body::Body;
use crate::{Head, HeadFault, Kind};
use dm_chunk::Chunks;
use dm_edge::Framing;
use dm_head::{Extent, Metadata};
use dm_types::Text;
use httparse::spans::Span;
use std::alloc::Global;

/// No bytes come.
const NO_EXTENT: Extent = Extent {
    first: 0,
    last: None,
    total: None,
};

/// A head, and how its content is to be read.
#[derive(Drop)]
pub struct Found {
    pub head: Head,
    pub body: Body,
}

/// A head with content of this status, which begins at this place ahead.
pub fn content_head(
    alloc: Global,
    ahead: &mut Ahead,
    status: u16,
    start: usize,
    framing: Framing,
    extent: Extent,
    metadata: Metadata,
) -> Result<Found, HeadFault>
    requires within { (start ≤ length ahead.old) × AreWithin (length ahead.old) metadata }
    requires limit { KeepsLimit framing }
    requires short { AreShort ahead.old metadata }
    ensures found { IfOk result (IsContentHead status framing extent ahead.old metadata) }
    ensures short { IfOk result (λ found. IsShortHead found.head) }
    ensures limit { IfOk result (λ found. most_of found.body ≤ most_content) }
    ensures after { IfOk result (λ _. ahead.new ≡ drop start ahead.old) }
    ensures memory { IfErr result (λ fault. fault ≡ faults.NoMemory) }
{
    let head = match head_of(alloc, ahead, Kind::Content, status, extent, metadata) {
        Ok(head) => head,
        Err(fault) => return Err(fault),
    };
    ahead.pass(start);
    Ok(Found {
        head,
        body: body_of(framing),
    })
}

/// A head that leads to another address.
pub fn redirect_head(
    alloc: Global,
    ahead: &Ahead,
    status: u16,
    location: Span,
    metadata: Metadata,
) -> Result<Found, HeadFault>
    requires within { IsWithin (length ahead.now) location × AreWithin (length ahead.now) metadata }
    requires short { AreShort ahead.now metadata }
    ensures found { IfOk result (IsRedirectHead status (span_bytes ahead.now location) ahead.now metadata) }
    ensures short { IfOk result (λ found. IsShortHead found.head) }
    ensures limit { IfOk result (λ found. most_of found.body ≤ most_content) }
    ensures memory { IfErr result (λ fault. fault ≡ faults.NoMemory) }
{
    let location = match text_at(alloc, ahead, location) {
        Ok(location) => location,
        Err(fault) => return Err(fault),
    };
    match head_of(
        alloc,
        ahead,
        Kind::Redirect(location),
        status,
        NO_EXTENT,
        metadata,
    ) {
        Ok(head) => Ok(Found {
            head,
            body: Body::ToEnd,
        }),
        Err(fault) => Err(fault),
    }
}

/// A head of this kind, with what its fields say of the content.
fn head_of(
    alloc: Global,
    ahead: &Ahead,
    kind: Kind,
    status: u16,
    extent: Extent,
    metadata: Metadata,
) -> Result<Head, HeadFault>
    requires within { AreWithin (length ahead.now) metadata }
    requires short { AreShort ahead.now metadata }
    ensures kind { IfOk result (λ head. head.kind ≡ kind) }
    ensures status { IfOk result (λ head. head.status ≡ status) }
    ensures extent { IfOk result (λ head. extent_of head ≡ extent) }
    ensures texts { IfOk result (HasTexts ahead.now metadata) }
    ensures short { IfOk result IsShortHead }
    ensures memory { IfErr result (λ fault. fault ≡ faults.NoMemory) }
{
    let Metadata {
        strong,
        ranges,
        disposition,
        modified,
    } = metadata;
    let Extent { first, last, total } = extent;
    let strong = match text_if(alloc, ahead, strong) {
        Ok(strong) => strong,
        Err(fault) => return Err(fault),
    };
    let disposition = match text_if(alloc, ahead, disposition) {
        Ok(disposition) => disposition,
        Err(fault) => return Err(fault),
    };
    match text_at(alloc, ahead, modified) {
        Ok(modified) => Ok(Head {
            kind,
            status,
            strong,
            first,
            last,
            total,
            ranges,
            disposition,
            modified,
        }),
        Err(fault) => Err(fault),
    }
}

/// The bytes ahead that the span covers, where there is one.
fn text_if(alloc: Global, ahead: &Ahead, span: Option<Span>) -> Result<Option<Text>, HeadFault>
    requires { IfSome span (IsWithin (length ahead.now)) }
    ensures text { IfOk result (λ text. text ≡ option_map (span_bytes ahead.now) span) }
    ensures memory { IfErr result (λ fault. fault ≡ faults.NoMemory) }
{
    match span {
        Some(span) => match text_at(alloc, ahead, span) {
            Ok(text) => Ok(Some(text)),
            Err(fault) => Err(fault),
        },
        None => Ok(None),
    }
}

/// The bytes ahead that the span covers.
fn text_at(alloc: Global, ahead: &Ahead, span: Span) -> Result<Text, HeadFault>
    requires { IsWithin (length ahead.now) span }
    ensures text { IfOk result (λ text. text ≡ span_bytes ahead.now span) }
    ensures memory { IfErr result (λ fault. fault ≡ faults.NoMemory) }
{
    match Text::from_bytes(alloc, &ahead.bytes()[span.start..span.end]) {
        Ok(text) => Ok(text),
        Err(_) => Err(HeadFault::NoMemory),
    }
}

/// The framing as the reader keeps it, at the content's first byte.
fn body_of(framing: Framing) -> Body
    requires { KeepsLimit framing }
    ensures starts { Starts framing result }
    ensures limit { most_of result ≤ most_content }
{
    match framing {
        Framing::Counted(count) => Body::Counted(count),
        Framing::ToEnd => Body::ToEnd,
        Framing::Chunked => Body::Chunked(Chunks::new()),
    }
}
