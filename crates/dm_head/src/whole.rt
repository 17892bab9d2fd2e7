//! What a whole head says.
ghost use Rattle.std.specs.Prelude.{◌≡◌, List, codes, false, map, ℕ};
ghost use Rattle.httparse.specs.Spans.{header_bytes};
ghost use Rattle.dm_edge.specs.Fields.{values_of as all_values};
ghost use Rattle.dm_edge.specs.Head.{is_interim as interim};
ghost use Rattle.dm_edge.specs.declared.wanted.Wanted.TheVariants.{Part, Whole};
ghost use Rattle.dm_head.specs.Look.{Finds};
ghost use Rattle.dm_head.specs.Values.{AreValues};
ghost use Rattle.dm_head.specs.Whole.{HasWhole, IsFramed, IsKind};
ghost use Rattle.dm_head.specs.declared.fields.Values.TheVariants.{One};
ghost use Rattle.dm_head.specs.declared.framing.Framed.TheVariants.{Good};
ghost use Rattle.dm_head.specs.declared.whole.Kind.TheVariants.{Content, Redirect};

use crate::fields::{Values, values_of};
use crate::framing::{Framed, framed_by};
use crate::look::Look;
use crate::metadata::metadata_of;
use crate::part::{Fit, fit_of};
use dm_edge::{Framing, Wanted};
use dm_policy::Cause;
use httparse::spans::{HeaderSpan, ResponseSpans, Span};

/// What a status leads to (RFC 9110, section 15).
#[derive(Clone, Copy)]
enum Kind {
    Interim,
    /// What is wanted.
    Content,
    Redirect,
    /// No part, where a part is wanted.
    Refusal,
    Other,
}

/// What the whole head at the front is, where this is wanted.
pub fn look_at_whole(
    front: &[u8],
    head: &ResponseSpans,
    fields: &[HeaderSpan],
    wanted: &Wanted,
) -> Look
    requires whole { HasWhole front.now head.now fields.now }
    ensures { Finds wanted.now front.now result }
{
    match kind_of(head.code, wanted) {
        Kind::Interim => Look::Interim {
            size: head.len,
            status: head.code,
        },
        Kind::Content => content_of(front, head, fields, wanted),
        Kind::Redirect => redirect_of(front, head, fields, wanted),
        Kind::Refusal => Look::Refused(Cause::RangeRefused(head.code)),
        Kind::Other => Look::Refused(Cause::Status(head.code)),
    }
}

fn kind_of(status: u16, wanted: &Wanted) -> Kind
    ensures { IsKind wanted.now status result }
{
    if is_interim(status) {
        return Kind::Interim;
    }
    match wanted {
        Wanted::Whole => kind_of_whole(status),
        Wanted::Part { .. } => kind_of_part(status),
    }
}

fn is_interim(status: u16) -> bool
    ensures { result ≡ interim status }
{
    matches!(status, 100 | 102..=199)
}

/// What a status leads to that isn't interim, where the whole content is wanted.
fn kind_of_whole(status: u16) -> Kind
    requires { interim status ≡ false }
    ensures { IsKind Whole status result }
{
    match status {
        200 => Kind::Content,
        301 | 302 | 303 | 307 | 308 => Kind::Redirect,
        _ => Kind::Other,
    }
}

/// What a status leads to that isn't interim, where a part is wanted.
fn kind_of_part(status: u16) -> Kind
    requires { interim status ≡ false }
    ensures { (first last : ℕ) (tag : List ℕ) (total : ℕ) → IsKind (Part first last tag total) status result }
{
    match status {
        206 => Kind::Content,
        200 | 301 | 302 | 303 | 307 | 308 | 416 => Kind::Refusal,
        _ => Kind::Other,
    }
}

fn content_of(front: &[u8], head: &ResponseSpans, fields: &[HeaderSpan], wanted: &Wanted) -> Look
    requires whole { HasWhole front.now head.now fields.now }
    requires of_kind { IsKind wanted.now head.now.code Content }
    ensures { Finds wanted.now front.now result }
{
    match framed_by(front, head.version, fields) {
        Framed::Good(framing) => fitted(front, head, fields, wanted, framing),
        Framed::Encoded => Look::Refused(Cause::Encoded),
        Framed::Unframeable => Look::Refused(Cause::BadFraming),
    }
}

/// A head whose content can be read, where it is of the wanted content.
fn fitted(
    front: &[u8],
    head: &ResponseSpans,
    fields: &[HeaderSpan],
    wanted: &Wanted,
    framing: Framing,
) -> Look
    requires whole { HasWhole front.now head.now fields.now }
    requires of_kind { IsKind wanted.now head.now.code Content }
    requires good { IsFramed head.now.version (map (header_bytes front.now) fields.now) (Good framing) }
    ensures { Finds wanted.now front.now result }
{
    match fit_of(front, fields, wanted, framing) {
        Fit::Fits(extent) => Look::Content {
            start: head.len,
            framing,
            extent,
            metadata: metadata_of(front, fields),
        },
        Fit::OtherPart => Look::Refused(Cause::RangeRefused(head.code)),
        Fit::OtherSize => Look::Refused(Cause::BadFraming),
        Fit::TooLarge(total) => Look::Refused(Cause::TooLarge(total)),
    }
}

fn redirect_of(front: &[u8], head: &ResponseSpans, fields: &[HeaderSpan], wanted: &Wanted) -> Look
    requires whole { HasWhole front.now head.now fields.now }
    requires of_kind { IsKind wanted.now head.now.code Redirect }
    ensures { Finds wanted.now front.now result }
{
    match values_of(front, fields, b"location") {
        Values::One(location) => redirect_to(front, head, fields, wanted, location),
        Values::Absent => Look::Refused(Cause::BadHead),
        Values::Several => Look::Refused(Cause::BadHead),
    }
}

fn redirect_to(
    front: &[u8],
    head: &ResponseSpans,
    fields: &[HeaderSpan],
    wanted: &Wanted,
    location: Span,
) -> Look
    requires whole { HasWhole front.now head.now fields.now }
    requires of_kind { IsKind wanted.now head.now.code Redirect }
    requires only { AreValues front.now (One location) (all_values (codes "location") (map (header_bytes front.now) fields.now)) }
    ensures { Finds wanted.now front.now result }
{
    match framed_by(front, head.version, fields) {
        Framed::Good(_) => Look::Redirect {
            status: head.code,
            location,
            metadata: metadata_of(front, fields),
        },
        Framed::Encoded => Look::Refused(Cause::Encoded),
        Framed::Unframeable => Look::Refused(Cause::BadFraming),
    }
}
