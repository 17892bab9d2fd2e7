//! What a head says of its content beside the framing (RFC 9110, sections 8.8 and 14.3; RFC 6266).
ghost use Rattle.std.specs.Prelude.{◌≡◌, ◌↔◌, ◌≤◌, All, IsTrue, codes, false, length, map};
ghost use Rattle.httparse.specs.Spans.{IsHeaderWithin, IsWithin, header_bytes, span_bytes};
ghost use Rattle.dm_edge.specs.Fields.{values_of as all_values};
ghost use Rattle.dm_tag.specs.Tag.{IsTag};
ghost use Rattle.dm_edge.specs.Metadata.{most_tag, most_modified, only_within, TakesRanges, NamesRanges};
ghost use Rattle.dm_head.specs.Metadata.{IsMetadata, CoversStrong, CoversOnly, IsKeptTag};
ghost use Rattle.dm_head.specs.Values.{kept};

use crate::fields::{Values, is_named, values_of};
use dm_edge::{MOST_MODIFIED, MOST_TAG};
use dm_tag::{read_tag, takes_ranges};
use httparse::spans::{HeaderSpan, Span};

/// Covers no byte.
const NOTHING: Span = Span { start: 0, end: 0 };

/// What a head says of its content beside the framing.
#[derive(Clone, Copy, Debug, PartialEq, Eq)]
pub struct Metadata {
    /// Covers the strong entity tag with its quotes: the only ETag, of at most 1,024 bytes, where it
    /// is a tag and not a weak one.
    pub strong: Option<Span>,
    /// Whether some Accept-Ranges names bytes.
    pub ranges: bool,
    /// Covers the value of the only Content-Disposition.
    pub disposition: Option<Span>,
    /// Covers the value of the only Last-Modified, of at most 128 bytes, or nothing.
    pub modified: Span,
}

/// What the fields of a head say of its content.
pub fn metadata_of(head: &[u8], fields: &[HeaderSpan]) -> Metadata
    requires { All (IsHeaderWithin (length head.now)) fields.now }
    ensures { IsMetadata head.now (map (header_bytes head.now) fields.now) result }
{
    Metadata {
        strong: strong_of(head, fields),
        ranges: names_ranges(head, fields),
        disposition: only_of(head, fields),
        modified: modified_of(head, fields),
    }
}

/// Covers the strong entity tag (RFC 9110, section 8.8.3).
pub fn strong_of(head: &[u8], fields: &[HeaderSpan]) -> Option<Span>
    requires { All (IsHeaderWithin (length head.now)) fields.now }
    ensures { CoversStrong head.now (map (header_bytes head.now) fields.now) result }
{
    match values_of(head, fields, b"etag") {
        Values::One(value) => kept_tag(head, value),
        Values::Absent => None,
        Values::Several => None,
    }
}

/// The span, where it covers a strong tag that is kept.
fn kept_tag(head: &[u8], value: Span) -> Option<Span>
    requires { IsWithin (length head.now) value }
    ensures { IsKeptTag head.now value result }
{
    if is_strong(value.of(head)) {
        Some(value)
    } else {
        None
    }
}

/// Whether the value is an entity tag that isn't weak, and short enough.
fn is_strong(value: &[u8]) -> bool
    ensures { IsTrue result ↔ IsTag value.now false value.now × (length value.now ≤ most_tag) }
{
    match read_tag(value) {
        Some(tag) => !tag.weak && value.len() <= MOST_TAG,
        None => false,
    }
}

/// Whether some Accept-Ranges names bytes (RFC 9110, section 14.3).
fn names_ranges(head: &[u8], fields: &[HeaderSpan]) -> bool
    requires { All (IsHeaderWithin (length head.now)) fields.now }
    ensures { IsTrue result ↔ TakesRanges (map (header_bytes head.now) fields.now) }
{
    for field in fields {
        if names_bytes(head, field) {
            return true;
        }
    }
    false
}

fn names_bytes(head: &[u8], field: &HeaderSpan) -> bool
    requires { IsHeaderWithin (length head.now) field.now }
    ensures { IsTrue result ↔ NamesRanges (header_bytes head.now field.now) }
{
    is_named(head, field, b"accept-ranges") && takes_ranges(field.value.of(head))
}

/// Covers the value of the only Content-Disposition (RFC 6266).
fn only_of(head: &[u8], fields: &[HeaderSpan]) -> Option<Span>
    requires { All (IsHeaderWithin (length head.now)) fields.now }
    ensures { CoversOnly head.now (all_values (codes "content-disposition") (map (header_bytes head.now) fields.now)) result }
{
    match values_of(head, fields, b"content-disposition") {
        Values::One(value) => Some(value),
        Values::Absent => None,
        Values::Several => None,
    }
}

/// Covers the value of Last-Modified where exactly one such field stands with at most 128 bytes, and
/// else nothing (RFC 9110, section 8.8.2).
fn modified_of(head: &[u8], fields: &[HeaderSpan]) -> Span
    requires { All (IsHeaderWithin (length head.now)) fields.now }
    ensures within { IsWithin (length head.now) result }
    ensures is { span_bytes head.now result ≡ only_within most_modified (all_values (codes "last-modified") (map (header_bytes head.now) fields.now)) }
{
    match values_of(head, fields, b"last-modified") {
        Values::One(value) => short(value),
        Values::Absent => NOTHING,
        Values::Several => NOTHING,
    }
}

/// The span, where it keeps the limit, and else nothing.
fn short(value: Span) -> Span
    requires { value.start ≤ value.end }
    ensures { result ≡ kept value }
{
    if value.end - value.start <= MOST_MODIFIED {
        value
    } else {
        NOTHING
    }
}
