//! Whether a head is of the content that is wanted: whole, or the asked part (RFC 9110, sections 14.4 and 15.3.7).
ghost use Rattle.std.specs.Prelude.{◌≡◌, ◌↔◌, ◌≤◌, ◌<◌, ◌^◌, ◌-◌, All, IfNone, IfSome, IsTrue, List, Option, length, map, ℕ};
ghost use Rattle.httparse.specs.Spans.{IsHeaderWithin, header_bytes};
ghost use Rattle.dm_tag.specs.Range.{IsContentRange};
ghost use Rattle.dm_edge.specs.Fields.{NameAndValue};
ghost use Rattle.dm_edge.specs.Metadata.{HasStrong};
ghost use Rattle.dm_edge.specs.Part.{AgreesWith, FitsSize, IsAskedPart, NamesPart, part_size, told_whole};
ghost use Rattle.dm_edge.specs.Begins.{most_content, told_total};
ghost use Rattle.dm_edge.specs.declared.wanted.Wanted.TheVariants.{Part, Whole};
ghost use Rattle.dm_head.specs.Fit.{IsFit, IsPlace, RangePart};

use crate::fields::{Values, values_of};
use crate::framing::too_large;
use crate::metadata::strong_of;
use dm_edge::{Framing, MOST_CONTENT, Wanted};
use dm_tag::{ContentRange, read_content_range};
use httparse::spans::HeaderSpan;

/// Which bytes of the whole content come. Places are bytes from 0.
#[derive(Clone, Copy, Debug, PartialEq, Eq)]
pub struct Extent {
    /// The first place, which is 0 but for a part.
    pub first: u64,
    /// The last place, of a part.
    pub last: Option<u64>,
    /// How many bytes the whole content has, where the head tells it: at most 2^40.
    pub total: Option<u64>,
}

/// Whether a head whose content can be read is of the wanted content.
#[derive(Clone, Copy)]
pub enum Fit {
    Fits(Extent),
    /// It isn't of the asked part.
    OtherPart,
    /// It is of the asked part, and tells another length.
    OtherSize,
    /// It is, and the whole content has so many bytes, which is above the limit.
    TooLarge(u64),
}

/// A part of a content, by its places, and how many bytes the whole content has, where that is told.
#[derive(Clone, Copy)]
struct NamedPart {
    first: u64,
    to: u64,
    total: Option<u64>,
}

/// Whether the fields of a head, which frame its content so, are those of the wanted content.
pub fn fit_of(head: &[u8], fields: &[HeaderSpan], wanted: &Wanted, framing: Framing) -> Fit
    requires { All (IsHeaderWithin (length head.now)) fields.now }
    ensures { IsFit wanted.now (map (header_bytes head.now) fields.now) framing result }
{
    match wanted {
        Wanted::Whole => whole_fit(framing),
        Wanted::Part {
            first,
            last,
            tag,
            total,
        } => match asked_part(head, fields, *first, *last, tag.bytes(), *total) {
            Some(part) => part_fit(part, framing),
            None => Fit::OtherPart,
        },
    }
}

/// The fit of a whole content.
fn whole_fit(framing: Framing) -> Fit
    ensures { (fields : List NameAndValue) → IsFit Whole fields framing result }
{
    match too_large(framing) {
        Some(total) => Fit::TooLarge(total),
        None => Fit::Fits(Extent {
            first: 0,
            last: None,
            total: total_of(framing),
        }),
    }
}

/// The length that the framing tells.
fn total_of(framing: Framing) -> Option<u64>
    ensures { result ≡ told_total framing }
{
    match framing {
        Framing::Counted(count) => Some(count),
        Framing::Chunked => None,
        Framing::ToEnd => None,
    }
}

/// The part that the head says it brings, where it is the asked one.
fn asked_part(
    head: &[u8],
    fields: &[HeaderSpan],
    first: u64,
    last: u64,
    tag: &[u8],
    known: u64,
) -> Option<NamedPart>
    requires { All (IsHeaderWithin (length head.now)) fields.now }
    ensures first { IfSome result (λ part. part.first ≡ first) }
    ensures place { IfSome result (λ part. IsPlace part.first part.to) }
    ensures found { IfSome result (λ part. IsAskedPart first last tag.now known (map (header_bytes head.now) fields.now) part.to part.total) }
    ensures none { IfNone result ((to : ℕ) (total : Option ℕ) → IsAskedPart first last tag.now known (map (header_bytes head.now) fields.now) to total → ⊥) }
{
    match named_part(head, fields) {
        Some(part) => {
            if is_asked(part, first, last, known) && has_tag(head, fields, tag) {
                Some(part)
            } else {
                None
            }
        }
        None => None,
    }
}

/// The part that the only Content-Range names (RFC 9110, section 14.4).
fn named_part(head: &[u8], fields: &[HeaderSpan]) -> Option<NamedPart>
    requires { All (IsHeaderWithin (length head.now)) fields.now }
    ensures place { IfSome result (λ part. IsPlace part.first part.to) }
    ensures found { IfSome result (λ part. NamesPart (map (header_bytes head.now) fields.now) part.first part.to part.total) }
    ensures none { IfNone result ((first to : ℕ) (total : Option ℕ) → NamesPart (map (header_bytes head.now) fields.now) first to total → ⊥) }
{
    match values_of(head, fields, b"content-range") {
        Values::One(value) => part_in(value.of(head)),
        Values::Absent => None,
        Values::Several => None,
    }
}

/// The part that the value of a Content-Range names.
fn part_in(value: &[u8]) -> Option<NamedPart>
    ensures place { IfSome result (λ part. IsPlace part.first part.to) }
    ensures found { IfSome result (λ part. IsContentRange value.now (RangePart part.first part.to part.total)) }
    ensures none { IfNone result ((first to : ℕ) (total : Option ℕ) → IsContentRange value.now (RangePart first to total) → ⊥) }
{
    match read_content_range(value) {
        Some(ContentRange::Part { first, last, total }) => Some(NamedPart {
            first,
            to: last,
            total,
        }),
        Some(ContentRange::Unsatisfied { .. }) => None,
        None => None,
    }
}

/// Whether the part begins at the asked place, goes on to the asked end at most, and is of a content of
/// the known length.
fn is_asked(part: NamedPart, first: u64, last: u64, known: u64) -> bool
    ensures { IsTrue result ↔ (part.first ≡ first) × (part.to ≤ last) × AgreesWith known part.total }
{
    part.first == first && part.to <= last && agrees(known, part.total)
}

fn agrees(known: u64, total: Option<u64>) -> bool
    ensures { IsTrue result ↔ AgreesWith known total }
{
    match total {
        Some(total) => total == known,
        None => true,
    }
}

/// Whether the head's strong tag is this one, by strong comparison (RFC 9110, section 8.8.3.2).
fn has_tag(head: &[u8], fields: &[HeaderSpan], tag: &[u8]) -> bool
    requires { All (IsHeaderWithin (length head.now)) fields.now }
    ensures { IsTrue result ↔ HasStrong (map (header_bytes head.now) fields.now) tag.now }
{
    match strong_of(head, fields) {
        Some(value) => are_same(value.of(head), tag),
        None => false,
    }
}

fn are_same(a: &[u8], b: &[u8]) -> bool
    ensures { IsTrue result ↔ a.now ≡ b.now }
{
    a == b
}

/// The fit of the asked part.
fn part_fit(part: NamedPart, framing: Framing) -> Fit
    requires { IsPlace part.first part.to }
    ensures { (last : ℕ) (tag : List ℕ) (known : ℕ) (fields : List NameAndValue)
        → IsAskedPart part.first last tag known fields part.to part.total
        → IsFit (Part part.first last tag known) fields framing result }
{
    if !fits_size(part, framing) {
        return Fit::OtherSize;
    }
    let whole = whole_of(part);
    if whole > MOST_CONTENT {
        return Fit::TooLarge(whole);
    }
    Fit::Fits(Extent {
        first: part.first,
        last: Some(part.to),
        total: part.total,
    })
}

/// Whether a told length is the part's.
fn fits_size(part: NamedPart, framing: Framing) -> bool
    requires { IsPlace part.first part.to }
    ensures { IsTrue result ↔ FitsSize (part_size part.first part.to) framing }
{
    match framing {
        Framing::Counted(count) => count == part.to - part.first + 1,
        Framing::Chunked => true,
        Framing::ToEnd => true,
    }
}

/// How many bytes the whole content has, at least.
fn whole_of(part: NamedPart) -> u64
    requires { IsPlace part.first part.to }
    ensures { result ≡ told_whole part.to part.total }
{
    match part.total {
        Some(total) => total,
        None => part.to + 1,
    }
}
