ghost use Rattle.std.specs.Prelude.{◌↔◌, ◌≤◌, ◌<◌, IfSome, IfNone, IsTrue, ℕ, Option};
ghost use Rattle.dm_tag.specs.Range.{IsTotal, IsPart, IsUnsatisfied, IsContentRange};
ghost use Rattle.dm_tag.specs.declared.range.ContentRange.{ContentRange};

use crate::number::{number_at, whole_number};
use crate::runs::after;
use crate::units::after_unit;

/// What a Content-Range says (RFC 9110, section 14.4). Places are bytes from 0, and `last` is one of the part's.
#[derive(Clone, Copy, Debug, PartialEq, Eq)]
pub enum ContentRange {
    /// The content is this part of the representation, whose length is `total` where it is told.
    Part {
        first: u64,
        last: u64,
        total: Option<u64>,
    },
    /// The asked range isn't in the representation, which has this length.
    Unsatisfied {
        total: u64,
    },
}

/// A length, or `*` for one that isn't told.
fn total_of(text: &[u8]) -> Option<Option<u64>>
    ensures found { IfSome result (λ total. IsTotal text.now total) }
    ensures none { IfNone result ((total : Option ℕ) → IsTotal text.now total → ⊥) }
{
    if text == b"*".as_slice() {
        return Some(None);
    }
    Some(Some(whole_number(text)?))
}

/// Whether the last place isn't before the first, and is below the total.
fn is_lawful(first: u64, last: u64, total: Option<u64>) -> bool
    ensures { IsTrue result ↔ (first ≤ last) × IfSome total (λ t. last < t) }
{
    match total {
        None => first <= last,
        Some(total) => first <= last && last < total,
    }
}

/// `first-last/total`.
fn part_of(text: &[u8]) -> Option<(u64, u64, Option<u64>)>
    ensures found { IfSome result (λ part. IsPart text.now part.0 part.1 part.2) }
    ensures none { IfNone result ((first last : ℕ) (total : Option ℕ) → IsPart text.now first last total → ⊥) }
{
    let (first, rest) = number_at(text)?;
    let (last, rest) = number_at(after(b'-', rest)?)?;
    let total = total_of(after(b'/', rest)?)?;
    if is_lawful(first, last, total) {
        Some((first, last, total))
    } else {
        None
    }
}

/// `*/total`.
fn unsatisfied_of(text: &[u8]) -> Option<u64>
    ensures found { IfSome result (λ total. IsUnsatisfied text.now total) }
    ensures none { IfNone result ((total : ℕ) → IsUnsatisfied text.now total → ⊥) }
{
    whole_number(after(b'/', after(b'*', text)?)?)
}

/// What the value says, if it is a Content-Range in bytes.
pub fn read_content_range(value: &[u8]) -> Option<ContentRange>
    ensures found { IfSome result (λ range. IsContentRange value.now range) }
    ensures none { IfNone result ((range : ContentRange) → IsContentRange value.now range → ⊥) }
{
    let text = after(b' ', after_unit(value)?)?;
    if let Some(total) = unsatisfied_of(text) {
        return Some(ContentRange::Unsatisfied { total });
    }
    let (first, last, total) = part_of(text)?;
    Some(ContentRange::Part { first, last, total })
}
