//! How long the content of a request is.
ghost use Rattle.std.specs.Prelude.{◌≡◌, [], true, false, All, IfNone, IfSome, length, map};
ghost use Rattle.httparse.specs.Spans.{IsHeaderWithin, header_bytes};
ghost use Rattle.dm_edge.specs.Fields.{has_name, values_of};
ghost use Rattle.dm_hear.specs.Content.{HasLength, HasNoLength};

use dm_head::{ToldLength, length_of};
use httparse::spans::HeaderSpan;

/// The length of the content, where it can be known: 0 where no field tells it.
pub(crate) fn content_length(head: &[u8], fields: &[HeaderSpan]) -> Option<u64>
    requires { All (IsHeaderWithin (length head.now)) fields.now }
    ensures some { IfSome result (λ size. HasLength (map (header_bytes head.now) fields.now) size) }
    ensures none { IfNone result (HasNoLength (map (header_bytes head.now) fields.now)) }
{
    if has_field(head, fields, b"transfer-encoding") {
        return None;
    }
    match length_of(head, fields) {
        ToldLength::Absent => Some(0),
        ToldLength::Count(size) => Some(size),
        ToldLength::Unreadable => None,
    }
}

/// Whether a field has the name, in any case.
fn has_field(head: &[u8], fields: &[HeaderSpan], name: &[u8]) -> bool
    requires { All (IsHeaderWithin (length head.now)) fields.now }
    ensures none { result ≡ false → values_of name.now (map (header_bytes head.now) fields.now) ≡ [] }
    ensures some { result ≡ true → values_of name.now (map (header_bytes head.now) fields.now) ≡ [] → ⊥ }
{
    for field in fields {
        if is_named(head, field, name) {
            return true;
        }
    }
    false
}

fn is_named(head: &[u8], field: &HeaderSpan, name: &[u8]) -> bool
    requires { IsHeaderWithin (length head.now) field.now }
    ensures { result ≡ has_name name.now (header_bytes head.now field.now) }
{
    field.name.of(head).eq_ignore_ascii_case(name)
}
