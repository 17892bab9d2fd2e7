//! The fields of a head by their names.
ghost use Rattle.std.specs.Prelude.{◌≡◌, All, codes, length, map};
ghost use Rattle.std.specs.Str.{str_eq_ignore_ascii_case};
ghost use Rattle.httparse.specs.Spans.{IsHeaderWithin, header_bytes};
ghost use Rattle.dm_edge.specs.Fields.{has_name, is_plain as all_plain, values_of as all_values};
ghost use Rattle.dm_head.specs.Values.{AreValues, one_more, is_coded as is_coded_field};

use httparse::spans::{HeaderSpan, Span};

/// The values of the fields of one name.
#[derive(Clone, Copy)]
pub enum Values {
    Absent,
    One(Span),
    Several,
}

/// The values of the fields of one name, in any case (RFC 9110, section 5.1).
pub fn values_of(head: &[u8], fields: &[HeaderSpan], name: &[u8]) -> Values
    requires { All (IsHeaderWithin (length head.now)) fields.now }
    ensures { AreValues head.now result (all_values name.now (map (header_bytes head.now) fields.now)) }
{
    let mut values = Values::Absent;
    for field in fields {
        if is_named(head, field, name) {
            values = with_value(values, field.value);
        }
    }
    values
}

fn with_value(values: Values, value: Span) -> Values
    ensures { result ≡ one_more values value }
{
    match values {
        Values::Absent => Values::One(value),
        Values::One(_) => Values::Several,
        Values::Several => Values::Several,
    }
}

/// Whether the field has this name, in any case.
pub fn is_named(head: &[u8], field: &HeaderSpan, name: &[u8]) -> bool
    requires { IsHeaderWithin (length head.now) field.now }
    ensures { result ≡ has_name name.now (header_bytes head.now field.now) }
{
    field.name.of(head).eq_ignore_ascii_case(name)
}

/// Whether the content is as it is: each Content-Encoding is `identity`, in any case (RFC 9110,
/// section 8.4).
pub fn is_plain(head: &[u8], fields: &[HeaderSpan]) -> bool
    requires { All (IsHeaderWithin (length head.now)) fields.now }
    ensures { result ≡ all_plain (map (header_bytes head.now) fields.now) }
{
    for field in fields {
        if is_coded(head, field) {
            return false;
        }
    }
    true
}

fn is_coded(head: &[u8], field: &HeaderSpan) -> bool
    requires { IsHeaderWithin (length head.now) field.now }
    ensures { result ≡ is_coded_field (header_bytes head.now field.now) }
{
    is_named(head, field, b"content-encoding") && !is_identity(field.value.of(head))
}

fn is_identity(value: &[u8]) -> bool
    ensures { result ≡ str_eq_ignore_ascii_case value.now (codes "identity") }
{
    value.eq_ignore_ascii_case(b"identity")
}
