//! What the Content-Length fields of a head tell.
ghost use Rattle.std.specs.Prelude.{◌≡◌, All, Some, codes, length, map};
ghost use Rattle.httparse.specs.Spans.{IsHeaderWithin, header_bytes};
ghost use Rattle.dm_edge.specs.Fields.{values_of};
ghost use Rattle.dm_head.specs.Values.{Tells, joined};
ghost use Rattle.dm_head.specs.declared.lengths.ToldLength.TheVariants.{Count};

use crate::fields::is_named;
use dm_tag::read_length;
use httparse::spans::HeaderSpan;

/// What the Content-Length fields of a head tell.
#[derive(Clone, Copy)]
pub enum ToldLength {
    Absent,
    /// Each of them tells this number of bytes.
    Count(u64),
    /// One of them tells no number, or two tell different ones.
    Unreadable,
}

/// What the Content-Length fields tell, all together (RFC 9110, section 8.6).
pub fn length_of(head: &[u8], fields: &[HeaderSpan]) -> ToldLength
    requires { All (IsHeaderWithin (length head.now)) fields.now }
    ensures { Tells (values_of (codes "content-length") (map (header_bytes head.now) fields.now)) result }
{
    let mut told = ToldLength::Absent;
    for field in fields {
        if is_named(head, field, b"content-length") {
            told = with_next(told, read_length(field.value.of(head)));
        }
    }
    told
}

fn with_next(told: ToldLength, next: Option<u64>) -> ToldLength
    ensures { result ≡ joined told next }
{
    match (told, next) {
        (ToldLength::Absent, Some(count)) => ToldLength::Count(count),
        (ToldLength::Count(count), Some(again)) => if_same(count, again),
        (ToldLength::Absent, None) => ToldLength::Unreadable,
        (ToldLength::Count(_), None) => ToldLength::Unreadable,
        (ToldLength::Unreadable, _) => ToldLength::Unreadable,
    }
}

fn if_same(count: u64, again: u64) -> ToldLength
    ensures { result ≡ joined (Count count) (Some again) }
{
    if again == count {
        ToldLength::Count(count)
    } else {
        ToldLength::Unreadable
    }
}
