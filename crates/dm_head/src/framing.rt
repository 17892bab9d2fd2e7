//! How a head frames its content (RFC 9112, section 6).
ghost use Rattle.std.specs.Prelude.{◌≡◌, ◌&&◌, ◌==◌, ◌<◌, All, IfNone, IfSome, codes, length, map};
ghost use Rattle.std.specs.Str.{str_eq_ignore_ascii_case};
ghost use Rattle.httparse.specs.Spans.{IsHeaderWithin, header_bytes};
ghost use Rattle.dm_edge.specs.Fields.{FramedBy, IsUnframeable};
ghost use Rattle.dm_edge.specs.Begins.{KeepsLimit, most_content};
ghost use Rattle.dm_edge.specs.declared.framing.Framing.TheVariants.{Counted};
ghost use Rattle.dm_head.specs.Whole.{IsFramed, framing_by};

use crate::fields::{Values, is_plain, values_of};
use crate::lengths::{ToldLength, length_of};
use dm_edge::{Framing, MOST_CONTENT};
use httparse::spans::HeaderSpan;

/// Whether and how the content can be read.
#[derive(Clone, Copy)]
pub enum Framed {
    Good(Framing),
    /// A Content-Encoding isn't `identity`.
    Encoded,
    Unframeable,
}

/// How the content of a head of HTTP/1.`minor` is framed, where it isn't encoded.
pub fn framed_by(head: &[u8], minor: u8, fields: &[HeaderSpan]) -> Framed
    requires { All (IsHeaderWithin (length head.now)) fields.now }
    ensures { IsFramed minor (map (header_bytes head.now) fields.now) result }
{
    if !is_plain(head, fields) {
        return Framed::Encoded;
    }
    match framing_of(head, minor, fields) {
        Some(framing) => Framed::Good(framing),
        None => Framed::Unframeable,
    }
}

/// The framing, where the head has one.
fn framing_of(head: &[u8], minor: u8, fields: &[HeaderSpan]) -> Option<Framing>
    requires { All (IsHeaderWithin (length head.now)) fields.now }
    ensures framed { IfSome result (λ framing. FramedBy minor (map (header_bytes head.now) fields.now) framing) }
    ensures none { IfNone result (IsUnframeable minor (map (header_bytes head.now) fields.now)) }
{
    match values_of(head, fields, b"transfer-encoding") {
        Values::Absent => by_length(length_of(head, fields)),
        Values::One(coding) if is_chunked(minor, coding.of(head)) => Some(Framing::Chunked),
        Values::One(_) => None,
        Values::Several => None,
    }
}

/// The framing without a transfer coding.
fn by_length(told: ToldLength) -> Option<Framing>
    ensures { result ≡ framing_by told }
{
    match told {
        ToldLength::Count(count) => Some(Framing::Counted(count)),
        ToldLength::Absent => Some(Framing::ToEnd),
        ToldLength::Unreadable => None,
    }
}

/// Whether the coding is chunked alone, in a version that has it (RFC 9112, section 6.1).
fn is_chunked(minor: u8, coding: &[u8]) -> bool
    ensures { result ≡ ((minor == 1) && str_eq_ignore_ascii_case coding.now (codes "chunked")) }
{
    minor == 1 && coding.eq_ignore_ascii_case(b"chunked")
}

/// The told length, where it is above the limit.
pub fn too_large(framing: Framing) -> Option<u64>
    ensures over { IfSome result (λ total. (framing ≡ Counted total) × (most_content < total)) }
    ensures within { IfNone result (KeepsLimit framing) }
{
    match framing {
        Framing::Counted(total) if total > MOST_CONTENT => Some(total),
        Framing::Counted(_) => None,
        Framing::Chunked => None,
        Framing::ToEnd => None,
    }
}
