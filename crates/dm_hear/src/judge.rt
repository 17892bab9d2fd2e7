//! What the bytes that came so far are.
ghost use Rattle.std.specs.Prelude.{◌≤◌, length};
ghost use Rattle.dm_hear.specs.Head.{IsOpen, most_request};
ghost use Rattle.dm_hear.specs.Held.{HasWhole, Judges};

use crate::fault::{ApiFault, Rule};
use crate::length::content_length;
use dm_edge::MOST_FIELDS;
use dm_head::begins_too_many;
use dm_target::ends_in_target;
use httparse::Status;
use httparse::spans::{EMPTY_HEADER_SPAN, HeaderSpan, RequestSpans, Span, parse_request};

/// The most bytes of a request, its head and its content together.
pub(crate) const MOST_REQUEST: usize = 16_384;

/// Where the parts of a whole request lie.
#[derive(Clone, Copy)]
pub(crate) struct Parts {
    pub method: Span,
    pub target: Span,
    pub content: Span,
}

/// What the bytes that came so far are.
#[derive(Clone, Copy)]
pub(crate) enum Judged {
    Whole(Parts),
    /// No request, whatever follows.
    Refused(ApiFault),
    /// The front of one.
    More,
}

/// Looks at the first bytes of a stream, at most 16,384.
pub(crate) fn judge(front: &[u8]) -> Judged
    requires { length front.now ≤ most_request }
    ensures { Judges front.now result }
{
    let mut fields = [EMPTY_HEADER_SPAN; MOST_FIELDS];
    match parse_request(front, &mut fields) {
        Ok(Status::Complete(head)) => judge_whole(front, &head, &fields[..head.headers]),
        Ok(Status::Partial) if begins_too_many(front) => Judged::Refused(ApiFault::Rule(
            Rule::Head,
        )),
        Ok(Status::Partial) => judge_open(front),
        Err(_) if ends_in_target(front) => judge_open(front),
        Err(_) => Judged::Refused(ApiFault::Rule(Rule::Head)),
    }
}

/// The same where no whole head stands there, and one may come.
fn judge_open(front: &[u8]) -> Judged
    requires front { length front.now ≤ most_request }
    requires open_head { IsOpen front.now }
    ensures { Judges front.now result }
{
    if front.len() == MOST_REQUEST {
        return Judged::Refused(ApiFault::TooLarge);
    }
    Judged::More
}

/// The same where a whole head stands there.
fn judge_whole(front: &[u8], head: &RequestSpans, fields: &[HeaderSpan]) -> Judged
    requires front { length front.now ≤ most_request }
    requires whole { HasWhole front.now head.now fields.now }
    ensures { Judges front.now result }
{
    match content_length(front, fields) {
        Some(size) if size > (MOST_REQUEST - head.len) as u64 => Judged::Refused(
            ApiFault::TooLarge,
        ),
        Some(size) if size > (front.len() - head.len) as u64 => Judged::More,
        Some(size) => Judged::Whole(Parts {
            method: head.method,
            target: head.path,
            content: Span {
                start: head.len,
                end: head.len + size as usize,
            },
        }),
        None => Judged::Refused(ApiFault::Rule(Rule::Length)),
    }
}
