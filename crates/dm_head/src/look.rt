//! What the bytes that came so far are.
ghost use Rattle.std.specs.Prelude.{◌≡◌, ◌≤◌, ◌+◌, length, nat_lt, false};
ghost use Rattle.dm_edge.specs.Head.{most_fields, most_head};
ghost use Rattle.dm_head.specs.Lines.{lines_begun};
ghost use Rattle.dm_head.specs.Look.{Finds};

use crate::metadata::Metadata;
use crate::part::Extent;
use crate::whole::look_at_whole;
use dm_edge::{Framing, MOST_FIELDS, MOST_HEAD, Wanted};
use dm_policy::Cause;
use httparse::Status;
use httparse::spans::{EMPTY_HEADER_SPAN, Span, parse_response};

/// What stands at the front of a stream, behind the interim heads that were passed over.
#[derive(Clone, Copy, Debug, PartialEq, Eq)]
pub enum Look {
    /// A whole interim head of `size` bytes (RFC 9110, section 15.2).
    Interim {
        size: usize,
        status: u16,
    },
    /// A whole head with the wanted content, before the content's first byte at `start`.
    Content {
        start: usize,
        framing: Framing,
        extent: Extent,
        metadata: Metadata,
    },
    /// A whole head that leads to another address, whose Location `location` covers.
    Redirect {
        status: u16,
        location: Span,
        metadata: Metadata,
    },
    /// What ends the reply, whatever follows.
    Refused(Cause),
    /// The first bytes of a head, fewer than one may have.
    Open,
}

/// Looks at the first bytes of a stream, at most 65,536, where this is wanted.
pub fn look_at(front: &[u8], wanted: &Wanted) -> Look
    requires { length front.now ≤ most_head }
    ensures { Finds wanted.now front.now result }
{
    let mut fields = [EMPTY_HEADER_SPAN; MOST_FIELDS];
    match parse_response(front, &mut fields) {
        Ok(Status::Complete(head)) => look_at_whole(front, &head, &fields[..head.headers], wanted),
        Ok(Status::Partial) if begins_too_many(front) => Look::Refused(Cause::BadHead),
        Ok(Status::Partial) if front.len() == MOST_HEAD => Look::Refused(Cause::BadHead),
        Ok(Status::Partial) => Look::Open,
        Err(_) => Look::Refused(Cause::BadHead),
    }
}

/// Whether a field line begins that is one too many: the start line and the fields are the lines
/// that aren't empty.
pub fn begins_too_many(front: &[u8]) -> bool
    ensures { result ≡ nat_lt (most_fields + 1) (lines_begun false front.now) }
{
    let mut lines = 0;
    let mut in_line = false;
    for byte in front {
        match *byte {
            b'\n' => in_line = false,
            b'\r' => {}
            _ => {
                if !in_line {
                    lines += 1;
                }
                in_line = true;
            }
        }
    }
    lines > MOST_FIELDS + 1
}
