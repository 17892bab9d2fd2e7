//! The part of a content: its bytes are the first of what is framed, and it has so many of them (RFC 9110, section 15.3.7).
ghost use Rattle.std.specs.Prelude.{◌≡◌, ◌≤◌, IfSome, Some};
ghost use Rattle.dm_edge.specs.Begins.{content_status as status_wanted, most_content};
ghost use Rattle.dm_head.specs.Fit.{IsWithinLimit};
ghost use Rattle.dm_reply.specs.Content.{extent_of, size_told};
ghost use Rattle.dm_reply.specs.Part.{part_answer as answer_of_part, part_cause as cause_of_part};

use crate::{Got, Head, Wanted};
use dm_policy::Cause;

/// The status that a whole content has (RFC 9110, section 15.3.1).
const OK_STATUS: u16 = 200;

/// The status that a part of a content has (RFC 9110, section 15.3.7).
const PART_STATUS: u16 = 206;

/// The status that the wanted content has.
pub fn content_status(wanted: &Wanted) -> u16
    ensures { result ≡ status_wanted wanted.now }
{
    match wanted {
        Wanted::Whole => OK_STATUS,
        Wanted::Part { .. } => PART_STATUS,
    }
}

/// How many bytes the part has that a head tells.
pub fn size_of(head: &Head) -> Option<u64>
    requires { IsWithinLimit (extent_of head.now) }
    ensures size { result ≡ size_told (extent_of head.now) }
    ensures limit { IfSome result (λ size. size ≤ most_content) }
{
    match head.last {
        Some(last) => Some(last - head.first + 1),
        None => None,
    }
}

/// An answer of what is framed, where a part of this size is wanted and lacks bytes: an end comes too early.
pub fn part_answer(answer: Result<Got, Cause>, given: u64, size: u64) -> Result<Got, Cause>
    ensures { result ≡ answer_of_part given size answer }
{
    match answer {
        Ok(Got::Bytes(count)) => Ok(Got::Bytes(count)),
        Ok(Got::End) => Err(short_part(given, size)),
        Err(cause) => Err(part_cause(cause, given, size)),
    }
}

/// A cause that ends what is framed, where the part lacks bytes.
fn part_cause(cause: Cause, given: u64, size: u64) -> Cause
    ensures { result ≡ cause_of_part given size cause }
{
    match cause {
        Cause::ContentShort { .. } => short_part(given, size),
        _ => cause,
    }
}

fn short_part(given: u64, size: u64) -> Cause
    ensures { result ≡ Cause.ContentShort given (Some size) }
{
    Cause::ContentShort {
        have: given,
        wanted: Some(size),
    }
}
