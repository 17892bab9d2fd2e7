ghost use Rattle.std.specs.Prelude.{◌≡◌, ◌^◌, ◌<◌, ◌≤◌, IfOk, true};
ghost use Rattle.dm_generated.specs.Content as content;
ghost use Rattle.dm_generated.specs.Replies.{Answers, AnswersRange, brought, count_of, first_of, is_reply};

use crate::content::{size_of, tag_of};
use crate::request::range_in;
use dm_request::{Ask, request_text};
use dm_types::{Address, NoMemory};
use std::alloc::Global;

/// What a wire says to what was asked.
#[derive(Clone, Copy, Debug, PartialEq, Eq)]
pub enum Reply {
    /// Nothing: no request was sent, or none that gets a reply.
    Nothing,
    /// The whole content.
    Whole,
    /// The part between two places, the last one with it.
    Part { first: u64, last: u64 },
}

impl Reply {
    /// The place of the first byte that was asked for.
    pub fn first(self) -> u64
        ensures { result ≡ first_of self }
    {
        match self {
            Reply::Nothing => 0,
            Reply::Whole => 0,
            Reply::Part { first, last: _ } => first,
        }
    }

    /// How many bytes were asked for.
    pub fn count(self, number: u64) -> u64
        requires { is_reply number self ≡ true }
        ensures is { result ≡ count_of number self }
        ensures most { result < 2 ^ 23 }
    {
        match self {
            Reply::Nothing => 0,
            Reply::Whole => size_of(number),
            Reply::Part { first, last } => last - first + 1,
        }
    }
}

/// How many bytes a wire brings of so many: three wires end early.
pub fn brought_of(number: u64, wire: u64, count: u64) -> u64
    requires { count < 2 ^ 23 }
    ensures { result ≡ brought number wire count }
{
    if wire == 0 || wire == 5 || wire == 10 {
        return count.min(65_536 * (wire + 1) + number % 65_536);
    }
    count
}

/// The reply to what was sent to an address.
pub fn reply_to(
    alloc: Global,
    number: u64,
    address: &Address,
    sent: &[u8],
) -> Result<Reply, NoMemory>
    requires { number < 2 ^ 32 }
    ensures answers { IfOk result (Answers number address.now sent.now) }
    ensures good { IfOk result (λ reply. is_reply number reply ≡ true) }
{
    let whole = request_text(alloc, address, None)?;
    if whole.is(sent) {
        return Ok(Reply::Whole);
    }
    match range_in(sent, whole.len()) {
        Some((first, last)) => {
            if first <= last && last < size_of(number) {
                return reply_to_range(alloc, number, address, sent, first, last);
            }
            Ok(Reply::Nothing)
        }
        None => Ok(Reply::Nothing),
    }
}

/// The reply to what may be a request for this range.
fn reply_to_range(
    alloc: Global,
    number: u64,
    address: &Address,
    sent: &[u8],
    first: u64,
    last: u64,
) -> Result<Reply, NoMemory>
    requires order { first ≤ last }
    requires below { last < content.size_of number }
    ensures { IfOk result (AnswersRange number address.now sent.now first last) }
{
    let ask = Ask {
        first,
        last,
        tag: tag_of(alloc, number)?,
    };
    let part = request_text(alloc, address, Some(&ask))?;
    if part.is(sent) {
        return Ok(Reply::Part { first, last });
    }
    Ok(Reply::Nothing)
}
