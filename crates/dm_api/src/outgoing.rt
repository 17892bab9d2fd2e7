//! What goes out, by what was read.
ghost use Rattle.std.specs.Prelude.{◌≡◌};
ghost use Rattle.dm_api.specs.Outgoing.{Refused, RefusedBy, reply_in, reply_of_answer};

use dm_hear::{ApiFault, Rule};
use dm_response::{ApiReply, Trouble, trouble_reply};
use dm_types::NoMemory;
use std::alloc::Global;

/// What goes out to a connection.
#[derive(Debug, Drop)]
pub enum Outgoing {
    Reply(ApiReply),
    /// The reply for want of memory, which takes none.
    Memory,
    /// Nothing: nobody is there to read it.
    Nothing,
}

/// What goes out, where a request was answered so.
pub fn outgoing_of(answer: Result<ApiReply, NoMemory>) -> Outgoing
    ensures { reply_in result ≡ reply_of_answer answer }
{
    match answer {
        Ok(reply) => Outgoing::Reply(reply),
        Err(NoMemory) => Outgoing::Memory,
    }
}

/// What goes out, where no request was read.
pub fn refusal(alloc: Global, fault: ApiFault) -> Outgoing
    ensures { RefusedBy fault (reply_in result) }
{
    match fault {
        ApiFault::Rule(Rule::Head) => refuse(alloc, Trouble::Head),
        ApiFault::Rule(Rule::Length) => refuse(alloc, Trouble::Length),
        ApiFault::TooLarge => refuse(alloc, Trouble::Size),
        ApiFault::NoMemory => Outgoing::Memory,
        ApiFault::Cut => Outgoing::Nothing,
        ApiFault::Source => Outgoing::Nothing,
    }
}

fn refuse(alloc: Global, trouble: Trouble) -> Outgoing
    ensures { Refused trouble (reply_in result) }
{
    match trouble_reply(alloc, trouble) {
        Ok(reply) => Outgoing::Reply(reply),
        Err(NoMemory) => Outgoing::Memory,
    }
}
