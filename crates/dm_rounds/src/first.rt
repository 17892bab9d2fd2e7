ghost use Rattle.std.specs.Prelude.{◌≡◌, ℕ, List, length, IfOk, IfErr, OnErr};
ghost use Rattle.dm_types.specs.Faults.{NoneFell};
ghost use Rattle.dm_edge.specs.Wire.{Closed};
ghost use Rattle.dm_request.specs.Fault.{IsRead};
ghost use Rattle.dm_answers.specs.Broke.{IsMet};
ghost use Rattle.dm_attempt.specs.Ending.{IfBroke};
ghost use Rattle.dm_rounds.specs.First.{IsHeard, IsLedTo, IsReplied, StopsFirst};
ghost use Rattle.dm_rounds.specs.Lanes.{NetCounts};
ghost use Rattle.dm_rounds.specs.Parts.{IsOfNet};

use dm_ask::{Asked, ask};
use dm_attempt::Stop;
use dm_edge::{Net, Wanted, Wire};
use dm_reply::{Head, ReplyReader};
use dm_store::Pass;
use dm_types::{Address, Key};
use std::alloc::Global;

/// The first reply of an attempt that brings its content anew: the open wire, whose head was read; the address that it was made
/// for; and the key of its content.
pub struct Reply<W> {
    pub wire: W,
    pub reader: ReplyReader,
    pub head: Head,
    pub address: Address,
    pub key: Key,
}

/// Asks for the whole content at its first address.
pub fn first_reply<N: Net>(
    alloc: Global,
    net: &mut N,
    address: &Address,
    pass: &Pass,
) -> Result<Reply<N::W>, Stop>
    ensures ready { IfOk result (IsReplied pass.now address.now) }
    ensures heard { N.W.tells → IfOk result (IsHeard N.W.purpose N.W.told pass.now) }
    ensures reached { N.tells → IfOk result (λ reply. (led : List Closed) × IsLedTo pass.now address.now reply.address (N.closed net.old) (N.closed net.new) led) }
    ensures stopped { N.tells → IfErr result (StopsFirst pass.now address.now (N.faults net.old) (N.faults net.new) (N.closed net.old) (N.closed net.new)) }
    ensures counted { IfErr result (NetCounts (N.faults net.old) (N.faults net.new)) }
    ensures met { IfErr result (λ stop. IfBroke stop IsMet) }
    ensures own { IfErr result IsOfNet }
    ensures origin { IfOk result (λ reply. N.W.origin reply.wire ≡ N.origin_of net.old) }
    ensures stays { N.origin_of net.new ≡ N.origin_of net.old }
    ensures later { NoneFell (N.faults net.old) (N.faults net.new) }
{
    match ask(alloc, net, address, pass.id, pass.attempt, Wanted::Whole) {
        Asked::Content {
            wire,
            reader,
            head,
            address,
            key,
        } => Ok(Reply {
            wire,
            reader,
            head,
            address,
            key,
        }),
        Asked::Broke(cause) => Err(Stop::Broke(cause)),
        Asked::NoMemory => Err(Stop::NoMemory),
    }
}
