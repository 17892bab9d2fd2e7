//! The call that asks.
ghost use Rattle.std.specs.Prelude.{◌≡◌, ◌≢◌, IfOk};
ghost use Rattle.dm_types.specs.Faults.{NoneFell};
ghost use Rattle.dm_policy.specs.declared.cause.Cause.TheVariants as cause;
ghost use Rattle.dm_edge.specs.Fair.{ask_of, IsOrdered};
ghost use Rattle.dm_request.specs.Request.{request_of};
ghost use Rattle.dm_ask.specs.Asked.{IsAim, IsReady, IsReached, IfContent, IfStopped, IfBroke, asked_of};
ghost use Rattle.dm_ask.specs.Causes.{IsAskCause};
ghost use Rattle.dm_ask.specs.Following.{IsAnswered, IsPart, IsStopped};
ghost use Rattle.dm_ask.specs.Redirects.{purpose_of};

use crate::aim::{Aim, aim_at};
use crate::following::{Reached, reach};
use dm_edge::{Net, Wanted};
use dm_policy::Cause;
use dm_reply::{Head, ReplyReader};
use dm_types::{Address, Attempt, ItemId, Key, NoMemory};
use std::alloc::Global;

/// What came of asking for a content.
pub enum Asked<W> {
    /// A connection whose head was read, and content follows: the address that it was made for, and the key of the content.
    Content {
        wire: W,
        reader: ReplyReader,
        head: Head,
        address: Address,
        key: Key,
    },
    Broke(Cause),
    /// Memory was wanting, the net's or a wire's too.
    NoMemory,
}

/// The answer by what was reached.
fn answer<W>(found: Result<Reached<W>, Cause>) -> Asked<W>
    ensures { result ≡ asked_of found }
{
    match found {
        Ok(
            Reached {
                wire,
                reader,
                head,
                address,
                key,
            },
        ) => Asked::Content {
            wire,
            reader,
            head,
            address,
            key,
        },
        Err(Cause::Memory) => Asked::NoMemory,
        Err(cause) => Asked::Broke(cause),
    }
}

/// Asks for what is wanted at an address, for this attempt on this item. Where the whole content is wanted, at most ten
/// redirects are followed (RFC 9110, section 15.4). Every connection that isn't handed out is closed.
pub fn ask<N: Net>(
    alloc: Global,
    net: &mut N,
    address: &Address,
    id: ItemId,
    attempt: Attempt,
    wanted: Wanted,
) -> Asked<N::W>
    requires ordered { IsOrdered wanted }
    ensures ready { IfContent result (λ wire reader head at key. IsReady wanted (purpose_of id attempt) address.now reader head at key) }
    ensures heard { N.W.tells → IfContent result (λ wire reader head at key. IsAnswered wanted (purpose_of id attempt at) (request_of at (ask_of wanted))
        (N.W.purpose wire) (N.W.told wire) reader head) }
    ensures reached { N.tells → IfContent result (λ wire reader head at key. IsReached wanted (purpose_of id attempt) address.now (N.closed net.old) (N.closed net.new)
        (record { purpose = N.W.purpose wire; told = N.W.told wire; counts = N.W.faults wire }) reader head at) }
    ensures direct { IsPart wanted → IfContent result (λ wire reader head at key. at ≡ address.now) }
    ensures stopped { N.tells → IfStopped result (IsStopped wanted (purpose_of id attempt) address.now
        (N.faults net.old) (N.faults net.new) (N.closed net.old) (N.closed net.new)) }
    ensures shown { IfStopped result (IsAskCause (N.faults net.old) (N.faults net.new)) }
    ensures apart { IfBroke result (λ broke. broke ≢ cause.Memory) }
    ensures origin { IfContent result (λ wire reader head at key. N.W.origin wire ≡ N.origin_of net.old) }
    ensures stays { N.origin_of net.new ≡ N.origin_of net.old }
    ensures later { NoneFell (N.faults net.old) (N.faults net.new) }
{
    match copied_aim(alloc, address, &wanted) {
        Ok(aim) => answer(reach(alloc, net, aim, id, attempt, wanted)),
        Err(NoMemory) => Asked::NoMemory,
    }
}

/// The address copied, and the request for what is wanted there.
fn copied_aim(alloc: Global, address: &Address, wanted: &Wanted) -> Result<Aim, NoMemory>
    requires { IsOrdered wanted.now }
    ensures address { IfOk result (λ aim. aim.address ≡ address.now) }
    ensures request { IfOk result (IsAim wanted.now) }
{
    let copy = address.copy(alloc)?;
    aim_at(alloc, copy, wanted)
}
