//! From an address to a reply with content, over at most ten redirects.
ghost use Rattle.std.specs.Prelude.{◌≡◌, ◌⊎◌, ◌<◌, ◌≤◌, IfOk, IfErr};
ghost use Rattle.dm_types.specs.Faults.{NoneFell};
ghost use Rattle.dm_policy.specs.declared.cause.Cause.TheVariants as cause;
ghost use Rattle.dm_edge.specs.Fair.{ask_of};
ghost use Rattle.dm_edge.specs.declared.wanted.Wanted.TheVariants as asks;
ghost use Rattle.dm_request.specs.Fault.{IsRead};
ghost use Rattle.dm_request.specs.Request.{request_of};
ghost use Rattle.dm_ask.specs.Asked.{IsAim, IsReady, IsReached};
ghost use Rattle.dm_ask.specs.Causes.{IsAskCause};
ghost use Rattle.dm_ask.specs.Following.{IsAnswered, GoesTo, StopsBy, IsStopped, IsCause, IsPart};
ghost use Rattle.dm_ask.specs.Redirects.{most_redirects, purpose_of};
ghost use Rattle.dm_ask.specs.declared.asking.NoContent.TheVariants as none_as;

use crate::aim::{Aim, aim_at};
use crate::asking::{Answered, NoContent, ask_once};
use dm_edge::{Net, Wanted};
use dm_policy::Cause;
use dm_reply::{Head, ReplyReader};
use dm_request::{Unread, next_address};
use dm_types::{Address, Attempt, ItemId, Key, NoMemory};
use std::alloc::Global;

/// The most redirects that are followed.
const MOST_REDIRECTS: u32 = 10;

/// A connection whose head was read, and content follows, and the address that it was made for.
pub struct Reached<W> {
    pub wire: W,
    pub reader: ReplyReader,
    pub head: Head,
    pub address: Address,
    pub key: Key,
}

/// What was answered at this address.
fn reached_at<W>(answered: Answered<W>, address: Address) -> Reached<W>
    ensures { result ≡ record { wire = answered.wire; reader = answered.reader; head = answered.head; address = address; key = answered.key } }
{
    let Answered {
        wire,
        reader,
        head,
        key,
    } = answered;
    Reached {
        wire,
        reader,
        head,
        address,
        key,
    }
}

/// The address that a redirect leads to, unless ten were followed before.
fn next_of(alloc: Global, base: &Address, none: NoContent, followed: u32) -> Result<Address, Cause>
    requires { followed ≤ most_redirects }
    ensures few { IfOk result (λ _. followed < most_redirects) }
    ensures next { IfOk result (GoesTo base.now none) }
    ensures reads { IfOk result (λ next. IsRead next.text next) }
    ensures stops { IfErr result (StopsBy base.now followed none) }
{
    let location = match none {
        NoContent::Redirect(location) => location,
        NoContent::Broke(cause) => return Err(cause),
    };
    if followed == MOST_REDIRECTS {
        return Err(Cause::TooManyRedirects);
    }
    match next_address(alloc, base, location.bytes()) {
        Ok(next) => Ok(next),
        Err(fault) => match fault.unread() {
            Unread::NoMemory => Err(Cause::Memory),
            Unread::Refused => Err(Cause::BadLocation),
        },
    }
}

/// The next address that is asked, and the request for it.
fn next_aim(alloc: Global, aim: &Aim, none: NoContent, followed: u32) -> Result<Aim, Cause>
    requires { followed ≤ most_redirects }
    ensures few { IfOk result (λ _. followed < most_redirects) }
    ensures next { IfOk result (λ next. GoesTo aim.now.address none next.address) }
    ensures reads { IfOk result (λ next. IsRead next.address.text next.address) }
    ensures request { IfOk result (IsAim asks.Whole) }
    ensures stops { IfErr result (λ broke. (broke ≡ cause.Memory) ⊎ StopsBy aim.now.address followed none broke) }
{
    let next = match next_of(alloc, &aim.address, none, followed) {
        Ok(next) => next,
        Err(cause) => return Err(cause),
    };
    match aim_at(alloc, next, &Wanted::Whole) {
        Ok(aim) => Ok(aim),
        Err(NoMemory) => Err(Cause::Memory),
    }
}

/// Asks for the whole content at an address, and at each that a redirect leads to, until content follows. At most eleven
/// connections are made. Each but the one that is answered is handed back.
pub fn follow<N: Net>(
    alloc: Global,
    net: &mut N,
    first: Aim,
    id: ItemId,
    attempt: Attempt,
) -> Result<Reached<N::W>, Cause>
    requires request { IsAim asks.Whole first }
    ensures ready { IfOk result (λ found. IsReady asks.Whole (purpose_of id attempt) first.address found.reader found.head found.address found.key) }
    ensures heard { N.W.tells → IfOk result (λ found. IsAnswered asks.Whole (purpose_of id attempt found.address) (request_of found.address (ask_of asks.Whole))
        (N.W.purpose found.wire) (N.W.told found.wire) found.reader found.head) }
    ensures reached { N.tells → IfOk result (λ found. IsReached asks.Whole (purpose_of id attempt) first.address (N.closed net.old) (N.closed net.new)
        (record { purpose = N.W.purpose found.wire; told = N.W.told found.wire; counts = N.W.faults found.wire }) found.reader found.head found.address) }
    ensures stopped { N.tells → IfErr result (IsStopped asks.Whole (purpose_of id attempt) first.address
        (N.faults net.old) (N.faults net.new) (N.closed net.old) (N.closed net.new)) }
    ensures shown { IfErr result (IsAskCause (N.faults net.old) (N.faults net.new)) }
    ensures origin { IfOk result (λ found. N.W.origin found.wire ≡ N.origin_of net.old) }
    ensures stays { N.origin_of net.new ≡ N.origin_of net.old }
    ensures later { NoneFell (N.faults net.old) (N.faults net.new) }
{
    let mut aim = first;
    let mut followed = 0;
    loop {
        match ask_once(alloc, net, &aim, id, attempt, Wanted::Whole) {
            Ok(answered) => return Ok(reached_at(answered, aim.address)),
            Err(none) => match next_aim(alloc, &aim, none, followed) {
                Ok(next) => aim = next,
                Err(cause) => return Err(cause),
            },
        }
        followed += 1;
    }
}

/// The cause for which no content came, where no redirect did.
fn only_cause(none: NoContent) -> Cause
    requires { IsCause none }
    ensures { none ≡ none_as.Broke result }
{
    match none {
        NoContent::Broke(cause) => cause,
        NoContent::Redirect(_) => Cause::BadLocation,
    }
}

/// Asks for a part at an address. One connection is made, and handed back unless content follows.
pub fn ask_part<N: Net>(
    alloc: Global,
    net: &mut N,
    aim: Aim,
    id: ItemId,
    attempt: Attempt,
    wanted: Wanted,
) -> Result<Reached<N::W>, Cause>
    requires part { IsPart wanted }
    requires request { IsAim wanted aim }
    ensures ready { IfOk result (λ found. IsReady wanted (purpose_of id attempt) aim.address found.reader found.head found.address found.key) }
    ensures heard { N.W.tells → IfOk result (λ found. IsAnswered wanted (purpose_of id attempt found.address) (request_of found.address (ask_of wanted))
        (N.W.purpose found.wire) (N.W.told found.wire) found.reader found.head) }
    ensures reached { N.tells → IfOk result (λ found. IsReached wanted (purpose_of id attempt) aim.address (N.closed net.old) (N.closed net.new)
        (record { purpose = N.W.purpose found.wire; told = N.W.told found.wire; counts = N.W.faults found.wire }) found.reader found.head found.address) }
    ensures direct { IfOk result (λ found. found.address ≡ aim.address) }
    ensures stopped { N.tells → IfErr result (IsStopped wanted (purpose_of id attempt) aim.address
        (N.faults net.old) (N.faults net.new) (N.closed net.old) (N.closed net.new)) }
    ensures shown { IfErr result (IsAskCause (N.faults net.old) (N.faults net.new)) }
    ensures origin { IfOk result (λ found. N.W.origin found.wire ≡ N.origin_of net.old) }
    ensures stays { N.origin_of net.new ≡ N.origin_of net.old }
    ensures later { NoneFell (N.faults net.old) (N.faults net.new) }
{
    match ask_once(alloc, net, &aim, id, attempt, wanted) {
        Ok(answered) => Ok(reached_at(answered, aim.address)),
        Err(none) => Err(only_cause(none)),
    }
}

/// Asks for what is wanted at an address, and for a whole content at each that a redirect leads to.
pub fn reach<N: Net>(
    alloc: Global,
    net: &mut N,
    aim: Aim,
    id: ItemId,
    attempt: Attempt,
    wanted: Wanted,
) -> Result<Reached<N::W>, Cause>
    requires request { IsAim wanted aim }
    ensures ready { IfOk result (λ found. IsReady wanted (purpose_of id attempt) aim.address found.reader found.head found.address found.key) }
    ensures heard { N.W.tells → IfOk result (λ found. IsAnswered wanted (purpose_of id attempt found.address) (request_of found.address (ask_of wanted))
        (N.W.purpose found.wire) (N.W.told found.wire) found.reader found.head) }
    ensures reached { N.tells → IfOk result (λ found. IsReached wanted (purpose_of id attempt) aim.address (N.closed net.old) (N.closed net.new)
        (record { purpose = N.W.purpose found.wire; told = N.W.told found.wire; counts = N.W.faults found.wire }) found.reader found.head found.address) }
    ensures direct { IsPart wanted → IfOk result (λ found. found.address ≡ aim.address) }
    ensures stopped { N.tells → IfErr result (IsStopped wanted (purpose_of id attempt) aim.address
        (N.faults net.old) (N.faults net.new) (N.closed net.old) (N.closed net.new)) }
    ensures shown { IfErr result (IsAskCause (N.faults net.old) (N.faults net.new)) }
    ensures origin { IfOk result (λ found. N.W.origin found.wire ≡ N.origin_of net.old) }
    ensures stays { N.origin_of net.new ≡ N.origin_of net.old }
    ensures later { NoneFell (N.faults net.old) (N.faults net.new) }
{
    match wanted {
        Wanted::Whole => follow(alloc, net, aim, id, attempt),
        Wanted::Part {
            first,
            last,
            tag,
            total,
        } => {
            let part = Wanted::Part {
                first,
                last,
                tag,
                total,
            };
            ask_part(alloc, net, aim, id, attempt, part)
        }
    }
}
