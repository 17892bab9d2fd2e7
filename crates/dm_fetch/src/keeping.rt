ghost use Rattle.std.specs.Prelude.{◌≡◌, IsSome, IfErr};
ghost use Rattle.dm_request.specs.Fault.{unread_of};
ghost use Rattle.dm_item.specs.Listing.{item_in};
ghost use Rattle.dm_answers.specs.Broke.{IsMet};
ghost use Rattle.dm_answers.specs.Running.{ItemWith};
ghost use Rattle.dm_attempt.specs.Ending.{IfBroke};
ghost use Rattle.dm_fetch.specs.Drive.{AddressOf, AskedOf, SourceAt, SourceOf, unread_stop};
ghost use Rattle.dm_fetch.specs.Starts.{IsKept};

use dm_attempt::{Desk, Source, Stop};
use dm_policy::Cause;
use dm_request::{AddressFault, Unread, read_address};
use dm_types::{Address, Item, ItemId, Key, NoMemory, Text};
use std::alloc::Global;

/// What an item was added with.
#[derive(Debug, Drop)]
pub struct Asked {
    pub address: Address,
    /// The name that was handed in, or empty.
    pub wish: Text,
}

/// How an attempt stops whose address is no longer read.
fn unread(fault: AddressFault) -> Stop
    ensures { result ≡ unread_stop (unread_of fault) }
{
    match fault.unread() {
        Unread::Refused => Stop::Broke(Cause::BadLocation),
        Unread::NoMemory => Stop::NoMemory,
    }
}

/// The address that a text is, where the text is that address's own.
fn kept_address(alloc: Global, text: &Text) -> Result<Address, Stop>
    ensures is { AddressOf text.now result }
    ensures met { IfErr result (λ stop. IfBroke stop IsMet) }
{
    match read_address(alloc, text.bytes()) {
        Ok(address) => {
            if address.text.same(text) {
                Ok(address)
            } else {
                Err(Stop::Broke(Cause::BadLocation))
            }
        }
        Err(fault) => Err(unread(fault)),
    }
}

/// What this item was added with.
fn asked_of(alloc: Global, item: &Item) -> Result<Asked, Stop>
    ensures is { AskedOf item.now result }
    ensures met { IfErr result (λ stop. IfBroke stop IsMet) }
{
    let address = match kept_address(alloc, &item.first_address) {
        Ok(address) => address,
        Err(stop) => return Err(stop),
    };
    match item.wish.copy(alloc) {
        Ok(wish) => Ok(Asked { address, wish }),
        Err(NoMemory) => Err(Stop::NoMemory),
    }
}

/// What the item was added with.
pub fn first_asked<S: Desk>(alloc: Global, desk: &S, id: ItemId) -> Result<Asked, Stop>
    requires { IsSome (item_in id.0 (S.view desk.now).items.items) }
    ensures is { ItemWith (S.view desk.now) id (λ item. AskedOf item result) }
    ensures met { IfErr result (λ stop. IfBroke stop IsMet) }
{
    match desk.item(id) {
        Some(item) => asked_of(alloc, item),
        None => unreachable!(),
    }
}

/// What ranges are asked for by.
fn source_at(alloc: Global, text: &Text, tag: &Text, total: u64) -> Result<Source, Stop>
    ensures is { SourceAt text.now tag.now total result }
    ensures met { IfErr result (λ stop. IfBroke stop IsMet) }
{
    let address = match kept_address(alloc, text) {
        Ok(address) => address,
        Err(stop) => return Err(stop),
    };
    match tag.copy(alloc) {
        Ok(tag) => Ok(Source {
            address,
            tag,
            total,
        }),
        Err(NoMemory) => Err(Stop::NoMemory),
    }
}

/// What is kept of this item's content.
fn source_of(alloc: Global, item: &Item) -> Result<Source, Stop>
    requires { IsKept item.now }
    ensures is { SourceOf item.now result }
    ensures met { IfErr result (λ stop. IfBroke stop IsMet) }
{
    match (&item.last_address, &item.key, item.total) {
        (Some(text), Some(Key::Strong(tag)), Some(total)) => source_at(alloc, text, tag, total),
        _ => unreachable!(),
    }
}

/// What is kept of the item's content.
pub fn kept_source<S: Desk>(alloc: Global, desk: &S, id: ItemId) -> Result<Source, Stop>
    requires { ItemWith (S.view desk.now) id IsKept }
    ensures is { ItemWith (S.view desk.now) id (λ item. SourceOf item result) }
    ensures met { IfErr result (λ stop. IfBroke stop IsMet) }
{
    match desk.item(id) {
        Some(item) => source_of(alloc, item),
        None => unreachable!(),
    }
}
