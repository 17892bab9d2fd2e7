ghost use Rattle.std.specs.Prelude.{IfOk};
ghost use Rattle.dm_rounds.specs.Telling.{IsToldOf, IsWishOf};

use dm_answers::Told;
use dm_disposition::{Disposition, disposition_of};
use dm_name::wish_name;
use dm_reply::Head;
use dm_types::{Address, Key, NoMemory, Text};
use std::alloc::Global;

/// The cleaned wish for the file's name.
fn wish_of(
    alloc: Global,
    wish: &[u8],
    value: &Option<Text>,
    address: &Address,
) -> Result<Text, NoMemory>
    ensures { IfOk result (IsWishOf wish.now value.now address.now.target) }
{
    let value = match value {
        Some(value) => Some(value.bytes()),
        None => None,
    };
    let told = match disposition_of(alloc, value) {
        Ok(told) => told,
        Err(NoMemory) => return Err(NoMemory),
    };
    wish_name(alloc, wish, told.as_ref(), address)
}

/// What is told of the file by this head, of a content that this address brought and that stands under this key.
pub fn told_of(
    alloc: Global,
    wish: &[u8],
    head: &Head,
    address: &Address,
    key: &Key,
) -> Result<Told, NoMemory>
    ensures { IfOk result (IsToldOf wish.now head.now address.now key.now) }
{
    Ok(Told {
        key: key.copy(alloc)?,
        last_address: address.text.copy(alloc)?,
        total: head.total,
        wish: wish_of(alloc, wish, &head.disposition, address)?,
        modified: head.modified.copy(alloc)?,
    })
}
