//! The key that a reply's content stands under.
ghost use Rattle.std.specs.Prelude.{◌≡◌, IfOk};
ghost use Rattle.dm_types.specs.declared.address.Address.{Address};
ghost use Rattle.dm_edge.specs.Fair.{key_of};
ghost use Rattle.dm_ask.specs.Redirects.{purpose_of};

use dm_reply::Head;
use dm_types::{Attempt, ItemId, Key, NoMemory};
use std::alloc::Global;

/// The key of a head: its strong tag, or this one attempt on this item where it has none.
pub fn key_for(alloc: Global, head: &Head, id: ItemId, attempt: Attempt) -> Result<Key, NoMemory>
    ensures { IfOk result (λ key. (address : Address) → key ≡ key_of (purpose_of id attempt address) head.now.strong) }
{
    match &head.strong {
        Some(tag) => Ok(Key::Strong(tag.copy(alloc)?)),
        None => Ok(Key::Once(id, attempt)),
    }
}
