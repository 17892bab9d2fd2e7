ghost use Rattle.std.specs.Prelude.{◌≡◌, IfOk};
ghost use Rattle.dm_record.specs.Limits.{IsSpellable};
ghost use Rattle.dm_store.specs.Readied.{IsReadied};

use crate::Store;
use dm_disk_model::Disk;
use dm_edge::Origin;
use dm_record::write_entry;
use dm_types::{Entry, Item, NoMemory, Text};

/// All memory of an entry.
#[derive(Drop)]
pub struct Readied {
    pub body: Text,
    /// The item that the entry changes, as it will be, where changing it wants memory.
    pub item: Option<Item>,
}

/// Takes all memory of an entry before it is recorded. It changes nothing.
pub fn ready<D: Disk, O: Origin>(store: &Store<D, O>, entry: &Entry) -> Result<Readied, NoMemory>
    requires { IsSpellable entry.now }
    ensures { IfOk result (IsReadied store.now.items entry.now) }
{
    let body = write_entry(store.alloc, entry)?;
    let item = store.items.ready(entry)?;
    Ok(Readied { body, item })
}
