ghost use Rattle.std.specs.Prelude.{◌≡◌, IfOk, OnOk};
ghost use Rattle.dm_change.specs.Page.{page_of, with_id};

use dm_answers::IdList;
use dm_disk_model::Disk;
use dm_edge::Origin;
use dm_store::Store;
use dm_types::{Item, ItemId, Listed, NoMemory};
use std::alloc::Global;

/// The rising ids above a number, at most so many.
pub fn page<D: Disk, O: Origin>(
    store: &Store<D, O>,
    after: u32,
    limit: u32,
) -> Result<IdList, NoMemory>
    ensures { IfOk result (λ ids. ids ≡ page_of after limit store.now.items.items) }
{
    ids_above(store.alloc, store.items.items(), after, limit)
}

/// Adds an id where it is above a number and there is room.
fn add_id(ids: &mut IdList, id: ItemId, after: u32, limit: u32) -> Result<(), NoMemory>
    ensures { OnOk result (ids.new ≡ with_id after limit ids.old id) }
{
    if id.0 > after && ids.count() < u64::from(limit) {
        ids.push(id)?;
    }
    Ok(())
}

/// The ids above a number, at most so many.
fn ids_above(alloc: Global, items: &[Item], after: u32, limit: u32) -> Result<IdList, NoMemory>
    ensures { IfOk result (λ ids. ids ≡ page_of after limit items.now) }
{
    let mut ids: IdList = Listed::new(alloc);
    for item in items {
        add_id(&mut ids, item.id, after, limit)?;
    }
    Ok(ids)
}
