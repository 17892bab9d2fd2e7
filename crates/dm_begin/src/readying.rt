ghost use Rattle.std.specs.Prelude.{◌≡◌, ◌<◌, false, IfOk, OnOk, length, vec_capacity};
ghost use Rattle.dm_record.specs.Limits.{IsEntry};
ghost use Rattle.dm_record.specs.Spelling.{spelling_of};
ghost use Rattle.dm_item.specs.Fields.{no_bytes};
ghost use Rattle.dm_item.specs.Restored.{IsCovered};
ghost use Rattle.dm_journal.specs.Text.{FitsCell};
ghost use Rattle.dm_store.specs.Store.{HasRoomOf, IsStore, view_of};
ghost use Rattle.dm_begin.specs.Start.{IsBeginning, began_by, life_at};

use dm_disk_model::Disk;
use dm_edge::Origin;
use dm_part::place_of;
use dm_record::write_entry;
use dm_slice::{Cover, Plan};
use dm_store::{Life, Pass, Store, make_room};
use dm_types::{By, Entry, Epoch, ItemId, NoMemory, Slices, Text};
use std::alloc::Global;

/// All memory of an attempt that begins.
#[derive(Drop)]
pub(crate) struct Beginning {
    pub(crate) body: Text,
    pub(crate) life: Life,
}

/// The spelling of the entry of an attempt that begins, with room for it and for its life, and for one
/// entry before it. It changes nothing.
pub(crate) fn ready_body<D: Disk, O: Origin>(
    store: &mut Store<D, O>,
    pass: Pass,
    by: By,
    at: u64,
) -> Result<Text, NoMemory>
    requires { IsStore D.tells D.history store.old }
    ensures store { IsStore D.tells D.history store.new }
    ensures same { view_of store.new ≡ view_of store.old }
    ensures room { OnOk result (HasRoomOf 5 store.new) }
    ensures place { OnOk result (length store.new.lives.items < vec_capacity store.new.lives) }
    ensures is { IfOk result (λ body. IsEntry (began_by pass by at)) }
    ensures body { IfOk result (λ body. body ≡ spelling_of (began_by pass by at)) }
    ensures size { IfOk result (λ body. FitsCell body) }
{
    make_room(store, 5)?;
    store.lives.reserve(1)?;
    write_entry(
        store.alloc,
        &Entry::Began {
            id: pass.id,
            attempt: pass.attempt,
            by,
            at,
        },
    )
}

/// The life of an attempt that begins with these places saved.
pub(crate) fn make_life(
    alloc: Global,
    id: ItemId,
    epoch: Epoch,
    slices: &Slices,
    total: Option<u64>,
) -> Result<Life, NoMemory>
    requires { IsCovered total slices.now }
    ensures { IfOk result (λ life. life ≡ life_at id epoch slices.now) }
{
    let part = place_of(alloc, id, epoch)?;
    let cover = cover_of(alloc, slices, total)?;
    Ok(Life {
        id,
        part,
        cover,
        unsaved: 0,
        round: 0,
        plan: Plan::new(alloc),
    })
}

/// The life of an attempt that begins with nothing saved.
pub(crate) fn empty_life(alloc: Global, id: ItemId, epoch: Epoch) -> Result<Life, NoMemory>
    ensures { IfOk result (λ life. life ≡ life_at id epoch no_bytes) }
{
    let part = place_of(alloc, id, epoch)?;
    let cover = Cover::empty(alloc)?;
    Ok(Life {
        id,
        part,
        cover,
        unsaved: 0,
        round: 0,
        plan: Plan::new(alloc),
    })
}

/// The saved places as a cover. Their marks are those of the total, or of none, since a total may be
/// told after they were saved.
fn cover_of(alloc: Global, slices: &Slices, total: Option<u64>) -> Result<Cover, NoMemory>
    requires { IsCovered total slices.now }
    ensures { IfOk result (λ cover. cover ≡ slices.now) }
{
    if let Some(cover) = Cover::from_slices(alloc, slices, total)? {
        return Ok(cover);
    }
    match Cover::from_slices(alloc, slices, None)? {
        Some(cover) => Ok(cover),
        None => unreachable!(),
    }
}
