ghost use Rattle.std.specs.Prelude.{◌≡◌, false, IsTrue, OnOk};
ghost use Rattle.dm_types.specs.Faults.{HasCause};
ghost use Rattle.dm_disk_model.specs.Moments.{KeepsFiles};
ghost use Rattle.dm_record.specs.Limits.{IsEntry, IsSpellable};
ghost use Rattle.dm_record.specs.Spelling.{spelling_of};
ghost use Rattle.dm_item.specs.Listing.{Admits};
ghost use Rattle.dm_journal.specs.Text.{FitsCell};
ghost use Rattle.dm_store.specs.Adding.{is_new};
ghost use Rattle.dm_store.specs.Keeps.{Keeps, StaysNear};
ghost use Rattle.dm_store.specs.Origin.{said_of};
ghost use Rattle.dm_store.specs.Store.{HasRoomOf, IsStore, KeepsRoom, view_of};
ghost use Rattle.dm_store.specs.Unrecorded.{UnrecordedMakes, unrecorded_kind};

use crate::{Store, Unrecorded, make_room, put_failed};
use dm_disk_model::Disk;
use dm_edge::Origin;
use dm_item::Items;
use dm_record::write_entry;
use dm_types::{Entry, NoMemory, let_go};

/// Records an entry that adds a new item: first in the list, since that takes memory, and then in the
/// journal. Where the journal fails the list is as it was, the desk is broken and keeps the entry apart.
pub fn record_added<D: Disk, O: Origin>(
    store: &mut Store<D, O>,
    entry: Entry,
    body: &[u8],
) -> Result<(), Unrecorded>
    requires store { IsStore D.tells D.history store.old }
    requires whole { store.old.broken ≡ false }
    requires added { IsTrue (is_new entry) }
    requires is { IsEntry entry }
    requires body { body.now ≡ spelling_of entry }
    requires size { FitsCell body.now }
    requires taken { Admits store.old.items entry }
    requires room { HasRoomOf 1 store.old }
    ensures store { IsStore D.tells D.history store.new }
    ensures keeps { Keeps D.tells D.history (λ o. said_of (O.says o)) (view_of store.old) (view_of store.new) }
    ensures makes { UnrecordedMakes (view_of store.old) (view_of store.new) entry result }
    ensures room { OnOk result (KeepsRoom entry store.old store.new) }
    ensures beside { D.tells → KeepsFiles (D.history store.old.disk) (D.history store.new.disk) }
    ensures cause { HasCause unrecorded_kind (D.faults store.old.disk) (D.faults store.new.disk) result }
    ensures far { StaysNear (D.far store.old.disk) (D.far store.new.disk) (view_of store.old) (view_of store.new) }
{
    let Ok(before) = store.items.before(&entry) else {
        let_go(entry);
        return Err(Unrecorded::NoMemory);
    };
    let Ok(()) = store.items.apply(&entry) else {
        let_go(entry);
        return Err(Unrecorded::NoMemory);
    };
    match store.journal.append(&mut store.disk, body) {
        Ok(()) => {
            store.list.push_reserved(entry);
            Ok(())
        }
        Err(fault) => {
            store.items.take_back(before);
            store.broken = true;
            put_failed(&mut store.failed, entry);
            Err(Unrecorded::Journal(fault.0))
        }
    }
}

/// Records an entry that adds a new item. All memory is taken before it is tried.
pub fn record_new<D: Disk, O: Origin>(
    store: &mut Store<D, O>,
    entry: Entry,
) -> Result<(), Unrecorded>
    requires store { IsStore D.tells D.history store.old }
    requires whole { store.old.broken ≡ false }
    requires added { IsTrue (is_new entry) }
    requires spelled { IsSpellable entry }
    requires taken { Admits store.old.items entry }
    ensures store { IsStore D.tells D.history store.new }
    ensures keeps { Keeps D.tells D.history (λ o. said_of (O.says o)) (view_of store.old) (view_of store.new) }
    ensures makes { UnrecordedMakes (view_of store.old) (view_of store.new) entry result }
    ensures beside { D.tells → KeepsFiles (D.history store.old.disk) (D.history store.new.disk) }
    ensures cause { HasCause unrecorded_kind (D.faults store.old.disk) (D.faults store.new.disk) result }
    ensures far { StaysNear (D.far store.old.disk) (D.far store.new.disk) (view_of store.old) (view_of store.new) }
{
    match make_room(store, 1) {
        Ok(()) => add_roomy(store, entry),
        Err(NoMemory) => {
            let_go(entry);
            Err(Unrecorded::NoMemory)
        }
    }
}

/// The same where there is room.
fn add_roomy<D: Disk, O: Origin>(store: &mut Store<D, O>, entry: Entry) -> Result<(), Unrecorded>
    requires store { IsStore D.tells D.history store.old }
    requires whole { store.old.broken ≡ false }
    requires added { IsTrue (is_new entry) }
    requires spelled { IsSpellable entry }
    requires taken { Admits store.old.items entry }
    requires room { HasRoomOf 1 store.old }
    ensures store { IsStore D.tells D.history store.new }
    ensures keeps { Keeps D.tells D.history (λ o. said_of (O.says o)) (view_of store.old) (view_of store.new) }
    ensures makes { UnrecordedMakes (view_of store.old) (view_of store.new) entry result }
    ensures beside { D.tells → KeepsFiles (D.history store.old.disk) (D.history store.new.disk) }
    ensures cause { HasCause unrecorded_kind (D.faults store.old.disk) (D.faults store.new.disk) result }
    ensures far { StaysNear (D.far store.old.disk) (D.far store.new.disk) (view_of store.old) (view_of store.new) }
{
    match write_entry(store.alloc, &entry) {
        Ok(body) => record_added(store, entry, body.bytes()),
        Err(NoMemory) => {
            let_go(entry);
            Err(Unrecorded::NoMemory)
        }
    }
}
