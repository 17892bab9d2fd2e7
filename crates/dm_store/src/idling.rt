ghost use Rattle.std.specs.Prelude.{◌≡◌, false, IsTrue};
ghost use Rattle.dm_types.specs.Faults.{HasCause};
ghost use Rattle.dm_disk_model.specs.Moments.{KeepsFiles};
ghost use Rattle.dm_record.specs.Limits.{IsSpellable};
ghost use Rattle.dm_item.specs.Listing.{Admits};
ghost use Rattle.dm_store.specs.Idle.{is_idle};
ghost use Rattle.dm_store.specs.Keeps.{Keeps, StaysNear};
ghost use Rattle.dm_store.specs.Origin.{said_of};
ghost use Rattle.dm_store.specs.Store.{HasRoomOf, IsStore, view_of};
ghost use Rattle.dm_store.specs.Unrecorded.{UnrecordedMakes, unrecorded_kind};

use crate::{Readied, Store, Unrecorded, make_room, ready, record};
use dm_disk_model::Disk;
use dm_edge::Origin;
use dm_types::{Entry, NoMemory, let_go};

/// Records an entry behind which no attempt of its item runs, and which owes nothing of the files. All
/// memory is taken before.
pub fn record_idle<D: Disk, O: Origin>(
    store: &mut Store<D, O>,
    entry: Entry,
) -> Result<(), Unrecorded>
    requires store { IsStore D.tells D.history store.old }
    requires whole { store.old.broken ≡ false }
    requires idle { IsTrue (is_idle entry) }
    requires spelled { IsSpellable entry }
    requires taken { Admits store.old.items entry }
    ensures store { IsStore D.tells D.history store.new }
    ensures keeps { Keeps D.tells D.history (λ o. said_of (O.says o)) (view_of store.old) (view_of store.new) }
    ensures makes { UnrecordedMakes (view_of store.old) (view_of store.new) entry result }
    ensures beside { D.tells → KeepsFiles (D.history store.old.disk) (D.history store.new.disk) }
    ensures cause { HasCause unrecorded_kind (D.faults store.old.disk) (D.faults store.new.disk) result }
    ensures far { StaysNear (D.far store.old.disk) (D.far store.new.disk) (view_of store.old) (view_of store.new) }
{
    match make_room(store, 1) {
        Ok(()) => record_roomy(store, entry),
        Err(NoMemory) => {
            let_go(entry);
            Err(Unrecorded::NoMemory)
        }
    }
}

/// The same where there is room.
fn record_roomy<D: Disk, O: Origin>(store: &mut Store<D, O>, entry: Entry) -> Result<(), Unrecorded>
    requires store { IsStore D.tells D.history store.old }
    requires whole { store.old.broken ≡ false }
    requires idle { IsTrue (is_idle entry) }
    requires spelled { IsSpellable entry }
    requires taken { Admits store.old.items entry }
    requires room { HasRoomOf 1 store.old }
    ensures store { IsStore D.tells D.history store.new }
    ensures keeps { Keeps D.tells D.history (λ o. said_of (O.says o)) (view_of store.old) (view_of store.new) }
    ensures makes { UnrecordedMakes (view_of store.old) (view_of store.new) entry result }
    ensures beside { D.tells → KeepsFiles (D.history store.old.disk) (D.history store.new.disk) }
    ensures cause { HasCause unrecorded_kind (D.faults store.old.disk) (D.faults store.new.disk) result }
    ensures far { StaysNear (D.far store.old.disk) (D.far store.new.disk) (view_of store.old) (view_of store.new) }
{
    match ready(store, &entry) {
        Ok(readied) => {
            let Readied { body, item } = readied;
            match record(store, entry, body.bytes(), item, None) {
                Ok(()) => Ok(()),
                Err(kind) => Err(Unrecorded::Journal(kind)),
            }
        }
        Err(NoMemory) => {
            let_go(entry);
            Err(Unrecorded::NoMemory)
        }
    }
}
