ghost use Rattle.std.specs.Prelude.{◌≡◌, ◌+◌, ℕ, List, None, false, IsTrue, OnOk};
ghost use Rattle.dm_types.specs.Faults.{HasCause};
ghost use Rattle.dm_types.specs.Name.{IsPart};
ghost use Rattle.dm_disk_model.specs.Beside.{Besides};
ghost use Rattle.dm_disk_model.specs.Disk.{bytes_at, now};
ghost use Rattle.dm_disk_model.specs.Moments.{KeepsFiles};
ghost use Rattle.dm_item.specs.Listing.{Admits, applied};
ghost use Rattle.dm_part.specs.Laws.{files_place};
ghost use Rattle.dm_store.specs.Becomes.{RecordMakes, kind_is};
ghost use Rattle.dm_store.specs.Keeps.{Keeps, RecordGoes, StandBehind, StaysNear};
ghost use Rattle.dm_store.specs.Lives.{AreAfter, IsLifeFor, is_plain};
ghost use Rattle.dm_store.specs.Origin.{said_of};
ghost use Rattle.dm_store.specs.Readied.{IsReadied};
ghost use Rattle.dm_store.specs.Saving.{IsSaving, SaveMakes, save_kind};
ghost use Rattle.dm_store.specs.Store.{HasRoomBehind, HasRoomOf, IsStore, KeepsRoom, view_of};

use crate::{Readied, Store, interrupt, life_of, record};
use dm_disk_model::Disk;
use dm_edge::Origin;
use dm_part::settle;
use dm_policy::{Cause, reason_of};
use dm_types::{DiskKind, Entry, ItemId, let_go};

/// Why what is live of an attempt isn't saved.
#[derive(Clone, Copy, Debug, PartialEq, Eq)]
pub enum SaveFault {
    /// A call on the part failed in this way, and the item is interrupted.
    File(DiskKind),
    /// A call on the journal failed in this way, and the desk is broken.
    Journal(DiskKind),
}

/// Makes all that is live of an attempt durable, and then records it. Where its part fails the item is
/// interrupted. It takes no memory.
pub fn save<D: Disk, O: Origin>(
    store: &mut Store<D, O>,
    id: ItemId,
    entry: Entry,
    readied: Readied,
) -> Result<(), SaveFault>
    requires store { IsStore D.tells D.history store.old }
    requires whole { store.old.broken ≡ false }
    requires saving { IsSaving (view_of store.old) id entry }
    requires readied { IsReadied store.old.items entry readied }
    requires room { HasRoomOf 1 store.old }
    ensures store { IsStore D.tells D.history store.new }
    ensures keeps { Keeps D.tells D.history (λ o. said_of (O.says o)) (view_of store.old) (view_of store.new) }
    ensures makes { SaveMakes (D.faults store.old.disk) (D.faults store.new.disk) (view_of store.old) (view_of store.new) id entry result }
    ensures room { OnOk result ((count : ℕ) → HasRoomOf (count + 1) store.old → HasRoomOf count store.new) }
    ensures beside { D.tells → Besides IsPart (D.history store.old.disk) (D.history store.new.disk) }
    ensures reads { D.tells → (name : List ℕ) → bytes_at (now (D.history store.new.disk)) (files_place name) ≡ bytes_at (now (D.history store.old.disk)) (files_place name) }
    ensures cause { HasCause save_kind (D.faults store.old.disk) (D.faults store.new.disk) result }
    ensures far { StaysNear (D.far store.old.disk) (D.far store.new.disk) (view_of store.old) (view_of store.new) }
{
    let Some(life) = life_of(&store.lives, id) else {
        unreachable!();
    };
    match settle(&mut store.disk, &life.part) {
        Ok(()) => match record_readied(store, entry, readied) {
            Ok(()) => Ok(()),
            Err(kind) => Err(SaveFault::Journal(kind)),
        },
        Err(fault) => {
            let_go(entry);
            let_go(readied);
            match interrupt(store, id, reason_of(&Cause::File(fault.0))) {
                Ok(()) => Err(SaveFault::File(fault.0)),
                Err(kind) => Err(SaveFault::Journal(kind)),
            }
        }
    }
}

/// Records an entry that begins no attempt, with the memory that was made ready for it.
pub fn record_readied<D: Disk, O: Origin>(
    store: &mut Store<D, O>,
    entry: Entry,
    readied: Readied,
) -> Result<(), DiskKind>
    requires store { IsStore D.tells D.history store.old }
    requires whole { store.old.broken ≡ false }
    requires plain { IsTrue (is_plain entry) }
    requires taken { Admits store.old.items entry }
    requires readied { IsReadied store.old.items entry readied }
    requires life { IsLifeFor entry (applied entry store.old.items) None }
    requires stand { D.tells → StandBehind D.history (view_of store.old) entry }
    requires lives { AreAfter entry store.old.items store.old.lives.items }
    requires room { HasRoomBehind 0 entry store.old }
    ensures store { IsStore D.tells D.history store.new }
    ensures goes { RecordGoes D.tells D.history (λ o. said_of (O.says o)) (view_of store.old) (view_of store.new) entry }
    ensures makes { RecordMakes (view_of store.old) (view_of store.new) entry result }
    ensures room { OnOk result (KeepsRoom entry store.old store.new) }
    ensures beside { D.tells → KeepsFiles (D.history store.old.disk) (D.history store.new.disk) }
    ensures cause { HasCause kind_is (D.faults store.old.disk) (D.faults store.new.disk) result }
    ensures far { StaysNear (D.far store.old.disk) (D.far store.new.disk) (view_of store.old) (view_of store.new) }
{
    let Readied { body, item } = readied;
    record(store, entry, body.bytes(), item, None)
}
