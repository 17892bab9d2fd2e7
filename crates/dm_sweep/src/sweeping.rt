ghost use Rattle.std.specs.Prelude.{◌≡◌, ◌≢◌, ℕ, List, false, OnOk};
ghost use Rattle.dm_types.specs.Faults.{HasCause};
ghost use Rattle.dm_disk_model.specs.Beside.{Besides};
ghost use Rattle.dm_disk_model.specs.Disk.{Stands, StandsNot, now};
ghost use Rattle.dm_disk_model.specs.Folder.{Lists, names_of};
ghost use Rattle.dm_part.specs.Laws.{files_place};
ghost use Rattle.dm_store.specs.Becomes.{kind_is};
ghost use Rattle.dm_store.specs.Keeps.{Keeps, StaysNear};
ghost use Rattle.dm_store.specs.Origin.{said_of};
ghost use Rattle.dm_store.specs.Store.{IsStore, view_of};
ghost use Rattle.dm_answers.specs.Faults.{desk_kind};
ghost use Rattle.dm_answers.specs.Sweep.{IsLeftover, IsSwept, SweepAnswers};

use crate::leftover::is_leftover;
use dm_answers::DeskFault;
use dm_disk_model::{Area, Disk, NameList, NamesFault, Place};
use dm_edge::Origin;
use dm_part::discard;
use dm_store::Store;
use dm_types::{DiskKind, Text};

/// Removes each part that none needs: that of an item which is gone, cancelled or complete, or which has
/// another epoch now. Memory is taken for the list of names alone, before anything is removed.
pub fn sweep<D: Disk, O: Origin>(store: &mut Store<D, O>) -> Result<(), DeskFault>
    requires store { IsStore D.tells D.history store.old }
    ensures store { IsStore D.tells D.history store.new }
    ensures answers { SweepAnswers D.tells D.history (view_of store.old) (view_of store.new) result }
    ensures keeps { Keeps D.tells D.history (λ o. said_of (O.says o)) (view_of store.old) (view_of store.new) }
    ensures beside { D.tells → Besides (IsLeftover store.old.items) (D.history store.old.disk) (D.history store.new.disk) }
    ensures cause { HasCause desk_kind (D.faults store.old.disk) (D.faults store.new.disk) result }
    ensures far { StaysNear (D.far store.old.disk) (D.far store.new.disk) (view_of store.old) (view_of store.new) }
{
    if store.broken {
        return Err(DeskFault::Broken);
    }
    match store.disk.names(store.alloc, Area::Files) {
        Ok(names) => match sweep_names(store, names) {
            Ok(()) => Ok(()),
            Err(kind) => Err(DeskFault::File(kind)),
        },
        Err(NamesFault::NoMemory) => Err(DeskFault::NoMemory),
        Err(NamesFault::Disk(kind)) => Err(DeskFault::File(kind)),
    }
}

/// Removes those of the listed names that are parts which none needs.
fn sweep_names<D: Disk, O: Origin>(store: &mut Store<D, O>, names: NameList) -> Result<(), DiskKind>
    requires store { IsStore D.tells D.history store.old }
    requires whole { store.old.broken ≡ false }
    requires listed { D.tells → Lists (now (D.history store.old.disk)).files names }
    ensures store { IsStore D.tells D.history store.new }
    ensures same { view_of store.new ≡ record (view_of store.old) { disk = store.new.disk } }
    ensures keeps { Keeps D.tells D.history (λ o. said_of (O.says o)) (view_of store.old) (view_of store.new) }
    ensures swept { D.tells → OnOk result (IsSwept D.history (view_of store.old) (view_of store.new)) }
    ensures beside { D.tells → Besides (IsLeftover store.old.items) (D.history store.old.disk) (D.history store.new.disk) }
    ensures cause { HasCause kind_is (D.faults store.old.disk) (D.faults store.new.disk) result }
    ensures far { D.far store.new.disk ≡ D.far store.old.disk }
{
    let mut left = names.into_vec();
    while let Some(name) = left.pop() {
        match sweep_name(store, name) {
            Ok(()) => {}
            Err(kind) => return Err(kind),
        }
    }
    Ok(())
}

/// Removes what stands under the name, where it is a part which none needs.
fn sweep_name<D: Disk, O: Origin>(store: &mut Store<D, O>, name: Text) -> Result<(), DiskKind>
    requires store { IsStore D.tells D.history store.old }
    requires whole { store.old.broken ≡ false }
    requires stands { D.tells → Stands (now (D.history store.old.disk)) (files_place name) }
    ensures store { IsStore D.tells D.history store.new }
    ensures same { view_of store.new ≡ record (view_of store.old) { disk = store.new.disk } }
    ensures keeps { Keeps D.tells D.history (λ o. said_of (O.says o)) (view_of store.old) (view_of store.new) }
    ensures gone { D.tells → OnOk result (IsLeftover store.old.items name → StandsNot (now (D.history store.new.disk)) (files_place name)) }
    ensures others { D.tells → (other : List ℕ) → other ≢ name → names_of (now (D.history store.new.disk)).files other ≡ names_of (now (D.history store.old.disk)).files other }
    ensures beside { D.tells → Besides (IsLeftover store.old.items) (D.history store.old.disk) (D.history store.new.disk) }
    ensures cause { HasCause kind_is (D.faults store.old.disk) (D.faults store.new.disk) result }
    ensures far { D.far store.new.disk ≡ D.far store.old.disk }
{
    let place = Place {
        area: Area::Files,
        name,
    };
    if is_leftover(&store.items, place.name.bytes()) {
        match discard(&mut store.disk, &place) {
            Ok(()) => Ok(()),
            Err(fault) => Err(fault.0),
        }
    } else {
        Ok(())
    }
}
