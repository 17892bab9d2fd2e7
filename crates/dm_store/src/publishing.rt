ghost use Rattle.std.specs.Prelude.{◌≡◌, ℕ, false, true, OnOk, OnErr};
ghost use Rattle.dm_types.specs.Faults.{HasCause};
ghost use Rattle.dm_disk_model.specs.Beside.{Besides};
ghost use Rattle.dm_disk_model.specs.Disk.{Stands, bytes_at, now};
ghost use Rattle.dm_disk_model.specs.Folder.{Renamed, after_change, names_of};
ghost use Rattle.dm_store.specs.Becomes.{kind_is};
ghost use Rattle.dm_store.specs.Keeps.{Keeps};
ghost use Rattle.dm_store.specs.Origin.{said_of};
ghost use Rattle.dm_store.specs.Publishing.{IsMoving, IsPartOr};
ghost use Rattle.dm_store.specs.Store.{HasRoomOf, IsStore, view_of};

use crate::Store;
use dm_disk_model::{Disk, Place};
use dm_edge::Origin;
use dm_part::publish;
use dm_types::{DiskKind, ItemId};

/// Gives the file of an item that is being finished its name, durably. Where the disk fails the desk is
/// broken, since the file may lie under either name.
pub fn publish_item<D: Disk, O: Origin>(
    store: &mut Store<D, O>,
    id: ItemId,
    part: &Place,
    target: &Place,
) -> Result<(), DiskKind>
    requires store { IsStore D.tells D.history store.old }
    requires whole { store.old.broken ≡ false }
    requires moving { IsMoving store.old.items.items id.0 part.now target.now }
    requires stands { D.tells → Stands (now (D.history store.old.disk)) part.now }
    ensures store { IsStore D.tells D.history store.new }
    ensures keeps { Keeps D.tells D.history (λ o. said_of (O.says o)) (view_of store.old) (view_of store.new) }
    ensures ok { OnOk result (view_of store.new ≡ record (view_of store.old) { disk = store.new.disk }) }
    ensures named { D.tells → OnOk result (Stands (now (D.history store.new.disk)) target.now) }
    ensures reads { D.tells → OnOk result (bytes_at (now (D.history store.new.disk)) target.now ≡ bytes_at (now (D.history store.old.disk)) part.now) }
    ensures names { D.tells → OnOk result (names_of (now (D.history store.new.disk)).files
        ≡ after_change (names_of (now (D.history store.old.disk)).files) (Renamed part.now.name target.now.name)) }
    ensures room { (count : ℕ) → HasRoomOf count store.old → HasRoomOf count store.new }
    ensures err { OnErr result (view_of store.new ≡ record (view_of store.old) { disk = store.new.disk; broken = true }) }
    ensures beside { D.tells → Besides (IsPartOr target.now.name) (D.history store.old.disk) (D.history store.new.disk) }
    ensures cause { HasCause kind_is (D.faults store.old.disk) (D.faults store.new.disk) result }
    ensures far { D.far store.new.disk ≡ D.far store.old.disk }
{
    match publish(&mut store.disk, part, target) {
        Ok(()) => Ok(()),
        Err(fault) => {
            store.broken = true;
            Err(fault.0)
        }
    }
}
