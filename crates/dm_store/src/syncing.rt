ghost use Rattle.std.specs.Prelude.{◌≡◌};
ghost use Rattle.dm_types.specs.Faults.{HasCause};
ghost use Rattle.dm_types.specs.Name.{IsPart};
ghost use Rattle.dm_disk_model.specs.Beside.{Besides};
ghost use Rattle.dm_store.specs.Becomes.{kind_is};
ghost use Rattle.dm_store.specs.Keeps.{Keeps};
ghost use Rattle.dm_store.specs.Origin.{said_of};
ghost use Rattle.dm_store.specs.Store.{IsStore, view_of};

use crate::Store;
use dm_disk_model::{Area, Disk};
use dm_edge::Origin;
use dm_types::DiskKind;

/// Makes the names of the user's files durable, also over a broken journal.
pub fn sync_names<D: Disk, O: Origin>(store: &mut Store<D, O>) -> Result<(), DiskKind>
    requires { IsStore D.tells D.history store.old }
    ensures store { IsStore D.tells D.history store.new }
    ensures keeps { Keeps D.tells D.history (λ o. said_of (O.says o)) (view_of store.old) (view_of store.new) }
    ensures same { view_of store.new ≡ record (view_of store.old) { disk = store.new.disk } }
    ensures beside { D.tells → Besides IsPart (D.history store.old.disk) (D.history store.new.disk) }
    ensures cause { HasCause kind_is (D.faults store.old.disk) (D.faults store.new.disk) result }
    ensures far { D.far store.new.disk ≡ D.far store.old.disk }
{
    match store.disk.sync_names(Area::Files) {
        Ok(()) => Ok(()),
        Err(fault) => Err(fault.0),
    }
}
