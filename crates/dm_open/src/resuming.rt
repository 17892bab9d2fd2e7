ghost use Rattle.std.specs.Prelude.{◌≡◌};
ghost use Rattle.dm_types.specs.Faults.{HasCause};
ghost use Rattle.dm_types.specs.Limits.{IsLimits};
ghost use Rattle.dm_disk_model.specs.Beside.{Besides};
ghost use Rattle.dm_store.specs.Keeps.{StaysNear};
ghost use Rattle.dm_store.specs.Origin.{said_of};
ghost use Rattle.dm_store.specs.Store.{HasRoomOf, IsStore, view_of};
ghost use Rattle.dm_find.specs.Reopening.{IsBare, IsHere, hindered_kind};
ghost use Rattle.dm_settle.specs.Settled.{IsPartOrGiven};
ghost use Rattle.dm_open.specs.Resuming.{ResumeMakes};

use crate::finishing::finish_opening;
use dm_disk_model::Disk;
use dm_edge::Origin;
use dm_find::{Hindered, begin_list};
use dm_store::Store;

/// Opens the list of a store in which what the journal held was put: begins it, settles what was being
/// finished, and sweeps. It is broken until all of that is done.
pub(crate) fn resume<D: Disk, O: Origin>(store: &mut Store<D, O>, at: u64) -> Result<(), Hindered>
    requires bare { IsBare (view_of store.old) }
    requires here { IsHere D.tells D.history (view_of store.old) }
    requires limits { IsLimits store.old.limits }
    requires limit { store.old.items.limit ≡ store.old.limits.items }
    requires room { HasRoomOf 1 store.old }
    ensures store { IsStore D.tells D.history store.new }
    ensures makes { ResumeMakes D.tells D.history (λ o. said_of (O.says o)) at (view_of store.old) (view_of store.new) result }
    ensures beside { D.tells → Besides (IsPartOrGiven D.history (view_of store.old)) (D.history store.old.disk) (D.history store.new.disk) }
    ensures cause { HasCause hindered_kind (D.faults store.old.disk) (D.faults store.new.disk) result }
    ensures far { StaysNear (D.far store.old.disk) (D.far store.new.disk) (view_of store.old) (view_of store.new) }
{
    match begin_list(store, at) {
        Ok(()) => {}
        Err(fault) => return Err(fault),
    }
    match finish_opening(store, at) {
        Ok(()) => Ok(()),
        Err(fault) => {
            store.broken = true;
            Err(fault)
        }
    }
}
