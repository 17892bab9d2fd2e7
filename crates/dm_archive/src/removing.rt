ghost use Rattle.std.specs.Prelude.{◌≡◌};
ghost use Rattle.dm_types.specs.Faults.{HasCause};
ghost use Rattle.dm_disk_model.specs.Moments.{KeepsFiles};
ghost use Rattle.dm_store.specs.Keeps.{IsDesk, Keeps, StaysNear};
ghost use Rattle.dm_store.specs.Origin.{said_of};
ghost use Rattle.dm_archive.specs.Faults.{disk_kind, history_kind};
ghost use Rattle.dm_archive.specs.Removing.{BehindAnswers, DropAnswers, RemoveAnswers};

use crate::ArchiveFault;
use crate::fault::desk_fault;
use dm_answers::DeskFault;
use dm_disk_model::Disk;
use dm_edge::Origin;
use dm_hist::{Keeper, KeeperFault};
use dm_items::Desk;
use dm_types::ItemId;

/// Removes an item from the list, or, where no item has the id, its row from the history. `NoItem` comes where
/// there is neither.
pub fn remove<D: Disk, O: Origin, K: Keeper>(
    desk: &mut Desk<D, O>,
    keeper: &mut K,
    id: ItemId,
) -> Result<(), ArchiveFault>
    ensures kept { IsDesk D.tells D.history desk.new }
    ensures answers { RemoveAnswers K.tells id desk.old desk.new (K.rows keeper.old) (K.rows keeper.new) result }
    ensures keeps { Keeps D.tells D.history (λ o. said_of (O.says o)) desk.old desk.new }
    ensures beside { D.tells → KeepsFiles (D.history desk.old.disk) (D.history desk.new.disk) }
    ensures cause { HasCause disk_kind (D.faults desk.old.disk) (D.faults desk.new.disk) result }
    ensures history { HasCause history_kind (K.faults keeper.old) (K.faults keeper.new) result }
    ensures far { StaysNear (D.far desk.old.disk) (D.far desk.new.disk) desk.old desk.new }
{
    match desk.remove(id) {
        Ok(()) => Ok(()),
        Err(fault) => behind(keeper, id, fault),
    }
}

/// What comes behind a refusal of the list: a row is dropped, where no item has the id.
fn behind<K: Keeper>(keeper: &mut K, id: ItemId, fault: DeskFault) -> Result<(), ArchiveFault>
    ensures answers { BehindAnswers K.tells id fault (K.rows keeper.old) (K.rows keeper.new) result }
    ensures history { HasCause history_kind (K.faults keeper.old) (K.faults keeper.new) result }
{
    match fault {
        DeskFault::NoItem(_) => drop_row(keeper, id),
        _ => Err(desk_fault(fault)),
    }
}

/// Drops the row of an id. `NoItem` comes where there is none.
fn drop_row<K: Keeper>(keeper: &mut K, id: ItemId) -> Result<(), ArchiveFault>
    ensures answers { DropAnswers K.tells id (K.rows keeper.old) (K.rows keeper.new) result }
    ensures history { HasCause history_kind (K.faults keeper.old) (K.faults keeper.new) result }
{
    match keeper.drop_row(id) {
        Ok(true) => Ok(()),
        Ok(false) => Err(ArchiveFault::Desk(DeskFault::NoItem(id))),
        Err(KeeperFault::Failed) => Err(ArchiveFault::Keeper),
        Err(KeeperFault::NoMemory) => Err(ArchiveFault::NoMemory),
    }
}
