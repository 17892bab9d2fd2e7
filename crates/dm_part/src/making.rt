ghost use Rattle.std.specs.Prelude.{◌≡◌, IfOk, OnOk, Some, []};
ghost use Rattle.dm_types.specs.Faults.{HasCause};
ghost use Rattle.dm_disk_model.specs.Faults.{disk_kind};
ghost use Rattle.dm_disk_model.specs.Disk.{now, StandsNot, bytes_at, CreateStep, SyncNamesStep};
ghost use Rattle.dm_part.specs.Making.{part_place};
ghost use Rattle.dm_part.specs.Runs.{InTurn};

use dm_disk_model::{Area, Disk, DiskFault, Place};
use dm_types::{Epoch, ItemId, NoMemory, part_name};
use std::alloc::Global;

/// The place of an item's part in one of its epochs.
pub fn place_of(alloc: Global, id: ItemId, epoch: Epoch) -> Result<Place, NoMemory>
    ensures { IfOk result (λ place. place ≡ part_place id.0 epoch.0) }
{
    let name = part_name(alloc, id, epoch)?;
    Ok(Place {
        area: Area::Files,
        name,
    })
}

/// Creates a part, and makes the names durable. The part is empty. It takes no memory.
pub fn create<D: Disk>(disk: &mut D, part: &Place) -> Result<(), DiskFault>
    requires { D.tells → StandsNot (now (D.history disk.old)) part.now }
    ensures done { D.tells → InTurn (CreateStep part.now) (SyncNamesStep part.now.area) result (D.history disk.old) (D.history disk.new) }
    ensures made { D.tells → OnOk result (bytes_at (now (D.history disk.new)) part.now ≡ Some []) }
    ensures cause { HasCause disk_kind (D.faults disk.old) (D.faults disk.new) result }
    ensures far { D.far disk.new ≡ D.far disk.old }
{
    match disk.create(part) {
        Ok(()) => disk.sync_names(part.area),
        Err(fault) => Err(fault),
    }
}
