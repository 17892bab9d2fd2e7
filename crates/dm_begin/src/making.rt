ghost use Rattle.std.specs.Prelude.{◌≡◌};
ghost use Rattle.dm_types.specs.Faults.{HasCause};
ghost use Rattle.dm_disk_model.specs.Faults.{disk_kind};
ghost use Rattle.dm_begin.specs.Anew.{Renews};

use dm_disk_model::{Disk, DiskFault, Place};
use dm_part::{create, discard};

/// Makes a part anew, and the names durable: one that was left there is removed first. It takes no memory.
pub(crate) fn renew<D: Disk>(disk: &mut D, part: &Place) -> Result<(), DiskFault>
    ensures done { D.tells → Renews part.now (D.history disk.old) (D.history disk.new) result }
    ensures cause { HasCause disk_kind (D.faults disk.old) (D.faults disk.new) result }
    ensures far { D.far disk.new ≡ D.far disk.old }
{
    match disk.length(part) {
        Ok(None) => create(disk, part),
        Ok(Some(_)) => match discard(disk, part) {
            Ok(()) => create(disk, part),
            Err(fault) => Err(fault),
        },
        Err(fault) => Err(fault),
    }
}
