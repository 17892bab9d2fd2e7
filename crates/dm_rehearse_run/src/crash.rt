ghost use Rattle.std.specs.Prelude.{IfOk};
ghost use Rattle.dm_disk.specs.Memory.{held_in};
ghost use Rattle.dm_rehearse_run.specs.Kept.{IsKeptFor};
ghost use Rattle.dm_rehearse_run.specs.Sessions.{IsCrashed};

use dm_disk::MemoryDisk;
use dm_rehearse::pick_of;
use dm_types::NoMemory;
use std::alloc::Global;

/// What a crash leaves of a disk: the least image where the number is even, and the disk as it reads where it is
/// odd.
pub fn crashed(alloc: Global, disk: MemoryDisk, number: u32) -> Result<MemoryDisk, NoMemory>
    ensures crash { IfOk result (IsCrashed number disk) }
    ensures kept { IsKeptFor number (held_in disk) → IfOk result (λ left. IsKeptFor number (held_in left)) }
{
    disk.image(alloc, pick_of(number))
}
