ghost use Rattle.std.specs.Prelude.{◌≡◌, ◌<◌, length, IfSome, IsTrue};
ghost use Rattle.dm_disk.specs.Memory.{held_in, history_in};
ghost use Rattle.dm_rehearse_run.specs.Reading.{IsCountedOn, IsLong, IsSumOf};

use dm_disk::{Disk, MemoryDisk, Place};
use dm_generated::size_of;
use dm_journal::Journal;
use dm_part::digest;
use dm_rehearse::{Counts, count};
use std::alloc::Global;

/// Counts what the journal of a disk records. `None` where none stands there, or memory is wanting to read it.
pub fn counts_on(alloc: Global, disk: &mut MemoryDisk) -> Option<Counts>
    ensures { IfSome result (IsCountedOn (held_in disk.old)) }
{
    match Journal::find(alloc, disk) {
        Ok(Some((_, bodies))) => count(alloc, bodies.items()),
        Ok(None) => None,
        Err(_) => None,
    }
}

/// Whether a file stands at a place that has so many bytes.
fn is_long(disk: &mut MemoryDisk, place: &Place, size: u64) -> bool
    ensures long { IsTrue result → IsLong (held_in disk.old) place.now size }
    ensures stays { history_in disk.new ≡ history_in disk.old }
{
    match disk.length(place) {
        Ok(Some(length)) => length == size,
        Ok(None) => false,
        Err(_) => false,
    }
}

/// The SHA-256 of the file at a place, where it stands and is as long as the content of the number. The window is
/// written over.
pub fn sum_on(
    disk: &mut MemoryDisk,
    place: &Place,
    number: u64,
    window: &mut [u8],
) -> Option<[u8; 32]>
    requires { 0 < length window.old }
    ensures sum { IfSome result (IsSumOf (held_in disk.old) place.now number) }
    ensures stays { history_in disk.new ≡ history_in disk.old }
{
    let size = size_of(number);
    if !is_long(disk, place, size) {
        return None;
    }
    match digest(disk, place, size, window) {
        Ok(sum) => Some(sum),
        Err(_) => None,
    }
}
