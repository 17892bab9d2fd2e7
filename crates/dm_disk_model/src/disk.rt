ghost use Rattle.std.specs.Prelude.{◌≡◌, ◌↔◌, ◌+◌, ◌<◌, ◌≤◌, ◌^◌, ℕ, length, IfOk, OnOk, IfSome, IsTrue};
ghost use Rattle.std.specs.Option.{option_map};
ghost use Rattle.dm_types.specs.Faults.{HasCause};
ghost use Rattle.dm_types.specs.declared.kinds.DiskKind.{DiskKind as Kind};
ghost use Rattle.dm_disk_model.specs.Disk.{History, now, folder_in, bytes_at, Stands, StandsNot, Next, CreateStep, WriteStep, SyncStep, RenameStep, RemoveStep, SyncNamesStep, Reads, IsSoundDisk};
ghost use Rattle.dm_disk_model.specs.Folder.{Lists};
ghost use Rattle.dm_disk_model.specs.Faults.{disk_kind, names_kind, CountsFar};

use crate::{Area, DiskFault, NameList, NamesFault, Place};
use std::alloc::Global;

/// Two folders of files. Each call fails only by a fault that is counted under its kind.
pub trait Disk {
    /// The disk tells what it holds. A real one doesn't.
    ghost tells: { Type 0 };

    /// What it held at each moment so far, and so what a crash might have left.
    ghost history: { Self → History };

    /// How often a call failed, by kind.
    ghost faults: { Self → Kind → ℕ };

    /// How many writes were refused since their range would have ended at 2^63 or above.
    ghost far: { Self → ℕ };

    /// The names that stand in a folder, each once, in any order.
    fn names(&mut self, alloc: Global, area: Area) -> Result<NameList, NamesFault>
        ensures listed { tells → IfOk result (Lists (folder_in area (now (history self.old)))) }
        ensures stays { history self.new ≡ history self.old }
        ensures cause { HasCause names_kind (faults self.old) (faults self.new) result }
        ensures far { far self.new ≡ far self.old };

    /// The file's length in bytes, or `None` where nothing stands there.
    fn length(&mut self, place: &Place) -> Result<Option<u64>, DiskFault>
        ensures length { tells → IfOk result (λ found. found ≡ option_map length (bytes_at (now (history self.old)) place.now)) }
        ensures stays { history self.new ≡ history self.old }
        ensures cause { HasCause disk_kind (faults self.old) (faults self.new) result }
        ensures far { far self.new ≡ far self.old };

    /// Reads bytes from `at` on into the buffer's front, and says how many: 0 only at or past the
    /// end, or for an empty buffer.
    fn read_at(&mut self, place: &Place, at: u64, buf: &mut [u8]) -> Result<usize, DiskFault>
        requires { tells → Stands (now (history self.old)) place.now }
        ensures within { IfOk result (λ n. n ≤ length buf.old) }
        ensures read { tells → IfOk result (λ n. IfSome (bytes_at (now (history self.old)) place.now) (λ file. Reads file at n buf.new)) }
        ensures stays { history self.new ≡ history self.old }
        ensures cause { HasCause disk_kind (faults self.old) (faults self.new) result }
        ensures far { far self.new ≡ far self.old };

    /// Makes an empty file.
    fn create(&mut self, place: &Place) -> Result<(), DiskFault>
        requires { tells → StandsNot (now (history self.old)) place.now }
        ensures done { tells → Next (history self.old) (history self.new) (CreateStep place.now result) }
        ensures cause { HasCause disk_kind (faults self.old) (faults self.new) result }
        ensures far { far self.new ≡ far self.old };

    /// Writes all the bytes from `at` on. Past the end it leaves zeros between. A write that fails
    /// may leave any bytes in its range.
    fn write_at(&mut self, place: &Place, at: u64, bytes: &[u8]) -> Result<(), DiskFault>
        requires { tells → Stands (now (history self.old)) place.now }
        ensures done { tells → Next (history self.old) (history self.new) (WriteStep place.now at bytes.now result) }
        ensures near { OnOk result (at + length bytes.now < 2 ^ 63) }
        ensures cause { HasCause disk_kind (faults self.old) (faults self.new) result }
        ensures far { CountsFar (at + length bytes.now) (far self.old) (far self.new) (history self.old) (history self.new) result };

    /// What the file holds is durable from its Ok on. A sync that fails makes nothing durable.
    fn sync(&mut self, place: &Place) -> Result<(), DiskFault>
        requires { tells → Stands (now (history self.old)) place.now }
        ensures done { tells → Next (history self.old) (history self.new) (SyncStep place.now result) }
        ensures cause { HasCause disk_kind (faults self.old) (faults self.new) result }
        ensures far { far self.new ≡ far self.old };

    /// Gives the file another name in its folder, and replaces what stood under that.
    fn rename(&mut self, from: &Place, to: &Place) -> Result<(), DiskFault>
        requires stands { tells → Stands (now (history self.old)) from.now }
        requires one_area { tells → to.now.area ≡ from.now.area }
        ensures done { tells → Next (history self.old) (history self.new) (RenameStep from.now to.now result) }
        ensures cause { HasCause disk_kind (faults self.old) (faults self.new) result }
        ensures far { far self.new ≡ far self.old };

    /// Takes the file's name away.
    fn remove(&mut self, place: &Place) -> Result<(), DiskFault>
        requires { tells → Stands (now (history self.old)) place.now }
        ensures done { tells → Next (history self.old) (history self.new) (RemoveStep place.now result) }
        ensures cause { HasCause disk_kind (faults self.old) (faults self.new) result }
        ensures far { far self.new ≡ far self.old };

    /// The folder's names are durable from its Ok on.
    fn sync_names(&mut self, area: Area) -> Result<(), DiskFault>
        ensures done { tells → Next (history self.old) (history self.new) (SyncNamesStep area result) }
        ensures cause { HasCause disk_kind (faults self.old) (faults self.new) result }
        ensures far { far self.new ≡ far self.old };

    /// At each moment no two names share a file, and no file was synced longer than it is.
    ghost sound: { tells → (disk : Self) (t : ℕ) → IsSoundDisk ((history disk).at t) };
}

/// Whether a range of so many bytes ends at 2^63 or above: such a write is refused.
pub fn ends_far(at: u64, count: usize) -> bool
    ensures { IsTrue result ↔ (2 ^ 63 ≤ at + count) }
{
    at >= FAR || count as u64 >= FAR - at
}

/// Each place of a file lies below.
const FAR: u64 = 1 << 63;
