// The calls on a part.
ghost use Rattle.std.specs.Prelude.{◌≡◌, ◌≢◌, ℕ, ◌+◌, ◌^◌, ◌<◌, length, List, Some, None, OnOk};
ghost use Rattle.dm_types.specs.Faults.{HasCause};
ghost use Rattle.dm_disk_model.specs.Faults.{disk_kind, CountsFar};
ghost use Rattle.dm_disk_model.specs.File.{overwrite};
ghost use Rattle.dm_disk_model.specs.Disk.{now, Next, Stands, bytes_at, WriteStep, SyncStep, RenameStep, RemoveStep, SyncNamesStep};
ghost use Rattle.dm_disk_model.specs.Names.{IsSettled, NeverStands, LeavesNothingOr, LeavesJust};
ghost use Rattle.dm_disk_model.specs.Moments.{KeepsOthers, Throughout};
ghost use Rattle.dm_part.specs.Publish.{Moves};
ghost use Rattle.dm_part.specs.Runs.{InTurn};

use dm_disk_model::{Disk, DiskFault, Place};

/// Writes a piece of content at its place.
pub fn put<D: Disk>(disk: &mut D, part: &Place, at: u64, piece: &[u8]) -> Result<(), DiskFault>
    requires { D.tells → Stands (now (D.history disk.old)) part.now }
    ensures written { D.tells → (file : List ℕ) → bytes_at (now (D.history disk.old)) part.now ≡ Some file
        → OnOk result (bytes_at (now (D.history disk.new)) part.now ≡ Some (overwrite file at piece.now)) }
    ensures stands { D.tells → OnOk result (Stands (now (D.history disk.new)) part.now) }
    ensures keeps { D.tells → KeepsOthers part.now (D.history disk.old) (D.history disk.new) }
    ensures done { D.tells → Next (D.history disk.old) (D.history disk.new) (WriteStep part.now at piece.now result) }
    ensures near { OnOk result (at + length piece.now < 2 ^ 63) }
    ensures cause { HasCause disk_kind (D.faults disk.old) (D.faults disk.new) result }
    ensures far { CountsFar (at + length piece.now) (D.far disk.old) (D.far disk.new) (D.history disk.old) (D.history disk.new) result }
{
    disk.write_at(part, at, piece)
}

/// Makes what the part holds durable.
pub fn settle<D: Disk>(disk: &mut D, part: &Place) -> Result<(), DiskFault>
    requires { D.tells → Stands (now (D.history disk.old)) part.now }
    ensures settled { D.tells → (file : List ℕ) → bytes_at (now (D.history disk.old)) part.now ≡ Some file
        → OnOk result (IsSettled part.now file (now (D.history disk.new)) × (bytes_at (now (D.history disk.new)) part.now ≡ Some file)) }
    ensures done { D.tells → Next (D.history disk.old) (D.history disk.new) (SyncStep part.now result) }
    ensures stands { D.tells → OnOk result (Stands (now (D.history disk.new)) part.now) }
    ensures keeps { D.tells → KeepsOthers part.now (D.history disk.old) (D.history disk.new) }
    ensures cause { HasCause disk_kind (D.faults disk.old) (D.faults disk.new) result }
    ensures far { D.far disk.new ≡ D.far disk.old }
{
    disk.sync(part)
}

/// Gives the part its name, and makes the names durable. Until then no crash leaves the name with
/// anything but the whole part, and after Ok each crash leaves it.
pub fn publish<D: Disk>(disk: &mut D, part: &Place, target: &Place) -> Result<(), DiskFault>
    requires stands { D.tells → Stands (now (D.history disk.old)) part.now }
    requires one_area { D.tells → target.now.area ≡ part.now.area }
    ensures done { D.tells → InTurn (RenameStep part.now target.now) (SyncNamesStep target.now.area) result (D.history disk.old) (D.history disk.new) }
    ensures moves { D.tells → part.now.name ≢ target.now.name
        → Moves part.now target.now result (now (D.history disk.old)) (now (D.history disk.new)) }
    ensures whole { D.tells → (file : List ℕ) → IsSettled part.now file (now (D.history disk.old)) → NeverStands target.now (now (D.history disk.old))
        → Throughout (D.history disk.old) (D.history disk.new) (LeavesNothingOr target.now file) }
    ensures durable { D.tells → (file : List ℕ) → IsSettled part.now file (now (D.history disk.old))
        → OnOk result (LeavesJust target.now file (now (D.history disk.new))) }
    ensures cause { HasCause disk_kind (D.faults disk.old) (D.faults disk.new) result }
    ensures far { D.far disk.new ≡ D.far disk.old }
{
    match disk.rename(part, target) {
        Ok(()) => disk.sync_names(target.area),
        Err(fault) => Err(fault),
    }
}

/// Removes the part.
pub fn discard<D: Disk>(disk: &mut D, part: &Place) -> Result<(), DiskFault>
    requires { D.tells → Stands (now (D.history disk.old)) part.now }
    ensures gone { D.tells → OnOk result (bytes_at (now (D.history disk.new)) part.now ≡ None) }
    ensures done { D.tells → Next (D.history disk.old) (D.history disk.new) (RemoveStep part.now result) }
    ensures keeps { D.tells → KeepsOthers part.now (D.history disk.old) (D.history disk.new) }
    ensures cause { HasCause disk_kind (D.faults disk.old) (D.faults disk.new) result }
    ensures far { D.far disk.new ≡ D.far disk.old }
{
    disk.remove(part)
}
