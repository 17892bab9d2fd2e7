ghost use Rattle.std.specs.Prelude.{◌≡◌, ◌+◌, ◌^◌, ◌<◌, ◌≤◌, ◌++◌, ◌∷◌, [], List, ℕ, length, OnErr, OnOk};
ghost use Rattle.dm_types.specs.Faults.{HasCause};
ghost use Rattle.dm_disk_model.specs.Faults.{disk_kind};
ghost use Rattle.dm_disk_model.specs.Disk.{now, Stands, ChangesOnly};
ghost use Rattle.dm_disk_model.specs.Moments.{LeavesOnly, KeepsFiles};
ghost use Rattle.dm_journal.specs.Text.{FitsCell};
ghost use Rattle.dm_journal.specs.AtRest.{journal_place, AtRest, MayLeaveJust, ReadsJournal, WithOrWithout, cell_tail};

use dm_disk_model::{Disk, DiskFault, Place};

/// Writes a cell behind the closed gate, makes it durable, opens the gate, and makes that durable.
/// Until the last step a crash leaves the bodies before it, with the new one or without.
pub(crate) fn write_cell<D: Disk>(
    disk: &mut D,
    place: &Place,
    gate: u64,
    tail: &[u8],
) -> Result<(), DiskFault>
    requires place { place.now ≡ journal_place }
    requires near { gate < 2 ^ 63 }
    requires stands { D.tells → Stands (now (D.history disk.old)) journal_place }
    ensures any_moment { D.tells → (bodies : List (List ℕ)) (body : List ℕ) → FitsCell body → tail.now ≡ cell_tail body
        → AtRest (now (D.history disk.old)) gate bodies → LeavesOnly (D.history disk.old) (D.history disk.new) (WithOrWithout bodies body) }
    ensures done { D.tells → (bodies : List (List ℕ)) (body : List ℕ) → FitsCell body → tail.now ≡ cell_tail body
        → AtRest (now (D.history disk.old)) gate bodies → OnOk result (AtRest (now (D.history disk.new)) (gate + (5 + length body)) (bodies ++ body ∷ [])) }
    ensures read { D.tells → (bodies : List (List ℕ)) (body : List ℕ) → FitsCell body → tail.now ≡ cell_tail body
        → ReadsJournal (now (D.history disk.old)) gate bodies → OnOk result (ReadsJournal (now (D.history disk.new)) (gate + (5 + length body)) (bodies ++ body ∷ [])) }
    ensures lost { D.tells → (bodies : List (List ℕ)) (body : List ℕ) → FitsCell body → tail.now ≡ cell_tail body
        → AtRest (now (D.history disk.old)) gate bodies → OnErr result (MayLeaveJust bodies (now (D.history disk.new)).state) }
    ensures others { D.tells → ChangesOnly journal_place (now (D.history disk.old)) (now (D.history disk.new)) }
    ensures beside { D.tells → KeepsFiles (D.history disk.old) (D.history disk.new) }
    ensures near { OnOk result (gate + 1 + length tail.now < 2 ^ 63) }
    ensures far { gate + 1 + length tail.now ≤ 2 ^ 62 → D.far disk.new ≡ D.far disk.old }
    ensures cause { HasCause disk_kind (D.faults disk.old) (D.faults disk.new) result }
{
    disk.write_at(place, gate + 1, tail)?;
    disk.sync(place)?;
    disk.write_at(place, gate, &[1])?;
    disk.sync(place)?;
    Ok(())
}
