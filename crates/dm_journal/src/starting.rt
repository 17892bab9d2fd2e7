// A journal of no bodies is made beside, and renamed once it is durable.
ghost use Rattle.std.specs.Prelude.{◌≡◌, [], length, OnOk};
ghost use Rattle.dm_types.specs.Faults.{HasCause};
ghost use Rattle.dm_disk_model.specs.Faults.{disk_kind};
ghost use Rattle.dm_disk_model.specs.Disk.{History, IsSoundDisk, now, Stands, StandsNot};
ghost use Rattle.dm_disk_model.specs.Moments.{Reached};
ghost use Rattle.dm_disk_model.specs.Names.{NeverStands};
ghost use Rattle.dm_journal.specs.Text.{header};
ghost use Rattle.dm_journal.specs.AtRest.{journal_place, AtRest};
ghost use Rattle.dm_journal.specs.Starting.{spare_place, blank, LeavesOldOr, IsAsBefore, HasSpare, IsTextFile, EndsIn, ChangesTheTwo};

use crate::text::BLANK;
use dm_disk_model::{Area, Disk, DiskFault, Place};

/// Removes what an earlier start left.
fn clear_spare<D: Disk>(disk: &mut D, spare: &Place) -> Result<(), DiskFault>
    requires place { spare.now ≡ spare_place }
    ensures does { D.tells → (start : History) → IsSoundDisk (now start) → Reached start (D.history disk.old) (LeavesOldOr [] (now start)) (IsAsBefore (now start))
        → EndsIn [] start (D.history disk.new) (IsAsBefore (now start)) result }
    ensures stands_not { D.tells → OnOk result (StandsNot (now (D.history disk.new)) spare_place) }
    ensures others { D.tells → ChangesTheTwo (now (D.history disk.old)) (now (D.history disk.new)) }
    ensures cause { HasCause disk_kind (D.faults disk.old) (D.faults disk.new) result }
    ensures far { D.far disk.new ≡ D.far disk.old }
{
    match disk.length(spare) {
        Ok(None) => Ok(()),
        Ok(Some(_)) => disk.remove(spare),
        Err(fault) => Err(fault),
    }
}

/// Makes the journal beside, and makes it durable.
fn make_spare<D: Disk>(disk: &mut D, spare: &Place) -> Result<(), DiskFault>
    requires place { spare.now ≡ spare_place }
    requires stands_not { D.tells → StandsNot (now (D.history disk.old)) spare_place }
    ensures does { D.tells → (start : History) → IsSoundDisk (now start) → Reached start (D.history disk.old) (LeavesOldOr [] (now start)) (IsAsBefore (now start))
        → EndsIn [] start (D.history disk.new) (HasSpare (now start) (IsTextFile blank)) result }
    ensures stands { D.tells → OnOk result (Stands (now (D.history disk.new)) spare_place) }
    ensures others { D.tells → ChangesTheTwo (now (D.history disk.old)) (now (D.history disk.new)) }
    ensures cause { HasCause disk_kind (D.faults disk.old) (D.faults disk.new) result }
    ensures far { D.far disk.new ≡ D.far disk.old }
{
    disk.create(spare)?;
    disk.write_at(spare, 0, &BLANK)?;
    disk.sync(spare)?;
    Ok(())
}

/// Gives it its name, and makes the names durable.
fn give_name<D: Disk>(disk: &mut D, spare: &Place, place: &Place) -> Result<(), DiskFault>
    requires spare { spare.now ≡ spare_place }
    requires place { place.now ≡ journal_place }
    requires stands { D.tells → Stands (now (D.history disk.old)) spare_place }
    ensures does { D.tells → (start : History) → IsSoundDisk (now start) → Reached start (D.history disk.old) (LeavesOldOr [] (now start)) (HasSpare (now start) (IsTextFile blank))
        → EndsIn [] start (D.history disk.new) (λ disk. AtRest disk (length header) []) result }
    ensures others { D.tells → ChangesTheTwo (now (D.history disk.old)) (now (D.history disk.new)) }
    ensures gone { D.tells → OnOk result (NeverStands spare_place (now (D.history disk.new))) }
    ensures cause { HasCause disk_kind (D.faults disk.old) (D.faults disk.new) result }
    ensures far { D.far disk.new ≡ D.far disk.old }
{
    disk.rename(spare, place)?;
    disk.sync_names(Area::State)?;
    Ok(())
}

/// Starts the journal. Until the last step a crash leaves `journal` as it was, or with no bodies.
pub(crate) fn start_blank<D: Disk>(
    disk: &mut D,
    spare: &Place,
    place: &Place,
) -> Result<(), DiskFault>
    requires spare { spare.now ≡ spare_place }
    requires place { place.now ≡ journal_place }
    ensures does { D.tells → EndsIn [] (D.history disk.old) (D.history disk.new) (λ disk. AtRest disk (length header) []) result }
    ensures others { D.tells → ChangesTheTwo (now (D.history disk.old)) (now (D.history disk.new)) }
    ensures gone { D.tells → OnOk result (NeverStands spare_place (now (D.history disk.new))) }
    ensures cause { HasCause disk_kind (D.faults disk.old) (D.faults disk.new) result }
    ensures far { D.far disk.new ≡ D.far disk.old }
{
    clear_spare(disk, spare)?;
    make_spare(disk, spare)?;
    give_name(disk, spare, place)
}
