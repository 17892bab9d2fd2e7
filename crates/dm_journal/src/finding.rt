// What stands as the journal is made durable, and read as a journal's text.
ghost use Rattle.std.specs.Prelude.{◌≡◌, IfOk};
ghost use Rattle.dm_types.specs.Faults.{HasCause};
ghost use Rattle.dm_disk_model.specs.Faults.{disk_kind};
ghost use Rattle.dm_disk_model.specs.Disk.{now};
ghost use Rattle.dm_journal.specs.Fault.{journal_kind};
ghost use Rattle.dm_journal.specs.AtRest.{journal_place};
ghost use Rattle.dm_journal.specs.Reading.{Settles, FindsText, IsOfText, SyncsOnly};

use crate::JournalFault;
use crate::reading::read_text;
use crate::text::WholeText;
use dm_disk_model::{Area, Disk, DiskFault, Place};
use std::alloc::Global;

/// Whether the journal stands.
pub(crate) enum Settled {
    Stands,
    Missing,
}

/// Makes the names durable, and the journal where it stands.
pub(crate) fn settle<D: Disk>(disk: &mut D, place: &Place) -> Result<Settled, DiskFault>
    requires place { place.now ≡ journal_place }
    ensures settles { D.tells → Settles (now (D.history disk.old)) (now (D.history disk.new)) result }
    ensures syncs { D.tells → SyncsOnly (D.history disk.old) (D.history disk.new) }
    ensures cause { HasCause disk_kind (D.faults disk.old) (D.faults disk.new) result }
    ensures far { D.far disk.new ≡ D.far disk.old }
{
    disk.sync_names(Area::State)?;
    match disk.length(place)? {
        Some(_) => {
            disk.sync(place)?;
            Ok(Settled::Stands)
        }
        None => Ok(Settled::Missing),
    }
}

/// Finds the text of the journal.
pub(crate) fn find_text<D: Disk>(
    alloc: Global,
    disk: &mut D,
    place: &Place,
) -> Result<Option<WholeText>, JournalFault>
    requires place { place.now ≡ journal_place }
    ensures found { D.tells → FindsText (now (D.history disk.old)) (now (D.history disk.new)) result }
    ensures at { IfOk result IsOfText }
    ensures syncs { D.tells → SyncsOnly (D.history disk.old) (D.history disk.new) }
    ensures cause { HasCause journal_kind (D.faults disk.old) (D.faults disk.new) result }
    ensures far { D.far disk.new ≡ D.far disk.old }
{
    match settle(disk, place) {
        Ok(Settled::Missing) => return Ok(None),
        Ok(Settled::Stands) => {}
        Err(fault) => return Err(JournalFault::Disk(fault.0)),
    }
    match read_text(alloc, disk, place) {
        Ok(found) => Ok(Some(found)),
        Err(fault) => Err(fault),
    }
}
