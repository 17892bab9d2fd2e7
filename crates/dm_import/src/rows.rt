//! The rows of the file that is imported.
ghost use Rattle.std.specs.Prelude.{◌≤◌, length, IfErr, IfOk, ◌≡◌};
ghost use Rattle.dm_types.specs.Faults.{NoneFell};
ghost use Rattle.dm_disk_model.specs.Disk.{now};
ghost use Rattle.dm_part.specs.Laws.{files_place};
ghost use Rattle.dm_csv.specs.Rows.{IsImport};
ghost use Rattle.dm_import.specs.Reading.{AreFew, FileTells, IsImportOf, RefusesBytes, RefusesFound, TellsNone, most_bytes};

use crate::reading::{Found, read_found};
use dm_csv::{ImportFault, ImportRows, csv_import};
use dm_disk_model::{Area, Disk, Place};
use dm_report::Verdict;
use dm_types::{NoMemory, Text};
use std::alloc::Global;

/// The rows of these bytes.
fn rows_of(alloc: Global, bytes: &Text) -> Result<ImportRows, Verdict>
    requires { length bytes.now ≤ most_bytes }
    ensures ok { IfOk result (IsImport bytes.now) }
    ensures refused { IfErr result (RefusesBytes bytes.now) }
{
    match csv_import(alloc, bytes.bytes()) {
        Ok(rows) => Ok(rows),
        Err(ImportFault::Bad(number)) => Err(Verdict::BadImport(number)),
        Err(ImportFault::NoMemory) => Err(Verdict::NoMemory),
    }
}

/// The rows of what was found. Where there is no file, or one that is too long, that is record 0.
fn rows_in(alloc: Global, found: Found) -> Result<ImportRows, Verdict>
    requires { AreFew found }
    ensures ok { IfOk result (IsImportOf found) }
    ensures refused { IfErr result (RefusesFound found) }
{
    match found {
        Found::Nothing => Err(Verdict::BadImport(0)),
        Found::TooLong => Err(Verdict::BadImport(0)),
        Found::Bytes(bytes) => rows_of(alloc, &bytes),
    }
}

/// The rows of the file at a place.
fn rows_at<D: Disk>(alloc: Global, disk: &mut D, place: &Place) -> Result<ImportRows, Verdict>
    ensures ok { IfOk result (FileTells D.tells (now (D.history disk.old)) place.now) }
    ensures refused { IfErr result (TellsNone D.tells (now (D.history disk.old)) place.now (D.faults disk.old) (D.faults disk.new)) }
    ensures stays { D.history disk.new ≡ D.history disk.old }
    ensures later { NoneFell (D.faults disk.old) (D.faults disk.new) }
    ensures far { D.far disk.new ≡ D.far disk.old }
{
    match read_found(alloc, disk, place) {
        Ok(found) => rows_in(alloc, found),
        Err(verdict) => Err(verdict),
    }
}

/// The rows of the file of this name among the user's files, or why there are none.
pub(crate) fn read_rows<D: Disk>(
    alloc: Global,
    disk: &mut D,
    name: &[u8],
) -> Result<ImportRows, Verdict>
    ensures ok { IfOk result (FileTells D.tells (now (D.history disk.old)) (files_place name.now)) }
    ensures refused { IfErr result (TellsNone D.tells (now (D.history disk.old)) (files_place name.now) (D.faults disk.old) (D.faults disk.new)) }
    ensures stays { D.history disk.new ≡ D.history disk.old }
    ensures later { NoneFell (D.faults disk.old) (D.faults disk.new) }
    ensures far { D.far disk.new ≡ D.far disk.old }
{
    match Text::from_bytes(alloc, name) {
        Ok(name) => {
            let place = Place {
                area: Area::Files,
                name,
            };
            rows_at(alloc, disk, &place)
        }
        Err(NoMemory) => Err(Verdict::NoMemory),
    }
}
