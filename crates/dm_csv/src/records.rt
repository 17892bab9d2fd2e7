//! All records of a file.
ghost use Rattle.std.specs.Prelude.{◌≡◌, ◌++◌, ◌∷◌, [], map, IfOk, OnOk};
ghost use Rattle.csv.specs.Records.{fields_of};
ghost use Rattle.dm_csv.specs.Rows.{HasRecords};

use csv::{ByteRecord, ReaderBuilder};
use dm_types::NoMemory;
use std::alloc::Global;

/// Every record of the bytes, of whatever length. Their reader doesn't fail, so memory alone can be wanting.
pub(crate) fn all_records(alloc: Global, bytes: &[u8]) -> Result<Vec<ByteRecord>, NoMemory>
    ensures { IfOk result (λ all. HasRecords bytes.now (map fields_of all.items)) }
{
    let reader = ReaderBuilder::new()
        .has_headers(false)
        .flexible(true)
        .from_reader(alloc, bytes);
    let mut all = Vec::new(alloc);
    for row in reader.into_byte_records() {
        match row {
            Ok(row) => push_record(&mut all, row)?,
            Err(_) => return Err(NoMemory),
        }
    }
    Ok(all)
}

/// Adds a record at the end.
fn push_record(all: &mut Vec<ByteRecord>, row: ByteRecord) -> Result<(), NoMemory>
    ensures { OnOk result (all.new.items ≡ all.old.items ++ row ∷ []) }
{
    match all.push(row) {
        Ok(()) => Ok(()),
        Err(_) => Err(NoMemory),
    }
}
