//! A file that is imported.
ghost use Rattle.std.specs.Prelude.{◌≡◌, ◌<◌, ◌≤◌, ◌^◌, ◌↔◌, map, length, IfOk, IfErr, IsTrue};
ghost use Rattle.csv.specs.Records.{fields_of};
ghost use Rattle.dm_csv.specs.Rows.{AreRows, IsImport, Refuses, import_header};
ghost use Rattle.dm_csv.specs.Reading.{AreAll, RefusesAll, RefusesUnder};

use crate::fields::four_fields;
use crate::records::all_records;
use crate::row::{RowFault, read_row};
use crate::rows::ImportRows;
use csv::ByteRecord;
use dm_types::NoMemory;
use std::alloc::Global;

/// Why a file isn't imported.
#[derive(Clone, Copy, Debug, PartialEq, Eq)]
pub enum ImportFault {
    /// The first record that isn't as it has to be, counted from 1, or 0 for the header.
    Bad(u32),
    NoMemory,
}

/// The rows of a file: under the header `word,address,name,sha256` a record for each item, whose word and address keep
/// the rules of the command line, and so do its name and its digest where they aren't empty.
pub fn csv_import(alloc: Global, bytes: &[u8]) -> Result<ImportRows, ImportFault>
    requires { length bytes.now ≤ 1048576 }
    ensures ok { IfOk result (IsImport bytes.now) }
    ensures refused { IfErr result (Refuses bytes.now) }
{
    match all_records(alloc, bytes) {
        Ok(all) => read_all(alloc, &all),
        Err(_) => Err(ImportFault::NoMemory),
    }
}

/// The rows of all records of a file, the header first.
fn read_all(alloc: Global, all: &[ByteRecord]) -> Result<ImportRows, ImportFault>
    requires { length all.now < 2 ^ 22 }
    ensures ok { IfOk result (AreAll (map fields_of all.now)) }
    ensures refused { IfErr result (RefusesAll (map fields_of all.now)) }
{
    match all {
        [] => Err(ImportFault::Bad(0)),
        [header, under @ ..] => {
            if is_header(header) {
                read_under(alloc, under)
            } else {
                Err(ImportFault::Bad(0))
            }
        }
    }
}

fn is_header(header: &ByteRecord) -> bool
    ensures { IsTrue result ↔ (fields_of header.now ≡ import_header) }
{
    match four_fields(header) {
        Some(four) => {
            four.word == b"word".as_slice()
                && four.address == b"address".as_slice()
                && four.name == b"name".as_slice()
                && four.sha256 == b"sha256".as_slice()
        }
        None => false,
    }
}

/// The rows of the records under the header.
fn read_under(alloc: Global, under: &[ByteRecord]) -> Result<ImportRows, ImportFault>
    requires { length under.now < 2 ^ 22 }
    ensures ok { IfOk result (AreRows (map fields_of under.now)) }
    ensures refused { IfErr result (RefusesUnder (map fields_of under.now)) }
{
    let mut rows = ImportRows::new(alloc);
    let mut number = 1;
    for found in under {
        match read_row(alloc, found) {
            Ok(row) => match rows.push(row) {
                Ok(()) => {}
                Err(NoMemory) => return Err(ImportFault::NoMemory),
            },
            Err(RowFault::Bad) => return Err(ImportFault::Bad(number)),
            Err(RowFault::NoMemory) => return Err(ImportFault::NoMemory),
        }
        number += 1;
    }
    Ok(rows)
}
