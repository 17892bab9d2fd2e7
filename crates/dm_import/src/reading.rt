//! The file that is imported is read.
ghost use Rattle.std.specs.Prelude.{◌≡◌, ◌+◌, ◌<◌, ℕ, List, length, Some, IfOk, IfErr};
ghost use Rattle.dm_types.specs.Faults.{NoneFell};
ghost use Rattle.dm_disk_model.specs.Disk.{Stands, bytes_at, now};
ghost use Rattle.dm_journal.specs.Reading.{IsFront};
ghost use Rattle.dm_import.specs.Reading.{AreFew, Finds, IsUnread};

use dm_disk_model::{Disk, Place};
use dm_report::Verdict;
use dm_types::{NoMemory, Text};
use std::alloc::Global;

/// How many bytes are read at once.
const PIECE: usize = 65_536;

/// A file of more bytes isn't imported.
const MOST: usize = 1_048_576;

/// What stands under the name of the file.
#[derive(Debug, Drop)]
pub(crate) enum Found {
    /// No file.
    Nothing,
    /// A file of more bytes than are imported.
    TooLong,
    /// A file of these bytes.
    Bytes(Text),
}

/// A buffer of this many bytes.
fn zeros(alloc: Global, count: usize) -> Result<Vec<u8>, NoMemory>
    ensures { IfOk result (λ buffer. length buffer.items ≡ count) }
{
    let mut buffer = Vec::new(alloc);
    buffer.resize(count, 0)?;
    Ok(buffer)
}

/// Reads the next bytes of a file behind those that were read, and says how many: 0 only at its end.
fn read_more<D: Disk>(
    disk: &mut D,
    place: &Place,
    bytes: &mut Vec<u8>,
    piece: &mut [u8],
) -> Result<usize, Verdict>
    requires stands { D.tells → Stands (now (D.history disk.old)) place.now }
    requires room { 0 < length piece.old }
    ensures read { D.tells → (file : List ℕ) → bytes_at (now (D.history disk.old)) place.now ≡ Some file → IsFront bytes.old.items file
        → IfOk result (λ n. IsFront bytes.new.items file × (n ≡ 0 → file ≡ bytes.old.items)) }
    ensures more { IfOk result (λ n. length bytes.new.items ≡ length bytes.old.items + n) }
    ensures same { IfOk result (λ n. n ≡ 0 → bytes.new.items ≡ bytes.old.items) }
    ensures unread { IfErr result (IsUnread (D.faults disk.old) (D.faults disk.new)) }
    ensures stays { D.history disk.new ≡ D.history disk.old }
    ensures later { NoneFell (D.faults disk.old) (D.faults disk.new) }
    ensures far { D.far disk.new ≡ D.far disk.old }
{
    let count = match disk.read_at(place, bytes.len() as u64, piece) {
        Ok(count) => count,
        Err(fault) => return Err(Verdict::DiskFailed(fault.0)),
    };
    match bytes.extend_from_slice(&piece[..count]) {
        Ok(()) => Ok(count),
        Err(_) => Err(Verdict::NoMemory),
    }
}

/// Reads a file that stands by pieces of this buffer's size, up to its end, or until it is too long.
fn read_pieces<D: Disk>(
    alloc: Global,
    disk: &mut D,
    place: &Place,
    piece: &mut [u8],
) -> Result<Found, Verdict>
    requires stands { D.tells → Stands (now (D.history disk.old)) place.now }
    requires room { 0 < length piece.old }
    ensures found { D.tells → (file : List ℕ) → bytes_at (now (D.history disk.old)) place.now ≡ Some file → IfOk result (Finds (now (D.history disk.old)) place.now) }
    ensures few { IfOk result AreFew }
    ensures unread { IfErr result (IsUnread (D.faults disk.old) (D.faults disk.new)) }
    ensures stays { D.history disk.new ≡ D.history disk.old }
    ensures later { NoneFell (D.faults disk.old) (D.faults disk.new) }
    ensures far { D.far disk.new ≡ D.far disk.old }
{
    let mut bytes = Vec::new(alloc);
    'pieces: while bytes.len() <= MOST {
        match read_more(disk, place, &mut bytes, piece) {
            Ok(0) => return Ok(Found::Bytes(Text::from_vec(bytes))),
            Ok(_) => {}
            Err(verdict) => return Err(verdict),
        }
    }
    Ok(Found::TooLong)
}

/// Reads a file that stands.
fn read_bytes<D: Disk>(alloc: Global, disk: &mut D, place: &Place) -> Result<Found, Verdict>
    requires stands { D.tells → Stands (now (D.history disk.old)) place.now }
    ensures found { D.tells → (file : List ℕ) → bytes_at (now (D.history disk.old)) place.now ≡ Some file → IfOk result (Finds (now (D.history disk.old)) place.now) }
    ensures few { IfOk result AreFew }
    ensures unread { IfErr result (IsUnread (D.faults disk.old) (D.faults disk.new)) }
    ensures stays { D.history disk.new ≡ D.history disk.old }
    ensures later { NoneFell (D.faults disk.old) (D.faults disk.new) }
    ensures far { D.far disk.new ≡ D.far disk.old }
{
    match zeros(alloc, PIECE) {
        Ok(piece) => {
            let mut piece = piece;
            read_pieces(alloc, disk, place, &mut piece)
        }
        Err(NoMemory) => Err(Verdict::NoMemory),
    }
}

/// Reads what stands at a place.
pub(crate) fn read_found<D: Disk>(
    alloc: Global,
    disk: &mut D,
    place: &Place,
) -> Result<Found, Verdict>
    ensures found { D.tells → IfOk result (Finds (now (D.history disk.old)) place.now) }
    ensures few { IfOk result AreFew }
    ensures unread { IfErr result (IsUnread (D.faults disk.old) (D.faults disk.new)) }
    ensures stays { D.history disk.new ≡ D.history disk.old }
    ensures later { NoneFell (D.faults disk.old) (D.faults disk.new) }
    ensures far { D.far disk.new ≡ D.far disk.old }
{
    match disk.length(place) {
        Ok(Some(_)) => read_bytes(alloc, disk, place),
        Ok(None) => Ok(Found::Nothing),
        Err(fault) => Err(Verdict::DiskFailed(fault.0)),
    }
}
