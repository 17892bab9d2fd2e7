// A file is read as a journal's text: to its closed gate, or to the first place that shows that it is none.
ghost use Rattle.std.specs.Prelude.{◌≡◌, ◌+◌, ◌^◌, ◌≤◌, ◌<◌, ◌++◌, [], List, ℕ, length, drop, Some, IfOk, IfErr, OnOk};
ghost use Rattle.dm_types.specs.Faults.{HasCause};
ghost use Rattle.dm_disk_model.specs.Disk.{now, Stands, bytes_at};
ghost use Rattle.dm_journal.specs.Fault.{journal_kind, IsNoDamage};
ghost use Rattle.dm_journal.specs.Text.{header};
ghost use Rattle.dm_journal.specs.Reading.{IsFront, HeaderIsRead, FileIsRead, IsPlaced};

use crate::JournalFault;
use crate::text::{Bodies, End, HEADER, WholeText, after_header, take_cells};
use dm_disk_model::{Disk, Place};
use dm_types::{Listed, NoMemory};
use std::alloc::Global;

/// How many bytes are read at once.
const PIECE: usize = 65_536;

/// Bytes that were read end here at most: no memory holds the bodies of so many.
const FAR: u64 = 1 << 63;

/// A buffer of this many bytes.
fn zeros(alloc: Global, count: usize) -> Result<Vec<u8>, NoMemory>
    ensures { IfOk result (λ buffer. length buffer.items ≡ count) }
{
    let mut buffer = Vec::new(alloc);
    buffer.resize(count, 0)?;
    Ok(buffer)
}

/// Takes so many bytes away at the front.
fn drop_front(bytes: &mut Vec<u8>, count: usize)
    requires { count ≤ length bytes.old.items }
    ensures { bytes.new.items ≡ drop count bytes.old.items }
{
    bytes.rotate_left(count);
    bytes.truncate(bytes.len() - count);
}

/// Reads the next bytes of a file behind those that stand ahead of a place, and says how many: 0 only
/// at its end.
fn read_more<D: Disk>(
    disk: &mut D,
    place: &Place,
    at: u64,
    ahead: &mut Vec<u8>,
    piece: &mut [u8],
) -> Result<usize, JournalFault>
    requires stands { D.tells → Stands (now (D.history disk.old)) place.now }
    requires room { 0 < length piece.old }
    requires near { at + length ahead.old.items ≤ 2 ^ 63 }
    ensures read { D.tells → (front file : List ℕ) → bytes_at (now (D.history disk.old)) place.now ≡ Some file → at ≡ length front → IsFront (front ++ ahead.old.items) file
        → IfOk result (λ n. IsFront (front ++ ahead.new.items) file × (n ≡ 0 → file ≡ front ++ ahead.old.items)) }
    ensures undamaged { IfErr result IsNoDamage }
    ensures more { IfOk result (λ n. (length ahead.new.items ≡ length ahead.old.items + n) × (at + length ahead.new.items ≤ 2 ^ 63)) }
    ensures stays { D.history disk.new ≡ D.history disk.old }
    ensures cause { HasCause journal_kind (D.faults disk.old) (D.faults disk.new) result }
    ensures far { D.far disk.new ≡ D.far disk.old }
{
    let end = at + ahead.len() as u64;
    let count = match disk.read_at(place, end, piece) {
        Ok(count) => count,
        Err(fault) => return Err(JournalFault::Disk(fault.0)),
    };
    if count as u64 > FAR - end {
        return Err(JournalFault::NoMemory);
    }
    match ahead.extend_from_slice(&piece[..count]) {
        Ok(()) => Ok(count),
        Err(_) => Err(JournalFault::NoMemory),
    }
}

/// Reads the header of a file, and then what came with it.
fn read_header<D: Disk>(
    disk: &mut D,
    place: &Place,
    ahead: &mut Vec<u8>,
    piece: &mut [u8],
) -> Result<(), JournalFault>
    requires stands { D.tells → Stands (now (D.history disk.old)) place.now }
    requires room { 0 < length piece.old }
    requires nothing { ahead.old.items ≡ [] }
    ensures read { D.tells → (file : List ℕ) → bytes_at (now (D.history disk.old)) place.now ≡ Some file → HeaderIsRead file ahead.new.items result }
    ensures near { OnOk result (length header + length ahead.new.items ≤ 2 ^ 63) }
    ensures stays { D.history disk.new ≡ D.history disk.old }
    ensures cause { HasCause journal_kind (D.faults disk.old) (D.faults disk.new) result }
    ensures far { D.far disk.new ≡ D.far disk.old }
{
    'pieces: while ahead.len() < HEADER.len() {
        match read_more(disk, place, 0, ahead, piece) {
            Ok(0) => return Err(JournalFault::Damaged(0)),
            Ok(_) => {}
            Err(fault) => return Err(fault),
        }
    }
    match after_header(ahead) {
        Some(_) => {
            drop_front(ahead, HEADER.len());
            Ok(())
        }
        None => Err(JournalFault::Damaged(0)),
    }
}

/// Reads the cells behind the header, to the closed gate or to the first place that shows that the
/// file is no journal. Memory is taken for the bodies and for one piece.
fn read_cells<D: Disk>(
    alloc: Global,
    disk: &mut D,
    place: &Place,
    ahead: &mut Vec<u8>,
    piece: &mut [u8],
) -> Result<WholeText, JournalFault>
    requires stands { D.tells → Stands (now (D.history disk.old)) place.now }
    requires room { 0 < length piece.old }
    requires near { length header + length ahead.old.items ≤ 2 ^ 63 }
    ensures read { D.tells → (file : List ℕ) → bytes_at (now (D.history disk.old)) place.now ≡ Some file → IsFront (header ++ ahead.old.items) file → FileIsRead file result }
    ensures at { IfOk result IsPlaced }
    ensures stays { D.history disk.new ≡ D.history disk.old }
    ensures cause { HasCause journal_kind (D.faults disk.old) (D.faults disk.new) result }
    ensures far { D.far disk.new ≡ D.far disk.old }
{
    let mut bodies: Bodies = Listed::new(alloc);
    let mut at = HEADER.len() as u64;
    'pieces: loop {
        let taken = match take_cells(alloc, ahead, &mut bodies) {
            Ok(taken) => taken,
            Err(NoMemory) => return Err(JournalFault::NoMemory),
        };
        at += taken.count as u64;
        match taken.end {
            End::Shut => return Ok(WholeText { bodies, gate: at }),
            End::Broken => return Err(JournalFault::Damaged(at)),
            End::More => {}
        }
        drop_front(ahead, taken.count);
        match read_more(disk, place, at, ahead, piece) {
            Ok(0) => return Err(JournalFault::Damaged(at)),
            Ok(_) => {}
            Err(fault) => return Err(fault),
        }
    }
}

/// Reads a file as a journal's text.
pub(crate) fn read_text<D: Disk>(
    alloc: Global,
    disk: &mut D,
    place: &Place,
) -> Result<WholeText, JournalFault>
    requires stands { D.tells → Stands (now (D.history disk.old)) place.now }
    ensures read { D.tells → (file : List ℕ) → bytes_at (now (D.history disk.old)) place.now ≡ Some file → FileIsRead file result }
    ensures at { IfOk result IsPlaced }
    ensures stays { D.history disk.new ≡ D.history disk.old }
    ensures cause { HasCause journal_kind (D.faults disk.old) (D.faults disk.new) result }
    ensures far { D.far disk.new ≡ D.far disk.old }
{
    let mut piece = match zeros(alloc, PIECE) {
        Ok(piece) => piece,
        Err(NoMemory) => return Err(JournalFault::NoMemory),
    };
    let mut ahead = Vec::new(alloc);
    match read_header(disk, place, &mut ahead, &mut piece) {
        Ok(()) => read_cells(alloc, disk, place, &mut ahead, &mut piece),
        Err(fault) => Err(fault),
    }
}
