// How a journal is put on a disk in memory, and what is found of it.
ghost use Rattle.std.specs.Prelude.{◌≡◌, IfOk};
ghost use Rattle.dm_journal.specs.AtRest.{journal_place};

use dm_disk::{Area, Disk, DiskFault, FailingCall, MemoryDisk, Place};
use dm_journal::{Bodies, Journal, JournalFault};
use dm_types::{DiskKind, Listed, NoMemory, Text};
use std::alloc::Global;

/// The place of the journal.
pub(crate) fn home(alloc: Global) -> Result<Place, NoMemory>
    ensures { IfOk result (λ place. place ≡ journal_place) }
{
    let name = Text::from_bytes(alloc, b"journal")?;
    Ok(Place {
        area: Area::State,
        name,
    })
}

/// An empty disk, of which this call is denied, and which stops after so many.
pub(crate) fn disk(
    alloc: Global,
    failing: Option<u64>,
    stop_after: Option<u64>,
) -> Result<MemoryDisk, NoMemory> {
    let mut calls = Listed::new(alloc);
    if let Some(call) = failing {
        calls.push(FailingCall {
            call,
            kind: DiskKind::Denied,
        })?;
    }
    MemoryDisk::new(alloc, calls, stop_after)
}

/// Starts a journal. The first call asks whether one stands.
pub(crate) fn begin(alloc: Global, disk: &mut MemoryDisk) -> Result<Journal, JournalFault> {
    let place = match home(alloc) {
        Ok(place) => place,
        Err(NoMemory) => return Err(JournalFault::NoMemory),
    };
    match disk.length(&place) {
        Ok(None) => Journal::start(alloc, disk),
        Ok(Some(_)) => Err(JournalFault::Disk(DiskKind::Failed)),
        Err(fault) => Err(JournalFault::Disk(fault.0)),
    }
}

/// Adds a body that fits. The first call asks whether the journal stands.
pub(crate) fn add(
    disk: &mut MemoryDisk,
    place: &Place,
    journal: &mut Journal,
    body: &[u8],
) -> Result<(), DiskFault>
    requires { place.now ≡ journal_place }
{
    if body.is_empty() || body.len() > 16_384 {
        return Err(DiskFault(DiskKind::Failed));
    }
    match disk.length(place) {
        Ok(Some(_)) => journal.append(disk, body),
        Ok(None) => Err(DiskFault(DiskKind::Failed)),
        Err(fault) => Err(fault),
    }
}

/// Starts a journal and adds two bodies: at an empty disk 17 calls, of which the second append's
/// are the last four.
pub(crate) fn session(alloc: Global, disk: &mut MemoryDisk) -> Result<(), JournalFault> {
    let place = match home(alloc) {
        Ok(place) => place,
        Err(NoMemory) => return Err(JournalFault::NoMemory),
    };
    let mut journal = match begin(alloc, disk) {
        Ok(journal) => journal,
        Err(fault) => return Err(fault),
    };
    match add_both(disk, &place, &mut journal) {
        Ok(()) => Ok(()),
        Err(fault) => Err(JournalFault::Disk(fault.0)),
    }
}

fn add_both(disk: &mut MemoryDisk, place: &Place, journal: &mut Journal) -> Result<(), DiskFault>
    requires { place.now ≡ journal_place }
{
    add(disk, place, journal, b"one")?;
    add(disk, place, journal, b"two")
}

/// How many bodies are found, and the journal's length in bytes.
pub(crate) fn found(
    alloc: Global,
    disk: &mut MemoryDisk,
) -> Result<Option<(u64, u64)>, JournalFault> {
    match Journal::find(alloc, disk) {
        Ok(Some((journal, bodies))) => Ok(Some((bodies.count(), journal.length()))),
        Ok(None) => Ok(None),
        Err(fault) => Err(fault),
    }
}

/// Whether these bodies are found.
pub(crate) fn finds(alloc: Global, disk: &mut MemoryDisk, wanted: &[&[u8]]) -> bool {
    match Journal::find(alloc, disk) {
        Ok(Some((_, bodies))) => are(&bodies, wanted),
        Ok(None) => false,
        Err(_) => false,
    }
}

fn are(bodies: &Bodies, wanted: &[&[u8]]) -> bool {
    bodies.items().len() == wanted.len()
        && bodies
            .items()
            .iter()
            .zip(wanted)
            .all(|(body, bytes)| body.bytes() == *bytes)
}

/// Puts a file under a name of the journal's folder.
pub(crate) fn put(disk: &mut MemoryDisk, place: &Place, bytes: &[u8]) -> Result<(), DiskFault> {
    match disk.length(place)? {
        None => disk.create(place)?,
        Some(_) => return Err(DiskFault(DiskKind::Failed)),
    }
    match disk.length(place)? {
        Some(_) => disk.write_at(place, 0, bytes),
        None => Err(DiskFault(DiskKind::Failed)),
    }
}

/// Writes one byte at a place far behind what stands there.
pub(crate) fn stretch(disk: &mut MemoryDisk, place: &Place, at: u64) -> Result<(), DiskFault> {
    match disk.length(place)? {
        Some(_) => disk.write_at(place, at, &[1]),
        None => Err(DiskFault(DiskKind::Failed)),
    }
}

/// Whether the file holds just these bytes, at most 999.
pub(crate) fn holds(
    alloc: Global,
    disk: &mut MemoryDisk,
    place: &Place,
    bytes: &[u8],
) -> Result<bool, NoMemory> {
    let mut buffer = vec![in alloc; 0; 1000]?;
    match read(disk, place, &mut buffer) {
        Ok(count) => match buffer.get(..count) {
            Some(front) => Ok(front == bytes),
            None => Ok(false),
        },
        Err(_) => Ok(false),
    }
}

fn read(disk: &mut MemoryDisk, place: &Place, buf: &mut [u8]) -> Result<usize, DiskFault> {
    match disk.length(place)? {
        Some(_) => disk.read_at(place, 0, buf),
        None => Err(DiskFault(DiskKind::Failed)),
    }
}
