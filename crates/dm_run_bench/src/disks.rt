// The files of a disk in memory, as they are given and as they are found.
use crate::rows::Left;
use dm_disk::{Area, Disk, DiskFault, FailingCall, MemoryDisk, Place};
use dm_types::{DiskKind, Listed, NoMemory, Text};
use std::alloc::Global;

/// An empty disk, of which one call fails so, and which stops after so many.
pub(crate) fn disk(
    alloc: Global,
    failing: Option<(u64, DiskKind)>,
    stop_after: Option<u64>,
) -> Result<MemoryDisk, NoMemory> {
    let mut calls = Listed::new(alloc);
    if let Some((call, kind)) = failing {
        calls.push(FailingCall { call, kind })?;
    }
    MemoryDisk::new(alloc, calls, stop_after)
}

fn place(alloc: Global, area: Area, name: &[u8]) -> Result<Place, NoMemory> {
    match Text::from_bytes(alloc, name) {
        Ok(name) => Ok(Place { area, name }),
        Err(NoMemory) => Err(NoMemory),
    }
}

/// Makes a file with these bytes, and tells whether it was made.
pub(crate) fn put(
    alloc: Global,
    disk: &mut MemoryDisk,
    area: Area,
    name: &[u8],
    bytes: &[u8],
) -> bool {
    match place(alloc, area, name) {
        Ok(place) => fill(disk, &place, bytes).is_ok(),
        Err(NoMemory) => false,
    }
}

fn fill(disk: &mut MemoryDisk, place: &Place, bytes: &[u8]) -> Result<(), DiskFault> {
    match disk.length(place)? {
        None => disk.create(place)?,
        Some(_) => return Err(DiskFault(DiskKind::Failed)),
    }
    match disk.length(place)? {
        Some(_) => disk.write_at(place, 0, bytes),
        None => Err(DiskFault(DiskKind::Failed)),
    }
}

/// Gives the journal a Reopened and so many Added, each for `http://h/a` under no word, at moment 0.
pub(crate) fn put_items(alloc: Global, disk: &mut MemoryDisk, count: u32) -> bool {
    match journal(alloc, count) {
        Ok(bytes) => put(alloc, disk, Area::State, b"journal", &bytes),
        Err(NoMemory) => false,
    }
}

fn journal(alloc: Global, count: u32) -> Result<Vec<u8>, NoMemory> {
    let mut bytes = Vec::from_slice(alloc, b"DMJRNL1\n")?;
    bytes.extend_from_slice(b"\x01\0\0\0\x0d\x0d\0\0\0\x01\0\0\0\0\0\0\0\0")?;
    for id in 1..=count {
        bytes.extend_from_slice(b"\x01\0\0\0\x1e\x01")?;
        bytes.extend_from_slice(&id.to_be_bytes())?;
        bytes.extend_from_slice(b"\0\0\0\x0ahttp://h/a\0\0\0\0\0\0\0\0\0\0\0")?;
    }
    bytes.push(0)?;
    Ok(bytes)
}

/// Whether this is left on a disk.
pub fn stands(alloc: Global, disk: &mut MemoryDisk, left: Left) -> bool {
    match left {
        Left::Journal(bytes) => holds(alloc, disk, Area::State, b"journal", bytes),
        Left::Length(count) => length(alloc, disk, Area::State, b"journal") == count,
        Left::File(name, bytes) => holds(alloc, disk, Area::Files, name, bytes),
        Left::NoneOr(name, bytes) => {
            length(alloc, disk, Area::Files, name).is_none()
                || holds(alloc, disk, Area::Files, name, bytes)
        }
        Left::Stands(name, there) => length(alloc, disk, Area::Files, name).is_some() == there,
    }
}

/// Whether each of these files stands and holds just that.
pub(crate) fn hold(alloc: Global, disk: &mut MemoryDisk, files: &[(&[u8], &[u8])]) -> bool {
    for (name, bytes) in files {
        if !holds(alloc, disk, Area::Files, name, bytes) {
            return false;
        }
    }
    true
}

/// How long a file is, where it stands.
fn length(alloc: Global, disk: &mut MemoryDisk, area: Area, name: &[u8]) -> Option<u64> {
    match place(alloc, area, name) {
        Ok(place) => disk.length(&place).ok().flatten(),
        Err(NoMemory) => None,
    }
}

/// Whether a file has just these bytes.
fn holds(alloc: Global, disk: &mut MemoryDisk, area: Area, name: &[u8], bytes: &[u8]) -> bool {
    match place(alloc, area, name) {
        Ok(place) => has(disk, &place, bytes),
        Err(NoMemory) => false,
    }
}

fn has(disk: &mut MemoryDisk, place: &Place, bytes: &[u8]) -> bool {
    let mut buffer = [0; 1000];
    match read(disk, place, &mut buffer) {
        Ok(count) => has_front(&buffer, count, bytes),
        Err(_) => false,
    }
}

fn has_front(buffer: &[u8], count: usize, bytes: &[u8]) -> bool {
    match buffer.get(..count) {
        Some(front) => front == bytes,
        None => false,
    }
}

fn read(disk: &mut MemoryDisk, place: &Place, buf: &mut [u8]) -> Result<usize, DiskFault> {
    match disk.length(place)? {
        Some(_) => disk.read_at(place, 0, buf),
        None => Err(DiskFault(DiskKind::Failed)),
    }
}
