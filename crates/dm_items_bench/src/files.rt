// The files of a disk in memory, as they are given and as they are found.
use dm_disk::{Area, Disk, DiskFault, MemoryDisk, Place};
use dm_journal::Journal;
use dm_types::{DiskKind, NoMemory, Text};
use std::alloc::Global;

/// What a disk is given.
#[derive(Clone, Copy)]
pub enum Given {
    /// A name of the files has this content alone, or no file.
    File(&'static [u8], Option<&'static [u8]>),
    /// `Report.PDF` stands, empty, and all its forms from `report (1).pdf` to `report (100).pdf`.
    Forms,
}

/// What is left on a disk.
#[derive(Clone, Copy)]
pub enum Left {
    /// A name of the files has just this content of at most 99 bytes, or no file.
    File(&'static [u8], Option<&'static [u8]>),
    /// So many files stand.
    Files(u64),
    /// The journal has just these bodies.
    Bodies(&'static [&'static [u8]]),
}

fn place(alloc: Global, name: &[u8]) -> Result<Place, NoMemory> {
    match Text::from_bytes(alloc, name) {
        Ok(name) => Ok(Place {
            area: Area::Files,
            name,
        }),
        Err(NoMemory) => Err(NoMemory),
    }
}

/// Gives a disk all of these, and tells whether it took them.
pub(crate) fn give(alloc: Global, disk: &mut MemoryDisk, given: &[Given]) -> bool {
    for one in given {
        let took = match *one {
            Given::File(name, bytes) => put(alloc, disk, name, bytes),
            Given::Forms => put_forms(alloc, disk),
        };
        if !took {
            return false;
        }
    }
    true
}

fn put(alloc: Global, disk: &mut MemoryDisk, name: &[u8], bytes: Option<&[u8]>) -> bool {
    match place(alloc, name) {
        Ok(place) => replace(disk, &place, bytes).is_ok(),
        Err(NoMemory) => false,
    }
}

fn put_forms(alloc: Global, disk: &mut MemoryDisk) -> bool {
    for number in 1..101u32 {
        if !put_form(alloc, disk, number) {
            return false;
        }
    }
    put(alloc, disk, b"Report.PDF", Some(b""))
}

fn put_form(alloc: Global, disk: &mut MemoryDisk, number: u32) -> bool {
    match format!(in alloc; "report ({number}).pdf") {
        Ok(name) => put(alloc, disk, name.as_bytes(), Some(b"")),
        Err(_) => false,
    }
}

fn replace(disk: &mut MemoryDisk, place: &Place, bytes: Option<&[u8]>) -> Result<(), DiskFault> {
    match disk.length(place)? {
        Some(_) => disk.remove(place)?,
        None => {}
    }
    match bytes {
        Some(bytes) => fill(disk, place, bytes),
        None => Ok(()),
    }
}

fn fill(disk: &mut MemoryDisk, place: &Place, bytes: &[u8]) -> Result<(), DiskFault> {
    match disk.length(place)? {
        None => disk.create(place)?,
        Some(_) => return Err(DiskFault(DiskKind::Failed)),
    }
    match disk.length(place)? {
        Some(_) => disk.write_at(place, 0, bytes),
        None => Err(DiskFault(DiskKind::Failed)),
    }
}

/// Whether this is left on a disk.
pub(crate) fn stands(alloc: Global, disk: &mut MemoryDisk, left: &Left) -> bool {
    match *left {
        Left::File(name, wanted) => has(alloc, disk, name, wanted),
        Left::Files(count) => files(alloc, disk) == Some(count),
        Left::Bodies(wanted) => has_bodies(alloc, disk, wanted),
    }
}

fn has(alloc: Global, disk: &mut MemoryDisk, name: &[u8], wanted: Option<&[u8]>) -> bool {
    match place(alloc, name) {
        Ok(place) => has_at(disk, &place, wanted),
        Err(NoMemory) => false,
    }
}

fn has_at(disk: &mut MemoryDisk, place: &Place, wanted: Option<&[u8]>) -> bool {
    let mut buffer = [0; 100];
    match read(disk, place, &mut buffer) {
        Ok(Some(count)) => match wanted {
            Some(bytes) => has_front(&buffer, count, bytes),
            None => false,
        },
        Ok(None) => wanted.is_none(),
        Err(_) => false,
    }
}

fn has_front(buffer: &[u8], count: usize, bytes: &[u8]) -> bool {
    match buffer.get(..count) {
        Some(front) => front == bytes,
        None => false,
    }
}

/// Reads from the beginning of a file, where there is one.
fn read(disk: &mut MemoryDisk, place: &Place, buf: &mut [u8]) -> Result<Option<usize>, DiskFault> {
    match disk.length(place)? {
        Some(_) => match disk.read_at(place, 0, buf) {
            Ok(count) => Ok(Some(count)),
            Err(fault) => Err(fault),
        },
        None => Ok(None),
    }
}

fn files(alloc: Global, disk: &mut MemoryDisk) -> Option<u64> {
    match disk.names(alloc, Area::Files) {
        Ok(names) => Some(names.count()),
        Err(_) => None,
    }
}

fn has_bodies(alloc: Global, disk: &mut MemoryDisk, wanted: &[&[u8]]) -> bool {
    match Journal::find(alloc, disk) {
        Ok(Some((_, bodies))) => are_texts(bodies.items(), wanted),
        Ok(None) => false,
        Err(_) => false,
    }
}

fn are_texts(texts: &[Text], wanted: &[&[u8]]) -> bool {
    for (text, bytes) in texts.iter().zip(wanted) {
        if text.bytes() != *bytes {
            return false;
        }
    }
    texts.len() == wanted.len()
}
