// How a part is put on a disk in memory, and what is read of it. Each helper asks first whether it stands.
use dm_disk::{Disk, DiskFault, FailingCall, MemoryDisk, Pick, Place};
use dm_part::{PartFault, create, digest, discard, put, settle};
use dm_types::{DiskKind, Listed, NoMemory};
use std::alloc::Global;
use std::test::Fail;

/// An empty disk, of which this call is denied.
pub(crate) fn disk(alloc: Global, failing: Option<u64>) -> Result<MemoryDisk, NoMemory> {
    let mut calls = Listed::new(alloc);
    if let Some(call) = failing {
        calls.push(FailingCall {
            call,
            kind: DiskKind::Denied,
        })?;
    }
    MemoryDisk::new(alloc, calls, None)
}

/// Makes a part, by three calls.
pub(crate) fn make(disk: &mut MemoryDisk, part: &Place) -> Result<(), DiskFault> {
    match disk.length(part)? {
        None => create(disk, part),
        Some(_) => Err(DiskFault(DiskKind::Failed)),
    }
}

/// Writes to a part, by two calls.
pub(crate) fn write(disk: &mut MemoryDisk, part: &Place, bytes: &[u8]) -> Result<(), DiskFault> {
    match disk.length(part)? {
        Some(_) => put(disk, part, 0, bytes),
        None => Err(DiskFault(DiskKind::Failed)),
    }
}

/// Syncs a part, by two calls.
pub(crate) fn keep(disk: &mut MemoryDisk, part: &Place) -> Result<(), DiskFault> {
    match disk.length(part)? {
        Some(_) => settle(disk, part),
        None => Err(DiskFault(DiskKind::Failed)),
    }
}

/// Removes a part, by two calls.
pub(crate) fn take_away(disk: &mut MemoryDisk, part: &Place) -> Result<(), DiskFault> {
    match disk.length(part)? {
        Some(_) => discard(disk, part),
        None => Err(DiskFault(DiskKind::Failed)),
    }
}

/// Takes a digest by a buffer of this size. The first call asks whether the part stands.
pub(crate) fn sum(
    alloc: Global,
    disk: &mut MemoryDisk,
    part: &Place,
    total: u64,
    room: usize,
) -> Result<Result<[u8; 32], PartFault>, Fail> {
    let mut buffer = Vec::new(alloc);
    buffer.resize(room, 0)?;
    if buffer.is_empty() {
        return Err("no room".into());
    }
    match disk.length(part) {
        Ok(Some(_)) => Ok(digest(disk, part, total, &mut buffer)),
        Ok(None) => Err("no part".into()),
        Err(fault) => Ok(Err(PartFault::Disk(fault.0))),
    }
}

/// The length of what a crash leaves of a part.
pub(crate) fn left(
    alloc: Global,
    disk: &MemoryDisk,
    part: &Place,
    pick: Pick,
) -> Result<Option<u64>, Fail> {
    let mut image = disk.image(alloc, pick)?;
    match image.length(part) {
        Ok(length) => Ok(length),
        Err(_) => Err("not read".into()),
    }
}
