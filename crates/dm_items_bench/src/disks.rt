// How a desk is put on a disk in memory.
use dm_disk::{FailingCall, MemoryDisk};
use dm_edge::EveryByte;
use dm_items::{Desk, OpenFault};
use dm_types::{Limits, Listed, NoMemory};
use std::alloc::Global;

/// A desk over a disk in memory, where a server may say every byte.
pub type MemoryDesk = Desk<MemoryDisk, EveryByte>;

/// Small ones, so that few bytes make parts and want a checkpoint.
const SMALL: Limits = Limits {
    items: 4096,
    checkpoint: 8,
    piece: 64,
    min_slice: 4,
    journal: 16_777_216,
};

/// An empty disk, of which this call fails, and which stops after so many.
pub(crate) fn disk(
    alloc: Global,
    failing: Option<FailingCall>,
    stop_after: Option<u64>,
) -> Result<MemoryDisk, NoMemory> {
    let mut calls = Listed::new(alloc);
    if let Some(call) = failing {
        calls.push(call)?;
    }
    MemoryDisk::new(alloc, calls, stop_after)
}

/// Opens the desk of a disk at moment 0, or hands the disk back.
pub(crate) fn open(alloc: Global, disk: MemoryDisk) -> Result<MemoryDesk, MemoryDisk> {
    match Desk::open(alloc, disk, EveryByte, SMALL, 0) {
        Ok(desk) => Ok(desk),
        Err(OpenFault::Disk(_, disk)) => Err(disk),
        Err(OpenFault::Damaged(_, disk)) => Err(disk),
        Err(OpenFault::NoMemory(disk)) => Err(disk),
    }
}
