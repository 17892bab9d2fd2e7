// What a stop or a fault at a call of the disk leaves of an item that is being brought.
use crate::bring::{bring, session};
use crate::calls::{Call, make};
use crate::disks::{MemoryDesk, disk, open};
use crate::files::{Left, stands};
use crate::said::Said;
use dm_disk::{FailingCall, MemoryDisk, Pick};
use dm_items::Finished;
use dm_types::{DiskKind, NoMemory, Phase};
use std::alloc::Global;

/// What a stop left of item 1.
#[derive(Clone, Copy)]
pub struct Stop {
    /// How the last call ended that was to bring it.
    pub ended: Said,
    /// How it is found.
    pub found: Said,
    /// Whether it is brought from there, and its file stands alone.
    pub is_brought: bool,
}

/// Whether item 1 is complete once it is brought again, and its file stands alone.
fn is_brought(alloc: Global, desk: MemoryDesk) -> bool {
    let mut desk = desk;
    let _ = bring(alloc, &mut desk);
    let swept = make(alloc, &mut desk, Call::Sweep);
    let found = make(alloc, &mut desk, Call::View(1));
    let is_complete = swept == Said::Done && found == Said::Is(Phase::Complete, 11);
    is_complete && stands_alone(alloc, desk.into_disk())
}

fn stands_alone(alloc: Global, disk: MemoryDisk) -> bool {
    let mut disk = disk;
    let file = Left::File(b"hello.txt", Some(b"hello world"));
    stands(alloc, &mut disk, &file) && stands(alloc, &mut disk, &Left::Files(1))
}

/// How item 1 is found on a disk, and whether it is brought from there.
fn found(alloc: Global, ended: Said, disk: MemoryDisk) -> Option<Stop> {
    match open(alloc, disk) {
        Ok(mut desk) => {
            let found = make(alloc, &mut desk, Call::View(1));
            let is_brought = is_brought(alloc, desk);
            Some(Stop {
                ended,
                found,
                is_brought,
            })
        }
        Err(_) => None,
    }
}

/// What an image of a disk that stops after so many calls has of item 1, which is being brought.
pub fn after_stop(alloc: Global, calls: u64, pick: Pick) -> Option<Stop> {
    match disk(alloc, None, Some(calls)) {
        Ok(disk) => {
            let (ended, stopped) = session(alloc, disk);
            match stopped.image(alloc, pick) {
                Ok(image) => found(alloc, ended, image),
                Err(NoMemory) => None,
            }
        }
        Err(NoMemory) => None,
    }
}

/// Whether a fault is told where the item is being brought, and the item is brought once the desk is
/// opened again.
fn mends(alloc: Global, desk: MemoryDesk) -> bool {
    let mut desk = desk;
    let told = bring(alloc, &mut desk) != Said::Finished(Finished::Complete);
    let reopened = make(alloc, &mut desk, Call::Reopen) == Said::Done;
    told && reopened && is_brought(alloc, desk)
}

/// Whether a fault of this call of the disk is told, and the item is brought behind a reopening.
pub fn after_fault(alloc: Global, call: u64) -> bool {
    let kind = DiskKind::Denied;
    match disk(alloc, Some(FailingCall { call, kind }), None) {
        Ok(disk) => match open(alloc, disk) {
            Ok(desk) => mends(alloc, desk),
            Err(disk) => opens_again(alloc, disk),
        },
        Err(NoMemory) => false,
    }
}

fn opens_again(alloc: Global, disk: MemoryDisk) -> bool {
    match open(alloc, disk) {
        Ok(desk) => is_brought(alloc, desk),
        Err(_) => false,
    }
}
