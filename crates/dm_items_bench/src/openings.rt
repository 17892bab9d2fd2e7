// Calls at a desk that is opened on a disk, and what they leave there.
use crate::calls::{Call, first_other, make};
use crate::disks::{MemoryDesk, disk, open};
use crate::files::{Given, Left, give, stands};
use crate::said::Said;
use dm_disk::{FailingCall, MemoryDisk, Pick};
use dm_items::Taken;
use dm_types::{ItemId, NoMemory};
use std::alloc::Global;

/// A disk gets these files, a desk is opened on it, its calls say this, and they leave that.
#[derive(Clone, Copy)]
pub struct Opening {
    pub given: &'static [Given],
    pub groups: &'static [&'static [(Call, Said)]],
    pub left: &'static [Left],
}

/// How an opening went.
#[derive(Clone, Copy, Debug, PartialEq, Eq)]
pub enum Played {
    AsSaid,
    /// The disk could not be made, or did not take its files.
    NotGiven,
    NotOpened,
    /// The first call that says something else: its group, and its row there.
    Other(usize, usize),
    /// The first of what was to be left that is not.
    Left(usize),
}

fn call_all(alloc: Global, desk: &mut MemoryDesk, groups: &[&[(Call, Said)]]) -> Played {
    for (group, rows) in groups.iter().enumerate() {
        if let Some(row) = first_other(alloc, desk, rows) {
            return Played::Other(group, row);
        }
    }
    Played::AsSaid
}

fn look(alloc: Global, disk: &mut MemoryDisk, left: &[Left]) -> Played {
    for (place, one) in left.iter().enumerate() {
        if !stands(alloc, disk, one) {
            return Played::Left(place);
        }
    }
    Played::AsSaid
}

fn run_desk(alloc: Global, desk: MemoryDesk, opening: &Opening) -> (Played, MemoryDisk) {
    let mut desk = desk;
    let called = call_all(alloc, &mut desk, opening.groups);
    let mut disk = desk.into_disk();
    if called == Played::AsSaid {
        let left = look(alloc, &mut disk, opening.left);
        (left, disk)
    } else {
        (called, disk)
    }
}

fn run(alloc: Global, disk: MemoryDisk, opening: &Opening) -> (Played, MemoryDisk) {
    let mut disk = disk;
    if !give(alloc, &mut disk, opening.given) {
        return (Played::NotGiven, disk);
    }
    match open(alloc, disk) {
        Ok(desk) => run_desk(alloc, desk, opening),
        Err(disk) => (Played::NotOpened, disk),
    }
}

/// How an opening goes on an empty disk of which this call fails.
pub fn play(alloc: Global, failing: Option<FailingCall>, opening: &Opening) -> Played {
    match disk(alloc, failing, None) {
        Ok(disk) => {
            let (played, _) = run(alloc, disk, opening);
            played
        }
        Err(NoMemory) => Played::NotGiven,
    }
}

/// How an opening goes on the image with all that reads of a disk.
fn run_again(alloc: Global, left: &MemoryDisk, opening: &Opening) -> Played {
    match left.image(alloc, Pick::Present) {
        Ok(image) => {
            let (played, _) = run(alloc, image, opening);
            played
        }
        Err(NoMemory) => Played::NotGiven,
    }
}

/// How an opening goes behind a crash of another one, on an empty disk of which this call fails. The crash
/// leaves all that reads.
pub fn crash(
    alloc: Global,
    failing: Option<FailingCall>,
    first: &Opening,
    behind: &Opening,
) -> Played {
    match disk(alloc, failing, None) {
        Ok(disk) => {
            let (played, left) = run(alloc, disk, first);
            if played == Played::AsSaid {
                run_again(alloc, &left, behind)
            } else {
                played
            }
        }
        Err(NoMemory) => Played::NotGiven,
    }
}

/// A desk on an empty disk with item 1, which waits and has no word.
pub fn waiting(alloc: Global) -> Option<MemoryDesk> {
    match disk(alloc, None, None) {
        Ok(disk) => match open(alloc, disk) {
            Ok(desk) => added(alloc, desk),
            Err(_) => None,
        },
        Err(NoMemory) => None,
    }
}

fn added(alloc: Global, desk: MemoryDesk) -> Option<MemoryDesk> {
    let mut desk = desk;
    if make(alloc, &mut desk, Call::Add(b"")) == Said::Taken(Taken::New(ItemId(1))) {
        Some(desk)
    } else {
        None
    }
}
