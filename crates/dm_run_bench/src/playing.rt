// Steps one after another, up to the first that goes otherwise.
use crate::disks::{disk, put, put_items, stands};
use crate::rows::{Left, Row};
use crate::runs::{Runs, run};
use dm_disk::{Area, MemoryDisk};
use dm_types::{DiskKind, NoMemory};
use std::alloc::Global;

/// What is done or looked at next.
#[derive(Clone, Copy)]
pub enum Step<'a> {
    /// The journal, which doesn't stand, gets these bytes.
    Journal(&'a [u8]),
    /// The journal, which doesn't stand, gets so many items for `http://h/a` under no word.
    Items(u32),
    /// A name of the files under which nothing stands gets these bytes.
    File(&'a [u8], &'a [u8]),
    /// `report (1).pdf` to `report (100).pdf` get no bytes, but for one of them, which may stand.
    Forms(u32),
    /// A command comes to this.
    Runs(Row<'a>),
    /// This is left on the disk.
    Left(Left<'a>),
}

/// How steps went.
#[derive(Clone, Copy, Debug, PartialEq, Eq)]
pub enum Played {
    AsSaid,
    /// The disk could not be made.
    NotMade,
    /// The first step that goes otherwise.
    Other(usize),
}

fn put_form(alloc: Global, disk: &mut MemoryDisk, number: u32) -> bool {
    match format!(in alloc; "report ({number}).pdf") {
        Ok(name) => put(alloc, disk, Area::Files, name.as_bytes(), b""),
        Err(_) => false,
    }
}

fn put_forms(alloc: Global, disk: &mut MemoryDisk, but: u32) -> bool {
    for number in 1..101u32 {
        if number != but && !put_form(alloc, disk, number) {
            return false;
        }
    }
    true
}

/// Gives the disk something, or looks at what is left.
fn look(alloc: Global, disk: &mut MemoryDisk, step: Step) -> bool {
    match step {
        Step::Journal(bytes) => put(alloc, disk, Area::State, b"journal", bytes),
        Step::Items(count) => put_items(alloc, disk, count),
        Step::File(name, bytes) => put(alloc, disk, Area::Files, name, bytes),
        Step::Forms(but) => put_forms(alloc, disk, but),
        Step::Left(left) => stands(alloc, disk, left),
        Step::Runs(_) => false,
    }
}

fn take<R: Runs>(alloc: Global, runs: &R, disk: MemoryDisk, step: Step) -> (bool, MemoryDisk) {
    match step {
        Step::Runs(row) => {
            let (alike, disk) = run(alloc, runs, disk, &row, &[row]);
            (alike.is_some(), disk)
        }
        _ => {
            let mut disk = disk;
            let is_so = look(alloc, &mut disk, step);
            (is_so, disk)
        }
    }
}

/// How steps go one after another, and the disk.
pub(crate) fn take_all<R: Runs>(
    alloc: Global,
    runs: &R,
    disk: MemoryDisk,
    steps: &[Step],
) -> (Played, MemoryDisk) {
    let mut disk = disk;
    for (place, step) in steps.iter().enumerate() {
        let (is_so, left) = take(alloc, runs, disk, *step);
        disk = left;
        if !is_so {
            return (Played::Other(place), disk);
        }
    }
    (Played::AsSaid, disk)
}

/// How steps go one after another, from an empty disk of which this call fails so.
pub fn play<R: Runs>(
    alloc: Global,
    runs: &R,
    failing: Option<(u64, DiskKind)>,
    steps: &[Step],
) -> Played {
    match disk(alloc, failing, None) {
        Ok(disk) => {
            let (played, _) = take_all(alloc, runs, disk, steps);
            played
        }
        Err(NoMemory) => Played::NotMade,
    }
}
