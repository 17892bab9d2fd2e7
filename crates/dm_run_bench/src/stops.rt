// What a stop or a fault at each call of the disk leaves of commands.
use crate::disks::disk;
use crate::rows::{Row, Told};
use crate::runs::{Runs, run};
use dm_disk::{MemoryDisk, Pick};
use dm_types::{DiskKind, NoMemory};
use std::alloc::Global;

/// More calls of the disk than the commands of a test make.
const MANY: u64 = 200;

/// What is shown behind commands.
#[derive(Clone, Copy, PartialEq, Eq)]
enum Shown {
    AsWanted,
    /// A fault is told.
    Fault,
    Otherwise,
}

/// How much of a row is to be the same.
#[derive(Clone, Copy)]
enum Alike {
    InAll,
    InStatus,
}

fn wanted<'a>(row: &Row<'a>, alike: Alike) -> Row<'a> {
    match alike {
        Alike::InAll => *row,
        Alike::InStatus => Row {
            told: Told::Anyhow,
            ..*row
        },
    }
}

/// Runs commands up to one that ends otherwise: how many didn't, and the disk.
fn run_all<R: Runs>(
    alloc: Global,
    runs: &R,
    disk: MemoryDisk,
    rows: &[Row],
    alike: Alike,
) -> (usize, MemoryDisk) {
    let mut disk = disk;
    for (place, row) in rows.iter().enumerate() {
        let (found, left) = run(alloc, runs, disk, row, &[wanted(row, alike)]);
        disk = left;
        if found.is_none() {
            return (place, disk);
        }
    }
    (rows.len(), disk)
}

/// Those that may follow where so many commands ended.
fn behind<'a>(shows: &'a [Row<'a>], ended: usize) -> &'a [Row<'a>] {
    &shows[ended.min(shows.len())..]
}

/// What a place of these rows is.
fn shown_at(rows: &[Row], found: Option<usize>) -> Shown {
    match found {
        Some(place) => match rows.get(place) {
            Some(row) if row.status == 0 => Shown::AsWanted,
            Some(_) => Shown::Fault,
            None => Shown::Otherwise,
        },
        None => Shown::Otherwise,
    }
}

/// Runs the command of these rows, and tells which of them it comes to.
fn look<R: Runs>(alloc: Global, runs: &R, disk: MemoryDisk, rows: &[Row]) -> Shown {
    match rows.first() {
        Some(first) => {
            let (found, _) = run(alloc, runs, disk, first, rows);
            shown_at(rows, found)
        }
        None => Shown::Otherwise,
    }
}

/// Whether one of the rows is shown, without a fault, on what a crash leaves.
fn is_kept<R: Runs>(
    alloc: Global,
    runs: &R,
    stopped: &MemoryDisk,
    pick: Pick,
    rows: &[Row],
) -> bool {
    match stopped.image(alloc, pick) {
        Ok(image) => look(alloc, runs, image, rows) == Shown::AsWanted,
        Err(NoMemory) => false,
    }
}

/// How many commands end on a disk that stops after so many calls, and whether both images show them.
fn stop<R: Runs>(
    alloc: Global,
    runs: &R,
    calls: u64,
    rows: &[Row],
    shows: &[Row],
) -> (usize, bool) {
    match disk(alloc, None, Some(calls)) {
        Ok(disk) => {
            let (ended, stopped) = run_all(alloc, runs, disk, rows, Alike::InStatus);
            let shows = behind(shows, ended);
            let least = is_kept(alloc, runs, &stopped, Pick::Least, shows);
            let present = is_kept(alloc, runs, &stopped, Pick::Present, shows);
            (ended, least && present)
        }
        Err(NoMemory) => (0, false),
    }
}

/// The first call of the disk behind whose stop none of the rows is shown that may follow what ended. The
/// first row stands for no command that ended, the next for one, and so on.
pub fn first_lost<R: Runs>(alloc: Global, runs: &R, rows: &[Row], shows: &[Row]) -> Option<u64> {
    for calls in 0..MANY {
        let (ended, is_shown) = stop(alloc, runs, calls, rows, shows);
        if !is_shown {
            return Some(calls);
        }
        if ended == rows.len() {
            return None;
        }
    }
    Some(MANY)
}

/// What is shown behind commands of which this call of the disk is denied.
fn deny<R: Runs>(alloc: Global, runs: &R, call: u64, rows: &[Row], shows: &[Row]) -> Shown {
    match disk(alloc, Some((call, DiskKind::Denied)), None) {
        Ok(disk) => {
            let (ended, left) = run_all(alloc, runs, disk, rows, Alike::InStatus);
            look(alloc, runs, left, behind(shows, ended))
        }
        Err(NoMemory) => Shown::Otherwise,
    }
}

/// The first call of the disk whose denial isn't told, or behind which none of the rows is shown that may
/// follow what ended. The last row has the status of the fault: with it the denials end.
pub fn first_untold<R: Runs>(alloc: Global, runs: &R, rows: &[Row], shows: &[Row]) -> Option<u64> {
    for call in 0..MANY {
        match deny(alloc, runs, call, rows, shows) {
            Shown::AsWanted => {}
            Shown::Fault => return None,
            Shown::Otherwise => return Some(call),
        }
    }
    Some(MANY)
}

/// How many commands say what they are to say, up to the first that doesn't, on an empty disk.
pub fn said<R: Runs>(alloc: Global, runs: &R, rows: &[Row]) -> usize {
    match disk(alloc, None, None) {
        Ok(disk) => {
            let (ended, _) = run_all(alloc, runs, disk, rows, Alike::InAll);
            ended
        }
        Err(NoMemory) => 0,
    }
}
