// A run that meets a stop or a fault of the disk, and what is done behind it.
use crate::disks::disk;
use crate::playing::{Played, Step, take_all};
use crate::rows::Row;
use crate::runs::{Runs, run};
use dm_disk::{MemoryDisk, Pick};
use dm_types::{DiskKind, NoMemory};
use std::alloc::Global;

/// On which disk it is gone on.
#[derive(Clone, Copy)]
pub enum Behind {
    /// The disk itself.
    Disk,
    /// Each image that a crash may leave of it: that with the least, and that with all that reads.
    Images,
}

/// A run on an empty disk of which a call fails, or which stops, and the steps behind it.
#[derive(Clone, Copy)]
pub struct Broken<'a> {
    pub failing: Option<(u64, DiskKind)>,
    pub stop_after: Option<u64>,
    pub row: Row<'a>,
    /// What the run may come to.
    pub rows: &'a [Row<'a>],
    pub behind: Behind,
    pub steps: &'a [Step<'a>],
}

fn on_image<R: Runs>(
    alloc: Global,
    runs: &R,
    disk: &MemoryDisk,
    pick: Pick,
    steps: &[Step],
) -> Played {
    match disk.image(alloc, pick) {
        Ok(image) => {
            let (played, _) = take_all(alloc, runs, image, steps);
            played
        }
        Err(NoMemory) => Played::NotMade,
    }
}

fn on_images<R: Runs>(alloc: Global, runs: &R, disk: &MemoryDisk, steps: &[Step]) -> Played {
    let least = on_image(alloc, runs, disk, Pick::Least, steps);
    if least == Played::AsSaid {
        on_image(alloc, runs, disk, Pick::Present, steps)
    } else {
        least
    }
}

fn go_on<R: Runs>(
    alloc: Global,
    runs: &R,
    disk: MemoryDisk,
    behind: Behind,
    steps: &[Step],
) -> Played {
    match behind {
        Behind::Disk => {
            let (played, _) = take_all(alloc, runs, disk, steps);
            played
        }
        Behind::Images => on_images(alloc, runs, &disk, steps),
    }
}

/// Which of its rows a run comes to, and how the steps behind it go.
pub fn play_broken<R: Runs>(alloc: Global, runs: &R, broken: &Broken) -> (Option<usize>, Played) {
    match disk(alloc, broken.failing, broken.stop_after) {
        Ok(disk) => {
            let (alike, left) = run(alloc, runs, disk, &broken.row, broken.rows);
            let played = go_on(alloc, runs, left, broken.behind, broken.steps);
            (alike, played)
        }
        Err(NoMemory) => (None, Played::NotMade),
    }
}
