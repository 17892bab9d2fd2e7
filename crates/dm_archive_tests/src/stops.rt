// Where each item is shown when the disk stops, or a call of the disk or of the history fails, while items move.
use crate::bench::{Row, disk, run, say};
use crate::rows::{ADD, CANCEL, GET};
use dm_disk::{MemoryDisk, Pick};
use dm_hist::MemoryKeeper;
use dm_types::NoMemory;
use std::alloc::Global;
use std::test::Fail;

/// None, one or both of the items have moved: the texts of the list, of the history, and of a further move.
const LIST: Row = Row {
    words: &[b"list"],
    may: &[
        (0, b"1 complete 11 11 hello.txt\n2 cancelled 0 ? -\n", b""),
        (0, b"2 cancelled 0 ? -\n", b""),
        (0, b"", b""),
    ],
};

const HISTORY: Row = Row {
    words: &[b"history"],
    may: &[
        (0, b"", b""),
        (0, b"1 complete 11 hello.txt\n", b""),
        (0, b"1 complete 11 hello.txt\n2 cancelled ? -\n", b""),
    ],
};

const MOVE: Row = Row {
    words: &[b"archive"],
    may: &[
        (0, b"archived 2\n", b""),
        (0, b"archived 1\n", b""),
        (0, b"archived 0\n", b""),
    ],
};

/// How a move ends: whole, or by this fault.
const MOVED: Row = Row {
    words: &[b"archive"],
    may: &[
        (0, b"archived 2\n", b""),
        (6, b"", b"disk failed\n"),
        (6, b"", b"disk denied\n"),
        (13, b"", b"history failed\n"),
    ],
};

/// How many of the items have moved, where each is shown exactly once, and the disk.
fn shown(
    alloc: Global,
    disk: MemoryDisk,
    keeper: &mut MemoryKeeper,
) -> Result<(Option<usize>, MemoryDisk), NoMemory> {
    let (listed, disk) = run(alloc, &LIST, disk, keeper)?;
    let (shown, disk) = run(alloc, &HISTORY, disk, keeper)?;
    let is_once = listed == shown;
    Ok((if is_once { shown } else { None }, disk))
}

/// How many have moved, where each is shown exactly once and a further move ends what was begun.
fn ended(
    alloc: Global,
    disk: MemoryDisk,
    keeper: &mut MemoryKeeper,
) -> Result<Option<usize>, NoMemory> {
    let (moved, disk) = shown(alloc, disk, keeper)?;
    let (rest, disk) = run(alloc, &MOVE, disk, keeper)?;
    let (all, _) = shown(alloc, disk, keeper)?;
    let is_ended = rest == moved && all == Some(2);
    Ok(if is_ended { moved } else { None })
}

/// Whether an image has each item once.
fn has_each(
    alloc: Global,
    left: &MemoryDisk,
    pick: Pick,
    keeper: &mut MemoryKeeper,
) -> Result<bool, NoMemory> {
    let (moved, _) = shown(alloc, left.image(alloc, pick)?, keeper)?;
    Ok(moved.is_some())
}

/// Whether an image has each item once, and a further move ends there what was begun.
fn is_ended(
    alloc: Global,
    left: &MemoryDisk,
    pick: Pick,
    keeper: &mut MemoryKeeper,
) -> Result<bool, NoMemory> {
    Ok(ended(alloc, left.image(alloc, pick)?, keeper)?.is_some())
}

/// How a move went over a disk that isn't sound.
#[derive(Clone, Copy, Debug, PartialEq, Eq)]
enum Went {
    /// The items couldn't be brought before it.
    NotBegun,
    /// It ended so, by its place in `MOVED`, and each item is shown exactly once.
    Told(usize),
    Lost,
}

/// Brings the items and moves them: how that ended, and the disk.
fn moves(
    alloc: Global,
    disk: MemoryDisk,
    keeper: &mut MemoryKeeper,
) -> Result<(Went, MemoryDisk), NoMemory> {
    let (other, disk) = say(alloc, &[GET, ADD, CANCEL], disk, keeper)?;
    if other.is_some() {
        return Ok((Went::NotBegun, disk));
    }
    let (told, disk) = run(alloc, &MOVED, disk, keeper)?;
    match told {
        Some(place) => Ok((Went::Told(place), disk)),
        None => Ok((Went::Lost, disk)),
    }
}

/// A move over a disk that stops after so many calls. Both images are looked at before one is gone on with.
fn after_stop(alloc: Global, calls: u64) -> Result<Went, NoMemory> {
    let mut keeper = MemoryKeeper::new(alloc, &[])?;
    let (went, left) = moves(alloc, disk(alloc, None, Some(calls))?, &mut keeper)?;
    if went == Went::NotBegun || went == Went::Lost {
        return Ok(went);
    }
    let least = has_each(alloc, &left, Pick::Least, &mut keeper)?;
    let present = is_ended(alloc, &left, Pick::Present, &mut keeper)?;
    let again = is_ended(alloc, &left, Pick::Least, &mut keeper)?;
    Ok(if least && present && again {
        went
    } else {
        Went::Lost
    })
}

/// A move over a disk of which this call is denied, and a history of which these fail.
fn after_fault(alloc: Global, call: Option<u64>, failing: &[u64]) -> Result<Went, NoMemory> {
    let mut keeper = MemoryKeeper::new(alloc, failing)?;
    let (went, left) = moves(alloc, disk(alloc, call, None)?, &mut keeper)?;
    if went == Went::NotBegun || went == Went::Lost {
        return Ok(went);
    }
    let moved = ended(alloc, left, &mut keeper)?;
    Ok(if moved.is_some() { went } else { Went::Lost })
}

/// The commands up to the move make fewer calls of the disk.
const MOST: u64 = 1000;

/// What was found of a number of moves, each of which is met by another stop or fault.
#[derive(Clone, Copy, Debug, PartialEq, Eq)]
struct Found {
    /// One of them was told.
    is_told: bool,
    /// The first by which an item isn't shown just once.
    lost: Option<u64>,
    /// A move that stops after so many calls of the disk isn't met.
    calls: u64,
}

/// Stops after each call of the disk.
fn stops(alloc: Global) -> Result<Found, NoMemory> {
    let mut is_told = false;
    let mut lost = Some(MOST);
    let mut calls = 0;
    for count in 0..MOST {
        calls = count;
        match after_stop(alloc, count)? {
            Went::NotBegun => {}
            Went::Told(1) => is_told = true,
            Went::Told(0) => {
                lost = None;
                break;
            }
            _ => {
                lost = Some(count);
                break;
            }
        }
    }
    Ok(Found {
        is_told,
        lost,
        calls,
    })
}

/// Faults of each of the first calls of the disk.
fn faults(alloc: Global, calls: u64) -> Result<Found, NoMemory> {
    let mut is_told = false;
    let mut lost = None;
    for call in 0..calls {
        match after_fault(alloc, Some(call), &[])? {
            Went::NotBegun | Went::Told(0) => {}
            Went::Told(2) => is_told = true,
            _ => {
                lost = Some(call);
                break;
            }
        }
    }
    Ok(Found {
        is_told,
        lost,
        calls,
    })
}

#[test]
fn a_stop_at_each_call_shows_each_item_once(rt: HostRuntime) -> Result<(), Fail> {
    let found = stops(rt.alloc())?;
    assert_eq!(rt; (found.is_told, found.lost), (true, None));
    Ok(())
}

#[test]
fn a_fault_of_each_call_of_the_disk_shows_each_item_once(rt: HostRuntime) -> Result<(), Fail> {
    let sound = stops(rt.alloc())?;
    let found = faults(rt.alloc(), sound.calls)?;
    assert_eq!(rt; (found.is_told, found.lost), (true, None));
    Ok(())
}

#[test]
fn a_fault_of_each_call_of_the_history_shows_each_item_once(rt: HostRuntime) -> Result<(), Fail> {
    for call in 0..2 {
        assert!(rt;
            after_fault(rt.alloc(), None, &[call])? == Went::Told(3),
            "call {call}"
        );
    }
    Ok(())
}
