// What is found of a journal: whole, cut, stopped at each call, and after each failing call.
use crate::bench::{add, begin, disk, finds, found, holds, home, put, session, stretch};
use dm_disk::{Area, MemoryDisk, Pick, Place};
use dm_journal::{Journal, JournalFault};
use dm_types::{DiskKind, NoMemory, Text};
use std::alloc::Global;
use std::test::Fail;

// The journal after `add --word w1 http://h/a` at clock 0: a Reopened and an Added.
const ADDED: [u8; 64] = [
    0x44, 0x4d, 0x4a, 0x52, 0x4e, 0x4c, 0x31, 0x0a, 0x01, 0x00, 0x00, 0x00, 0x0d, 0x0d, 0x00, 0x00,
    0x00, 0x01, 0x00, 0x00, 0x00, 0x00, 0x00, 0x00, 0x00, 0x00, 0x01, 0x00, 0x00, 0x00, 0x20, 0x01,
    0x00, 0x00, 0x00, 0x01, 0x00, 0x02, 0x77, 0x31, 0x00, 0x0a, 0x68, 0x74, 0x74, 0x70, 0x3a, 0x2f,
    0x2f, 0x68, 0x2f, 0x61, 0x00, 0x00, 0x00, 0x00, 0x00, 0x00, 0x00, 0x00, 0x00, 0x00, 0x00, 0x00,
];

/// Its two bodies.
fn entries() -> (&'static [u8], &'static [u8]) {
    (&ADDED[13..26], &ADDED[31..63])
}

/// A disk whose `journal` holds these bytes.
fn with_file(alloc: Global, bytes: &[u8]) -> Result<MemoryDisk, Fail> {
    let mut there = disk(alloc, None, None)?;
    put(&mut there, &home(alloc)?, bytes)?;
    Ok(there)
}

/// What is found of a file with these bytes: how many bodies, and the length.
fn found_of(alloc: Global, bytes: &[u8]) -> Result<Result<Option<(u64, u64)>, JournalFault>, Fail> {
    let mut there = with_file(alloc, bytes)?;
    Ok(found(alloc, &mut there))
}

/// How many bodies a crash leaves, where the session stops after so many calls.
fn left_after(alloc: Global, calls: u64, pick: Pick) -> Result<Option<u64>, Fail> {
    let mut stopped = disk(alloc, None, Some(calls))?;
    let _ = session(alloc, &mut stopped);
    let mut left = stopped.image(alloc, pick)?;
    match found(alloc, &mut left) {
        Ok(found) => Ok(found.map(|(count, _)| count)),
        Err(_) => Err("not found".into()),
    }
}

#[test]
fn what_was_appended_is_found(rt: HostRuntime) -> Result<(), Fail> {
    let alloc = rt.alloc();
    let mut there = disk(alloc, None, None)?;
    assert_eq!(rt; session(alloc, &mut there), Ok(()));
    assert!(rt; finds(alloc, &mut there, &[b"one", b"two"]));
    Ok(())
}

#[test]
fn a_missing_journal_is_none(rt: HostRuntime) -> Result<(), Fail> {
    let alloc = rt.alloc();
    let mut there = disk(alloc, None, None)?;
    assert_eq!(rt; found(alloc, &mut there), Ok(None));
    Ok(())
}

#[test]
fn the_added_entries_are_found(rt: HostRuntime) -> Result<(), Fail> {
    assert_eq!(rt; found_of(rt.alloc(), &ADDED)?, Ok(Some((2, 64))));
    let mut there = with_file(rt.alloc(), &ADDED)?;
    let (reopened, added) = entries();
    assert!(rt; finds(rt.alloc(), &mut there, &[reopened, added]));
    Ok(())
}

/// Whether a journal of these two bodies has just these bytes.
fn is_written_as(alloc: Global, bodies: (&[u8], &[u8]), bytes: &[u8]) -> Result<bool, Fail> {
    let mut there = disk(alloc, None, None)?;
    let place = home(alloc)?;
    match begin(alloc, &mut there) {
        Ok(mut journal) => {
            add(&mut there, &place, &mut journal, bodies.0)?;
            add(&mut there, &place, &mut journal, bodies.1)?;
        }
        Err(_) => return Ok(false),
    }
    Ok(holds(alloc, &mut there, &place, bytes)?)
}

#[test]
fn the_added_entries_are_written_so(rt: HostRuntime) -> Result<(), Fail> {
    assert!(rt; is_written_as(rt.alloc(), entries(), &ADDED)?);
    Ok(())
}

/// The first of some texts that are no journal of which something else is found than the place that
/// shows it: cut ones, bodies of no byte and of one too many, and another header.
fn first_taken(alloc: Global) -> Result<Option<usize>, Fail> {
    let damaged: [(&[u8], u64); 8] = [
        (b"", 0),
        (&ADDED[..7], 0),
        (&ADDED[..8], 8),
        (&ADDED[..40], 26),
        (&ADDED[..63], 63),
        (b"DMJRNL1\n\x01\0\0\0\0\0", 8),
        (b"DMJRNL1\n\x01\0\0\x40\x01\0", 8),
        (b"DMJRNL2\n\0", 0),
    ];
    for (row, (bytes, place)) in damaged.iter().enumerate() {
        if found_of(alloc, bytes)? != Err(JournalFault::Damaged(*place)) {
            return Ok(Some(row));
        }
    }
    Ok(None)
}

#[test]
fn texts_that_are_no_journal_are_damaged(rt: HostRuntime) -> Result<(), Fail> {
    assert_eq!(rt; first_taken(rt.alloc())?, None);
    assert_eq!(rt; found_of(rt.alloc(), b"DMJRNL1\n\0")?, Ok(Some((0, 9))));
    Ok(())
}

/// What is found of a journal with 200,000 bytes behind its closed gate, where this call is denied. Six
/// calls make the file, and four find it: it is read once.
fn found_before_a_tail(
    alloc: Global,
    failing: u64,
) -> Result<Result<Option<(u64, u64)>, JournalFault>, Fail> {
    let mut there = disk(alloc, Some(failing), None)?;
    let place = home(alloc)?;
    put(&mut there, &place, &ADDED)?;
    stretch(&mut there, &place, 200_000)?;
    Ok(found(alloc, &mut there))
}

#[test]
fn what_stands_behind_the_closed_gate_is_not_read(rt: HostRuntime) -> Result<(), Fail> {
    let denied = Err(JournalFault::Disk(DiskKind::Denied));
    assert_eq!(rt; found_before_a_tail(rt.alloc(), 9)?, denied);
    assert_eq!(rt; found_before_a_tail(rt.alloc(), 10)?, Ok(Some((2, 64))));
    Ok(())
}

/// How many bodies are found after one more is added to a journal of these bytes.
fn found_after_one_more(alloc: Global, bytes: &[u8]) -> Result<Option<(u64, u64)>, Fail> {
    let mut there = with_file(alloc, bytes)?;
    let place = home(alloc)?;
    match Journal::find(alloc, &mut there) {
        Ok(Some((mut journal, _))) => add(&mut there, &place, &mut journal, b"more")?,
        Ok(None) => return Err("not found".into()),
        Err(_) => return Err("not read".into()),
    }
    match found(alloc, &mut there) {
        Ok(found) => Ok(found),
        Err(_) => Err("not read again".into()),
    }
}

#[test]
fn a_last_byte_of_seven_is_a_closed_gate(rt: HostRuntime) -> Result<(), Fail> {
    let mut bytes = ADDED;
    bytes[63] = 7;
    assert_eq!(rt; found_of(rt.alloc(), &bytes)?, Ok(Some((2, 64))));
    assert_eq!(rt; found_after_one_more(rt.alloc(), &bytes)?, Some((3, 73)));
    Ok(())
}

#[test]
fn a_left_new_journal_is_replaced(rt: HostRuntime) -> Result<(), Fail> {
    let alloc = rt.alloc();
    let mut there = disk(alloc, None, None)?;
    let spare = Place {
        area: Area::State,
        name: Text::from_bytes(alloc, b"journal.new")?,
    };
    put(&mut there, &spare, b"left from an earlier start")?;
    assert_eq!(rt; session(alloc, &mut there), Ok(()));
    assert!(rt; finds(alloc, &mut there, &[b"one", b"two"]));
    Ok(())
}

// Where a session stops, and how many bodies each image has: of its calls the first asks whether a
// journal stands, six start it, and each append is five, the first of which asks again.
const LEFT: [(u64, Option<u64>, Option<u64>); 12] = [
    (0, None, None),
    (5, None, None),
    (6, None, Some(0)),
    (7, Some(0), Some(0)),
    (8, Some(0), Some(0)),
    (11, Some(0), Some(1)),
    (12, Some(1), Some(1)),
    (13, Some(1), Some(1)),
    (14, Some(1), Some(1)),
    (15, Some(1), Some(1)),
    (16, Some(1), Some(2)),
    (17, Some(2), Some(2)),
];

/// The first stop after which the images are others.
fn first_other(alloc: Global) -> Result<Option<u64>, Fail> {
    for row in &LEFT {
        let least = left_after(alloc, row.0, Pick::Least)?;
        let present = left_after(alloc, row.0, Pick::Present)?;
        if least != row.1 || present != row.2 {
            return Ok(Some(row.0));
        }
    }
    Ok(None)
}

#[test]
fn a_stop_leaves_the_bodies_with_the_new_one_or_without(rt: HostRuntime) -> Result<(), Fail> {
    assert_eq!(rt; first_other(rt.alloc())?, None);
    Ok(())
}

/// Whether a session and what is found after it answer a denied call with this number.
fn is_answered(alloc: Global, call: u64) -> Result<bool, NoMemory> {
    let mut there = disk(alloc, Some(call), None)?;
    let denied = JournalFault::Disk(DiskKind::Denied);
    let first = session(alloc, &mut there);
    let second = found(alloc, &mut there);
    Ok(first == Err(denied) || second == Err(denied))
}

/// The first call that fails and isn't answered.
fn first_unanswered(alloc: Global) -> Result<Option<u64>, NoMemory> {
    for call in 0..21 {
        if !is_answered(alloc, call)? {
            return Ok(Some(call));
        }
    }
    Ok(None)
}

// A session is 17 calls. To find what it left is four: the names and the file are synced with the
// length between, and the file is read.
#[test]
fn each_failing_call_is_answered(rt: HostRuntime) -> Result<(), Fail> {
    assert_eq!(rt; first_unanswered(rt.alloc())?, None);
    assert!(rt; !is_answered(rt.alloc(), 22)?);
    Ok(())
}
