// What a stop or a fault at each call leaves of an import.
use crate::bench::{disk, put, run};
use dm_disk::{MemoryDisk, Pick};
use dm_hist::MemoryKeeper;
use std::alloc::Global;
use std::test::Fail;

const FILE: &[u8] = b"word,address,name,sha256\nw1,http://h/a,,\nw2,http://h/b,,\n";

const BOTH: &[u8] = b"1 waiting 0 ? -\n2 waiting 0 ? -\n";

/// What the list may be where it stopped: the first of the items.
const FRONTS: &[&[u8]] = &[b"", b"1 waiting 0 ? -\n", BOTH];

/// How many calls of the disk make the file.
const MAKING: u64 = 4;

/// How an import ended: its status, whether both lines or nothing was printed, whether the right line came with it,
/// and the disk.
fn ended(
    alloc: Global,
    failing: Option<u64>,
    stop_after: Option<u64>,
    keeper_fails: &[u64],
) -> Result<(u8, bool, MemoryDisk), Fail> {
    let mut there = disk(alloc, failing, stop_after)?;
    put(alloc, &mut there, b"links.csv", FILE)?;
    let mut keeper = MemoryKeeper::new(alloc, keeper_fails)?;
    let ran = run(alloc, &[b"import", b"links.csv"], &[], there, &mut keeper)?;
    let fits = match ran.status {
        0 => ran.out.bytes() == BOTH && ran.errs.is_empty(),
        6 => ran.out.is_empty() && ran.errs.bytes().starts_with(b"disk "),
        13 => ran.out.is_empty() && ran.errs.bytes() == b"history failed\n".as_slice(),
        _ => false,
    };
    Ok((ran.status, fits, ran.disk))
}

/// Whether `list` shows the first of the items there, both where the import ended with status 0.
fn shows(alloc: Global, there: MemoryDisk, status: u8) -> Result<bool, Fail> {
    let mut keeper = MemoryKeeper::new(alloc, &[])?;
    let ran = run(alloc, &[b"list"], &[], there, &mut keeper)?;
    let text = ran.out.bytes();
    let whole = status != 0 || text == BOTH;
    Ok(ran.status == 0 && whole && FRONTS.iter().any(|front| *front == text))
}

/// The first stop behind which the list is another one.
fn first_lost(alloc: Global) -> Result<Option<u64>, Fail> {
    for calls in MAKING..200 {
        let (status, fits, stopped) = ended(alloc, None, Some(calls), &[])?;
        let least = shows(alloc, stopped.image(alloc, Pick::Least)?, status)?;
        let present = shows(alloc, stopped.image(alloc, Pick::Present)?, status)?;
        if !fits || !least || !present {
            return Ok(Some(calls));
        }
        if status == 0 {
            break;
        }
    }
    Ok(None)
}

/// The first call whose fault isn't told, or behind which the list is another one.
fn first_untold(alloc: Global) -> Result<Option<u64>, Fail> {
    for call in MAKING..200 {
        let (status, fits, there) = ended(alloc, Some(call), None, &[])?;
        // The call isn't one of the import, but the next one.
        if fits && status == 0 {
            break;
        }
        if !fits || !shows(alloc, there, status)? {
            return Ok(Some(call));
        }
    }
    Ok(None)
}

#[test]
fn a_stop_or_a_fault_at_each_call_leaves_the_first_items(rt: HostRuntime) -> Result<(), Fail> {
    let alloc = rt.alloc();
    assert_eq!(rt; first_lost(alloc)?, None);
    assert_eq!(rt; first_untold(alloc)?, None);
    for call in 0..2 {
        let (status, fits, there) = ended(alloc, None, None, &[call])?;
        assert!(rt; status == 13 && fits, "call {call}");
        assert!(rt; shows(alloc, there, status)?, "call {call}");
    }
    Ok(())
}
