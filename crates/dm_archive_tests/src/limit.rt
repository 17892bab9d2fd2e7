// As many items as a list takes move at once, and are shown by pages.
use crate::bench::{Row, disk, say};
use dm_disk::{Area, Disk, DiskFault, MemoryDisk, Place};
use dm_hist::{Keeper, MemoryKeeper, RowFilter};
use dm_types::{DiskKind, NoMemory, Text};
use std::alloc::Global;
use std::test::Fail;

/// The journal's header, and a Reopened by which 4097 comes next.
const FRONT: &[u8] = b"DMJRNL1\n\x01\0\0\0\x0d\x0d\0\0\x10\x01\0\0\0\0\0\0\0\0";

// A Restored item, complete with eleven bytes from http://h/a under the tag "a": up to its id, its name, and its end.
const TO_ID: &[u8] = b"\x01\0\0\0\x87\x0e";

const TO_NAME: &[u8] =
    b"\0\0\0\x0ahttp://h/a\0\0\0\x05\0\0\0\0\x01\0\0\0\x01\0\0\0\0\x01\x01\x01\0\x03\"a\"\x01\0\x0ahttp://h/a\x01\0\0\0\0\0\0\0\x0b\x01\0\x04";

const TO_END: &[u8] =
    b"\x01\0\0\x01\0\0\0\0\0\0\0\0\0\0\0\0\0\0\0\x0b\x01\x01HELLO WORLD HELLO WORLD HELLO WO\0\0\0\0\0\0\0\0";

/// Four bytes from 0 to ?, which are the id's last four hexadecimal digits.
fn name(id: u32) -> [u8; 4] {
    let [_, _, high, low] = id.to_be_bytes();
    [
        0x30 | (high >> 4),
        0x30 | (high & 15),
        0x30 | (low >> 4),
        0x30 | (low & 15),
    ]
}

/// A journal of so many complete items.
fn journal(alloc: Global, count: u32) -> Result<Vec<u8>, NoMemory> {
    let mut bytes = Vec::from_slice(alloc, FRONT)?;
    for id in 1..=count {
        bytes.extend_from_slice(TO_ID)?;
        bytes.extend_from_slice(&id.to_be_bytes())?;
        bytes.extend_from_slice(TO_NAME)?;
        bytes.extend_from_slice(&name(id))?;
        bytes.extend_from_slice(TO_END)?;
    }
    bytes.push(0)?;
    Ok(bytes)
}

fn home(alloc: Global) -> Result<Place, NoMemory> {
    let name = Text::from_bytes(alloc, b"journal")?;
    Ok(Place {
        area: Area::State,
        name,
    })
}

/// Makes a file with these bytes.
fn put(disk: &mut MemoryDisk, place: &Place, bytes: &[u8]) -> Result<(), DiskFault> {
    match disk.length(place)? {
        None => disk.create(place)?,
        Some(_) => return Err(DiskFault(DiskKind::Failed)),
    }
    match disk.length(place)? {
        Some(_) => disk.write_at(place, 0, bytes),
        None => Err(DiskFault(DiskKind::Failed)),
    }
}

/// A disk whose list has so many complete items.
fn full(alloc: Global, count: u32) -> Result<MemoryDisk, Fail> {
    let mut there = disk(alloc, None, None)?;
    let bytes = journal(alloc, count)?;
    put(&mut there, &home(alloc)?, &bytes)?;
    Ok(there)
}

const ROWS: [Row; 9] = [
    Row {
        words: &[b"show", b"4096"],
        may: &[(
            0,
            b"id 4096\nstate complete\nword -\naddress http://h/a\nlast http://h/a\nname 1000\ncovered 11\ntotal 11\nepoch 1\nattempts 1\nautomatic 0\nmodified -\nsha256 48454c4c4f20574f524c442048454c4c4f20574f524c442048454c4c4f20574f\n",
            b"",
        )],
    },
    Row {
        words: &[b"history"],
        may: &[(0, b"", b"")],
    },
    Row {
        words: &[b"archive"],
        may: &[(0, b"archived 4096\n", b"")],
    },
    Row {
        words: &[b"list"],
        may: &[(0, b"", b"")],
    },
    Row {
        words: &[b"history", b"--limit", b"2"],
        may: &[(0, b"1 complete 11 0001\n2 complete 11 0002\n", b"")],
    },
    Row {
        words: &[b"history", b"--limit", b"2", b"--after", b"4000"],
        may: &[(0, b"4001 complete 11 0?:1\n4002 complete 11 0?:2\n", b"")],
    },
    Row {
        words: &[b"history", b"--after", b"4094"],
        may: &[(0, b"4095 complete 11 0???\n4096 complete 11 1000\n", b"")],
    },
    Row {
        words: &[b"history", b"--after", b"4096"],
        may: &[(0, b"", b"")],
    },
    Row {
        words: &[b"archive"],
        may: &[(0, b"archived 0\n", b"")],
    },
];

/// How many rows the history has.
fn count_of(keeper: &mut MemoryKeeper) -> Result<u64, Fail> {
    let all = RowFilter { complete: None };
    Ok(keeper.rows_page(&all, 0, 5000)?.count())
}

#[test]
fn a_full_list_moves_at_once(rt: HostRuntime) -> Result<(), Fail> {
    let alloc = rt.alloc();
    let mut keeper = MemoryKeeper::new(alloc, &[])?;
    let (other, _) = say(alloc, &ROWS, full(alloc, 4096)?, &mut keeper)?;
    assert_eq!(rt; other, None);
    assert_eq!(rt; count_of(&mut keeper)?, 4096);
    Ok(())
}
