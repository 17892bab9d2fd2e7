// What parts are named, what their digests are, and what a crash leaves of them.
use crate::bench::{disk, keep, left, make, sum, take_away, write};
use dm_disk::{DiskFault, MemoryDisk, Pick, Place};
use dm_part::{PartFault, place_of, read_part_name};
use dm_types::{DiskKind, Epoch, ItemId};
use std::alloc::Global;
use std::test::Fail;

// SHA-256 of `hello world`, and of nothing (FIPS 180-4).
const OF_HELLO_WORLD: [u8; 32] = [
    0xb9, 0x4d, 0x27, 0xb9, 0x93, 0x4d, 0x3e, 0x08, 0xa5, 0x2e, 0x52, 0xd7, 0xda, 0x7d, 0xab, 0xfa,
    0xc4, 0x84, 0xef, 0xe3, 0x7a, 0x53, 0x80, 0xee, 0x90, 0x88, 0xf7, 0xac, 0xe2, 0xef, 0xcd, 0xe9,
];

const OF_NOTHING: [u8; 32] = [
    0xe3, 0xb0, 0xc4, 0x42, 0x98, 0xfc, 0x1c, 0x14, 0x9a, 0xfb, 0xf4, 0xc8, 0x99, 0x6f, 0xb9, 0x24,
    0x27, 0xae, 0x41, 0xe4, 0x64, 0x9b, 0x93, 0x4c, 0xa4, 0x95, 0x99, 0x1b, 0x78, 0x52, 0xb8, 0x55,
];

/// A disk with a part that has these bytes, after five calls.
fn with_part(
    alloc: Global,
    failing: Option<u64>,
    bytes: &[u8],
) -> Result<(MemoryDisk, Place), Fail> {
    let mut there = disk(alloc, failing)?;
    let part = place_of(alloc, ItemId(1), Epoch(1))?;
    match make(&mut there, &part) {
        Ok(()) => match write(&mut there, &part, bytes) {
            Ok(()) => Ok((there, part)),
            Err(_) => Err("not written".into()),
        },
        Err(_) => Err("not made".into()),
    }
}

/// The digest of a part with these bytes, by a buffer of this size.
fn digest_of(
    alloc: Global,
    bytes: &[u8],
    total: u64,
    room: usize,
    failing: Option<u64>,
) -> Result<Result<[u8; 32], PartFault>, Fail> {
    let (mut there, part) = with_part(alloc, failing, bytes)?;
    sum(alloc, &mut there, &part, total, room)
}

#[test]
fn a_digest_is_that_of_the_standard(rt: HostRuntime) -> Result<(), Fail> {
    let alloc = rt.alloc();
    for room in [1, 3, 64] {
        assert_eq!(rt;
            digest_of(alloc, b"hello world", 11, room, None)?,
            Ok(OF_HELLO_WORLD)
        );
    }
    Ok(())
}

#[test]
fn only_the_total_counts(rt: HostRuntime) -> Result<(), Fail> {
    let alloc = rt.alloc();
    assert_eq!(rt;
        digest_of(alloc, b"hello world, and more", 11, 64, None)?,
        Ok(OF_HELLO_WORLD)
    );
    assert_eq!(rt; digest_of(alloc, b"hello", 0, 64, None)?, Ok(OF_NOTHING));
    Ok(())
}

#[test]
fn a_short_part_is_told(rt: HostRuntime) -> Result<(), Fail> {
    let alloc = rt.alloc();
    for room in [1, 3, 64] {
        assert_eq!(rt;
            digest_of(alloc, b"hello", 11, room, None)?,
            Err(PartFault::Short(5))
        );
    }
    Ok(())
}

// The part is made by three calls, written by two, and asked for by one: then come the reads.
#[test]
fn a_read_that_fails_is_answered(rt: HostRuntime) -> Result<(), Fail> {
    let alloc = rt.alloc();
    for call in [6, 7, 9] {
        let answer = digest_of(alloc, b"hello world", 11, 3, Some(call))?;
        assert_eq!(rt; answer, Err(PartFault::Disk(DiskKind::Denied)));
    }
    assert_eq!(rt;
        digest_of(alloc, b"hello world", 11, 3, Some(10))?,
        Ok(OF_HELLO_WORLD)
    );
    Ok(())
}

#[test]
fn names_of_parts_are_read(rt: HostRuntime) -> Result<(), Fail> {
    let names: [(&[u8], Option<(u32, u32)>); 19] = [
        (b"Unconfirmed 1-1.crdownload", Some((1, 1))),
        (b"Unconfirmed 12-7.crdownload", Some((12, 7))),
        (b"Unconfirmed 0-0.crdownload", Some((0, 0))),
        (
            b"Unconfirmed 4294967295-4294967295.crdownload",
            Some((4_294_967_295, 4_294_967_295)),
        ),
        (b"Unconfirmed 4294967296-1.crdownload", None),
        (b"Unconfirmed 1-4294967296.crdownload", None),
        (b"Unconfirmed 01-1.crdownload", None),
        (b"Unconfirmed 1-01.crdownload", None),
        (b"Unconfirmed 1-00.crdownload", None),
        (b"Unconfirmed +1-1.crdownload", None),
        (b"Unconfirmed -1.crdownload", None),
        (b"Unconfirmed 1-.crdownload", None),
        (b"Unconfirmed 1.crdownload", None),
        (b"Unconfirmed 1-1-1.crdownload", None),
        (b"Unconfirmed 1-1.crdownload_", None),
        (b"unconfirmed 1-1.crdownload", None),
        (b"Unconfirmed 1-1.CRDOWNLOAD", None),
        (b"Unconfirmed 1-1", None),
        (b"", None),
    ];
    for (name, numbers) in names {
        let found = read_part_name(name).map(|(id, epoch)| (id.0, epoch.0));
        assert_eq!(rt; found, numbers);
    }
    Ok(())
}

#[test]
fn a_part_that_was_made_stands_after_a_crash(rt: HostRuntime) -> Result<(), Fail> {
    let alloc = rt.alloc();
    let (mut there, part) = with_part(alloc, None, b"hello")?;
    assert_eq!(rt; part.name.bytes(), b"Unconfirmed 1-1.crdownload".as_slice());
    assert_eq!(rt; left(alloc, &there, &part, Pick::Least)?, Some(0));
    assert_eq!(rt; keep(&mut there, &part), Ok(()));
    assert_eq!(rt; left(alloc, &there, &part, Pick::Least)?, Some(5));
    Ok(())
}

#[test]
fn a_part_that_was_discarded_may_stand(rt: HostRuntime) -> Result<(), Fail> {
    let alloc = rt.alloc();
    let (mut there, part) = with_part(alloc, None, b"hello")?;
    assert_eq!(rt; take_away(&mut there, &part), Ok(()));
    assert_eq!(rt; left(alloc, &there, &part, Pick::Present)?, None);
    assert_eq!(rt; left(alloc, &there, &part, Pick::Least)?, Some(0));
    Ok(())
}

#[test]
fn a_making_that_fails_is_answered(rt: HostRuntime) -> Result<(), Fail> {
    let alloc = rt.alloc();
    for call in [1, 2] {
        let mut there = disk(alloc, Some(call))?;
        let part = place_of(alloc, ItemId(1), Epoch(1))?;
        assert_eq!(rt; make(&mut there, &part), Err(DiskFault(DiskKind::Denied)));
    }
    Ok(())
}
