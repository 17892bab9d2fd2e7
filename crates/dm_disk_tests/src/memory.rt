use dm_disk::*;
use dm_types::{DiskKind, Listed, Text};
use std::alloc::Global;
use std::test::Fail;

fn place(alloc: Global, area: Area, name: &[u8]) -> Result<Place, Fail> {
    let name = Text::from_bytes(alloc, name)?;
    Ok(Place { area, name })
}

/// Two calls: asks for the length first.
fn write(disk: &mut MemoryDisk, place: &Place, at: u64, bytes: &[u8]) -> Result<(), DiskFault> {
    match disk.length(place)? {
        Some(_) => disk.write_at(place, at, bytes),
        None => Err(DiskFault(DiskKind::Failed)),
    }
}

fn make(disk: &mut MemoryDisk, place: &Place) -> Result<(), DiskFault> {
    match disk.length(place)? {
        Some(_) => Err(DiskFault(DiskKind::Failed)),
        None => disk.create(place),
    }
}

fn keep(disk: &mut MemoryDisk, place: &Place) -> Result<(), DiskFault> {
    match disk.length(place)? {
        Some(_) => disk.sync(place),
        None => Err(DiskFault(DiskKind::Failed)),
    }
}

fn read(disk: &mut MemoryDisk, place: &Place, at: u64, buf: &mut [u8]) -> Result<usize, DiskFault> {
    match disk.length(place)? {
        Some(_) => disk.read_at(place, at, buf),
        None => Err(DiskFault(DiskKind::Failed)),
    }
}

fn take_away(disk: &mut MemoryDisk, place: &Place) -> Result<(), DiskFault> {
    match disk.length(place)? {
        Some(_) => disk.remove(place),
        None => Err(DiskFault(DiskKind::Failed)),
    }
}

/// An empty disk and a place.
fn start(alloc: Global) -> Result<(MemoryDisk, Place), Fail> {
    let disk = MemoryDisk::new(alloc, Listed::new(alloc), None)?;
    Ok((disk, place(alloc, Area::Files, b"a")?))
}

/// What four bytes at a place of the file read, with 7 behind the end.
fn four(disk: &mut MemoryDisk, place: &Place, at: u64) -> Result<[u8; 4], DiskFault> {
    let mut buf = [7u8; 4];
    read(disk, place, at, &mut buf)?;
    Ok(buf)
}

#[test]
fn a_file_reads_as_it_was_written(rt: HostRuntime) -> Result<(), Fail> {
    let (mut disk, here) = start(rt.alloc())?;
    make(&mut disk, &here)?;
    write(&mut disk, &here, 2, b"llo")?;
    write(&mut disk, &here, 0, b"he")?;
    assert_eq!(rt; disk.length(&here)?, Some(5));
    assert_eq!(rt; four(&mut disk, &here, 1)?, *b"ello");
    Ok(())
}

#[test]
fn zeros_stand_between(rt: HostRuntime) -> Result<(), Fail> {
    let (mut disk, here) = start(rt.alloc())?;
    make(&mut disk, &here)?;
    write(&mut disk, &here, 2, b"!")?;
    assert_eq!(rt; four(&mut disk, &here, 0)?, [0, 0, b'!', 7]);
    Ok(())
}

#[test]
fn a_name_is_listed_until_it_is_removed(rt: HostRuntime) -> Result<(), Fail> {
    let (mut disk, here) = start(rt.alloc())?;
    make(&mut disk, &here)?;
    assert_eq!(rt;
        disk.names(rt.alloc(), Area::Files)
            .map_err(|_| "no names")?
            .count(),
        1
    );
    take_away(&mut disk, &here)?;
    assert_eq!(rt; disk.length(&here)?, None);
    assert_eq!(rt; disk.starved(), 0);
    Ok(())
}

#[test]
fn listed_and_stopped_calls_fail(rt: HostRuntime) -> Result<(), Fail> {
    let alloc = rt.alloc();
    let mut failing = Listed::new(alloc);
    failing.push(FailingCall {
        call: 1,
        kind: DiskKind::Denied,
    })?;
    let mut disk = MemoryDisk::new(alloc, failing, Some(2))?;
    assert_eq!(rt; disk.sync_names(Area::State), Ok(()));
    assert_eq!(rt;
        disk.sync_names(Area::State),
        Err(DiskFault(DiskKind::Denied))
    );
    assert_eq!(rt;
        disk.sync_names(Area::State),
        Err(DiskFault(DiskKind::Failed))
    );
    Ok(())
}

#[test]
fn a_range_that_ends_too_far_is_refused(rt: HostRuntime) -> Result<(), Fail> {
    let (mut disk, here) = start(rt.alloc())?;
    make(&mut disk, &here)?;
    assert_eq!(rt;
        write(&mut disk, &here, (1 << 63) - 1, b"b"),
        Err(DiskFault(DiskKind::NoSpace))
    );
    assert_eq!(rt; disk.length(&here)?, Some(0));
    Ok(())
}

/// A file of `save`, synced under its name, that was written to `same` since.
fn half_kept(alloc: Global) -> Result<(MemoryDisk, Place), Fail> {
    let (mut disk, here) = start(alloc)?;
    make(&mut disk, &here)?;
    write(&mut disk, &here, 0, b"save")?;
    keep(&mut disk, &here)?;
    disk.sync_names(Area::Files)?;
    write(&mut disk, &here, 2, b"me")?;
    Ok((disk, here))
}

#[test]
fn the_present_image_is_as_the_disk_reads(rt: HostRuntime) -> Result<(), Fail> {
    let (disk, here) = half_kept(rt.alloc())?;
    let mut present = disk.image(rt.alloc(), Pick::Present)?;
    assert_eq!(rt; four(&mut present, &here, 0)?, *b"same");
    Ok(())
}

#[test]
fn the_least_image_has_zeros_where_a_write_was(rt: HostRuntime) -> Result<(), Fail> {
    let (disk, here) = half_kept(rt.alloc())?;
    let mut least = disk.image(rt.alloc(), Pick::Least)?;
    assert_eq!(rt; four(&mut least, &here, 0)?, *b"sa\0\0");
    Ok(())
}

#[test]
fn the_least_image_has_no_name_that_was_not_synced(rt: HostRuntime) -> Result<(), Fail> {
    let (mut disk, here) = start(rt.alloc())?;
    make(&mut disk, &here)?;
    let mut least = disk.image(rt.alloc(), Pick::Least)?;
    assert_eq!(rt; least.length(&here)?, None);
    Ok(())
}
