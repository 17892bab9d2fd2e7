use dm_disk_model::{Area, Disk, DiskFault, NamesFault, Place};
use dm_disk_real::RealDisk;
use dm_types::{DiskKind, Text};
use std::os::unix::fs::symlink;
use std::rt::HostRuntime;
use std::test::Fail;
use std::{env, fs, process};

pub type Here = RealDisk<HostRuntime>;

/// A disk in a new folder, and two places of one of its areas.
#[derive(Drop)]
pub struct Bench {
    pub path: String,
    pub disk: Here,
    pub part: Place,
    pub name: Place,
}

/// A new folder of this process.
pub fn new_folder(rt: HostRuntime, name: &str) -> Result<String, Fail> {
    let above = env::temp_dir(&rt)?;
    let id = process::id(rt.process());
    let path = format!(in rt.alloc(); "{}/dm-disk-{id}-{name}", above.as_str())?;
    fs::create_dir(&rt, path.as_str())?;
    Ok(path)
}

/// A disk over two folders in this one, or why there is none.
pub fn made(
    rt: HostRuntime,
    path: &str,
    state: &str,
    files: &str,
) -> Result<Result<Here, NamesFault>, Fail> {
    let state = format!(in rt.alloc(); "{path}/{state}")?;
    let files = format!(in rt.alloc(); "{path}/{files}")?;
    Ok(RealDisk::new(rt, rt.alloc(), state.as_str(), files.as_str()))
}

fn disk_in(rt: HostRuntime, path: &str) -> Result<Here, Fail> {
    match made(rt, path, "state", "files")? {
        Ok(disk) => Ok(disk),
        Err(fault) => Err(fault)?,
    }
}

/// Whether the making of a disk failed.
pub fn is_refused(made: Result<Here, NamesFault>) -> bool {
    match made {
        Ok(_) => false,
        Err(fault) => fault == NamesFault::Disk(DiskKind::Failed),
    }
}

fn place(rt: HostRuntime, area: Area, name: &[u8]) -> Result<Place, Fail> {
    let name = Text::from_bytes(rt.alloc(), name)?;
    Ok(Place { area, name })
}

/// A bench in a new folder.
pub fn set_up(rt: HostRuntime, folder: &str, area: Area) -> Result<Bench, Fail> {
    let path = new_folder(rt, folder)?;
    bench_in(rt, path, area)
}

/// A bench in a folder that stands.
pub fn bench_in(rt: HostRuntime, path: String, area: Area) -> Result<Bench, Fail> {
    let part = place(rt, area, b"a part")?;
    let name = place(rt, area, b"name")?;
    let disk = disk_in(rt, path.as_str())?;
    Ok(Bench {
        path,
        disk,
        part,
        name,
    })
}

/// Lets the disk go, and says its folder.
pub fn let_go(bench: Bench) -> String {
    let Bench {
        path,
        disk: _,
        part: _,
        name: _,
    } = bench;
    path
}

/// Takes a folder away.
pub fn take_away(rt: HostRuntime, path: &str) -> Result<(), Fail> {
    fs::remove_dir_all(&rt, path)?;
    Ok(())
}

/// Makes a link under the second name, among the files.
fn link(rt: HostRuntime, path: &str, target: &str) -> Result<(), Fail> {
    let link = format!(in rt.alloc(); "{path}/files/name")?;
    symlink(&rt, target, link.as_str())?;
    Ok(())
}

/// A bench whose second name is a link, where a target is given.
pub fn set_up_with(
    rt: HostRuntime,
    folder: &str,
    area: Area,
    target: Option<&str>,
) -> Result<Bench, Fail> {
    let bench = set_up(rt, folder, area)?;
    if let Some(target) = target {
        link(rt, bench.path.as_str(), target)?;
    }
    Ok(bench)
}

// The calls of the disk, of which the tests know only their answers.

pub fn create(disk: &mut Here, place: &Place) -> Result<(), DiskFault> {
    disk.create(place)
}

pub fn write(disk: &mut Here, place: &Place, at: u64, bytes: &[u8]) -> Result<(), DiskFault> {
    disk.write_at(place, at, bytes)
}

pub fn read(disk: &mut Here, place: &Place, at: u64, buf: &mut [u8]) -> Result<usize, DiskFault> {
    disk.read_at(place, at, buf)
}

pub fn sync(disk: &mut Here, place: &Place) -> Result<(), DiskFault> {
    disk.sync(place)
}

pub fn sync_names(disk: &mut Here, area: Area) -> Result<(), DiskFault> {
    disk.sync_names(area)
}

pub fn rename(disk: &mut Here, from: &Place, to: &Place) -> Result<(), DiskFault> {
    disk.rename(from, to)
}

pub fn remove(disk: &mut Here, place: &Place) -> Result<(), DiskFault> {
    disk.remove(place)
}

/// Whether a file of this length stands there, or none where that is `None`.
pub fn is_long(disk: &mut Here, place: &Place, length: Option<u64>) -> Result<bool, DiskFault> {
    Ok(disk.length(place)? == length)
}

/// Whether the answer is a fault of this kind.
pub fn is_fault(answer: Result<(), DiskFault>, kind: DiskKind) -> bool {
    match answer {
        Ok(()) => false,
        Err(DiskFault(other)) => other == kind,
    }
}

/// Makes a file of 12 bytes, two of them in a gap.
pub fn fill(disk: &mut Here, place: &Place) -> Result<(), DiskFault> {
    create(disk, place)?;
    write(disk, place, 0, b"hello")?;
    write(disk, place, 7, b"world")?;
    write(disk, place, 11, b"D")?;
    sync(disk, place)
}
