use crate::bench::{
    Bench, Here, bench_in, create, fill, is_fault, is_long, is_refused, let_go, made, new_folder,
    read, remove, rename, set_up, set_up_with, sync, sync_names, take_away, write,
};
use dm_disk_model::{Area, DiskFault, Place};
use dm_types::DiskKind;
use std::fs;
use std::rt::HostRuntime;
use std::test::Fail;

// Places, and what is read from each into eight dots.
const READS: [(u64, &[u8; 8]); 4] = [
    (0, b"hello\0\0w"),
    (10, b"lD......"),
    (12, b"........"),
    (1 << 63, b"........"),
];

fn is_read(disk: &mut Here, part: &Place) -> Result<bool, DiskFault> {
    for (at, want) in READS {
        let mut buf = *b"........";
        let _ = read(disk, part, at, &mut buf)?;
        if buf != *want {
            return Ok(false);
        }
    }
    Ok(true)
}

#[test]
fn what_is_written_is_read(rt: HostRuntime) -> Result<(), Fail> {
    let mut first = set_up(rt, "written", Area::Files)?;
    fill(&mut first.disk, &first.part)?;
    let mut bench = bench_in(rt, let_go(first), Area::Files)?;
    assert!(rt; is_read(&mut bench.disk, &bench.part)?);
    take_away(rt, bench.path.as_str())
}

/// Whether writes of nothing leave the file as long as each says.
fn lengthens(disk: &mut Here, part: &Place) -> Result<bool, DiskFault> {
    fill(disk, part)?;
    for (at, length) in [(3, 12), (12, 12), (14, 14)] {
        write(disk, part, at, b"")?;
        if !is_long(disk, part, Some(length))? {
            return Ok(false);
        }
    }
    Ok(true)
}

/// Whether the part is moved onto the name, where a file may stand.
fn is_moved(disk: &mut Here, part: &Place, name: &Place) -> Result<bool, DiskFault> {
    rename(disk, part, name)?;
    sync_names(disk, name.area)?;
    Ok(is_long(disk, part, None)? && is_long(disk, name, Some(12))?)
}

fn replaces(disk: &mut Here, part: &Place, name: &Place) -> Result<bool, DiskFault> {
    fill(disk, part)?;
    create(disk, name)?;
    is_moved(disk, part, name)
}

/// Whether a rename onto what stands there with this length is refused, and both stay.
fn stays(disk: &mut Here, part: &Place, name: &Place, length: u64) -> Result<bool, DiskFault> {
    fill(disk, part)?;
    if !is_fault(rename(disk, part, name), DiskKind::Failed) {
        return Ok(false);
    }
    Ok(is_long(disk, name, Some(length))? && is_long(disk, part, Some(12))?)
}

/// The same of a file; once it is removed the name is free.
fn stays_until_removed(disk: &mut Here, part: &Place, name: &Place) -> Result<bool, DiskFault> {
    create(disk, name)?;
    if !stays(disk, part, name, 0)? {
        return Ok(false);
    }
    remove(disk, name)?;
    is_moved(disk, part, name)
}

/// A link of this length stands, can't be made or synced, and can be taken away.
fn stands(disk: &mut Here, link: &Place, length: u64) -> Result<bool, DiskFault> {
    if !is_long(disk, link, Some(length))? {
        return Ok(false);
    }
    if create(disk, link).is_ok() || sync(disk, link).is_ok() {
        return Ok(false);
    }
    remove(disk, link)?;
    is_long(disk, link, None)
}

/// Whether later syncs of the folder fail after one of what can't be synced, and those of the other one don't.
fn none_is_synced(disk: &mut Here, part: &Place, null: &Place) -> Result<bool, DiskFault> {
    fill(disk, part)?;
    sync_names(disk, Area::Files)?;
    let first = is_fault(sync(disk, null), DiskKind::Failed);
    let later = is_fault(sync(disk, part), DiskKind::Failed);
    let names = is_fault(sync_names(disk, Area::Files), DiskKind::Failed);
    sync_names(disk, Area::State)?;
    Ok(first && later && names)
}

/// Whether another file's sync fails, where what can't be synced was written before it.
fn fails_behind(disk: &mut Here, part: &Place, null: &Place) -> Result<bool, DiskFault> {
    fill(disk, part)?;
    write(disk, null, 0, b"x")?;
    write(disk, part, 0, b"x")?;
    Ok(is_fault(sync(disk, part), DiskKind::Failed))
}

/// Whether what is missing, what stands and what is too far is refused.
fn refuses(disk: &mut Here, part: &Place) -> bool {
    let missing = sync(disk, part).is_err() && remove(disk, part).is_err();
    let made = create(disk, part).is_ok() && create(disk, part).is_err();
    let far = write(disk, part, (1 << 63) - 1, b"x");
    missing && made && is_fault(far, DiskKind::NoSpace)
}

/// What is tried in a new folder.
#[derive(Clone, Copy)]
enum Case {
    Lengthens,
    Replaces,
    StaysUntilRemoved,
    Stays(u64),
    Stands(u64),
    NoneIsSynced,
    FailsBehind,
    Tells(DiskKind),
    Refuses,
}

fn holds(case: Case, bench: &mut Bench) -> Result<bool, DiskFault> {
    match case {
        Case::Lengthens => lengthens(&mut bench.disk, &bench.part),
        Case::Replaces => replaces(&mut bench.disk, &bench.part, &bench.name),
        Case::StaysUntilRemoved => {
            stays_until_removed(&mut bench.disk, &bench.part, &bench.name)
        }
        Case::Stays(length) => stays(&mut bench.disk, &bench.part, &bench.name, length),
        Case::Stands(length) => stands(&mut bench.disk, &bench.name, length),
        Case::NoneIsSynced => none_is_synced(&mut bench.disk, &bench.part, &bench.name),
        Case::FailsBehind => fails_behind(&mut bench.disk, &bench.part, &bench.name),
        Case::Tells(kind) => {
            let written = write(&mut bench.disk, &bench.name, 0, b"x");
            Ok(is_fault(written, kind))
        }
        Case::Refuses => Ok(refuses(&mut bench.disk, &bench.part)),
    }
}

// A new folder, the area of its two places, where the second one leads if it is a link, and what is tried.
const CASES: [(&str, Area, Option<&str>, Case); 12] = [
    ("lengthens", Area::Files, None, Case::Lengthens),
    ("refused", Area::Files, None, Case::Refuses),
    // a rename replaces in the state folder, and among the files neither a file nor a link
    ("replaced", Area::State, None, Case::Replaces),
    ("standing", Area::Files, None, Case::StaysUntilRemoved),
    ("linked", Area::Files, Some("nowhere"), Case::Stays(7)),
    // a link that leads nowhere stands
    ("nowhere", Area::Files, Some("nowhere"), Case::Stands(7)),
    ("itself", Area::Files, Some("name"), Case::Stands(4)),
    (
        "no-folder",
        Area::Files,
        Some("/dev/null/nowhere"),
        Case::Stands(17),
    ),
    // after a sync that failed none is trusted, and a written file is synced before it is closed
    ("syncs", Area::Files, Some("/dev/null"), Case::NoneIsSynced),
    ("closed", Area::Files, Some("/dev/null"), Case::FailsBehind),
    // what no user may write to, and what has no room
    (
        "denied",
        Area::Files,
        Some("/proc/sys/kernel/ostype"),
        Case::Tells(DiskKind::Denied),
    ),
    (
        "full",
        Area::Files,
        Some("/dev/full"),
        Case::Tells(DiskKind::NoSpace),
    ),
];

#[test]
fn each_case_holds_in_a_folder_of_the_system(rt: HostRuntime) -> Result<(), Fail> {
    for (folder, area, target, case) in CASES {
        let mut bench = set_up_with(rt, folder, area, target)?;
        assert!(rt; holds(case, &mut bench)?, "{folder}");
        take_away(rt, bench.path.as_str())?;
    }
    Ok(())
}

/// Whether a second disk over the state folder is refused, with no other folder made.
fn is_held(rt: HostRuntime, path: &str) -> Result<bool, Fail> {
    let is_refused = is_refused(made(rt, path, "state", "others")?);
    let others = format!(in rt.alloc(); "{path}/others")?;
    Ok(is_refused && !fs::exists(&rt, others.as_str())?)
}

#[test]
fn one_disk_at_a_time_holds_the_folder(rt: HostRuntime) -> Result<(), Fail> {
    let bench = set_up(rt, "held", Area::Files)?;
    assert!(rt; is_held(rt, bench.path.as_str())?);
    let path = let_go(bench);
    assert!(rt; !is_held(rt, path.as_str())?);
    take_away(rt, path.as_str())
}

#[test]
fn a_file_is_no_folder(rt: HostRuntime) -> Result<(), Fail> {
    let path = new_folder(rt, "folder")?;
    let taken = format!(in rt.alloc(); "{}/state", path.as_str())?;
    fs::write(&rt, taken.as_str(), "")?;
    assert!(rt; is_refused(made(rt, path.as_str(), "state", "files")?));
    take_away(rt, path.as_str())
}
