ghost use Rattle.std.specs.Prelude.{◌≡◌, ◌≢◌, ◌⊎◌, ◌↔◌, ◌<◌, ◌≤◌, ◌+◌, ◌-◌, ◌^◌, ℕ, length, take, slice_index, List, IfOk, OnOk, IsTrue, IsSome};
ghost use Rattle.dm_disk.specs.declared.call.Act.TheVariants as acts;
ghost use Rattle.dm_disk_model.specs.Disk.{folder_in};
ghost use Rattle.dm_disk_model.specs.Folder.{names_of};
ghost use Rattle.dm_disk.specs.Calls.{disk_after, end_of, most_end};
ghost use Rattle.dm_disk.specs.Look.{file_in};
ghost use Rattle.dm_disk.specs.Image.{picked_names, IsPicked, IsLeastOf, LeastGoesOn, Puts, HoldsPicked, IsSyncAt, IsTaken, NameIsTaken, syncs_names};

use crate::call::{Act, Call};
use crate::content::{length_of, show};
use crate::find::{file_under, is_same_area};
use crate::listing::list_names;
use crate::log::Log;
use dm_disk_model::{Area, Place};
use dm_types::{NoMemory, Text};
use std::alloc::Global;

/// Which of the images that a crash may leave is taken.
#[derive(Clone, Copy, Debug, PartialEq, Eq)]
pub enum Pick {
    /// The names as they were last synced, each file as long as it was at its last sync, and the
    /// byte 0 wherever something was written since.
    Least,
    /// Everything as it reads.
    Present,
}

/// The calls that make a disk which holds the picked image alone.
pub(crate) fn image_log(alloc: Global, calls: &[Call], pick: Pick) -> Result<Log, NoMemory>
    requires { most_end calls.now < 2 ^ 63 }
    ensures { IfOk result (λ log. HoldsPicked pick (disk_after calls.now) (disk_after log.calls.items)) }
{
    let mut log = Log::new(alloc);
    take_folder(alloc, calls, Area::State, pick, &mut log)?;
    take_folder(alloc, calls, Area::Files, pick, &mut log)?;
    Ok(log)
}

/// Adds the calls for one folder, to a log that has none for it.
fn take_folder(
    alloc: Global,
    calls: &[Call],
    area: Area,
    pick: Pick,
    log: &mut Log,
) -> Result<(), NoMemory>
    requires { most_end calls.now < 2 ^ 63 }
    ensures { OnOk result (IsTaken pick area (disk_after calls.now) (disk_after log.old.calls.items) (disk_after log.new.calls.items)) }
{
    let count = names_until(calls, area, pick);
    let named = &calls[..count];
    let names = list_names(alloc, named, area)?;
    for name in &names {
        take_name(alloc, calls, named, area, name.bytes(), pick, log)?;
    }
    log.sync_names(area)?;
    Ok(())
}

/// Puts the picked content of one name.
fn take_name(
    alloc: Global,
    calls: &[Call],
    named: &[Call],
    area: Area,
    name: &[u8],
    pick: Pick,
    log: &mut Log,
) -> Result<(), NoMemory>
    requires ends { most_end calls.now < 2 ^ 63 }
    requires stands { IsSome (names_of (folder_in area (disk_after named.now)) name.now) }
    ensures { OnOk result (NameIsTaken pick area name.now (names_of (folder_in area (disk_after named.now))) (disk_after calls.now) (disk_after log.old.calls.items) (disk_after log.new.calls.items)) }
{
    let file = file_under(named, area, name).unwrap();
    let bytes = content(alloc, calls, area, file, pick)?;
    put(log, area, name, &bytes)?;
    Ok(())
}

/// After so many of the calls the names were the picked ones.
fn names_until(calls: &[Call], area: Area, pick: Pick) -> usize
    ensures within { result ≤ length calls.now }
    ensures names { names_of (folder_in area (disk_after (take result calls.now))) ≡ picked_names pick (folder_in area (disk_after calls.now)) }
{
    match pick {
        Pick::Present => calls.len(),
        Pick::Least => names_synced_at(calls, area),
    }
}

fn names_synced_at(calls: &[Call], area: Area) -> usize
    ensures within { result ≤ length calls.now }
    ensures names { names_of (folder_in area (disk_after (take result calls.now))) ≡ (folder_in area (disk_after calls.now)).synced }
{
    let mut count = 0;
    for (number, call) in calls.iter().enumerate() {
        if is_names_sync(call, area) {
            count = number + 1;
        }
    }
    count
}

fn is_names_sync(call: &Call, area: Area) -> bool
    ensures { result ≡ syncs_names area call.now }
{
    match &call.act {
        Act::SyncNames => is_same_area(area, call.area),
        Act::Create { .. } => false,
        Act::Write { .. } => false,
        Act::Sync { .. } => false,
        Act::Rename { .. } => false,
        Act::Remove { .. } => false,
    }
}

/// The picked content of a file.
fn content(
    alloc: Global,
    calls: &[Call],
    area: Area,
    file: u64,
    pick: Pick,
) -> Result<Vec<u8>, NoMemory>
    requires { most_end calls.now < 2 ^ 63 }
    ensures picked { IfOk result (λ bytes. IsPicked pick (file_in area file (disk_after calls.now)) bytes.items) }
    ensures near { IfOk result (λ bytes. length bytes.items < 2 ^ 63) }
{
    match pick {
        Pick::Present => bytes_of(alloc, calls, area, file),
        Pick::Least => least_of(alloc, calls, area, file),
    }
}

/// The bytes of a file as it reads.
fn bytes_of(alloc: Global, calls: &[Call], area: Area, file: u64) -> Result<Vec<u8>, NoMemory>
    requires { most_end calls.now < 2 ^ 63 }
    ensures is { IfOk result (λ bytes. bytes.items ≡ (file_in area file (disk_after calls.now)).bytes) }
    ensures near { IfOk result (λ bytes. length bytes.items < 2 ^ 63) }
{
    let length = length_of(calls, area, file) as usize;
    let mut bytes = vec![in alloc; 0u8; length]?;
    show(calls, area, file, 0, &mut bytes);
    Ok(bytes)
}

/// The least bytes of a file.
fn least_of(alloc: Global, calls: &[Call], area: Area, file: u64) -> Result<Vec<u8>, NoMemory>
    requires { most_end calls.now < 2 ^ 63 }
    ensures least { IfOk result (λ bytes. IsLeastOf (file_in area file (disk_after calls.now)) bytes.items) }
    ensures near { IfOk result (λ bytes. length bytes.items < 2 ^ 63) }
{
    let mut next = first_least(calls, area, file);
    let mut bytes = if next == 0 {
        Vec::new(alloc)
    } else {
        bytes_of(alloc, &calls[..next - 1], area, file)?
    };
    while next < calls.len() {
        bytes = least_after(alloc, calls, next, area, file, bytes)?;
        next += 1;
    }
    Ok(bytes)
}

/// From this call on, the least bytes are followed: behind the file's last sync, or from the start.
fn first_least(calls: &[Call], area: Area, file: u64) -> usize
    ensures within { result ≤ length calls.now }
    ensures synced { 0 < result → IsSyncAt calls.now area file (result - 1) }
{
    let mut count = calls.len();
    while count > 0 {
        if is_sync(&calls[count - 1], area, file) {
            return count;
        }
        count -= 1;
    }
    0
}

fn is_sync(call: &Call, area: Area, file: u64) -> bool
    ensures { IsTrue result ↔ (call.now ≡ record { area = area; act = acts.Sync file }) }
{
    match &call.act {
        Act::Sync { file: synced } => is_same_area(area, call.area) && file == *synced,
        Act::SyncNames => false,
        Act::Create { .. } => false,
        Act::Write { .. } => false,
        Act::Rename { .. } => false,
        Act::Remove { .. } => false,
    }
}

/// The least bytes after the call at a place, by those before it.
fn least_after(
    alloc: Global,
    calls: &[Call],
    place: usize,
    area: Area,
    file: u64,
    bytes: Vec<u8>,
) -> Result<Vec<u8>, NoMemory>
    requires ends { most_end calls.now < 2 ^ 63 }
    requires near { length bytes.items < 2 ^ 63 }
    requires within { place < length calls.now }
    ensures least { IfOk result (λ after. IsLeastOf (file_in area file (disk_after (take place calls.now))) bytes.items
        → IsLeastOf (file_in area file (disk_after (take (place + 1) calls.now))) after.items) }
    ensures near { IfOk result (λ after. length after.items < 2 ^ 63) }
{
    let call = &calls[place];
    if !is_same_area(area, call.area) {
        return Ok(bytes);
    }
    if is_sync(call, area, file) {
        let synced = bytes_of(alloc, &calls[..place], area, file)?;
        return Ok(synced);
    }
    Ok(least_past(&call.act, place as u64, file, bytes))
}

/// The same for a call that isn't a sync of the file.
fn least_past(act: &Act, number: u64, file: u64, mut bytes: Vec<u8>) -> Vec<u8>
    requires end { end_of act.now < 2 ^ 63 }
    requires near { length bytes.items < 2 ^ 63 }
    requires not_synced { act.now ≢ acts.Sync file }
    ensures least { LeastGoesOn act.now number file bytes.items result.items }
    ensures near { length result.items < 2 ^ 63 }
{
    match act {
        Act::Create { .. } => {
            if file == number {
                bytes.clear();
            }
        }
        Act::Write {
            file: written,
            at,
            bytes: piece,
        } => {
            if file == *written {
                blank(&mut bytes, *at, piece.len() as u64);
            }
        }
        Act::Sync { .. } => {}
        Act::Rename { .. } => {}
        Act::Remove { .. } => {}
        Act::SyncNames => {}
    }
    bytes
}

/// Writes zeros over a range, as far as the bytes reach.
fn blank(bytes: &mut [u8], at: u64, count: u64)
    requires end { at + count < 2 ^ 63 }
    requires near { length bytes.old < 2 ^ 63 }
    ensures inside { (k : ℕ) → k < length bytes.old → at ≤ k → k < at + count → slice_index bytes.new k ≡ 0 }
    ensures outside { (k : ℕ) → k < length bytes.old → ((k < at) ⊎ (at + count ≤ k)) → slice_index bytes.new k ≡ slice_index bytes.old k }
{
    let last = (at + count).min(bytes.len() as u64);
    let end = last.max(at);
    for place in at..end {
        bytes[place as usize] = 0;
    }
}

/// Puts a durable file under a name.
fn put(log: &mut Log, area: Area, name: &[u8], bytes: &[u8]) -> Result<(), NoMemory>
    requires { length bytes.now < 2 ^ 63 }
    ensures { OnOk result (Puts area name.now bytes.now (disk_after log.old.calls.items) (disk_after log.new.calls.items)) }
{
    let file = log.calls.len() as u64;
    let name = Text::from_bytes(log.alloc, name)?;
    log.create(&Place { area, name })?;
    log.write(area, file, 0, bytes)?;
    log.sync(area, file)?;
    Ok(())
}
