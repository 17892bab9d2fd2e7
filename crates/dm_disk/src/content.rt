ghost use Rattle.std.specs.Prelude.{◌≡◌, ◌⊎◌, ◌<◌, ◌≤◌, ◌+◌, ◌-◌, ◌^◌, ℕ, length, slice_index, EachIndex};
ghost use Rattle.dm_disk_model.specs.Disk.{Reads};
ghost use Rattle.dm_disk.specs.Calls.{disk_after, end_of, most_end};
ghost use Rattle.dm_disk.specs.Look.{Grows, GrowsIn, Lays, LaysIn, file_in, Shows};

use crate::call::{Act, Call};
use crate::find::is_same_area;
use crate::index::Standing;
use dm_disk_model::Area;

/// The length of a file in bytes.
pub(crate) fn length_of(calls: &[Call], area: Area, file: u64) -> u64
    requires { most_end calls.now < 2 ^ 63 }
    ensures is { result ≡ length (file_in area file (disk_after calls.now)).bytes }
    ensures near { result < 2 ^ 63 }
{
    let mut so_far = 0;
    for (number, call) in calls.iter().enumerate() {
        so_far = length_after(call, number as u64, area, file, so_far);
    }
    so_far
}

/// The length after a call, by the length before it.
fn length_after(call: &Call, number: u64, area: Area, file: u64, before: u64) -> u64
    requires { end_of call.now.act < 2 ^ 63 }
    ensures is { GrowsIn call.now number area file before result }
    ensures near { before < 2 ^ 63 → result < 2 ^ 63 }
{
    if !is_same_area(area, call.area) {
        return before;
    }
    length_past(&call.act, number, file, before)
}

fn length_past(act: &Act, number: u64, file: u64, before: u64) -> u64
    requires { end_of act.now < 2 ^ 63 }
    ensures is { Grows act.now number file before result }
    ensures near { before < 2 ^ 63 → result < 2 ^ 63 }
{
    match act {
        Act::Create { .. } => if file == number { 0 } else { before },
        Act::Write {
            file: written,
            at,
            bytes,
        } => {
            if file == *written {
                before.max(*at + bytes.len() as u64)
            } else {
                before
            }
        }
        Act::Sync { .. } => before,
        Act::Rename { .. } => before,
        Act::Remove { .. } => before,
        Act::SyncNames => before,
    }
}

/// Reads a file from a place on, as far as it and the buffer reach.
pub(crate) fn read_file(
    calls: &[Call],
    area: Area,
    standing: Standing,
    at: u64,
    buf: &mut [u8],
) -> usize
    requires ends { most_end calls.now < 2 ^ 63 }
    requires size { standing.size ≡ length (file_in area standing.file (disk_after calls.now)).bytes }
    requires near { standing.size < 2 ^ 63 }
    ensures within { result ≤ length buf.old }
    ensures read { Reads (file_in area standing.file (disk_after calls.now)).bytes at result buf.new }
{
    if at >= standing.size {
        return 0;
    }
    let count = shorter(standing.size - at, buf.len());
    show(calls, area, standing.file, at, &mut buf[..count]);
    count
}

fn shorter(left: u64, room: usize) -> usize
    ensures left { result ≤ left }
    ensures room { result ≤ room }
    ensures some { 0 < left → 0 < room → 0 < result }
{
    if left < room as u64 {
        left as usize
    } else {
        room
    }
}

/// Puts the file's bytes from a place on into the window. Past the end stand zeros.
pub(crate) fn show(calls: &[Call], area: Area, file: u64, from: u64, window: &mut [u8])
    requires ends { most_end calls.now < 2 ^ 63 }
    requires near { from + length window.old < 2 ^ 63 }
    ensures { Shows (file_in area file (disk_after calls.now)).bytes from window.new }
{
    clear(window);
    for (number, call) in calls.iter().enumerate() {
        lay(call, number as u64, area, file, from, window);
    }
}

/// Brings what the window shows from before a call to after it.
fn lay(call: &Call, number: u64, area: Area, file: u64, from: u64, window: &mut [u8])
    requires end { end_of call.now.act < 2 ^ 63 }
    requires near { from + length window.old < 2 ^ 63 }
    ensures { LaysIn call.now number area file from window.old window.new }
{
    if is_same_area(area, call.area) {
        lay_act(&call.act, number, file, from, window);
    }
}

fn lay_act(act: &Act, number: u64, file: u64, from: u64, window: &mut [u8])
    requires end { end_of act.now < 2 ^ 63 }
    requires near { from + length window.old < 2 ^ 63 }
    ensures { Lays act.now number file from window.old window.new }
{
    match act {
        Act::Create { .. } => {
            if file == number {
                clear(window);
            }
        }
        Act::Write {
            file: written,
            at,
            bytes,
        } => {
            if file == *written {
                overlay(window, from, *at, bytes.bytes());
            }
        }
        Act::Sync { .. } => {}
        Act::Rename { .. } => {}
        Act::Remove { .. } => {}
        Act::SyncNames => {}
    }
}

fn clear(window: &mut [u8])
    ensures { EachIndex window.new (λ k. slice_index window.new k ≡ 0) }
{
    for byte in window.iter_mut() {
        *byte = 0;
    }
}

/// Lays bytes that stand from `at` on over a window that stands from `from` on.
fn overlay(window: &mut [u8], from: u64, at: u64, bytes: &[u8])
    requires end { at + length bytes.now < 2 ^ 63 }
    requires near { from + length window.old < 2 ^ 63 }
    ensures inside { (k : ℕ) → k < length window.old → at ≤ from + k → from + k < at + length bytes.now → slice_index window.new k ≡ slice_index bytes.now ((from + k) - at) }
    ensures outside { (k : ℕ) → k < length window.old → ((from + k < at) ⊎ (at + length bytes.now ≤ from + k)) → slice_index window.new k ≡ slice_index window.old k }
{
    let first = at.max(from);
    let last = (at + bytes.len() as u64).min(from + window.len() as u64);
    let end = last.max(first);
    for place in first..end {
        window[(place - from) as usize] = bytes[(place - at) as usize];
    }
}
