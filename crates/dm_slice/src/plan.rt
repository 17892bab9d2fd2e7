ghost use Rattle.std.specs.Prelude.{◌≡◌, ◌+◌, ◌-◌, ◌<◌, ◌≤◌, ◌++◌, ◌∷◌, ◌^◌, [], ◌*◌, IfOk, OnOk, map, drop, length};
ghost use Rattle.dm_slice.specs.Words.{IsWithin};
ghost use Rattle.dm_slice.specs.Cover.{IsCover};
ghost use Rattle.dm_slice.specs.Plan.{Cut, Filled, IsChain, Walked, holes, open_part, share, stop_of};

use crate::{MOST_BYTES, cover_end};
use dm_types::{Listed, NoMemory, Slice};
use std::alloc::Global;

/// What one request asks for: the places from `first` up to `end`.
#[derive(Clone, Copy, Debug, PartialEq, Eq)]
pub struct Part {
    /// The place in the cover's list of the slice that grows.
    pub index: u32,
    pub first: u64,
    pub end: u64,
}

/// The parts of a round, in rising order.
pub type Plan = Listed<Part>;

/// How holes are cut: the content's total, and the least part where a hole is cut.
#[derive(Clone, Copy)]
pub(crate) struct Rule {
    pub(crate) total: u64,
    pub(crate) least: u64,
}

/// The part from the end of a cover up to 2^40, where the total isn't known; none where that is its end.
pub(crate) fn open_parts(alloc: Global, slices: &[Slice]) -> Result<Vec<Part>, NoMemory>
    requires cover { IsCover slices.now }
    requires most { length slices.now ≤ 64 }
    ensures { IfOk result (λ parts. parts.items ≡ open_part slices.now) }
{
    let mut parts = Vec::new(alloc);
    let first = cover_end(slices) as u64;
    if first < MOST_BYTES {
        parts.push(Part {
            index: slices.len() as u32 - 1,
            first,
            end: MOST_BYTES,
        })?;
    }
    Ok(parts)
}

/// Adds the slices with the empty ones that their holes' parts need, and the parts.
/// `left` parts are left, and room for `room` further slices.
pub(crate) fn walk(
    rule: Rule,
    slices: &[Slice],
    left: u64,
    room: u64,
    opened: &mut Vec<Slice>,
    parts: &mut Vec<Part>,
) -> Result<(), NoMemory>
    requires least { 1 ≤ rule.least }
    requires few { length parts.old.items + left ≤ 16 }
    requires room { room ≤ 64 }
    requires apart { IsChain slices.now }
    requires within { IsWithin rule.total slices.now }
    requires total { rule.total ≤ 2 ^ 40 }
    ensures { OnOk result (Walked rule.total rule.least left room slices.now
        opened.old.items opened.new.items parts.old.items parts.new.items) }
{
    match slices {
        [] => Ok(()),
        [slice, rest @ ..] => {
            opened.push(*slice)?;
            let k = fill(rule, *slice, rest, left, room, opened, parts)?;
            if k == 0 {
                walk(rule, rest, left, room, opened, parts)
            } else {
                walk(rule, rest, left - k, room + 1 - k, opened, parts)
            }
        }
    }
}

/// Adds the parts of the hole behind a slice, and says how many: none where there is no hole or
/// no part is left.
fn fill(
    rule: Rule,
    slice: Slice,
    rest: &[Slice],
    left: u64,
    room: u64,
    opened: &mut Vec<Slice>,
    parts: &mut Vec<Part>,
) -> Result<u64, NoMemory>
    requires least { 1 ≤ rule.least }
    requires few { length parts.old.items + left ≤ 16 }
    requires room { room ≤ 64 }
    requires within { IsWithin rule.total (slice ∷ rest.now) }
    requires total { rule.total ≤ 2 ^ 40 }
    ensures { IfOk result (Filled rule.total rule.least left room slice rest.now
        opened.old.items opened.new.items parts.old.items parts.new.items) }
{
    let first = slice.first + slice.got;
    let end = stop(rest, rule.total);
    if left == 0 || end <= first {
        return Ok(0);
    }
    let k = share(
        rule.least,
        left,
        room,
        count_holes(rest, rule.total),
        end - first,
    );
    cut(k, first, (end - first) / k, end, opened, parts)?;
    Ok(k)
}

/// Adds `k` parts of one size, the last up to the end, and an empty slice for each but the first.
fn cut(
    k: u64,
    first: u64,
    size: u64,
    end: u64,
    opened: &mut Vec<Slice>,
    parts: &mut Vec<Part>,
) -> Result<(), NoMemory>
    requires some { 0 < k }
    requires few { length parts.old.items + k ≤ 16 }
    requires within { first + k * size ≤ 2 ^ 40 }
    ensures { OnOk result (Cut k first size end
        opened.old.items opened.new.items parts.old.items parts.new.items) }
{
    let index = parts.len() as u32;
    if k == 1 {
        parts.push(Part { index, first, end })?;
        return Ok(());
    }
    let next = first + size;
    parts.push(Part {
        index,
        first,
        end: next,
    })?;
    opened.push(Slice {
        first: next,
        got: 0,
        finished: false,
    })?;
    cut(k - 1, next, size, end, opened, parts)
}

/// How many parts a hole gets.
fn share(least: u64, left: u64, room: u64, behind: u64, size: u64) -> u64
    requires least { 1 ≤ least }
    requires left { 1 ≤ left }
    requires room { room ≤ 64 }
    ensures value { result ≡ share least left room behind size }
    ensures some { 1 ≤ result }
    ensures few { result ≤ left }
    ensures fits { result ≤ room + 1 }
{
    (size / least)
        .max(1)
        .min(left.saturating_sub(behind).max(1))
        .min(room + 1)
}

/// Where the next slice begins, or the content ends.
fn stop(slices: &[Slice], total: u64) -> u64
    ensures { result ≡ stop_of total slices.now }
{
    match slices {
        [] => total,
        [next, ..] => next.first,
    }
}

/// How many holes stand behind these slices.
fn count_holes(slices: &[Slice], total: u64) -> u64
    requires within { IsWithin total slices.now }
    requires total { total ≤ 2 ^ 40 }
    ensures value { result ≡ length (holes total slices.now) }
    ensures most { result ≤ length slices.now }
{
    match slices {
        [] => 0,
        [slice, rest @ ..] => {
            if slice.first + slice.got < stop(rest, total) {
                count_holes(rest, total) + 1
            } else {
                count_holes(rest, total)
            }
        }
    }
}
