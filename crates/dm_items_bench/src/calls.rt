use crate::adding::{add, add_many};
use crate::attempts::{begin, broke, check, finish, plan};
use crate::disks::MemoryDesk;
use crate::pieces::land;
use crate::said::{Said, done};
use crate::telling::describe;
use dm_items::{Pass, SlicePass};
use dm_types::{By, ItemId, Slice};
use std::alloc::Global;

/// A call of a desk. All are made at moment 0.
#[derive(Clone, Copy)]
pub enum Call {
    /// Adds the address under a word.
    Add(&'static [u8]),
    /// The same, where the content is to have the SHA-256 of 32 zeros.
    Stated(&'static [u8]),
    /// Adds it so many times with no word, where the first item gets the number 1.
    AddMany(u32),
    Begin(u32, By),
    /// Describes by a reply with the entity tag `"a"`, a total and a wish.
    Tagged(Pass, Option<u64>, &'static [u8]),
    /// The same by a reply with no tag.
    Untagged(Pass, Option<u64>, &'static [u8]),
    Plan(Pass, u32),
    Check(SlicePass),
    Land(SlicePass, u64, &'static [u8]),
    Checkpoint(Pass),
    /// The stream ended before its content.
    Cut(Pass),
    /// The reply to a range request was a whole one.
    Whole(Pass),
    Finish(Pass),
    Pause(u32),
    Resume(u32),
    Cancel(u32),
    Remove(u32),
    Archive(u32),
    Shut,
    Sweep,
    Reopen,
    /// Looks at an item.
    View(u32),
    Mode(u32),
    Due,
    /// Looks whether an item has this name.
    Named(u32, &'static [u8]),
    /// Looks whether these are the ids above a number, at most so many.
    Lists(u32, u32, &'static [ItemId]),
}

/// Makes a call.
pub fn make(alloc: Global, desk: &mut MemoryDesk, call: Call) -> Said {
    match call {
        Call::Add(word) => add(alloc, desk, word, None),
        Call::Stated(word) => add(alloc, desk, word, Some([0; 32])),
        Call::AddMany(count) => add_many(alloc, desk, count),
        Call::Tagged(pass, total, wish) => describe(alloc, desk, &pass, true, total, wish),
        Call::Untagged(pass, total, wish) => describe(alloc, desk, &pass, false, total, wish),
        Call::Land(pass, at, piece) => land(alloc, desk, &pass, at, piece),
        Call::Begin(id, by) => begin(desk, ItemId(id), by),
        Call::Plan(pass, count) => plan(desk, &pass, count),
        Call::Check(pass) => check(desk, &pass),
        Call::Checkpoint(pass) => done(desk.checkpoint(&pass)),
        Call::Cut(pass) => broke(desk, &pass, false),
        Call::Whole(pass) => broke(desk, &pass, true),
        Call::Finish(pass) => finish(desk, &pass),
        _ => change(desk, call),
    }
}

/// Makes a call that is none of an attempt.
fn change(desk: &mut MemoryDesk, call: Call) -> Said {
    match call {
        Call::Pause(id) => done(desk.pause(ItemId(id))),
        Call::Resume(id) => done(desk.resume(ItemId(id))),
        Call::Cancel(id) => done(desk.cancel(ItemId(id))),
        Call::Remove(id) => done(desk.remove(ItemId(id))),
        Call::Archive(id) => done(desk.archived(ItemId(id))),
        Call::Shut => done(desk.shut()),
        Call::Sweep => done(desk.sweep()),
        Call::Reopen => done(desk.reopen(0)),
        _ => look(desk, call),
    }
}

/// Looks at what a desk holds.
fn look(desk: &MemoryDesk, call: Call) -> Said {
    match call {
        Call::View(id) => view(desk, ItemId(id)),
        Call::Mode(id) => Said::Mode(desk.mode(ItemId(id))),
        Call::Named(id, name) => Said::Holds(is_named(desk, ItemId(id), name)),
        Call::Lists(after, limit, ids) => Said::Holds(lists(desk, after, limit, ids)),
        _ => Said::Due(desk.due()),
    }
}

/// An item's phase, and how many bytes of it are saved.
fn view(desk: &MemoryDesk, id: ItemId) -> Said {
    match desk.view(id) {
        Some(item) => Said::Is(item.phase, saved(item.slices.items())),
        None => Said::Gone,
    }
}

fn saved(slices: &[Slice]) -> u64 {
    let mut sum = 0u64;
    for slice in slices {
        sum = sum.saturating_add(slice.got);
    }
    sum
}

fn is_named(desk: &MemoryDesk, id: ItemId, name: &[u8]) -> bool {
    match desk.view(id) {
        Some(item) => match &item.name {
            Some(text) => text.is(name),
            None => false,
        },
        None => false,
    }
}

fn lists(desk: &MemoryDesk, after: u32, limit: u32, ids: &[ItemId]) -> bool {
    match desk.page(after, limit) {
        Ok(page) => page.items() == ids,
        Err(_) => false,
    }
}

/// Makes calls up to the first that says something else than its row, and tells its place.
pub(crate) fn first_other(
    alloc: Global,
    desk: &mut MemoryDesk,
    rows: &[(Call, Said)],
) -> Option<usize> {
    for (place, row) in rows.iter().enumerate() {
        if make(alloc, desk, row.0) != row.1 {
            return Some(place);
        }
    }
    None
}
