//! Entries, read from the front of bytes.

ghost use Rattle.std.specs.Prelude.{◌≡◌, ◌≤◌, ◌++◌, List, ℕ, length, IfOk, Ok, Err};
ghost use Rattle.dm_types.specs.declared.entry.Entry.{Entry};
ghost use Rattle.dm_record.specs.Spelling.{spelling_of};
ghost use Rattle.dm_record.specs.Limits.{IsEntry, IsCut, IsBadAt, Answers, UnlessMemory};
ghost use Rattle.dm_record.specs.Reading.{Gives, entry_at, record_at};

use crate::fault::{RecordFault, Stop};
use crate::items::read_restored;
use crate::kinds::{
    read_added, read_archived, read_asked, read_began, read_broke, read_cancelled, read_described,
    read_done, read_finishing, read_paused, read_progress, read_removed, read_reopened,
    read_restarted,
};
use dm_types::Entry;
use std::alloc::Global;

#[tactic(auto, unfolding(crate::specs::Reading::entry_at))]
fn entry_of(alloc: Global, bytes: &[u8]) -> Result<(Entry, &[u8]), Stop>
    ensures { Gives (λ x. (x.0, x.1.now)) result (entry_at bytes.now) }
{
    match bytes {
        [] => Err(Stop::Short),
        [1, rest @ ..] => read_added(alloc, rest),
        [2, rest @ ..] => read_began(rest),
        [3, rest @ ..] => read_described(alloc, rest),
        [4, rest @ ..] => read_progress(alloc, rest),
        [5, rest @ ..] => read_broke(rest),
        [6, rest @ ..] => read_paused(rest),
        [7, rest @ ..] => read_cancelled(rest),
        [8, rest @ ..] => read_restarted(rest),
        [9, rest @ ..] => read_finishing(rest),
        [10, rest @ ..] => read_done(rest),
        [11, rest @ ..] => read_removed(rest),
        [12, rest @ ..] => read_archived(rest),
        [13, rest @ ..] => read_reopened(rest),
        [14, rest @ ..] => read_restored(alloc, rest),
        [15, rest @ ..] => read_asked(rest),
        [_, ..] => Err(Stop::Stray(bytes.len())),
    }
}

#[tactic(auto, unfolding(crate::specs::Reading::record_at))]
fn record_of(alloc: Global, bytes: &[u8]) -> Result<(Entry, usize), RecordFault>
    ensures { UnlessMemory result (record_at bytes.now) }
{
    match entry_of(alloc, bytes) {
        Ok((entry, rest)) => Ok((entry, bytes.len() - rest.len())),
        Err(Stop::Short) => Err(RecordFault::Short),
        Err(Stop::Stray(left)) => Err(RecordFault::Bad(bytes.len() - left)),
        Err(Stop::NoMemory) => Err(RecordFault::NoMemory),
    }
}

/// The entry at the front of the bytes, and how many of them it takes. Others may follow it.
pub fn read_entry(alloc: Global, bytes: &[u8]) -> Result<(Entry, usize), RecordFault>
    // Each answer is so.
    ensures answers { Answers bytes.now result }
    ensures within { IfOk result (λ found. found.1 ≤ length bytes.now) }
    // What is spelled so is read, whatever follows.
    ensures whole { (entry : Entry) (rest : List ℕ) → IsEntry entry → bytes.now ≡ spelling_of entry ++ rest
        → UnlessMemory result (Ok (entry, length (spelling_of entry))) }
    // What is cut off is short.
    ensures cut { IsCut bytes.now → UnlessMemory result (Err RecordFault.Short) }
    // What is wrong is bad, at its place.
    ensures bad { (place : ℕ) → IsBadAt bytes.now place → UnlessMemory result (Err (RecordFault.Bad place)) }
{
    record_of(alloc, bytes)
}
