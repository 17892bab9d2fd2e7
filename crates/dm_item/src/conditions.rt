ghost use Rattle.std.specs.Prelude.{◌≡◌, ◌≤◌, ◌^◌, ◌↔◌, IsTrue, IfSome};
ghost use Rattle.dm_item.specs.Row.{Further, IsBegun, IsDescribed, IsFinishing, IsKeyOf, IsProgress, IsRestarted, IsTotalOf, begins_by, mode_of_item};

use crate::names::is_free_name;
use crate::rows::{facts_of, mode_of_item};
use dm_policy::{because_of, is_continue, is_immediate, is_invalid, is_restart};
use dm_slice::{cover_end, holds, is_cover_within, is_full};
use dm_types::{Attempt, By, Entry, Epoch, Item, Key, Mode, Reason, Slice, Slices};

/// Whether the further condition of the entry's row holds of its item.
pub(crate) fn is_further(entry: &Entry, items: &[Item], item: &Item) -> bool
    ensures { IsTrue result ↔ Further entry.now items.now item.now }
{
    match entry {
        Entry::Began { attempt, by, .. } => is_begun(item, *attempt, *by),
        Entry::Described {
            key,
            total,
            name,
            ..
        } => is_described(items, item, key, *total, name.bytes()),
        Entry::Progress { slices, .. } => is_progress(item, slices),
        Entry::Broke { reason, .. } => {
            *reason != Reason::UserCanceled && *reason != Reason::Crash
        }
        Entry::Asked { .. } => !is_invalid(mode_of_item(item)),
        Entry::Restarted { epoch, because, .. } => is_restarted(item, *epoch, *because),
        Entry::Finishing { total, .. } => is_finishing(item, *total),
        Entry::Done { digest, .. } => is_stated(item.digest, *digest),
        Entry::Paused { .. } | Entry::Cancelled { .. } => true,
        Entry::Removed { .. } | Entry::Archived { .. } => true,
        Entry::Added { .. } | Entry::Reopened { .. } | Entry::Restored { .. } => true,
    }
}

fn is_begun(item: &Item, attempt: Attempt, by: By) -> bool
    ensures { IsTrue result ↔ IsBegun item.now attempt.0 by }
{
    let mode = mode_of_item(item);
    u64::from(attempt.0) == u64::from(item.attempt.0) + 1
        && begins_by(by, mode)
        && (!item.begun || is_continue(mode))
}

/// Whether the mode lets an attempt begin.
fn begins_by(by: By, mode: Mode) -> bool
    ensures { result ≡ begins_by by mode }
{
    match by {
        By::User => !is_invalid(mode),
        By::Itself => is_immediate(mode),
    }
}

fn is_described(items: &[Item], item: &Item, key: &Key, total: Option<u64>, name: &[u8]) -> bool
    ensures { IsTrue result ↔ IsDescribed items.now item.now key.now total name.now }
{
    item.key.is_none()
        && is_small(total)
        && is_free_name(item.id, name, items)
        && is_key_of(item, key)
}

/// Whether a total is at most 2^40, where it is known.
pub(crate) fn is_small(total: Option<u64>) -> bool
    ensures { IsTrue result ↔ IfSome total (λ bytes. bytes ≤ 2 ^ 40) }
{
    match total {
        Some(total) => total <= dm_slice::MOST_BYTES,
        None => true,
    }
}

/// Whether a key that stands for one attempt names this one.
fn is_key_of(item: &Item, key: &Key) -> bool
    ensures { IsTrue result ↔ IsKeyOf item.now key.now }
{
    match key {
        Key::Strong(_) => true,
        Key::Once(id, attempt) => id.0 == item.id.0 && attempt.0 == item.attempt.0,
    }
}

fn is_progress(item: &Item, slices: &Slices) -> bool
    ensures { IsTrue result ↔ IsProgress item.now slices.now }
{
    item.key.is_some()
        && is_cover_within(slices.items(), item.total)
        && holds(slices.items(), item.slices.items())
}

fn is_restarted(item: &Item, epoch: Epoch, because: u8) -> bool
    ensures { IsTrue result ↔ IsRestarted item.now epoch.0 because }
{
    item.begun
        && is_restart(mode_of_item(item))
        && u64::from(epoch.0) == u64::from(item.epoch.0) + 1
        && because_of(item.reason, facts_of(item)) == Some(because)
}

fn is_finishing(item: &Item, total: u64) -> bool
    ensures { IsTrue result ↔ IsFinishing item.now total }
{
    item.key.is_some()
        && is_full(item.slices.items(), total)
        && is_total_of(item.total, item.slices.items(), total)
}

/// Whether the total is the known one, or the cover's end where none is known.
fn is_total_of(known: Option<u64>, slices: &[Slice], total: u64) -> bool
    ensures { IsTrue result ↔ IsTotalOf known slices.now total }
{
    match known {
        Some(known) => total == known,
        None => u128::from(total) == cover_end(slices),
    }
}

/// Whether a stated digest is this one.
pub(crate) fn is_stated(stated: Option<[u8; 32]>, digest: [u8; 32]) -> bool
    ensures { IsTrue result ↔ IfSome stated (λ bytes. bytes ≡ digest) }
{
    match stated {
        Some(stated) => stated == digest,
        None => true,
    }
}
