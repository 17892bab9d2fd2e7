ghost use Rattle.std.specs.Prelude.{◌≡◌, ◌↔◌, ◌||◌, IsTrue, false};
ghost use Rattle.dm_policy.specs.Mode.{is_invalid};
ghost use Rattle.dm_item.specs.Fields.{no_bytes};
ghost use Rattle.dm_item.specs.Row.{is_complete, is_finishing, is_waiting, mode_of_item};
ghost use Rattle.dm_item.specs.Restored.{IsCounted, IsCovered, IsDigest, IsDigestOf, IsFullFor, IsReasonOf, IsRestorable, IsSound, IsTold, IsWhole};

use crate::conditions::{is_small, is_stated};
use crate::names::{has_own_name, is_above, is_free_word};
use crate::rows::mode_of_item;
use dm_policy::is_invalid;
use dm_slice::{MOST_BYTES, is_full, is_normal, is_within};
use dm_types::{Item, Phase, Reason, Slice};

/// Whether an item that a compaction wrote may follow these items.
pub(crate) fn is_restorable(early: bool, next: u32, items: &[Item], item: &Item) -> bool
    ensures { IsTrue result ↔ IsRestorable early next items.now item.now }
{
    early
        && item.id.0 >= 1
        && is_above(item.id, items)
        && item.id.0 < next
        && is_free_word(item.word.bytes(), items)
        && is_sound(item)
        && has_own_name(item, items)
}

/// Whether the item is as a lawful history leaves one.
fn is_sound(item: &Item) -> bool
    ensures { IsTrue result ↔ IsSound item.now }
{
    is_covered(item.total, item.slices.items())
        && is_told(item)
        && is_reason_of(item)
        && (item.phase != Phase::Waiting || !is_invalid(mode_of_item(item)))
        && is_counted(item)
        && is_whole_where_finished(item)
        && is_digest_of(item)
}

/// Whether a known total is small, and the cover is normal and lies within it.
fn is_covered(total: Option<u64>, slices: &[Slice]) -> bool
    ensures { IsTrue result ↔ IsCovered total slices.now }
{
    is_small(total)
        && (is_normal(slices, total) || is_normal(slices, None))
        && is_within(slices, MOST_BYTES)
        && match total {
            Some(total) => is_within(slices, total),
            None => true,
        }
}

/// Whether what a first reply tells is there as a whole, in a begun item, or not at all.
fn is_told(item: &Item) -> bool
    ensures { IsTrue result ↔ IsTold item.now.key item.now.last_address item.now.name
        item.now.modified item.now.begun item.now.total item.now.slices }
{
    let told = item.key.is_some();
    item.last_address.is_some() == told
        && item.name.is_some() == told
        && item.modified.is_some() == told
        && (!told || item.begun)
        && (told || item.total.is_none() && has_no_bytes(item.slices.items()))
}

/// Whether it is the cover without a byte.
fn has_no_bytes(slices: &[Slice]) -> bool
    ensures { IsTrue result ↔ (slices.now ≡ no_bytes) }
{
    match slices {
        [slice] => slice.first == 0 && slice.got == 0 && !slice.finished,
        _ => false,
    }
}

/// Whether the reason is the one that the phase asks for.
fn is_reason_of(item: &Item) -> bool
    ensures { IsTrue result ↔ IsReasonOf item.now.phase item.now.reason }
{
    match item.phase {
        Phase::Interrupted(why) => { item.reason == Some(why) && why != Reason::UserCanceled }
        Phase::Cancelled => item.reason == Some(Reason::UserCanceled),
        Phase::Running => item.reason.is_none(),
        Phase::Finishing => item.reason.is_none(),
        Phase::Complete => item.reason.is_none(),
        Phase::Waiting => item.reason != Some(Reason::UserCanceled),
        Phase::Paused => item.reason != Some(Reason::UserCanceled),
    }
}

/// Whether a running item is begun, and the epoch fits the attempt.
fn is_counted(item: &Item) -> bool
    ensures { IsTrue result ↔ IsCounted item.now.phase item.now.begun item.now.epoch.0
        item.now.attempt.0 }
{
    let attempts = u64::from(item.attempt.0) + if item.begun { 0 } else { 1 };
    (item.phase != Phase::Running || item.begun)
        && item.epoch.0 >= 1
        && u64::from(item.epoch.0) <= attempts
}

/// Whether the whole content is there, where the item is finishing or complete.
fn is_whole_where_finished(item: &Item) -> bool
    ensures { IsTrue result ↔ (IsTrue (is_finishing item.now.phase || is_complete item.now.phase)
        → IsWhole item.now.key item.now.total item.now.slices) }
{
    match item.phase {
        Phase::Finishing => is_whole(item),
        Phase::Complete => is_whole(item),
        Phase::Waiting => true,
        Phase::Running => true,
        Phase::Paused => true,
        Phase::Cancelled => true,
        Phase::Interrupted(_) => true,
    }
}

fn is_whole(item: &Item) -> bool
    ensures { IsTrue result ↔ IsWhole item.now.key item.now.total item.now.slices }
{
    item.key.is_some()
        && match item.total {
            Some(total) => is_full(item.slices.items(), total),
            None => false,
        }
}

/// Whether the item has a digest exactly where it is complete, and the stated one.
fn is_digest_of(item: &Item) -> bool
    ensures { IsTrue result ↔ IsDigestOf (is_complete item.now.phase) item.now.digest
        item.now.have }
{
    match item.phase {
        Phase::Complete => has_digest(item),
        Phase::Waiting => item.have.is_none(),
        Phase::Running => item.have.is_none(),
        Phase::Paused => item.have.is_none(),
        Phase::Finishing => item.have.is_none(),
        Phase::Cancelled => item.have.is_none(),
        Phase::Interrupted(_) => item.have.is_none(),
    }
}

fn has_digest(item: &Item) -> bool
    ensures { IsTrue result ↔ IsDigest item.now.digest item.now.have }
{
    match item.have {
        Some(have) => is_stated(item.digest, have),
        None => false,
    }
}
