//! The fields of each kind of entry, read behind the byte of the kind.

ghost use Rattle.std.specs.Prelude.{◌≡◌};
ghost use Rattle.dm_record.specs.Reading.{Gives, added_at, began_at, described_at, progress_at, broke_at, paused_at, cancelled_at, restarted_at, finishing_at, done_at, removed_at, archived_at, reopened_at, asked_at};

use crate::fault::Stop;
use crate::fields::{
    read_attempt, read_by, read_digest, read_epoch, read_id, read_key, read_known_total,
    read_reason, read_slices, read_stated_digest, read_text, read_u32, read_u64, read_within,
};
use dm_types::Entry;
use std::alloc::Global;

#[tactic(auto, unfolding(crate::specs::Reading::added_at))]
pub(crate) fn read_added(alloc: Global, bytes: &[u8]) -> Result<(Entry, &[u8]), Stop>
    ensures { Gives (λ x. (x.0, x.1.now)) result (added_at bytes.now) }
{
    let (id, rest) = read_id(bytes)?;
    let (word, rest) = read_text(alloc, 64, rest)?;
    let (address, rest) = read_text(alloc, 4096, rest)?;
    let (wish, rest) = read_text(alloc, 255, rest)?;
    let (digest, rest) = read_stated_digest(rest)?;
    let (at, rest) = read_u64(rest)?;
    let entry = Entry::Added {
        id,
        word,
        address,
        wish,
        digest,
        at,
    };
    Ok((entry, rest))
}

#[tactic(auto, unfolding(crate::specs::Reading::began_at))]
pub(crate) fn read_began(bytes: &[u8]) -> Result<(Entry, &[u8]), Stop>
    ensures { Gives (λ x. (x.0, x.1.now)) result (began_at bytes.now) }
{
    let (id, rest) = read_id(bytes)?;
    let (attempt, rest) = read_attempt(rest)?;
    let (by, rest) = read_by(rest)?;
    let (at, rest) = read_u64(rest)?;
    let entry = Entry::Began {
        id,
        attempt,
        by,
        at,
    };
    Ok((entry, rest))
}

#[tactic(auto, unfolding(crate::specs::Reading::described_at))]
pub(crate) fn read_described(alloc: Global, bytes: &[u8]) -> Result<(Entry, &[u8]), Stop>
    ensures { Gives (λ x. (x.0, x.1.now)) result (described_at bytes.now) }
{
    let (id, rest) = read_id(bytes)?;
    let (key, rest) = read_key(alloc, rest)?;
    let (last_address, rest) = read_text(alloc, 4096, rest)?;
    let (total, rest) = read_known_total(rest)?;
    let (name, rest) = read_text(alloc, 255, rest)?;
    let (modified, rest) = read_text(alloc, 128, rest)?;
    let entry = Entry::Described {
        id,
        key,
        last_address,
        total,
        name,
        modified,
    };
    Ok((entry, rest))
}

#[tactic(auto, unfolding(crate::specs::Reading::progress_at))]
pub(crate) fn read_progress(alloc: Global, bytes: &[u8]) -> Result<(Entry, &[u8]), Stop>
    ensures { Gives (λ x. (x.0, x.1.now)) result (progress_at bytes.now) }
{
    let (id, rest) = read_id(bytes)?;
    let (slices, rest) = read_slices(alloc, rest)?;
    Ok((Entry::Progress { id, slices }, rest))
}

#[tactic(auto, unfolding(crate::specs::Reading::broke_at))]
pub(crate) fn read_broke(bytes: &[u8]) -> Result<(Entry, &[u8]), Stop>
    ensures { Gives (λ x. (x.0, x.1.now)) result (broke_at bytes.now) }
{
    let (id, rest) = read_id(bytes)?;
    let (reason, rest) = read_reason(rest)?;
    Ok((Entry::Broke { id, reason }, rest))
}

#[tactic(auto, unfolding(crate::specs::Reading::paused_at))]
pub(crate) fn read_paused(bytes: &[u8]) -> Result<(Entry, &[u8]), Stop>
    ensures { Gives (λ x. (x.0, x.1.now)) result (paused_at bytes.now) }
{
    let (id, rest) = read_id(bytes)?;
    Ok((Entry::Paused { id }, rest))
}

#[tactic(auto, unfolding(crate::specs::Reading::cancelled_at))]
pub(crate) fn read_cancelled(bytes: &[u8]) -> Result<(Entry, &[u8]), Stop>
    ensures { Gives (λ x. (x.0, x.1.now)) result (cancelled_at bytes.now) }
{
    let (id, rest) = read_id(bytes)?;
    Ok((Entry::Cancelled { id }, rest))
}

#[tactic(auto, unfolding(crate::specs::Reading::restarted_at))]
pub(crate) fn read_restarted(bytes: &[u8]) -> Result<(Entry, &[u8]), Stop>
    ensures { Gives (λ x. (x.0, x.1.now)) result (restarted_at bytes.now) }
{
    let (id, rest) = read_id(bytes)?;
    let (epoch, rest) = read_epoch(rest)?;
    let (because, rest) = read_within(1, 4, rest)?;
    Ok((Entry::Restarted { id, epoch, because }, rest))
}

#[tactic(auto, unfolding(crate::specs::Reading::finishing_at))]
pub(crate) fn read_finishing(bytes: &[u8]) -> Result<(Entry, &[u8]), Stop>
    ensures { Gives (λ x. (x.0, x.1.now)) result (finishing_at bytes.now) }
{
    let (id, rest) = read_id(bytes)?;
    let (total, rest) = read_u64(rest)?;
    Ok((Entry::Finishing { id, total }, rest))
}

#[tactic(auto, unfolding(crate::specs::Reading::done_at))]
pub(crate) fn read_done(bytes: &[u8]) -> Result<(Entry, &[u8]), Stop>
    ensures { Gives (λ x. (x.0, x.1.now)) result (done_at bytes.now) }
{
    let (id, rest) = read_id(bytes)?;
    let (digest, rest) = read_digest(rest)?;
    let (at, rest) = read_u64(rest)?;
    Ok((Entry::Done { id, digest, at }, rest))
}

#[tactic(auto, unfolding(crate::specs::Reading::removed_at))]
pub(crate) fn read_removed(bytes: &[u8]) -> Result<(Entry, &[u8]), Stop>
    ensures { Gives (λ x. (x.0, x.1.now)) result (removed_at bytes.now) }
{
    let (id, rest) = read_id(bytes)?;
    Ok((Entry::Removed { id }, rest))
}

#[tactic(auto, unfolding(crate::specs::Reading::archived_at))]
pub(crate) fn read_archived(bytes: &[u8]) -> Result<(Entry, &[u8]), Stop>
    ensures { Gives (λ x. (x.0, x.1.now)) result (archived_at bytes.now) }
{
    let (id, rest) = read_id(bytes)?;
    Ok((Entry::Archived { id }, rest))
}

#[tactic(auto, unfolding(crate::specs::Reading::reopened_at))]
pub(crate) fn read_reopened(bytes: &[u8]) -> Result<(Entry, &[u8]), Stop>
    ensures { Gives (λ x. (x.0, x.1.now)) result (reopened_at bytes.now) }
{
    let (next, rest) = read_u32(bytes)?;
    let (at, rest) = read_u64(rest)?;
    Ok((Entry::Reopened { next, at }, rest))
}

#[tactic(auto, unfolding(crate::specs::Reading::asked_at))]
pub(crate) fn read_asked(bytes: &[u8]) -> Result<(Entry, &[u8]), Stop>
    ensures { Gives (λ x. (x.0, x.1.now)) result (asked_at bytes.now) }
{
    let (id, rest) = read_id(bytes)?;
    Ok((Entry::Asked { id }, rest))
}
