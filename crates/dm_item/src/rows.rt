ghost use Rattle.std.specs.Prelude.{◌≡◌, ◌↔◌, IsTrue, IsSome, None, Some, List};
ghost use Rattle.dm_item.specs.Row.{allows, is_paused, is_waiting, is_interrupted, is_finishing, is_complete, is_cancelled, target_of, mode_of_item, facts_of, mode_in, is_strong};
ghost use Rattle.dm_item.specs.Fields.{is_running};
ghost use Rattle.dm_item.specs.Listing.{is_light};
ghost use Rattle.dm_item.specs.Lawful.{IsOf, short_history};

use dm_policy::{ModeFacts, mode_of};
use dm_types::{By, Entry, Item, ItemId, Key, Mode, Phase};

/// The id of the item that an entry changes: it must be there.
pub(crate) fn target_of(entry: &Entry) -> Option<ItemId>
    ensures { result ≡ target_of entry.now }
{
    match entry {
        Entry::Added { .. } => None,
        Entry::Reopened { .. } => None,
        Entry::Restored { .. } => None,
        Entry::Began { id, .. } => Some(*id),
        Entry::Described { id, .. } => Some(*id),
        Entry::Progress { id, .. } => Some(*id),
        Entry::Broke { id, .. } => Some(*id),
        Entry::Paused { id } => Some(*id),
        Entry::Cancelled { id } => Some(*id),
        Entry::Restarted { id, .. } => Some(*id),
        Entry::Finishing { id, .. } => Some(*id),
        Entry::Done { id, .. } => Some(*id),
        Entry::Removed { id } => Some(*id),
        Entry::Archived { id } => Some(*id),
        Entry::Asked { id } => Some(*id),
    }
}

/// Whether the entry may come in this phase of its item.
pub(crate) fn may_come(entry: &Entry, phase: Phase) -> bool
    ensures { result ≡ allows entry.now phase }
{
    match entry {
        Entry::Began { by, .. } => match by {
            By::User => phase == Phase::Waiting,
            By::Itself => matches!(phase, Phase::Interrupted(_)),
        },
        Entry::Described { .. } | Entry::Progress { .. } | Entry::Finishing { .. } => {
            phase == Phase::Running
        }
        Entry::Broke { .. } => matches!(phase, Phase::Running | Phase::Finishing),
        Entry::Paused { .. } => matches!(
            phase,
            Phase::Waiting | Phase::Running | Phase::Interrupted(_)
        ),
        Entry::Asked { .. } => matches!(phase, Phase::Paused | Phase::Interrupted(_)),
        Entry::Cancelled { .. } => matches!(
            phase,
            Phase::Waiting | Phase::Running | Phase::Paused | Phase::Interrupted(_)
        ),
        Entry::Restarted { .. } => matches!(phase, Phase::Waiting | Phase::Interrupted(_)),
        Entry::Done { .. } => phase == Phase::Finishing,
        Entry::Removed { .. } => !matches!(phase, Phase::Running | Phase::Finishing),
        Entry::Archived { .. } => matches!(phase, Phase::Complete | Phase::Cancelled),
        Entry::Added { .. } | Entry::Reopened { .. } | Entry::Restored { .. } => true,
    }
}

/// Whether the entry's effect on a list wants no memory.
pub(crate) fn is_light(entry: &Entry) -> bool
    ensures { result ≡ is_light entry.now }
{
    !matches!(
        entry,
        Entry::Added { .. }
            | Entry::Described { .. }
            | Entry::Progress { .. }
            | Entry::Restarted { .. }
            | Entry::Restored { .. }
    )
}

/// How an item may go on.
pub fn mode_of_item(item: &Item) -> Mode
    ensures { result ≡ mode_of_item item.now }
{
    match item.phase {
        Phase::Complete | Phase::Cancelled | Phase::Finishing => Mode::Invalid,
        Phase::Waiting | Phase::Running | Phase::Paused | Phase::Interrupted(_) => {
            mode_of(item.reason, facts_of(item))
        }
    }
}

/// What the mode of an item depends on beside its reason.
pub(crate) fn facts_of(item: &Item) -> ModeFacts
    ensures { result ≡ facts_of item.now }
{
    ModeFacts {
        strong: matches!(&item.key, Some(Key::Strong(_))),
        total: item.total.is_some(),
        covered: dm_slice::covered(item.slices.items()) > 0,
        autos: item.autos,
        attempt: item.attempt,
        paused: item.phase == Phase::Paused,
    }
}
