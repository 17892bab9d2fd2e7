ghost use Rattle.std.specs.Prelude.{◌≡◌, ◌≢◌, ◌+◌, ◌<◌, ◌≤◌, ◌^◌, true, Some, IsTrue, cond};
ghost use Rattle.dm_slice.specs.Words.{cover_end};
ghost use Rattle.dm_policy.specs.Mode.{because_by, is_restart, mode_by};
ghost use Rattle.dm_item.specs.Row.{begins_by, begins_in, facts_of, mode_of_item};
ghost use Rattle.dm_answers.specs.Begin.{begins_anew, may_begin, pass_of};
ghost use Rattle.dm_begin.specs.Start.{IsStart};

use dm_item::mode_of_item;
use dm_policy::{ModeFacts, is_immediate, is_invalid, is_restart};
use dm_slice::{cover_end, covered};
use dm_store::Pass;
use dm_types::{Attempt, By, Epoch, Item, Key, Mode, Phase};

/// How an attempt of an item begins.
#[derive(Clone, Copy)]
pub(crate) enum Start {
    /// Its content is brought anew, by the rule with this number.
    Anew(Pass, u8),
    /// Its content is to be asked for from the start.
    Fresh(Pass),
    /// The part is to have so many bytes.
    Kept(Pass, u64),
}

/// Whether the user, or the item by itself, may begin an attempt.
pub(crate) fn may_begin(by: By, item: &Item) -> bool
    ensures { result ≡ may_begin by item.now }
{
    begins_in(by, item.phase) && begins_by(by, mode_of_item(item))
}

fn begins_in(by: By, phase: Phase) -> bool
    ensures { result ≡ begins_in by phase }
{
    match by {
        By::User => matches!(phase, Phase::Waiting),
        By::Itself => matches!(phase, Phase::Interrupted(_)),
    }
}

fn begins_by(by: By, mode: Mode) -> bool
    ensures { result ≡ begins_by by mode }
{
    match by {
        By::User => !is_invalid(mode),
        By::Itself => is_immediate(mode),
    }
}

/// What the mode of an item depends on beside its reason.
fn facts_of(item: &Item) -> ModeFacts
    ensures { result ≡ facts_of item.now }
{
    ModeFacts {
        strong: matches!(&item.key, Some(Key::Strong(_))),
        total: item.total.is_some(),
        covered: covered(item.slices.items()) > 0,
        autos: item.autos,
        attempt: item.attempt,
        paused: item.phase == Phase::Paused,
    }
}

/// The first rule by which the content is brought anew.
fn because_of(item: &Item) -> u8
    ensures { IsTrue (is_restart (mode_by item.now.reason (facts_of item.now))) → because_by item.now.reason (facts_of item.now) ≡ Some result }
{
    match dm_policy::because_of(item.reason, facts_of(item)) {
        Some(because) => because,
        None => 0,
    }
}

/// Whether an attempt was begun in this epoch, and the content is to be brought anew.
fn begins_anew(item: &Item) -> bool
    ensures { result ≡ begins_anew item.now }
{
    item.begun && is_restart(mode_of_item(item))
}

/// The next epoch, where the content is brought anew, or the item's.
fn epoch_behind(item: &Item, anew: bool) -> Epoch
    requires { anew ≡ true → item.now.epoch.0 + 1 < 2 ^ 32 }
    ensures { result.0 ≡ cond anew (item.now.epoch.0 + 1) item.now.epoch.0 }
{
    if anew {
        Epoch(item.epoch.0 + 1)
    } else {
        item.epoch
    }
}

/// What the attempt shows with each of its calls.
fn pass_of(item: &Item, anew: bool) -> Pass
    requires attempt { item.now.attempt.0 ≢ 4294967295 }
    requires epoch { anew ≡ true → item.now.epoch.0 ≤ item.now.attempt.0 }
    requires anew { anew ≡ begins_anew item.now }
    ensures { result ≡ pass_of item.now }
{
    let attempt = Attempt(item.attempt.0 + 1);
    let epoch = epoch_behind(item, anew);
    Pass {
        id: item.id,
        attempt,
        epoch,
    }
}

/// How an attempt of the item begins, where it may.
pub(crate) fn start_of(item: &Item) -> Start
    requires attempt { item.now.attempt.0 ≢ 4294967295 }
    requires epoch { begins_anew item.now ≡ true → item.now.epoch.0 ≤ item.now.attempt.0 }
    requires end { cover_end item.now.slices ≤ 2 ^ 40 }
    ensures { IsStart item.now result }
{
    let anew = begins_anew(item);
    let pass = pass_of(item, anew);
    if anew {
        Start::Anew(pass, because_of(item))
    } else if item.key.is_none() {
        Start::Fresh(pass)
    } else {
        Start::Kept(pass, cover_end(item.slices.items()) as u64)
    }
}
