ghost use Rattle.std.specs.Prelude.{◌≡◌, ◌<◌, ◌^◌, IsTrue, IsOk, IfOk, OnOk, OnErr, Some, map};
ghost use Rattle.dm_item.specs.Fields.{added_item};
ghost use Rattle.dm_item.specs.Row.{FitsAutos, autos_after, begun_item, changed, described_item, restarted_item, stopped_item};
ghost use Rattle.dm_item.specs.Listing.{is_broke, is_light};

use crate::copies::{copy_slices, no_bytes};
use dm_types::{
    Attempt, By, Entry, Epoch, Item, ItemId, Key, NoMemory, Phase, Reason, Slices, Text,
};
use std::alloc::Global;

/// Does what the entry does to its item. Where memory is wanting the item stays as it was.
pub(crate) fn change(alloc: Global, entry: &Entry, item: &mut Item) -> Result<(), NoMemory>
    requires { FitsAutos entry.now item.old }
    ensures ok { OnOk result (item.new ≡ changed entry.now item.old) }
    ensures err { OnErr result (item.new ≡ item.old) }
    ensures broke { IsTrue (is_broke entry.now) → IsOk result }
    ensures light { IsTrue (is_light entry.now) → IsOk result }
{
    match entry {
        Entry::Began { attempt, by, .. } => Ok(begin(item, *attempt, *by)),
        Entry::Described {
            key,
            last_address,
            total,
            name,
            modified,
            ..
        } => describe(alloc, item, key, last_address, *total, name, modified),
        Entry::Progress { slices, .. } => progress(alloc, item, slices),
        Entry::Broke { reason, .. } => Ok(interrupt(item, *reason)),
        Entry::Paused { .. } => Ok(set_phase(item, Phase::Paused)),
        Entry::Cancelled { .. } => Ok(cancel(item)),
        Entry::Restarted { epoch, .. } => restart(alloc, item, *epoch),
        Entry::Finishing { total, .. } => Ok(finish(item, *total)),
        Entry::Done { digest, at, .. } => Ok(complete(item, *digest, *at)),
        Entry::Asked { .. } => Ok(set_phase(item, Phase::Waiting)),
        Entry::Removed { .. } => Ok(()),
        Entry::Archived { .. } => Ok(()),
        Entry::Added { .. } => Ok(()),
        Entry::Reopened { .. } => Ok(()),
        Entry::Restored { .. } => Ok(()),
    }
}

fn begin(item: &mut Item, attempt: Attempt, by: By)
    requires { autos_after by item.old.autos < 2 ^ 32 }
    ensures { item.new ≡ begun_item attempt by item.old }
{
    let autos = match by {
        By::User => 0,
        By::Itself => item.autos + 1,
    };
    item.phase = Phase::Running;
    item.reason = None;
    item.attempt = attempt;
    item.autos = autos;
    item.begun = true;
}

fn describe(
    alloc: Global,
    item: &mut Item,
    key: &Key,
    last_address: &Text,
    total: Option<u64>,
    name: &Text,
    modified: &Text,
) -> Result<(), NoMemory>
    ensures ok { OnOk result (item.new
        ≡ described_item key.now last_address.now total name.now modified.now item.old) }
    ensures err { OnErr result (item.new ≡ item.old) }
{
    let key = key.copy(alloc)?;
    let last_address = last_address.copy(alloc)?;
    let name = name.copy(alloc)?;
    let modified = modified.copy(alloc)?;
    item.key = Some(key);
    item.last_address = Some(last_address);
    item.total = total;
    item.name = Some(name);
    item.modified = Some(modified);
    Ok(())
}

fn progress(alloc: Global, item: &mut Item, slices: &Slices) -> Result<(), NoMemory>
    ensures ok { OnOk result (item.new ≡ record item.old { slices = slices.now }) }
    ensures err { OnErr result (item.new ≡ item.old) }
{
    let slices = copy_slices(alloc, slices)?;
    item.slices = slices;
    Ok(())
}

fn restart(alloc: Global, item: &mut Item, epoch: Epoch) -> Result<(), NoMemory>
    ensures ok { OnOk result (item.new ≡ restarted_item epoch item.old) }
    ensures err { OnErr result (item.new ≡ item.old) }
{
    let slices = no_bytes(alloc)?;
    item.epoch = epoch;
    item.begun = false;
    item.key = None;
    item.last_address = None;
    item.total = None;
    item.name = None;
    item.modified = None;
    item.slices = slices;
    Ok(())
}

fn interrupt(item: &mut Item, reason: Reason)
    ensures { item.new ≡ record item.old { phase = Phase.Interrupted reason; reason = Some reason } }
{
    item.phase = Phase::Interrupted(reason);
    item.reason = Some(reason);
}

fn set_phase(item: &mut Item, phase: Phase)
    ensures { item.new ≡ record item.old { phase = phase } }
{
    item.phase = phase;
}

fn cancel(item: &mut Item)
    ensures { item.new ≡ record item.old { phase = Phase.Cancelled; reason = Some Reason.UserCanceled } }
{
    item.phase = Phase::Cancelled;
    item.reason = Some(Reason::UserCanceled);
}

fn finish(item: &mut Item, total: u64)
    ensures { item.new ≡ record item.old { phase = Phase.Finishing; total = Some total } }
{
    item.phase = Phase::Finishing;
    item.total = Some(total);
}

fn complete(item: &mut Item, digest: [u8; 32], at: u64)
    ensures { item.new ≡ record item.old { phase = Phase.Complete; have = Some digest; at_ms = at } }
{
    item.phase = Phase::Complete;
    item.have = Some(digest);
    item.at_ms = at;
}

/// A running item is interrupted, as the program left it.
pub(crate) fn stop(item: &mut Item)
    ensures { item.new ≡ stopped_item item.old }
{
    if item.phase == Phase::Running {
        item.phase = Phase::Interrupted(Reason::Crash);
        item.reason = Some(Reason::Crash);
    }
}

/// Interrupts each running item.
pub(crate) fn stop_all(items: &mut [Item])
    ensures { items.new ≡ map stopped_item items.old }
{
    for item in items.iter_mut() {
        stop(item);
    }
}

/// The item of an Added.
pub(crate) fn make_item(
    alloc: Global,
    id: ItemId,
    word: &Text,
    address: &Text,
    wish: &Text,
    digest: Option<[u8; 32]>,
    at: u64,
) -> Result<Item, NoMemory>
    ensures { IfOk result (λ item. item ≡ added_item id word.now address.now wish.now digest at) }
{
    let word = word.copy(alloc)?;
    let first_address = address.copy(alloc)?;
    let wish = wish.copy(alloc)?;
    let slices = no_bytes(alloc)?;
    Ok(Item {
        id,
        word,
        first_address,
        wish,
        digest,
        phase: Phase::Waiting,
        reason: None,
        epoch: Epoch(1),
        attempt: Attempt(0),
        autos: 0,
        begun: false,
        key: None,
        last_address: None,
        total: None,
        name: None,
        modified: None,
        slices,
        have: None,
        at_ms: at,
    })
}
