ghost use Rattle.std.specs.Prelude.{◌≡◌, ◌+◌, ◌≤◌, ◌++◌, IfOk, OnOk, length, Some, None};
ghost use Rattle.dm_item.specs.Fields.{no_bytes};

use dm_types::{Item, Key, NoMemory, Slice, Slices, Text};
use std::alloc::Global;

/// The same slices again.
pub(crate) fn copy_slices(alloc: Global, slices: &Slices) -> Result<Slices, NoMemory>
    ensures { IfOk result (λ copy. copy ≡ slices.now) }
{
    let mut copy = Slices::new(alloc);
    add_slices(&mut copy, slices.items())?;
    Ok(copy)
}

/// Adds the slices at the end.
fn add_slices(to: &mut Slices, slices: &[Slice]) -> Result<(), NoMemory>
    requires { length to.old + length slices.now ≤ 64 }
    ensures { OnOk result (to.new ≡ to.old ++ slices.now) }
{
    match slices {
        [] => Ok(()),
        [slice, rest @ ..] => {
            to.push(*slice)?;
            add_slices(to, rest)
        }
    }
}

/// The cover without a byte.
pub(crate) fn no_bytes(alloc: Global) -> Result<Slices, NoMemory>
    ensures { IfOk result (λ slices. slices ≡ no_bytes) }
{
    let mut slices = Slices::new(alloc);
    slices.push(Slice {
        first: 0,
        got: 0,
        finished: false,
    })?;
    Ok(slices)
}

fn copy_text(alloc: Global, text: &Option<Text>) -> Result<Option<Text>, NoMemory>
    ensures { IfOk result (λ copy. copy ≡ text.now) }
{
    match text {
        Some(text) => Ok(Some(text.copy(alloc)?)),
        None => Ok(None),
    }
}

fn copy_option_key(alloc: Global, key: &Option<Key>) -> Result<Option<Key>, NoMemory>
    ensures { IfOk result (λ copy. copy ≡ key.now) }
{
    match key {
        Some(key) => Ok(Some(key.copy(alloc)?)),
        None => Ok(None),
    }
}

/// The same item again.
pub(crate) fn copy_item(alloc: Global, item: &Item) -> Result<Item, NoMemory>
    ensures { IfOk result (λ copy. copy ≡ item.now) }
{
    let word = item.word.copy(alloc)?;
    let first_address = item.first_address.copy(alloc)?;
    let wish = item.wish.copy(alloc)?;
    let key = copy_option_key(alloc, &item.key)?;
    let last_address = copy_text(alloc, &item.last_address)?;
    let name = copy_text(alloc, &item.name)?;
    let modified = copy_text(alloc, &item.modified)?;
    let slices = copy_slices(alloc, &item.slices)?;
    Ok(Item {
        id: item.id,
        word,
        first_address,
        wish,
        digest: item.digest,
        phase: item.phase,
        reason: item.reason,
        epoch: item.epoch,
        attempt: item.attempt,
        autos: item.autos,
        begun: item.begun,
        key,
        last_address,
        total: item.total,
        name,
        modified,
        slices,
        have: item.have,
        at_ms: item.at_ms,
    })
}
