ghost use Rattle.std.specs.Prelude.{◌≡◌, ◌≢◌, ◌<◌, ◌++◌, ◌∷◌, [], IsTrue, IsSome, IsOk, IfOk, IfErr, OnOk, OnErr, if◌then◌else◌, vec_len, length, map, slice_index_or, slice_set, remove};
ghost use Rattle.dm_types.specs.declared.item.Item.{Item};
ghost use Rattle.dm_types.specs.declared.entry.Entry.TheVariants.{Restored};
ghost use Rattle.dm_item.specs.Fields.{is_gone};
ghost use Rattle.dm_item.specs.Row.{FitsAutos, Further, allows, changed, target_of, stopped_item};
ghost use Rattle.dm_item.specs.Listing.{IsRowAt, TargetTakes, is_broke, is_light, place_in};
ghost use Rattle.dm_item.specs.Declines.{TargetDeclines, RowDeclines};
ghost use Rattle.dm_item.specs.declared.fault.ApplyFault.TheVariants as faults;

use crate::ApplyFault;
use crate::change::{change, stop_all};
use crate::conditions::is_further;
use crate::copies::copy_item;
use crate::rows::{may_come, target_of};
use dm_types::{Entry, Item, ItemId, Listed, NoMemory};
use std::alloc::Global;

/// Does what an entry says to the item that it names, or says why not.
pub(crate) fn change_target(
    alloc: Global,
    entry: &Entry,
    items: &mut Vec<Item>,
) -> Result<(), ApplyFault>
    requires { IsSome (target_of entry.now) }
    ensures ok { OnOk result (TargetTakes entry.now items.old.items items.new.items) }
    ensures err { IfErr result (TargetDeclines entry.now items.old.items) }
    ensures light { IsTrue (is_light entry.now) → IfErr result (λ fault. fault ≢ faults.NoMemory) }
    ensures same { OnErr result (items.new.items ≡ items.old.items) }
{
    let place = match find_row(entry, items) {
        Ok(place) => place,
        Err(fault) => return Err(fault),
    };
    match change_in(alloc, entry, items, place) {
        Ok(()) => Ok(()),
        Err(NoMemory) => Err(ApplyFault::NoMemory),
    }
}

/// The place of the item that an entry names, where its row takes the entry.
pub(crate) fn find_row(entry: &Entry, items: &[Item]) -> Result<usize, ApplyFault>
    requires { IsSome (target_of entry.now) }
    ensures ok { IfOk result (IsRowAt entry.now items.now) }
    ensures within { IfOk result (λ place. place < length items.now) }
    ensures fits { IfOk result (λ place. (d : Item) → FitsAutos entry.now (slice_index_or items.now place d)) }
    ensures err { IfErr result (TargetDeclines entry.now items.now) }
    ensures light { IfErr result (λ fault. fault ≢ faults.NoMemory) }
{
    let Some(id) = target_of(entry) else {
        unreachable!();
    };
    let Some(place) = find_place(items, id) else {
        return Err(ApplyFault::NoItem(id));
    };
    match check_row(entry, items, &items[place]) {
        Ok(()) => Ok(place),
        Err(fault) => Err(fault),
    }
}

/// The first place of an item with this id.
pub(crate) fn find_place(items: &[Item], id: ItemId) -> Option<usize>
    ensures { result ≡ place_in id.0 items.now }
{
    items.iter().position(|item| item.id.0 == id.0)
}

/// Whether the item's row takes the entry.
fn check_row(entry: &Entry, items: &[Item], item: &Item) -> Result<(), ApplyFault>
    ensures phase { OnOk result (IsTrue (allows entry.now item.now.phase)) }
    ensures further { OnOk result (Further entry.now items.now item.now) }
    ensures err { IfErr result (RowDeclines entry.now items.now item.now) }
    ensures light { IfErr result (λ fault. fault ≢ faults.NoMemory) }
{
    if !may_come(entry, item.phase) {
        return Err(ApplyFault::WrongPhase(item.phase));
    }
    if !is_further(entry, items, item) {
        return Err(ApplyFault::Unlawful(entry.kind()));
    }
    Ok(())
}

/// Changes the item at a place, or takes it out.
fn change_in(
    alloc: Global,
    entry: &Entry,
    items: &mut Vec<Item>,
    place: usize,
) -> Result<(), NoMemory>
    requires within { place < vec_len items.old }
    requires fits { (d : Item) → FitsAutos entry.now (slice_index_or items.old.items place d) }
    ensures ok { OnOk result ((d : Item) → items.new.items ≡ (if is_gone entry.now
        then remove items.old.items place
        else slice_set items.old.items place
        (changed entry.now (slice_index_or items.old.items place d)))) }
    ensures err { OnErr result (items.new.items ≡ items.old.items) }
    ensures broke { IsTrue (is_broke entry.now) → IsOk result }
    ensures light { IsTrue (is_light entry.now) → IsOk result }
{
    if is_gone(entry) {
        remove_item(items, place);
        Ok(())
    } else {
        change(alloc, entry, &mut items[place])
    }
}

/// Whether the entry takes its item out of the list.
fn is_gone(entry: &Entry) -> bool
    ensures { result ≡ is_gone entry.now }
{
    matches!(entry, Entry::Removed { .. } | Entry::Archived { .. })
}

fn remove_item(items: &mut Vec<Item>, place: usize)
    requires { place < vec_len items.old }
    ensures { items.new.items ≡ remove items.old.items place }
{
    let _ = items.remove(place);
}

/// Adds an item at the end; where memory is wanting the list stays.
pub(crate) fn push_item(items: &mut Vec<Item>, item: Item) -> bool
    ensures { items.new.items ≡ (if result then items.old.items ++ item ∷ [] else items.old.items) }
{
    items.push(item).is_ok()
}

/// Interrupts each running item.
pub(crate) fn stop_every(items: &mut Vec<Item>)
    ensures { items.new.items ≡ map stopped_item items.old.items }
{
    stop_all(items);
}

/// Adds an entry that restores each item.
pub(crate) fn add_restored(
    alloc: Global,
    items: &[Item],
    entries: &mut Listed<Entry>,
) -> Result<(), NoMemory>
    ensures { OnOk result (entries.new ≡ entries.old ++ map Restored items.now) }
{
    for item in items {
        push_restored(alloc, item, entries)?;
    }
    Ok(())
}

fn push_restored(alloc: Global, item: &Item, entries: &mut Listed<Entry>) -> Result<(), NoMemory>
    ensures { OnOk result (entries.new ≡ entries.old ++ Restored item.now ∷ []) }
{
    let item = copy_item(alloc, item)?;
    entries.push(Entry::Restored { item })
}
