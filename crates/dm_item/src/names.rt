ghost use Rattle.std.specs.Prelude.{◌≡◌, ◌≢◌, ◌↔◌, IsTrue, false};
ghost use Rattle.dm_item.specs.Row.{HasName, IsFreeName, is_cancelled};
ghost use Rattle.dm_item.specs.Words.{HasNoWord, IsFreeWord};
ghost use Rattle.dm_item.specs.Restored.{HasOwnName, IsAbove, IsApartFrom};

use dm_types::{Item, ItemId, Phase, same_folded};

/// Whether no other item than the one with this id has the name; cancelled items don't count.
pub(crate) fn is_free_name(id: ItemId, name: &[u8], items: &[Item]) -> bool
    ensures { IsTrue result ↔ IsFreeName id.0 name.now items.now }
{
    items.iter().all(|item| leaves_name(id, name, item))
}

/// Whether the item has this id, or is cancelled, or has another name.
fn leaves_name(id: ItemId, name: &[u8], item: &Item) -> bool
    ensures { IsTrue result ↔ (item.now.id.0 ≢ id.0 → is_cancelled item.now.phase ≡ false → ¬ HasName item.now name.now) }
{
    item.id == id || item.phase == Phase::Cancelled || !has_name(item, name)
}

/// Whether the item has a name that is the same in ASCII case folding.
fn has_name(item: &Item, name: &[u8]) -> bool
    ensures { IsTrue result ↔ HasName item.now name.now }
{
    match &item.name {
        Some(other) => same_folded(name, other.bytes()),
        None => false,
    }
}

/// Whether the word is empty, or no item has it.
pub(crate) fn is_free_word(word: &[u8], items: &[Item]) -> bool
    ensures { IsTrue result ↔ IsFreeWord word.now items.now }
{
    word.is_empty() || has_no_word(word, items)
}

/// Whether no item has the word.
fn has_no_word(word: &[u8], items: &[Item]) -> bool
    ensures { IsTrue result ↔ HasNoWord word.now items.now }
{
    items.iter().all(|item| !item.word.is(word))
}

/// Whether the id is above those of all items.
pub(crate) fn is_above(id: ItemId, items: &[Item]) -> bool
    ensures { IsTrue result ↔ IsAbove id.0 items.now }
{
    items.iter().all(|item| item.id.0 < id.0)
}

/// Whether no item has the name of this one, where neither is cancelled.
pub(crate) fn has_own_name(item: &Item, items: &[Item]) -> bool
    ensures { IsTrue result ↔ HasOwnName item.now items.now }
{
    items.iter().all(|other| is_apart_from(item, other))
}

/// Whether the names of two items differ, where both have one and neither is cancelled.
fn is_apart_from(item: &Item, other: &Item) -> bool
    ensures { IsTrue result ↔ IsApartFrom item.now other.now }
{
    if item.phase == Phase::Cancelled || other.phase == Phase::Cancelled {
        return true;
    }
    match &item.name {
        Some(name) => !has_name(other, name.bytes()),
        None => true,
    }
}
