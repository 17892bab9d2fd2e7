ghost use Rattle.std.specs.Prelude.{◌≡◌, ◌≢◌, ◌↔◌, ◌⊎◌, true, IsTrue};
ghost use Rattle.dm_types.specs.Name as parts;
ghost use Rattle.dm_item.specs.Listing.{item_in};
ghost use Rattle.dm_item.specs.Row.{is_cancelled, is_complete};
ghost use Rattle.dm_answers.specs.Sweep.{IsLeftover, IsOutlived};

use dm_item::Items;
use dm_part::read_part_name;
use dm_types::{Epoch, Item, ItemId, Phase};

/// Whether an item of this phase has no use of a part.
fn is_over(phase: Phase) -> bool
    ensures { IsTrue result ↔ ((is_cancelled phase ≡ true) ⊎ (is_complete phase ≡ true)) }
{
    match phase {
        Phase::Cancelled => true,
        Phase::Complete => true,
        Phase::Waiting => false,
        Phase::Running => false,
        Phase::Paused => false,
        Phase::Finishing => false,
        Phase::Interrupted(_) => false,
    }
}

/// Whether the item has no use of its part of this epoch.
fn has_outlived(item: &Item, epoch: Epoch) -> bool
    ensures { IsTrue result ↔ ((is_cancelled item.now.phase ≡ true) ⊎ ((is_complete item.now.phase ≡ true) ⊎ (item.now.epoch.0 ≢ epoch.0))) }
{
    is_over(item.phase) || item.epoch.0 != epoch.0
}

/// Whether the item with the id, if there is one, has no use of its part of this epoch.
fn is_outlived(items: &Items, id: ItemId, epoch: Epoch) -> bool
    ensures { IsTrue result ↔ IsOutlived epoch.0 (item_in id.0 items.now.items) }
{
    match items.get(id) {
        Some(item) => has_outlived(item, epoch),
        None => true,
    }
}

/// Whether the part is one that an item of the list once had, and which none needs.
fn is_left(items: &Items, id: ItemId, epoch: Epoch) -> bool
    ensures { IsTrue result ↔ IsLeftover items.now (parts.part_name id.0 epoch.0) }
{
    id.0 < items.next() && is_outlived(items, id, epoch)
}

/// Whether the name is that of such a part.
pub(crate) fn is_leftover(items: &Items, name: &[u8]) -> bool
    ensures { IsTrue result ↔ IsLeftover items.now name.now }
{
    match read_part_name(name) {
        Some((id, epoch)) => is_left(items, id, epoch),
        None => false,
    }
}
