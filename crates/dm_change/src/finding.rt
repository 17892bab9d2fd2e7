ghost use Rattle.std.specs.Prelude.{◌≡◌, find};
ghost use Rattle.std.specs.Option.{option_copied};
ghost use Rattle.dm_change.specs.Due.{due_by, first_due, is_due};

use dm_disk_model::Disk;
use dm_edge::Origin;
use dm_item::mode_of_item;
use dm_policy::is_immediate;
use dm_store::Store;
use dm_types::{By, Item, ItemId, Phase};

/// By whom an attempt of the item is due, where one is.
fn due_by(item: &Item) -> Option<By>
    ensures { result ≡ due_by item.now }
{
    match item.phase {
        Phase::Waiting => Some(By::User),
        Phase::Interrupted(_) => {
            if is_immediate(mode_of_item(item)) {
                Some(By::Itself)
            } else {
                None
            }
        }
        Phase::Running | Phase::Paused | Phase::Finishing | Phase::Complete | Phase::Cancelled => {
            None
        }
    }
}

fn is_due(item: &Item) -> bool
    ensures { result ≡ is_due item.now }
{
    due_by(item).is_some()
}

fn find_due(items: &[Item]) -> Option<&Item>
    ensures { option_copied result ≡ find is_due items.now }
{
    items.iter().find(|item| is_due(item))
}

/// The least id of an item that is due for an attempt, and by whom: one that waits, by the user, or
/// one that was interrupted and goes on at once, by itself.
pub fn due<D: Disk, O: Origin>(store: &Store<D, O>) -> Option<(ItemId, By)>
    ensures { result ≡ first_due store.now.items.items }
{
    first_due(store.items.items())
}

/// The first item that is due for an attempt, and by whom.
fn first_due(items: &[Item]) -> Option<(ItemId, By)>
    ensures { result ≡ first_due items.now }
{
    match find_due(items) {
        Some(item) => match due_by(item) {
            Some(by) => Some((item.id, by)),
            None => None,
        },
        None => None,
    }
}
