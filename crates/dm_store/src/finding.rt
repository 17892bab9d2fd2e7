ghost use Rattle.std.specs.Prelude.{◌≡◌, ◌↔◌, false, IsTrue};
ghost use Rattle.std.specs.Option.{option_copied};
ghost use Rattle.dm_item.specs.Fields.{is_running};
ghost use Rattle.dm_store.specs.Lives.{life_in, place_of};
ghost use Rattle.dm_store.specs.Passes.{LiveAt, round_of};
ghost use Rattle.dm_store.specs.Store.{IsStore, view_of};

use crate::{Gone, Life, Store};
use dm_disk_model::Disk;
use dm_edge::Origin;
use dm_types::{Attempt, Item, ItemId, Phase};

/// The place of the life of an id.
pub fn find_life(lives: &[Life], id: ItemId) -> Option<usize>
    ensures { result ≡ place_of id.0 lives.now }
{
    lives.iter().position(|life| life.id.0 == id.0)
}

/// The life of an id.
pub fn life_of(lives: &[Life], id: ItemId) -> Option<&Life>
    ensures { option_copied result ≡ life_in id.0 lives.now }
{
    lives.iter().find(|life| life.id.0 == id.0)
}

/// The round of the life of an id, and 0 where there is none.
fn round_at(lives: &[Life], id: ItemId) -> u32
    ensures { result ≡ round_of (life_in id.0 lives.now) }
{
    match life_of(lives, id) {
        Some(life) => life.round,
        None => 0,
    }
}

/// Whether the item runs under the attempt.
fn runs_under(item: &Item, attempt: Attempt) -> bool
    ensures { IsTrue result ↔ (IsTrue (is_running item.now.phase) × (item.now.attempt ≡ attempt)) }
{
    matches!(item.phase, Phase::Running) && item.attempt.0 == attempt.0
}

/// The place of the life of an item that runs under an attempt.
pub fn live_at<D: Disk, O: Origin>(
    store: &Store<D, O>,
    id: ItemId,
    attempt: Attempt,
) -> Result<usize, Gone>
    requires store { IsStore D.tells D.history store.now }
    requires whole { store.now.broken ≡ false }
    ensures { LiveAt (view_of store.now) id attempt result }
{
    let Some(item) = store.items.get(id) else {
        return Err(Gone::NoItem(id));
    };
    if runs_under(item, attempt) {
        match find_life(&store.lives, id) {
            Some(place) => Ok(place),
            None => unreachable!(),
        }
    } else {
        Err(Gone::Stale {
            attempt: item.attempt,
            round: round_at(&store.lives, id),
        })
    }
}
