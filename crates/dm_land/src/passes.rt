ghost use Rattle.std.specs.Prelude.{◌≡◌, ◌↔◌, IsTrue, false, Some, slice_get};
ghost use Rattle.dm_store.specs.Store.{IsStore, view_of};
ghost use Rattle.dm_answers.specs.Faults.{fault_of};
ghost use Rattle.dm_answers.specs.Slices.{part_of};
ghost use Rattle.dm_land.specs.Landing.{FoundBy};

use dm_answers::{DeskFault, SlicePass};
use dm_disk_model::Disk;
use dm_edge::Origin;
use dm_store::{Gone, Life, Store, life_of, live_at};

/// What is answered to a pass that is refused.
pub fn declined(gone: Gone) -> DeskFault
    ensures { result ≡ fault_of gone }
{
    match gone {
        Gone::NoItem(id) => DeskFault::NoItem(id),
        Gone::Stale { attempt, round } => DeskFault::Stale { attempt, round },
    }
}

/// Whether the live round is the pass's, and has its part.
fn has_part(life: &Life, pass: &SlicePass) -> bool
    ensures { IsTrue result ↔ ((life.now.round ≡ pass.now.round) × (slice_get life.now.plan pass.now.index ≡ Some (part_of pass.now))) }
{
    match life.plan.items().get(pass.index as usize) {
        Some(part) => {
            life.round == pass.round
                && part.index == pass.index
                && part.first == pass.first
                && part.end == pass.end
        }
        None => false,
    }
}

/// The next place of a pass's part, and the bytes of its attempt that aren't saved.
pub(crate) fn find_pass<D: Disk, O: Origin>(
    store: &Store<D, O>,
    pass: &SlicePass,
) -> Result<(u64, u64), Gone>
    requires store { IsStore D.tells D.history store.now }
    requires whole { store.now.broken ≡ false }
    ensures { FoundBy (view_of store.now) pass.now result }
{
    match live_at(store, pass.id, pass.attempt) {
        Ok(_) => {}
        Err(gone) => return Err(gone),
    }
    let Some(life) = life_of(&store.lives, pass.id) else {
        unreachable!();
    };
    if !has_part(life, pass) {
        return Err(Gone::Stale {
            attempt: pass.attempt,
            round: life.round,
        });
    }
    match life.cover.next_place(pass.index) {
        Some(next) => Ok((next, life.unsaved)),
        None => unreachable!(),
    }
}
