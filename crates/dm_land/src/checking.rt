ghost use Rattle.dm_store.specs.Store.{IsStore, view_of};
ghost use Rattle.dm_answers.specs.Check.{CheckAnswers};

use crate::passes::{declined, find_pass};
use dm_answers::{DeskFault, SlicePass};
use dm_disk_model::Disk;
use dm_edge::Origin;
use dm_store::Store;

/// The next place of a part. It takes no memory and changes nothing.
pub fn check<D: Disk, O: Origin>(store: &Store<D, O>, pass: &SlicePass) -> Result<u64, DeskFault>
    requires store { IsStore D.tells D.history store.now }
    ensures answers { CheckAnswers (view_of store.now) pass.now result }
{
    if store.broken {
        return Err(DeskFault::Broken);
    }
    match find_pass(store, pass) {
        Ok((next, _)) => Ok(next),
        Err(gone) => Err(declined(gone)),
    }
}
