ghost use Rattle.std.specs.Prelude.{◌≡◌, false};
ghost use Rattle.dm_types.specs.Faults.{HasCause};
ghost use Rattle.dm_disk_model.specs.Beside.{Besides};
ghost use Rattle.dm_store.specs.Keeps.{Keeps, StaysNear};
ghost use Rattle.dm_store.specs.Origin.{said_of};
ghost use Rattle.dm_store.specs.Store.{IsStore, view_of};
ghost use Rattle.dm_answers.specs.Sweep.{IsLeftover};
ghost use Rattle.dm_find.specs.Reopening.{hindered_kind};
ghost use Rattle.dm_settle.specs.Settled.{AllMakes, IsPartOrGiven, NeverBreaks};
ghost use Rattle.dm_open.specs.Finishing.{FinishMakes, SweptOr};

use dm_answers::DeskFault;
use dm_disk_model::{Area, Disk, NamesFault};
use dm_edge::Origin;
use dm_find::Hindered;
use dm_settle::settle_all;
use dm_store::Store;
use dm_sweep::sweep;

/// Lists the user's files and settles the items that were being finished.
fn settle_listed<D: Disk, O: Origin>(store: &mut Store<D, O>, at: u64) -> Result<(), Hindered>
    requires store { IsStore D.tells D.history store.old }
    requires whole { store.old.broken ≡ false }
    ensures store { IsStore D.tells D.history store.new }
    ensures makes { AllMakes D.tells D.history (view_of store.old) (view_of store.new) at result }
    ensures keeps { Keeps D.tells D.history (λ o. said_of (O.says o)) (view_of store.old) (view_of store.new) }
    ensures never_breaks { NeverBreaks D.tells D.history (λ o. said_of (O.says o)) (view_of store.old) (view_of store.new) }
    ensures beside { D.tells → Besides (IsPartOrGiven D.history (view_of store.old)) (D.history store.old.disk) (D.history store.new.disk) }
    ensures cause { HasCause hindered_kind (D.faults store.old.disk) (D.faults store.new.disk) result }
    ensures far { StaysNear (D.far store.old.disk) (D.far store.new.disk) (view_of store.old) (view_of store.new) }
{
    match store.disk.names(store.alloc, Area::Files) {
        Ok(names) => settle_all(store, &names, at),
        Err(NamesFault::NoMemory) => Err(Hindered::NoMemory),
        Err(NamesFault::Disk(kind)) => Err(Hindered::Disk(kind)),
    }
}

/// Removes the parts that none needs, of a store that isn't broken.
fn sweep_whole<D: Disk, O: Origin>(store: &mut Store<D, O>) -> Result<(), Hindered>
    requires store { IsStore D.tells D.history store.old }
    requires whole { store.old.broken ≡ false }
    ensures store { IsStore D.tells D.history store.new }
    ensures makes { SweptOr D.tells D.history (view_of store.old) (view_of store.new) result }
    ensures keeps { Keeps D.tells D.history (λ o. said_of (O.says o)) (view_of store.old) (view_of store.new) }
    ensures beside { D.tells → Besides (IsLeftover store.old.items) (D.history store.old.disk) (D.history store.new.disk) }
    ensures cause { HasCause hindered_kind (D.faults store.old.disk) (D.faults store.new.disk) result }
    ensures far { StaysNear (D.far store.old.disk) (D.far store.new.disk) (view_of store.old) (view_of store.new) }
{
    match sweep(store) {
        Ok(()) => Ok(()),
        Err(DeskFault::File(kind)) => Err(Hindered::Disk(kind)),
        Err(DeskFault::NoMemory) => Err(Hindered::NoMemory),
        Err(_) => unreachable!(),
    }
}

/// Settles what was being finished, and sweeps.
pub(crate) fn finish_opening<D: Disk, O: Origin>(
    store: &mut Store<D, O>,
    at: u64,
) -> Result<(), Hindered>
    requires store { IsStore D.tells D.history store.old }
    requires whole { store.old.broken ≡ false }
    ensures store { IsStore D.tells D.history store.new }
    ensures makes { FinishMakes D.tells D.history (view_of store.old) (view_of store.new) at result }
    ensures keeps { Keeps D.tells D.history (λ o. said_of (O.says o)) (view_of store.old) (view_of store.new) }
    ensures never_breaks { NeverBreaks D.tells D.history (λ o. said_of (O.says o)) (view_of store.old) (view_of store.new) }
    ensures beside { D.tells → Besides (IsPartOrGiven D.history (view_of store.old)) (D.history store.old.disk) (D.history store.new.disk) }
    ensures cause { HasCause hindered_kind (D.faults store.old.disk) (D.faults store.new.disk) result }
    ensures far { StaysNear (D.far store.old.disk) (D.far store.new.disk) (view_of store.old) (view_of store.new) }
{
    match settle_listed(store, at) {
        Ok(()) => sweep_whole(store),
        Err(fault) => Err(fault),
    }
}
