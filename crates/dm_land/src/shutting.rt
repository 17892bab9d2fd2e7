ghost use Rattle.std.specs.Prelude.{◌≡◌, false};
ghost use Rattle.std.specs.Option.{option_map};
ghost use Rattle.dm_types.specs.Faults.{HasCause};
ghost use Rattle.dm_disk_model.specs.Moments.{KeepsFiles};
ghost use Rattle.dm_store.specs.Becomes.{kind_is};
ghost use Rattle.dm_store.specs.Keeps.{Keeps, StaysNear};
ghost use Rattle.dm_store.specs.Origin.{said_of};
ghost use Rattle.dm_store.specs.Store.{IsStore, view_of};
ghost use Rattle.dm_answers.specs.Faults.{desk_kind};
ghost use Rattle.dm_answers.specs.Shut.{ShutAnswers};
ghost use Rattle.dm_land.specs.Shutting.{ShutMakes, running_in};

use dm_answers::DeskFault;
use dm_disk_model::Disk;
use dm_edge::Origin;
use dm_store::{Store, interrupt};
use dm_types::{DiskKind, Item, ItemId, Phase, Reason};

/// Interrupts each item that runs, by rising id. It takes no memory.
pub fn shut<D: Disk, O: Origin>(store: &mut Store<D, O>) -> Result<(), DeskFault>
    requires store { IsStore D.tells D.history store.old }
    ensures store { IsStore D.tells D.history store.new }
    ensures answers { ShutAnswers (view_of store.old) (view_of store.new) result }
    ensures keeps { Keeps D.tells D.history (λ o. said_of (O.says o)) (view_of store.old) (view_of store.new) }
    ensures beside { D.tells → KeepsFiles (D.history store.old.disk) (D.history store.new.disk) }
    ensures cause { HasCause desk_kind (D.faults store.old.disk) (D.faults store.new.disk) result }
    ensures far { StaysNear (D.far store.old.disk) (D.far store.new.disk) (view_of store.old) (view_of store.new) }
{
    if store.broken {
        return Err(DeskFault::Broken);
    }
    match shut_all(store) {
        Ok(()) => Ok(()),
        Err(kind) => Err(DeskFault::Journal(kind)),
    }
}

/// The same of a desk that isn't broken.
fn shut_all<D: Disk, O: Origin>(store: &mut Store<D, O>) -> Result<(), DiskKind>
    requires store { IsStore D.tells D.history store.old }
    requires whole { store.old.broken ≡ false }
    ensures store { IsStore D.tells D.history store.new }
    ensures makes { ShutMakes (view_of store.old) (view_of store.new) result }
    ensures keeps { Keeps D.tells D.history (λ o. said_of (O.says o)) (view_of store.old) (view_of store.new) }
    ensures beside { D.tells → KeepsFiles (D.history store.old.disk) (D.history store.new.disk) }
    ensures cause { HasCause kind_is (D.faults store.old.disk) (D.faults store.new.disk) result }
    ensures far { StaysNear (D.far store.old.disk) (D.far store.new.disk) (view_of store.old) (view_of store.new) }
{
    'items: while let Some(id) = first_running(store.items.items()) {
        match interrupt(store, id, Reason::UserShutdown) {
            Ok(()) => {}
            Err(kind) => return Err(kind),
        }
    }
    Ok(())
}

/// The first item of which an attempt runs.
fn first_running(items: &[Item]) -> Option<ItemId>
    ensures { result ≡ option_map (λ item. item.id) (running_in items.now) }
{
    match items
        .iter()
        .find(|item| matches!(item.phase, Phase::Running))
    {
        Some(item) => Some(item.id),
        None => None,
    }
}
