ghost use Rattle.std.specs.Prelude.{◌≡◌, false};
ghost use Rattle.dm_types.specs.Faults.{HasCause};
ghost use Rattle.dm_types.specs.Name.{IsPart};
ghost use Rattle.dm_disk_model.specs.Beside.{Besides};
ghost use Rattle.dm_store.specs.Keeps.{Keeps, StaysNear};
ghost use Rattle.dm_store.specs.Origin.{said_of};
ghost use Rattle.dm_store.specs.Store.{IsStore, view_of};
ghost use Rattle.dm_answers.specs.Broke.{IsUnderWay};
ghost use Rattle.dm_answers.specs.Checkpoint.{CheckpointAnswers};
ghost use Rattle.dm_answers.specs.Faults.{desk_kind};
ghost use Rattle.dm_answers.specs.Frame.{KeepsReads};
ghost use Rattle.dm_answers.specs.Running.{RunsWith};
ghost use Rattle.dm_land.specs.Preparing.{IsPrepared};

use crate::passes::declined;
use crate::saving::{Prepared, prepare_saving, unsaved};
use dm_answers::DeskFault;
use dm_disk_model::Disk;
use dm_edge::Origin;
use dm_store::{Pass, Store, live_at, make_room, save};
use dm_types::{NoMemory, let_go};

/// Saves what was landed: syncs the part and records its cover.
pub fn checkpoint<D: Disk, O: Origin>(store: &mut Store<D, O>, pass: &Pass) -> Result<(), DeskFault>
    requires store { IsStore D.tells D.history store.old }
    ensures store { IsStore D.tells D.history store.new }
    ensures answers { CheckpointAnswers D.faults (view_of store.old) (view_of store.new) pass.now result }
    ensures keeps { Keeps D.tells D.history (λ o. said_of (O.says o)) (view_of store.old) (view_of store.new) }
    ensures beside { D.tells → Besides IsPart (D.history store.old.disk) (D.history store.new.disk) }
    ensures reads { D.tells → KeepsReads D.history store.old.disk store.new.disk }
    ensures cause { HasCause desk_kind (D.faults store.old.disk) (D.faults store.new.disk) result }
    ensures far { StaysNear (D.far store.old.disk) (D.far store.new.disk) (view_of store.old) (view_of store.new) }
{
    if store.broken {
        return Err(DeskFault::Broken);
    }
    match live_at(store, pass.id, pass.attempt) {
        Ok(_) => save_live(store, pass),
        Err(gone) => Err(declined(gone)),
    }
}

/// Saves what was landed of an attempt that runs. All memory is taken before the first call on the disk.
fn save_live<D: Disk, O: Origin>(store: &mut Store<D, O>, pass: &Pass) -> Result<(), DeskFault>
    requires store { IsStore D.tells D.history store.old }
    requires whole { store.old.broken ≡ false }
    requires live { RunsWith (view_of store.old) pass.now.id pass.now.attempt IsUnderWay }
    ensures store { IsStore D.tells D.history store.new }
    ensures answers { CheckpointAnswers D.faults (view_of store.old) (view_of store.new) pass.now result }
    ensures keeps { Keeps D.tells D.history (λ o. said_of (O.says o)) (view_of store.old) (view_of store.new) }
    ensures beside { D.tells → Besides IsPart (D.history store.old.disk) (D.history store.new.disk) }
    ensures reads { D.tells → KeepsReads D.history store.old.disk store.new.disk }
    ensures cause { HasCause desk_kind (D.faults store.old.disk) (D.faults store.new.disk) result }
    ensures far { StaysNear (D.far store.old.disk) (D.far store.new.disk) (view_of store.old) (view_of store.new) }
{
    match prepare_saving(store, pass.id) {
        Ok(Some(prepared)) => save_prepared(store, pass, prepared),
        Ok(None) => Ok(()),
        Err(NoMemory) => Err(DeskFault::NoMemory),
    }
}

fn save_prepared<D: Disk, O: Origin>(
    store: &mut Store<D, O>,
    pass: &Pass,
    prepared: Prepared,
) -> Result<(), DeskFault>
    requires store { IsStore D.tells D.history store.old }
    requires whole { store.old.broken ≡ false }
    requires live { RunsWith (view_of store.old) pass.now.id pass.now.attempt IsUnderWay }
    requires prepared { IsPrepared (view_of store.old) pass.now.id prepared }
    ensures store { IsStore D.tells D.history store.new }
    ensures answers { CheckpointAnswers D.faults (view_of store.old) (view_of store.new) pass.now result }
    ensures keeps { Keeps D.tells D.history (λ o. said_of (O.says o)) (view_of store.old) (view_of store.new) }
    ensures beside { D.tells → Besides IsPart (D.history store.old.disk) (D.history store.new.disk) }
    ensures reads { D.tells → KeepsReads D.history store.old.disk store.new.disk }
    ensures cause { HasCause desk_kind (D.faults store.old.disk) (D.faults store.new.disk) result }
    ensures far { StaysNear (D.far store.old.disk) (D.far store.new.disk) (view_of store.old) (view_of store.new) }
{
    match make_room(store, 1) {
        Ok(()) => {}
        Err(NoMemory) => {
            let_go(prepared);
            return Err(DeskFault::NoMemory);
        }
    }
    let Prepared { entry, readied } = prepared;
    match save(store, pass.id, entry, readied) {
        Ok(()) => Ok(()),
        Err(fault) => Err(unsaved(fault)),
    }
}
