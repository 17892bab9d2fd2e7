ghost use Rattle.std.specs.Prelude.{◌≡◌, false, IfOk, OnOk};
ghost use Rattle.dm_types.specs.Faults.{HasCause};
ghost use Rattle.dm_types.specs.Name.{IsPart};
ghost use Rattle.dm_types.specs.declared.entry.Entry.TheVariants as entries;
ghost use Rattle.dm_disk_model.specs.Beside.{Besides};
ghost use Rattle.dm_disk_model.specs.Moments.{KeepsFiles};
ghost use Rattle.dm_item.specs.Listing.{Admits};
ghost use Rattle.dm_store.specs.Becomes.{RecordMakes, kind_is};
ghost use Rattle.dm_store.specs.Keeps.{Keeps, StaysNear};
ghost use Rattle.dm_store.specs.Origin.{said_of};
ghost use Rattle.dm_store.specs.Readied.{IsReadied};
ghost use Rattle.dm_store.specs.Store.{HasRoomOf, IsStore, view_of};
ghost use Rattle.dm_answers.specs.Faults.{desk_kind};
ghost use Rattle.dm_answers.specs.Frame.{KeepsReads};
ghost use Rattle.dm_answers.specs.Pause.{MayPause, PauseAnswers};
ghost use Rattle.dm_answers.specs.Running.{ItemWith};
ghost use Rattle.dm_land.specs.Preparing.{PreparedOf};

use crate::saving::{Prepared, prepare_saving, save_if, unsaved};
use dm_answers::DeskFault;
use dm_disk_model::Disk;
use dm_edge::Origin;
use dm_store::{Readied, Store, make_room, ready, record};
use dm_types::{DiskKind, Entry, ItemId, NoMemory, Phase, let_go};

/// Pauses an item; what was landed is saved first.
pub fn pause<D: Disk, O: Origin>(store: &mut Store<D, O>, id: ItemId) -> Result<(), DeskFault>
    requires store { IsStore D.tells D.history store.old }
    ensures store { IsStore D.tells D.history store.new }
    ensures answers { PauseAnswers D.faults (view_of store.old) (view_of store.new) id result }
    ensures keeps { Keeps D.tells D.history (λ o. said_of (O.says o)) (view_of store.old) (view_of store.new) }
    ensures beside { D.tells → Besides IsPart (D.history store.old.disk) (D.history store.new.disk) }
    ensures reads { D.tells → KeepsReads D.history store.old.disk store.new.disk }
    ensures cause { HasCause desk_kind (D.faults store.old.disk) (D.faults store.new.disk) result }
    ensures far { StaysNear (D.far store.old.disk) (D.far store.new.disk) (view_of store.old) (view_of store.new) }
{
    if store.broken {
        return Err(DeskFault::Broken);
    }
    let Some(item) = store.items.get(id) else {
        return Err(DeskFault::NoItem(id));
    };
    match item.phase {
        Phase::Paused => Ok(()),
        Phase::Waiting | Phase::Running | Phase::Interrupted(_) => pause_item(store, id),
        Phase::Finishing | Phase::Complete | Phase::Cancelled => {
            Err(DeskFault::WrongState(item.phase))
        }
    }
}

/// Pauses an item that waits, runs or is interrupted. All memory is taken before the first call on the disk.
fn pause_item<D: Disk, O: Origin>(store: &mut Store<D, O>, id: ItemId) -> Result<(), DeskFault>
    requires store { IsStore D.tells D.history store.old }
    requires whole { store.old.broken ≡ false }
    requires may { ItemWith (view_of store.old) id MayPause }
    ensures store { IsStore D.tells D.history store.new }
    ensures answers { PauseAnswers D.faults (view_of store.old) (view_of store.new) id result }
    ensures keeps { Keeps D.tells D.history (λ o. said_of (O.says o)) (view_of store.old) (view_of store.new) }
    ensures beside { D.tells → Besides IsPart (D.history store.old.disk) (D.history store.new.disk) }
    ensures reads { D.tells → KeepsReads D.history store.old.disk store.new.disk }
    ensures cause { HasCause desk_kind (D.faults store.old.disk) (D.faults store.new.disk) result }
    ensures far { StaysNear (D.far store.old.disk) (D.far store.new.disk) (view_of store.old) (view_of store.new) }
{
    match prepare_both(store, id) {
        Ok((prepared, readied)) => save_and_pause(store, id, prepared, readied),
        Err(NoMemory) => Err(DeskFault::NoMemory),
    }
}

/// Takes all memory of saving what was landed and of pausing then.
fn prepare_both<D: Disk, O: Origin>(
    store: &mut Store<D, O>,
    id: ItemId,
) -> Result<(Option<Prepared>, Readied), NoMemory>
    requires store { IsStore D.tells D.history store.old }
    requires whole { store.old.broken ≡ false }
    ensures store { IsStore D.tells D.history store.new }
    ensures same { view_of store.new ≡ view_of store.old }
    ensures prepared { IfOk result (λ both. PreparedOf (view_of store.new) id both.0) }
    ensures readied { IfOk result (λ both. IsReadied store.new.items (entries.Paused id) both.1) }
    ensures room { OnOk result (HasRoomOf 2 store.new) }
{
    let readied = prepare_pausing(store, id)?;
    match prepare_saving(store, id) {
        Ok(prepared) => Ok((prepared, readied)),
        Err(NoMemory) => Err(NoMemory),
    }
}

/// Takes the memory of pausing an item, behind a saving.
fn prepare_pausing<D: Disk, O: Origin>(
    store: &mut Store<D, O>,
    id: ItemId,
) -> Result<Readied, NoMemory>
    requires { IsStore D.tells D.history store.old }
    ensures store { IsStore D.tells D.history store.new }
    ensures same { view_of store.new ≡ view_of store.old }
    ensures ok { IfOk result (IsReadied store.new.items (entries.Paused id)) }
    ensures room { OnOk result (HasRoomOf 2 store.new) }
{
    make_room(store, 2)?;
    ready_paused(store, id)
}

/// Takes the memory of the entry by which an item is paused.
fn ready_paused<D: Disk, O: Origin>(store: &Store<D, O>, id: ItemId) -> Result<Readied, NoMemory>
    ensures { IfOk result (IsReadied store.now.items (entries.Paused id)) }
{
    let entry = Entry::Paused { id };
    let readied = ready(store, &entry);
    let_go(entry);
    readied
}

/// Saves what was landed, and then pauses.
fn save_and_pause<D: Disk, O: Origin>(
    store: &mut Store<D, O>,
    id: ItemId,
    prepared: Option<Prepared>,
    readied: Readied,
) -> Result<(), DeskFault>
    requires store { IsStore D.tells D.history store.old }
    requires whole { store.old.broken ≡ false }
    requires may { ItemWith (view_of store.old) id MayPause }
    requires prepared { PreparedOf (view_of store.old) id prepared }
    requires readied { IsReadied store.old.items (entries.Paused id) readied }
    requires room { HasRoomOf 2 store.old }
    ensures store { IsStore D.tells D.history store.new }
    ensures answers { PauseAnswers D.faults (view_of store.old) (view_of store.new) id result }
    ensures keeps { Keeps D.tells D.history (λ o. said_of (O.says o)) (view_of store.old) (view_of store.new) }
    ensures beside { D.tells → Besides IsPart (D.history store.old.disk) (D.history store.new.disk) }
    ensures reads { D.tells → KeepsReads D.history store.old.disk store.new.disk }
    ensures cause { HasCause desk_kind (D.faults store.old.disk) (D.faults store.new.disk) result }
    ensures far { StaysNear (D.far store.old.disk) (D.far store.new.disk) (view_of store.old) (view_of store.new) }
{
    match save_if(store, id, prepared) {
        Ok(()) => match record_paused(store, id, readied) {
            Ok(()) => Ok(()),
            Err(kind) => Err(DeskFault::Journal(kind)),
        },
        Err(fault) => {
            let_go(readied);
            Err(unsaved(fault))
        }
    }
}

/// Records that an item is paused. It takes no memory.
fn record_paused<D: Disk, O: Origin>(
    store: &mut Store<D, O>,
    id: ItemId,
    readied: Readied,
) -> Result<(), DiskKind>
    requires store { IsStore D.tells D.history store.old }
    requires whole { store.old.broken ≡ false }
    requires taken { Admits store.old.items (entries.Paused id) }
    requires readied { IsReadied store.old.items (entries.Paused id) readied }
    requires room { HasRoomOf 1 store.old }
    ensures store { IsStore D.tells D.history store.new }
    ensures keeps { Keeps D.tells D.history (λ o. said_of (O.says o)) (view_of store.old) (view_of store.new) }
    ensures makes { RecordMakes (view_of store.old) (view_of store.new) (entries.Paused id) result }
    ensures beside { D.tells → KeepsFiles (D.history store.old.disk) (D.history store.new.disk) }
    ensures cause { HasCause kind_is (D.faults store.old.disk) (D.faults store.new.disk) result }
    ensures far { StaysNear (D.far store.old.disk) (D.far store.new.disk) (view_of store.old) (view_of store.new) }
{
    let Readied { body, item } = readied;
    record(store, Entry::Paused { id }, body.bytes(), item, None)
}
