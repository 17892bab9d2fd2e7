ghost use Rattle.std.specs.Prelude.{◌≡◌, ◌+◌, ℕ, false, IfOk, OnOk};
ghost use Rattle.dm_types.specs.Faults.{HasCause};
ghost use Rattle.dm_types.specs.Name.{IsPart};
ghost use Rattle.dm_types.specs.declared.entry.Entry.TheVariants as entries;
ghost use Rattle.dm_disk_model.specs.Beside.{Besides};
ghost use Rattle.dm_record.specs.Limits.{IsSpellable};
ghost use Rattle.dm_store.specs.Keeps.{Keeps, StaysNear};
ghost use Rattle.dm_store.specs.Origin.{said_of};
ghost use Rattle.dm_store.specs.Readied.{IsReadied};
ghost use Rattle.dm_store.specs.Saving.{save_kind};
ghost use Rattle.dm_store.specs.Store.{HasRoomOf, IsStore, view_of};
ghost use Rattle.dm_answers.specs.Frame.{KeepsReads};
ghost use Rattle.dm_land.specs.Preparing.{PrepareAnswers, PreparedOf, SaveIfMakes, fault_of_save};

use dm_answers::DeskFault;
use dm_disk_model::Disk;
use dm_edge::Origin;
use dm_store::{Readied, SaveFault, Store, life_of, ready, save};
use dm_types::{Entry, ItemId, NoMemory, Slices, let_go};

/// What saves all that was landed, with its memory.
#[derive(Drop)]
pub struct Prepared {
    pub entry: Entry,
    pub readied: Readied,
}

/// What is answered where what was landed couldn't be saved.
pub fn unsaved(fault: SaveFault) -> DeskFault
    ensures { result ≡ fault_of_save fault }
{
    match fault {
        SaveFault::File(kind) => DeskFault::File(kind),
        SaveFault::Journal(kind) => DeskFault::Journal(kind),
    }
}

/// Makes ready to save what was landed of an item's attempt; none where none runs or nothing was landed
/// since the last time. It changes nothing.
pub fn prepare_saving<D: Disk, O: Origin>(
    store: &Store<D, O>,
    id: ItemId,
) -> Result<Option<Prepared>, NoMemory>
    requires store { IsStore D.tells D.history store.now }
    requires whole { store.now.broken ≡ false }
    ensures { PrepareAnswers (view_of store.now) id result }
{
    let Some(life) = life_of(&store.lives, id) else {
        return Ok(None);
    };
    if life.unsaved == 0 {
        return Ok(None);
    }
    let Some(item) = store.items.get(id) else {
        unreachable!();
    };
    let slices = life.cover.normal(item.total)?;
    match ready_progress(store, id, slices) {
        Ok(prepared) => Ok(Some(prepared)),
        Err(NoMemory) => Err(NoMemory),
    }
}

/// Makes ready to save these places of an item. It changes nothing.
fn ready_progress<D: Disk, O: Origin>(
    store: &Store<D, O>,
    id: ItemId,
    slices: Slices,
) -> Result<Prepared, NoMemory>
    requires { IsSpellable (entries.Progress id slices) }
    ensures entry { IfOk result (λ prepared. prepared.entry ≡ entries.Progress id slices) }
    ensures readied { IfOk result (λ prepared. IsReadied store.now.items prepared.entry prepared.readied) }
{
    let entry = progress(id, slices);
    match ready(store, &entry) {
        Ok(readied) => Ok(Prepared { entry, readied }),
        Err(NoMemory) => {
            let_go(entry);
            Err(NoMemory)
        }
    }
}

/// The entry that saves these places of an item.
fn progress(id: ItemId, slices: Slices) -> Entry
    ensures { result ≡ entries.Progress id slices }
{
    Entry::Progress { id, slices }
}

/// Saves what was made ready of an item's attempt, if anything was. It takes no memory.
pub fn save_if<D: Disk, O: Origin>(
    store: &mut Store<D, O>,
    id: ItemId,
    prepared: Option<Prepared>,
) -> Result<(), SaveFault>
    requires store { IsStore D.tells D.history store.old }
    requires whole { store.old.broken ≡ false }
    requires prepared { PreparedOf (view_of store.old) id prepared }
    requires room { HasRoomOf 1 store.old }
    ensures store { IsStore D.tells D.history store.new }
    ensures keeps { Keeps D.tells D.history (λ o. said_of (O.says o)) (view_of store.old) (view_of store.new) }
    ensures makes { SaveIfMakes (D.faults store.old.disk) (D.faults store.new.disk) (view_of store.old) (view_of store.new) id prepared result }
    ensures room { OnOk result ((count : ℕ) → HasRoomOf (count + 1) store.old → HasRoomOf count store.new) }
    ensures beside { D.tells → Besides IsPart (D.history store.old.disk) (D.history store.new.disk) }
    ensures reads { D.tells → KeepsReads D.history store.old.disk store.new.disk }
    ensures cause { HasCause save_kind (D.faults store.old.disk) (D.faults store.new.disk) result }
    ensures far { StaysNear (D.far store.old.disk) (D.far store.new.disk) (view_of store.old) (view_of store.new) }
{
    match prepared {
        Some(Prepared { entry, readied }) => save(store, id, entry, readied),
        None => Ok(()),
    }
}
