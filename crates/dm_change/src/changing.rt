ghost use Rattle.std.specs.Prelude.{◌≡◌, false};
ghost use Rattle.std.specs.Option.{option_map};
ghost use Rattle.dm_types.specs.Faults.{HasCause};
ghost use Rattle.dm_types.specs.declared.entry.Entry.TheVariants as entries;
ghost use Rattle.dm_disk_model.specs.Moments.{KeepsFiles};
ghost use Rattle.dm_item.specs.Listing.{item_in};
ghost use Rattle.dm_item.specs.Row.{is_cancelled};
ghost use Rattle.dm_store.specs.Keeps.{Keeps, StaysNear};
ghost use Rattle.dm_store.specs.Origin.{said_of};
ghost use Rattle.dm_store.specs.Store.{IsStore, view_of};
ghost use Rattle.dm_answers.specs.Change.{ChangeAnswers, IsDueChange, in_no_phase, is_under_way};
ghost use Rattle.dm_answers.specs.Faults.{desk_kind};
ghost use Rattle.dm_change.specs.Changing.{ChangeChecked, entry_of, leaves};

use dm_answers::DeskFault;
use dm_disk_model::Disk;
use dm_edge::Origin;
use dm_item::Items;
use dm_store::{Store, Unrecorded, record_idle};
use dm_types::{Entry, ItemId, Phase, let_go};

/// What the user makes of an item.
#[derive(Clone, Copy)]
pub(crate) enum Change {
    Resume,
    Cancel,
    Remove,
    Archive,
}

/// Resumes an item, which then waits for an attempt. One that waits or runs stays as it is; one that is
/// paused or interrupted is resumed unless it may not go on.
pub fn resume<D: Disk, O: Origin>(store: &mut Store<D, O>, id: ItemId) -> Result<(), DeskFault>
    requires store { IsStore D.tells D.history store.old }
    ensures store { IsStore D.tells D.history store.new }
    ensures answers { ChangeAnswers is_under_way (entries.Asked id) id (view_of store.old) (view_of store.new) result }
    ensures keeps { Keeps D.tells D.history (λ o. said_of (O.says o)) (view_of store.old) (view_of store.new) }
    ensures beside { D.tells → KeepsFiles (D.history store.old.disk) (D.history store.new.disk) }
    ensures cause { HasCause desk_kind (D.faults store.old.disk) (D.faults store.new.disk) result }
    ensures far { StaysNear (D.far store.old.disk) (D.far store.new.disk) (view_of store.old) (view_of store.new) }
{
    make(store, Change::Resume, id)
}

/// Cancels an item. A cancelled one stays as it is; one that is being finished or complete is refused.
pub fn cancel<D: Disk, O: Origin>(store: &mut Store<D, O>, id: ItemId) -> Result<(), DeskFault>
    requires store { IsStore D.tells D.history store.old }
    ensures store { IsStore D.tells D.history store.new }
    ensures answers { ChangeAnswers is_cancelled (entries.Cancelled id) id (view_of store.old) (view_of store.new) result }
    ensures keeps { Keeps D.tells D.history (λ o. said_of (O.says o)) (view_of store.old) (view_of store.new) }
    ensures beside { D.tells → KeepsFiles (D.history store.old.disk) (D.history store.new.disk) }
    ensures cause { HasCause desk_kind (D.faults store.old.disk) (D.faults store.new.disk) result }
    ensures far { StaysNear (D.far store.old.disk) (D.far store.new.disk) (view_of store.old) (view_of store.new) }
{
    make(store, Change::Cancel, id)
}

/// Removes an item from the list. One that runs or is being finished is refused.
pub fn remove<D: Disk, O: Origin>(store: &mut Store<D, O>, id: ItemId) -> Result<(), DeskFault>
    requires store { IsStore D.tells D.history store.old }
    ensures store { IsStore D.tells D.history store.new }
    ensures answers { ChangeAnswers in_no_phase (entries.Removed id) id (view_of store.old) (view_of store.new) result }
    ensures keeps { Keeps D.tells D.history (λ o. said_of (O.says o)) (view_of store.old) (view_of store.new) }
    ensures beside { D.tells → KeepsFiles (D.history store.old.disk) (D.history store.new.disk) }
    ensures cause { HasCause desk_kind (D.faults store.old.disk) (D.faults store.new.disk) result }
    ensures far { StaysNear (D.far store.old.disk) (D.far store.new.disk) (view_of store.old) (view_of store.new) }
{
    make(store, Change::Remove, id)
}

/// Takes an item out of the list that is kept elsewhere now. Only a complete or cancelled one is taken.
pub fn archived<D: Disk, O: Origin>(store: &mut Store<D, O>, id: ItemId) -> Result<(), DeskFault>
    requires store { IsStore D.tells D.history store.old }
    ensures store { IsStore D.tells D.history store.new }
    ensures answers { ChangeAnswers in_no_phase (entries.Archived id) id (view_of store.old) (view_of store.new) result }
    ensures keeps { Keeps D.tells D.history (λ o. said_of (O.says o)) (view_of store.old) (view_of store.new) }
    ensures beside { D.tells → KeepsFiles (D.history store.old.disk) (D.history store.new.disk) }
    ensures cause { HasCause desk_kind (D.faults store.old.disk) (D.faults store.new.disk) result }
    ensures far { StaysNear (D.far store.old.disk) (D.far store.new.disk) (view_of store.old) (view_of store.new) }
{
    make(store, Change::Archive, id)
}

/// Makes a change, where it is due.
fn make<D: Disk, O: Origin>(
    store: &mut Store<D, O>,
    change: Change,
    id: ItemId,
) -> Result<(), DeskFault>
    requires store { IsStore D.tells D.history store.old }
    ensures store { IsStore D.tells D.history store.new }
    ensures answers { ChangeAnswers (leaves change) (entry_of change id) id (view_of store.old) (view_of store.new) result }
    ensures keeps { Keeps D.tells D.history (λ o. said_of (O.says o)) (view_of store.old) (view_of store.new) }
    ensures beside { D.tells → KeepsFiles (D.history store.old.disk) (D.history store.new.disk) }
    ensures cause { HasCause desk_kind (D.faults store.old.disk) (D.faults store.new.disk) result }
    ensures far { StaysNear (D.far store.old.disk) (D.far store.new.disk) (view_of store.old) (view_of store.new) }
{
    if store.broken {
        return Err(DeskFault::Broken);
    }
    match check_change(&store.items, change, id) {
        Ok(true) => record_change(store, change, id),
        Ok(false) => Ok(()),
        Err(fault) => Err(fault),
    }
}

/// Records the entry of a change that is due.
fn record_change<D: Disk, O: Origin>(
    store: &mut Store<D, O>,
    change: Change,
    id: ItemId,
) -> Result<(), DeskFault>
    requires store { IsStore D.tells D.history store.old }
    requires whole { store.old.broken ≡ false }
    requires due { IsDueChange (leaves change) (entry_of change id) id store.old.items }
    ensures store { IsStore D.tells D.history store.new }
    ensures answers { ChangeAnswers (leaves change) (entry_of change id) id (view_of store.old) (view_of store.new) result }
    ensures keeps { Keeps D.tells D.history (λ o. said_of (O.says o)) (view_of store.old) (view_of store.new) }
    ensures beside { D.tells → KeepsFiles (D.history store.old.disk) (D.history store.new.disk) }
    ensures cause { HasCause desk_kind (D.faults store.old.disk) (D.faults store.new.disk) result }
    ensures far { StaysNear (D.far store.old.disk) (D.far store.new.disk) (view_of store.old) (view_of store.new) }
{
    match record_idle(store, entry_of(change, id)) {
        Ok(()) => Ok(()),
        Err(fault) => match fault {
            Unrecorded::NoMemory => Err(DeskFault::NoMemory),
            Unrecorded::Journal(kind) => Err(DeskFault::Journal(kind)),
        },
    }
}

/// Whether a change is still to be made, or why it may not be.
fn check_change(items: &Items, change: Change, id: ItemId) -> Result<bool, DeskFault>
    ensures { ChangeChecked change id items.now result }
{
    let Some(phase) = phase_of(items, id) else {
        return Err(DeskFault::NoItem(id));
    };
    if leaves(change, phase) {
        return Ok(false);
    }
    let entry = entry_of(change, id);
    let admitted = items.admits(&entry);
    let_go(entry);
    match admitted {
        Ok(()) => Ok(true),
        Err(_) => Err(DeskFault::WrongState(phase)),
    }
}

/// The phase of the item with an id.
fn phase_of(items: &Items, id: ItemId) -> Option<Phase>
    ensures { result ≡ option_map (λ item. item.phase) (item_in id.0 items.now.items) }
{
    match items.get(id) {
        Some(item) => Some(item.phase),
        None => None,
    }
}

/// Whether a change leaves an item of this phase as it is.
fn leaves(change: Change, phase: Phase) -> bool
    ensures { result ≡ leaves change phase }
{
    match change {
        Change::Resume => matches!(phase, Phase::Waiting | Phase::Running),
        Change::Cancel => phase == Phase::Cancelled,
        Change::Remove => false,
        Change::Archive => false,
    }
}

/// The entry that a change records.
fn entry_of(change: Change, id: ItemId) -> Entry
    ensures { result ≡ entry_of change id }
{
    match change {
        Change::Resume => Entry::Asked { id },
        Change::Cancel => Entry::Cancelled { id },
        Change::Remove => Entry::Removed { id },
        Change::Archive => Entry::Archived { id },
    }
}
