ghost use Rattle.std.specs.Prelude.{◌≡◌, false, true, OnOk};
ghost use Rattle.dm_types.specs.Faults.{HasCause};
ghost use Rattle.dm_types.specs.declared.entry.Entry.TheVariants as entries;
ghost use Rattle.dm_disk_model.specs.Beside.{Besides};
ghost use Rattle.dm_disk_model.specs.Disk.{now};
ghost use Rattle.dm_disk_model.specs.Folder.{Lists};
ghost use Rattle.dm_disk_model.specs.Moments.{KeepsFiles};
ghost use Rattle.dm_store.specs.Becomes.{RecordMakes, kind_is};
ghost use Rattle.dm_store.specs.Keeps.{Keeps, RecordGoes, StaysNear};
ghost use Rattle.dm_store.specs.Origin.{said_of};
ghost use Rattle.dm_store.specs.Store.{HasRoomOf, IsStore, view_of};
ghost use Rattle.dm_find.specs.Reopening.{hindered_kind};
ghost use Rattle.dm_answers.specs.Settling.{settles_with};
ghost use Rattle.dm_settle.specs.Judging.{IsFit, LiesWhole, entry_of};
ghost use Rattle.dm_settle.specs.Moving.{AreStated, IsFinishingAt, IsFinishingIn};
ghost use Rattle.dm_settle.specs.Settled.{AllMakes, IsPartOrAlone, IsPartOrGiven, IsSparedBy, ItemGoes, ItemMakes, LeavesNames, NeverBreaks, SettleGoes, SettlesAs};

use crate::judging::{Judged, judge};
use crate::moving::{Moving, next_moving};
use dm_disk_model::{Disk, NameList};
use dm_edge::Origin;
use dm_find::Hindered;
use dm_record::{write_broke, write_done};
use dm_store::{Store, make_room, publish_item, record};
use dm_types::{DiskKind, Entry, ItemId, NoMemory, Reason};

/// Settles each item that was being finished, by rising id, where `names` lists the user's files. Where one
/// of its part and its name stands, and holds the whole content, it gets its name and is complete;
/// else it is interrupted.
pub fn settle_all<D: Disk, O: Origin>(
    store: &mut Store<D, O>,
    names: &NameList,
    at: u64,
) -> Result<(), Hindered>
    requires store { IsStore D.tells D.history store.old }
    requires whole { store.old.broken ≡ false }
    requires listed { D.tells → Lists (now (D.history store.old.disk)).files names.now }
    ensures store { IsStore D.tells D.history store.new }
    ensures makes { AllMakes D.tells D.history (view_of store.old) (view_of store.new) at result }
    ensures keeps { Keeps D.tells D.history (λ o. said_of (O.says o)) (view_of store.old) (view_of store.new) }
    ensures never_breaks { NeverBreaks D.tells D.history (λ o. said_of (O.says o)) (view_of store.old) (view_of store.new) }
    ensures beside { D.tells → Besides (IsPartOrGiven D.history (view_of store.old)) (D.history store.old.disk) (D.history store.new.disk) }
    ensures cause { HasCause hindered_kind (D.faults store.old.disk) (D.faults store.new.disk) result }
    ensures far { StaysNear (D.far store.old.disk) (D.far store.new.disk) (view_of store.old) (view_of store.new) }
{
    'items: loop {
        match next_moving(store.alloc, &store.items) {
            Ok(Some(moving)) => match settle_item(store, &moving, names, at) {
                Ok(()) => {}
                Err(fault) => return Err(fault),
            },
            Ok(None) => return Ok(()),
            Err(NoMemory) => return Err(Hindered::NoMemory),
        }
    }
}

/// Settles one item. Its memory is taken before the disk is called.
fn settle_item<D: Disk, O: Origin>(
    store: &mut Store<D, O>,
    moving: &Moving,
    names: &NameList,
    at: u64,
) -> Result<(), Hindered>
    requires store { IsStore D.tells D.history store.old }
    requires whole { store.old.broken ≡ false }
    requires finishing { IsFinishingIn store.old.items.items moving.now }
    ensures store { IsStore D.tells D.history store.new }
    ensures makes { ItemMakes D.tells D.history (view_of store.old) (view_of store.new) names.now at moving.now result }
    ensures goes { (is : IsFinishingIn store.old.items.items moving.now) → ItemGoes D.tells D.history (λ o. said_of (O.says o)) (view_of store.old) (view_of store.new) names.now is.item }
    ensures beside { D.tells → Besides (IsPartOrAlone names.now moving.now) (D.history store.old.disk) (D.history store.new.disk) }
    ensures cause { HasCause hindered_kind (D.faults store.old.disk) (D.faults store.new.disk) result }
    ensures far { StaysNear (D.far store.old.disk) (D.far store.new.disk) (view_of store.old) (view_of store.new) }
{
    match make_room(store, 1) {
        Ok(()) => {}
        Err(NoMemory) => return Err(Hindered::NoMemory),
    }
    let judged = match judge(&mut store.disk, moving, names) {
        Ok(judged) => judged,
        Err(kind) => return Err(Hindered::Disk(kind)),
    };
    match settle_as(store, moving, judged, at) {
        Ok(()) => Ok(()),
        Err(kind) => Err(Hindered::Disk(kind)),
    }
}

/// Records how an item was judged. A part that is whole gets its name first.
fn settle_as<D: Disk, O: Origin>(
    store: &mut Store<D, O>,
    moving: &Moving,
    judged: Judged,
    at: u64,
) -> Result<(), DiskKind>
    requires store { IsStore D.tells D.history store.old }
    requires whole { store.old.broken ≡ false }
    requires finishing { IsFinishingIn store.old.items.items moving.now }
    requires fit { IsFit moving.now.digest judged }
    requires lies { D.tells → LiesWhole (now (D.history store.old.disk)) moving.now judged }
    requires room { HasRoomOf 1 store.old }
    ensures store { IsStore D.tells D.history store.new }
    ensures makes { SettlesAs (view_of store.old) (view_of store.new) (entry_of moving.now.id at judged) result }
    ensures goes { SettleGoes D.tells D.history (λ o. said_of (O.says o)) (view_of store.old) (view_of store.new) judged }
    ensures leaves { D.tells → OnOk result (LeavesNames moving.now judged (now (D.history store.old.disk)).files (now (D.history store.new.disk)).files) }
    ensures beside { D.tells → Besides (IsSparedBy moving.now judged) (D.history store.old.disk) (D.history store.new.disk) }
    ensures cause { HasCause kind_is (D.faults store.old.disk) (D.faults store.new.disk) result }
    ensures far { StaysNear (D.far store.old.disk) (D.far store.new.disk) (view_of store.old) (view_of store.new) }
{
    match judged {
        Judged::Broken(reason) => record_broke(store, moving.id, reason),
        Judged::Named(sum) => record_done(store, moving.id, &sum, at),
        Judged::InPart(sum) => {
            match publish_item(store, moving.id, &moving.part, &moving.target) {
                Ok(()) => record_done(store, moving.id, &sum, at),
                Err(kind) => Err(kind),
            }
        }
    }
}

/// Interrupts an item that was being finished. It takes no memory.
fn record_broke<D: Disk, O: Origin>(
    store: &mut Store<D, O>,
    id: ItemId,
    reason: Reason,
) -> Result<(), DiskKind>
    requires store { IsStore D.tells D.history store.old }
    requires whole { store.old.broken ≡ false }
    requires finishing { IsFinishingAt store.old.items.items id }
    requires reason { settles_with reason ≡ true }
    requires room { HasRoomOf 1 store.old }
    ensures store { IsStore D.tells D.history store.new }
    ensures goes { RecordGoes D.tells D.history (λ o. said_of (O.says o)) (view_of store.old) (view_of store.new) (entries.Broke id reason) }
    ensures makes { RecordMakes (view_of store.old) (view_of store.new) (entries.Broke id reason) result }
    ensures beside { D.tells → KeepsFiles (D.history store.old.disk) (D.history store.new.disk) }
    ensures cause { HasCause kind_is (D.faults store.old.disk) (D.faults store.new.disk) result }
    ensures far { StaysNear (D.far store.old.disk) (D.far store.new.disk) (view_of store.old) (view_of store.new) }
{
    let body = write_broke(id, reason);
    record(store, Entry::Broke { id, reason }, &body, None, None)
}

/// Makes an item complete that was being finished. It takes no memory.
fn record_done<D: Disk, O: Origin>(
    store: &mut Store<D, O>,
    id: ItemId,
    sum: &[u8; 32],
    at: u64,
) -> Result<(), DiskKind>
    requires store { IsStore D.tells D.history store.old }
    requires whole { store.old.broken ≡ false }
    requires finishing { IsFinishingAt store.old.items.items id }
    requires stated { AreStated store.old.items.items id sum.now }
    requires room { HasRoomOf 1 store.old }
    ensures store { IsStore D.tells D.history store.new }
    ensures goes { RecordGoes D.tells D.history (λ o. said_of (O.says o)) (view_of store.old) (view_of store.new) (entries.Done id sum.now at) }
    ensures makes { RecordMakes (view_of store.old) (view_of store.new) (entries.Done id sum.now at) result }
    ensures beside { D.tells → KeepsFiles (D.history store.old.disk) (D.history store.new.disk) }
    ensures cause { HasCause kind_is (D.faults store.old.disk) (D.faults store.new.disk) result }
    ensures far { StaysNear (D.far store.old.disk) (D.far store.new.disk) (view_of store.old) (view_of store.new) }
{
    let body = write_done(id, sum, at);
    let entry = Entry::Done {
        id,
        digest: *sum,
        at,
    };
    record(store, entry, &body, None, None)
}
