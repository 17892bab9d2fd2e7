ghost use Rattle.std.specs.Prelude.{◌≡◌, ◌≤◌, ◌+◌, false, Some, OnOk, OnErr, vec_capacity, length};
ghost use Rattle.dm_types.specs.Faults.{HasCause};
ghost use Rattle.dm_types.specs.Limits.{IsLimits, most_items};
ghost use Rattle.dm_types.specs.Name.{IsPart};
ghost use Rattle.dm_disk_model.specs.Beside.{Besides};
ghost use Rattle.dm_disk_model.specs.Disk.{Next, Stands, SyncNamesStep, now};
ghost use Rattle.dm_disk_model.specs.declared.place.Area.TheVariants.{Files};
ghost use Rattle.dm_disk_model.specs.Faults.{disk_kind};
ghost use Rattle.dm_disk_model.specs.Folder.{names_of};
ghost use Rattle.dm_disk_model.specs.Moments.{KeepsFiles};
ghost use Rattle.dm_record.specs.Limits.{IsEntry};
ghost use Rattle.dm_journal.specs.AtRest.{journal_place};
ghost use Rattle.dm_store.specs.Keeps.{StaysNear};
ghost use Rattle.dm_store.specs.Origin.{said_of};
ghost use Rattle.dm_store.specs.Store.{HasRoomOf, IsStore, view_of};
ghost use Rattle.dm_find.specs.Reopening.{BeginGoes, BeginMakes, IsBare, IsHere, RecordedOr, ReopenGoes, WhereOk, hindered_kind, reopened_by};

use crate::Hindered;
use dm_disk_model::{Area, Disk, DiskFault};
use dm_edge::Origin;
use dm_item::Items;
use dm_record::write_entry;
use dm_store::Store;
use dm_types::{Entry, NoMemory, let_go};

/// Begins the list of a store in which what the journal held was put: records that it was opened, and makes
/// the names of the user's files durable. From its Ok on the store isn't broken.
pub fn begin_list<D: Disk, O: Origin>(store: &mut Store<D, O>, at: u64) -> Result<(), Hindered>
    requires bare { IsBare (view_of store.old) }
    requires here { IsHere D.tells D.history (view_of store.old) }
    requires limits { IsLimits store.old.limits }
    requires limit { store.old.items.limit ≡ store.old.limits.items }
    requires room { HasRoomOf 1 store.old }
    ensures store { IsStore D.tells D.history store.new }
    ensures makes { BeginMakes (view_of store.old) (view_of store.new) (reopened_by store.old.items at) result }
    ensures goes { BeginGoes D.tells D.history (λ o. said_of (O.says o)) (view_of store.old) (view_of store.new) (reopened_by store.old.items at) }
    ensures names { D.tells → names_of (now (D.history store.new.disk)).files ≡ names_of (now (D.history store.old.disk)).files }
    ensures beside { D.tells → Besides IsPart (D.history store.old.disk) (D.history store.new.disk) }
    ensures cause { HasCause hindered_kind (D.faults store.old.disk) (D.faults store.new.disk) result }
    ensures far { StaysNear (D.far store.old.disk) (D.far store.new.disk) (view_of store.old) (view_of store.new) }
{
    match record_reopened(store, at) {
        Ok(()) => {}
        Err(fault) => return Err(fault),
    }
    match sync_files(store) {
        Ok(()) => Ok(()),
        Err(fault) => Err(Hindered::Disk(fault.0)),
    }
}

/// Records that the list was opened: first in the journal, and then in the list.
fn record_reopened<D: Disk, O: Origin>(store: &mut Store<D, O>, at: u64) -> Result<(), Hindered>
    requires few { store.old.items.limit ≤ most_items }
    requires room { length store.old.list.items + 1 ≤ vec_capacity store.old.list }
    requires none_failed { IsBare (view_of store.old) }
    requires stands { D.tells → Stands (now (D.history store.old.disk)) journal_place }
    ensures makes { RecordedOr (view_of store.old) (view_of store.new) (reopened_by store.old.items at) result }
    ensures goes { ReopenGoes D.tells D.history (λ o. said_of (O.says o)) (view_of store.old) (view_of store.new) (reopened_by store.old.items at) result }
    ensures entry { WhereOk result (IsEntry (reopened_by store.old.items at)) }
    ensures room { vec_capacity store.new.list ≡ vec_capacity store.old.list }
    ensures beside { D.tells → KeepsFiles (D.history store.old.disk) (D.history store.new.disk) }
    ensures cause { HasCause hindered_kind (D.faults store.old.disk) (D.faults store.new.disk) result }
    ensures far { StaysNear (D.far store.old.disk) (D.far store.new.disk) (view_of store.old) (view_of store.new) }
{
    let entry = Entry::Reopened {
        next: store.items.next(),
        at,
    };
    let body = match write_entry(store.alloc, &entry) {
        Ok(body) => body,
        Err(NoMemory) => {
            let_go(entry);
            return Err(Hindered::NoMemory);
        }
    };
    match store.journal.append(&mut store.disk, body.bytes()) {
        Ok(()) => {
            store.items.put(&entry, None);
            store.list.push_reserved(entry);
            Ok(())
        }
        Err(fault) => {
            put_failed(&mut store.failed, entry);
            Err(Hindered::Disk(fault.0))
        }
    }
}

/// Keeps the entry that failed.
fn put_failed(failed: &mut Option<Entry>, entry: Entry)
    ensures { failed.new ≡ Some entry }
{
    *failed = Some(entry);
}

/// Makes the names of the user's files durable. From its Ok on the store isn't broken.
fn sync_files<D: Disk, O: Origin>(store: &mut Store<D, O>) -> Result<(), DiskFault>
    ensures done { D.tells → Next (D.history store.old.disk) (D.history store.new.disk) (SyncNamesStep Files result) }
    ensures ok { OnOk result (view_of store.new ≡ record (view_of store.old) { disk = store.new.disk; broken = false }) }
    ensures err { OnErr result (view_of store.new ≡ record (view_of store.old) { disk = store.new.disk }) }
    ensures room { vec_capacity store.new.list ≡ vec_capacity store.old.list }
    ensures cause { HasCause disk_kind (D.faults store.old.disk) (D.faults store.new.disk) result }
    ensures far { D.far store.new.disk ≡ D.far store.old.disk }
{
    match store.disk.sync_names(Area::Files) {
        Ok(()) => {
            store.broken = false;
            Ok(())
        }
        Err(fault) => Err(fault),
    }
}
