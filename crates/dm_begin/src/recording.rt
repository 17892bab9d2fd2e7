ghost use Rattle.std.specs.Prelude.{◌≡◌, ◌≢◌, ◌+◌, ◌<◌, ℕ, false, Some, OnOk, length, vec_capacity};
ghost use Rattle.std.specs.Option.{option_map};
ghost use Rattle.dm_types.specs.Faults.{HasCause};
ghost use Rattle.dm_types.specs.declared.entry.Entry.TheVariants as entries;
ghost use Rattle.dm_types.specs.declared.reason.Reason.TheVariants as reasons;
ghost use Rattle.dm_disk_model.specs.Moments.{KeepsFiles};
ghost use Rattle.dm_record.specs.Limits.{IsEntry};
ghost use Rattle.dm_record.specs.Spelling.{spelling_of};
ghost use Rattle.dm_item.specs.Listing.{Admits, applied, item_in};
ghost use Rattle.dm_journal.specs.Text.{FitsCell};
ghost use Rattle.dm_store.specs.Becomes.{RecordMakes, kind_is};
ghost use Rattle.dm_store.specs.Keeps.{Keeps, StandBehind, StaysNear};
ghost use Rattle.dm_store.specs.Lives.{begun_life};
ghost use Rattle.dm_store.specs.Origin.{said_of};
ghost use Rattle.dm_store.specs.Readied.{IsReadied};
ghost use Rattle.dm_store.specs.Store.{HasRoomOf, IsStore, view_of};
ghost use Rattle.dm_begin.specs.Pair.{BothMakes};
ghost use Rattle.dm_begin.specs.Start.{began_by, restart_by};

use crate::entering::Begins;
use crate::pairing::record_pair;
use crate::readying::Beginning;
use dm_disk_model::Disk;
use dm_edge::Origin;
use dm_item::Items;
use dm_store::{Pass, Readied, Store, put_failed, record};
use dm_types::{By, DiskKind, Entry, Reason};

/// Records that an attempt begins. It takes no memory.
pub(crate) fn record_began<D: Disk, O: Origin>(
    store: &mut Store<D, O>,
    pass: Pass,
    by: By,
    at: u64,
    beginning: Beginning,
) -> Result<(), DiskKind>
    requires store { IsStore D.tells D.history store.old }
    requires whole { store.old.broken ≡ false }
    requires is { IsEntry (began_by pass by at) }
    requires body { beginning.body ≡ spelling_of (began_by pass by at) }
    requires size { FitsCell beginning.body }
    requires taken { Admits store.old.items (began_by pass by at) }
    requires life { Some beginning.life ≡ option_map begun_life (item_in pass.id.0 (applied (began_by pass by at) store.old.items).items) }
    requires stand { D.tells → StandBehind D.history (view_of store.old) (began_by pass by at) }
    requires room { HasRoomOf 4 store.old }
    requires place { length store.old.lives.items < vec_capacity store.old.lives }
    ensures store { IsStore D.tells D.history store.new }
    ensures keeps { Keeps D.tells D.history (λ o. said_of (O.says o)) (view_of store.old) (view_of store.new) }
    ensures makes { RecordMakes (view_of store.old) (view_of store.new) (began_by pass by at) result }
    ensures beside { D.tells → KeepsFiles (D.history store.old.disk) (D.history store.new.disk) }
    ensures cause { HasCause kind_is (D.faults store.old.disk) (D.faults store.new.disk) result }
    ensures far { StaysNear (D.far store.old.disk) (D.far store.new.disk) (view_of store.old) (view_of store.new) }
{
    let Beginning { body, life } = beginning;
    let entry = Entry::Began {
        id: pass.id,
        attempt: pass.attempt,
        by,
        at,
    };
    record(store, entry, body.bytes(), None, Some(life))
}

/// Records that an item's content is brought anew. It takes no memory, and leaves the place of lives.
pub(crate) fn record_restart<D: Disk, O: Origin>(
    store: &mut Store<D, O>,
    pass: Pass,
    because: u8,
    readied: Readied,
) -> Result<(), DiskKind>
    requires store { IsStore D.tells D.history store.old }
    requires whole { store.old.broken ≡ false }
    requires taken { Admits store.old.items (restart_by pass because) }
    requires readied { IsReadied store.old.items (restart_by pass because) readied }
    requires room { HasRoomOf 1 store.old }
    ensures store { IsStore D.tells D.history store.new }
    ensures keeps { Keeps D.tells D.history (λ o. said_of (O.says o)) (view_of store.old) (view_of store.new) }
    ensures makes { RecordMakes (view_of store.old) (view_of store.new) (restart_by pass because) result }
    ensures room { OnOk result ((count : ℕ) → HasRoomOf (count + 1) store.old → HasRoomOf count store.new) }
    ensures lives { store.new.lives ≡ store.old.lives }
    ensures beside { D.tells → KeepsFiles (D.history store.old.disk) (D.history store.new.disk) }
    ensures cause { HasCause kind_is (D.faults store.old.disk) (D.faults store.new.disk) result }
    ensures far { StaysNear (D.far store.old.disk) (D.far store.new.disk) (view_of store.old) (view_of store.new) }
{
    let Readied { body, item } = readied;
    let entry = Entry::Restarted {
        id: pass.id,
        epoch: pass.epoch,
        because,
    };
    match store.journal.append(&mut store.disk, body.bytes()) {
        Ok(()) => {
            store.items.put(&entry, item);
            store.list.push_reserved(entry);
            Ok(())
        }
        Err(fault) => {
            store.broken = true;
            put_failed(&mut store.failed, entry);
            Err(fault.0)
        }
    }
}

/// Records that an attempt begins and, in a row, that it is interrupted, since its part can't be read.
/// It takes no memory.
pub(crate) fn record_both<D: Disk, O: Origin>(
    store: &mut Store<D, O>,
    pass: Pass,
    by: By,
    at: u64,
    beginning: Beginning,
    reason: Reason,
) -> Result<(), DiskKind>
    requires store { IsStore D.tells D.history store.old }
    requires whole { store.old.broken ≡ false }
    requires is { IsEntry (began_by pass by at) }
    requires body { beginning.body ≡ spelling_of (began_by pass by at) }
    requires size { FitsCell beginning.body }
    requires taken { Admits store.old.items (began_by pass by at) }
    requires life { Some beginning.life ≡ option_map begun_life (item_in pass.id.0 (applied (began_by pass by at) store.old.items).items) }
    requires reason { (reason ≢ reasons.UserCanceled) × (reason ≢ reasons.Crash) }
    requires room { HasRoomOf 5 store.old }
    requires place { length store.old.lives.items < vec_capacity store.old.lives }
    ensures store { IsStore D.tells D.history store.new }
    ensures keeps { Keeps D.tells D.history (λ o. said_of (O.says o)) (view_of store.old) (view_of store.new) }
    ensures makes { BothMakes (view_of store.old) (view_of store.new) (began_by pass by at) (entries.Broke pass.id reason) result }
    ensures beside { D.tells → KeepsFiles (D.history store.old.disk) (D.history store.new.disk) }
    ensures cause { HasCause kind_is (D.faults store.old.disk) (D.faults store.new.disk) result }
    ensures far { StaysNear (D.far store.old.disk) (D.far store.new.disk) (view_of store.old) (view_of store.new) }
{
    let Beginning { body, life } = beginning;
    let what = Begins {
        id: pass.id,
        attempt: pass.attempt,
        by,
        at,
    };
    record_pair(store, what, body.bytes(), life, reason)
}
