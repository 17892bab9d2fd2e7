ghost use Rattle.std.specs.Prelude.{◌≡◌, false, OnOk};
ghost use Rattle.dm_types.specs.Faults.{HasCause};
ghost use Rattle.dm_types.specs.declared.entry.Entry.TheVariants as entries;
ghost use Rattle.dm_disk_model.specs.Beside.{Besides};
ghost use Rattle.dm_disk_model.specs.Disk.{bytes_at, now};
ghost use Rattle.dm_disk_model.specs.Moments.{KeepsFiles};
ghost use Rattle.dm_store.specs.Becomes.{RecordMakes, kind_is};
ghost use Rattle.dm_store.specs.Keeps.{Keeps, StaysNear};
ghost use Rattle.dm_store.specs.Origin.{said_of};
ghost use Rattle.dm_store.specs.Publishing.{IsPartOr};
ghost use Rattle.dm_store.specs.Readied.{IsReadied};
ghost use Rattle.dm_store.specs.Store.{HasRoomOf, IsStore, view_of};
ghost use Rattle.dm_answers.specs.Reads.{IsPartOrNameOf};
ghost use Rattle.dm_finish.specs.Ending.{GivesName, IsEnding, IsGiving, IsNamed, IsNaming, IsSumKnown, NamesFile};

use dm_disk_model::{Disk, Place};
use dm_edge::Origin;
use dm_record::write_done;
use dm_store::{Readied, Store, publish_item, record};
use dm_types::{DiskKind, Entry, ItemId};

/// What names the file of an item, with its memory: that its content is whole, and the two places.
#[derive(Drop)]
pub struct Naming {
    pub readied: Readied,
    pub part: Place,
    pub target: Place,
}

/// Records that the content of an item is whole. It takes no memory, and leaves room for two entries more.
fn record_whole<D: Disk, O: Origin>(
    store: &mut Store<D, O>,
    id: ItemId,
    total: u64,
    readied: Readied,
) -> Result<(), DiskKind>
    requires store { IsStore D.tells D.history store.old }
    requires whole { store.old.broken ≡ false }
    requires ending { IsSumKnown D.tells D.history (view_of store.old) id total }
    requires readied { IsReadied store.old.items (entries.Finishing id total) readied }
    ensures store { IsStore D.tells D.history store.new }
    ensures keeps { Keeps D.tells D.history (λ o. said_of (O.says o)) (view_of store.old) (view_of store.new) }
    ensures makes { RecordMakes (view_of store.old) (view_of store.new) (entries.Finishing id total) result }
    ensures room { OnOk result (HasRoomOf 2 store.new) }
    ensures beside { D.tells → KeepsFiles (D.history store.old.disk) (D.history store.new.disk) }
    ensures cause { HasCause kind_is (D.faults store.old.disk) (D.faults store.new.disk) result }
    ensures far { StaysNear (D.far store.old.disk) (D.far store.new.disk) (view_of store.old) (view_of store.new) }
{
    let Readied { body, item } = readied;
    record(
        store,
        Entry::Finishing { id, total },
        body.bytes(),
        item,
        None,
    )
}

/// Records that the file of an item stands under its name, with its sum. It takes no memory.
fn record_done<D: Disk, O: Origin>(
    store: &mut Store<D, O>,
    id: ItemId,
    digest: [u8; 32],
    at: u64,
) -> Result<(), DiskKind>
    requires store { IsStore D.tells D.history store.old }
    requires whole { store.old.broken ≡ false }
    requires named { IsNamed D.tells D.history (view_of store.old) id digest }
    requires room { HasRoomOf 1 store.old }
    ensures store { IsStore D.tells D.history store.new }
    ensures keeps { Keeps D.tells D.history (λ o. said_of (O.says o)) (view_of store.old) (view_of store.new) }
    ensures makes { RecordMakes (view_of store.old) (view_of store.new) (entries.Done id digest at) result }
    ensures beside { D.tells → KeepsFiles (D.history store.old.disk) (D.history store.new.disk) }
    ensures cause { HasCause kind_is (D.faults store.old.disk) (D.faults store.new.disk) result }
    ensures far { StaysNear (D.far store.old.disk) (D.far store.new.disk) (view_of store.old) (view_of store.new) }
{
    let body = write_done(id, &digest, at);
    record(store, Entry::Done { id, digest, at }, &body, None, None)
}

/// Gives the file of an item that is being finished its name, and records that. It takes no memory.
fn name_file<D: Disk, O: Origin>(
    store: &mut Store<D, O>,
    id: ItemId,
    part: &Place,
    target: &Place,
    digest: [u8; 32],
    at: u64,
) -> Result<(), DiskKind>
    requires store { IsStore D.tells D.history store.old }
    requires whole { store.old.broken ≡ false }
    requires giving { IsGiving D.tells D.history (view_of store.old) id part.now target.now digest }
    requires room { HasRoomOf 1 store.old }
    ensures store { IsStore D.tells D.history store.new }
    ensures keeps { Keeps D.tells D.history (λ o. said_of (O.says o)) (view_of store.old) (view_of store.new) }
    ensures makes { NamesFile (view_of store.old) (view_of store.new) id digest at result }
    ensures reads { D.tells → OnOk result (bytes_at (now (D.history store.new.disk)) target.now ≡ bytes_at (now (D.history store.old.disk)) part.now) }
    ensures beside { D.tells → Besides (IsPartOr target.now.name) (D.history store.old.disk) (D.history store.new.disk) }
    ensures cause { HasCause kind_is (D.faults store.old.disk) (D.faults store.new.disk) result }
    ensures far { StaysNear (D.far store.old.disk) (D.far store.new.disk) (view_of store.old) (view_of store.new) }
{
    match publish_item(store, id, part, target) {
        Ok(()) => record_done(store, id, digest, at),
        Err(kind) => Err(kind),
    }
}

/// Ends an item of which all has come, is saved and has this sum: records that it is whole, gives its file
/// the name, and records that. It takes no memory.
pub fn give_name<D: Disk, O: Origin>(
    store: &mut Store<D, O>,
    id: ItemId,
    total: u64,
    naming: Naming,
    digest: [u8; 32],
    at: u64,
) -> Result<(), DiskKind>
    requires store { IsStore D.tells D.history store.old }
    requires whole { store.old.broken ≡ false }
    requires ending { IsEnding D.tells D.history (view_of store.old) id total digest }
    requires naming { IsNaming (view_of store.old) id total naming }
    ensures store { IsStore D.tells D.history store.new }
    ensures keeps { Keeps D.tells D.history (λ o. said_of (O.says o)) (view_of store.old) (view_of store.new) }
    ensures makes { GivesName (view_of store.old) (view_of store.new) id total digest at result }
    ensures reads { D.tells → OnOk result (bytes_at (now (D.history store.new.disk)) naming.target ≡ bytes_at (now (D.history store.old.disk)) naming.part) }
    ensures beside { D.tells → Besides (IsPartOrNameOf (view_of store.new) id) (D.history store.old.disk) (D.history store.new.disk) }
    ensures cause { HasCause kind_is (D.faults store.old.disk) (D.faults store.new.disk) result }
    ensures far { StaysNear (D.far store.old.disk) (D.far store.new.disk) (view_of store.old) (view_of store.new) }
{
    let Naming {
        readied,
        part,
        target,
    } = naming;
    match record_whole(store, id, total, readied) {
        Ok(()) => name_file(store, id, &part, &target, digest, at),
        Err(kind) => Err(kind),
    }
}
