ghost use Rattle.std.specs.Prelude.{◌≡◌, ◌≢◌, ◌<◌, false, Some, length, option_map, vec_capacity};
ghost use Rattle.dm_types.specs.Faults.{HasCause};
ghost use Rattle.dm_types.specs.declared.entry.Entry.TheVariants as entries;
ghost use Rattle.dm_types.specs.declared.reason.Reason.TheVariants as reasons;
ghost use Rattle.dm_disk_model.specs.Moments.{KeepsFiles};
ghost use Rattle.dm_record.specs.Limits.{IsEntry};
ghost use Rattle.dm_record.specs.Spelling.{spelling_of};
ghost use Rattle.dm_item.specs.Listing.{Admits, applied, item_in};
ghost use Rattle.dm_journal.specs.Text.{FitsCell};
ghost use Rattle.dm_store.specs.Becomes.{kind_is};
ghost use Rattle.dm_store.specs.Keeps.{Keeps, StaysNear};
ghost use Rattle.dm_store.specs.Lives.{begun_life};
ghost use Rattle.dm_store.specs.Origin.{said_of};
ghost use Rattle.dm_store.specs.Store.{HasRoomOf, IsStore, view_of};
ghost use Rattle.dm_begin.specs.Pair.{BothMakes, began_of};

use crate::entering::{Begins, began_entry};
use dm_disk_model::Disk;
use dm_edge::Origin;
use dm_item::Items;
use dm_record::write_broke;
use dm_store::{Life, Store, put_failed};
use dm_types::{DiskKind, Entry, Reason, let_go};

/// Records that an attempt begins, and in a row that it is interrupted, since its part is missing: between
/// the two nothing is claimed of the part. It takes no memory.
pub(crate) fn record_pair<D: Disk, O: Origin>(
    store: &mut Store<D, O>,
    what: Begins,
    body: &[u8],
    life: Life,
    reason: Reason,
) -> Result<(), DiskKind>
    requires store { IsStore D.tells D.history store.old }
    requires whole { store.old.broken ≡ false }
    requires is { IsEntry (began_of what) }
    requires body { body.now ≡ spelling_of (began_of what) }
    requires size { FitsCell body.now }
    requires taken { Admits store.old.items (began_of what) }
    requires life { Some life ≡ option_map begun_life (item_in what.id.0 (applied (began_of what) store.old.items).items) }
    requires place { length store.old.lives.items < vec_capacity store.old.lives }
    requires reason { (reason ≢ reasons.UserCanceled) × (reason ≢ reasons.Crash) }
    requires room { HasRoomOf 4 store.old }
    ensures store { IsStore D.tells D.history store.new }
    ensures keeps { Keeps D.tells D.history (λ o. said_of (O.says o)) (view_of store.old) (view_of store.new) }
    ensures makes { BothMakes (view_of store.old) (view_of store.new) (began_of what) (entries.Broke what.id reason) result }
    ensures beside { D.tells → KeepsFiles (D.history store.old.disk) (D.history store.new.disk) }
    ensures cause { HasCause kind_is (D.faults store.old.disk) (D.faults store.new.disk) result }
    ensures far { StaysNear (D.far store.old.disk) (D.far store.new.disk) (view_of store.old) (view_of store.new) }
{
    let began = began_entry(what);
    match store.journal.append(&mut store.disk, body) {
        Ok(()) => {
            store.items.put(&began, None);
            store.list.push_reserved(began);
            let broke = write_broke(what.id, reason);
            match store.journal.append(&mut store.disk, &broke) {
                Ok(()) => {
                    let_go(life);
                    let ended = Entry::Broke {
                        id: what.id,
                        reason,
                    };
                    store.items.put(&ended, None);
                    store.list.push_reserved(ended);
                    Ok(())
                }
                Err(fault) => {
                    store.lives.push_reserved(life);
                    store.broken = true;
                    put_failed(
                        &mut store.failed,
                        Entry::Broke {
                            id: what.id,
                            reason,
                        },
                    );
                    Err(fault.0)
                }
            }
        }
        Err(fault) => {
            let_go(life);
            store.broken = true;
            put_failed(&mut store.failed, began);
            Err(fault.0)
        }
    }
}
