ghost use Rattle.std.specs.Prelude.{◌≡◌, false};
ghost use Rattle.dm_types.specs.Faults.{HasCause};
ghost use Rattle.dm_types.specs.declared.entry.Entry.TheVariants.{Added as added_entry};
ghost use Rattle.dm_disk_model.specs.Moments.{KeepsFiles};
ghost use Rattle.dm_store.specs.Keeps.{Keeps, StaysNear};
ghost use Rattle.dm_store.specs.Origin.{said_of};
ghost use Rattle.dm_store.specs.Store.{IsStore, view_of};
ghost use Rattle.dm_answers.specs.Add.{AddAnswers, IsNew, IsOrder};
ghost use Rattle.dm_answers.specs.Faults.{desk_kind};

use crate::checking::{Checked, check_order};
use dm_answers::{DeskFault, Order, Taken};
use dm_disk_model::Disk;
use dm_edge::Origin;
use dm_store::{Store, Unrecorded, record_new};
use dm_types::{Address, Entry, ItemId, let_go};

/// Adds an item, which waits. The answer comes once its entry is recorded. `at` is the moment in
/// milliseconds since 1970. An order whose word an item has is not added again. After every fault
/// but `Journal` all is as before; after that one the desk is broken, and its list is as before.
pub fn add<D: Disk, O: Origin>(
    store: &mut Store<D, O>,
    order: Order,
    at: u64,
) -> Result<Taken, DeskFault>
    requires store { IsStore D.tells D.history store.old }
    requires order { IsOrder order }
    ensures store { IsStore D.tells D.history store.new }
    ensures answers { AddAnswers (view_of store.old) (view_of store.new) order at result }
    ensures keeps { Keeps D.tells D.history (λ o. said_of (O.says o)) (view_of store.old) (view_of store.new) }
    ensures beside { D.tells → KeepsFiles (D.history store.old.disk) (D.history store.new.disk) }
    ensures cause { HasCause desk_kind (D.faults store.old.disk) (D.faults store.new.disk) result }
    ensures far { StaysNear (D.far store.old.disk) (D.far store.new.disk) (view_of store.old) (view_of store.new) }
{
    if store.broken {
        let_go(order);
        return Err(DeskFault::Broken);
    }
    match check_order(&store.items, store.limits.items, &order) {
        Checked::Fits(id) => add_new(store, order, id, at),
        Checked::Known(id) => {
            let_go(order);
            Ok(Taken::Same(id))
        }
        Checked::Other(id) => {
            let_go(order);
            Err(DeskFault::WordTaken(id))
        }
        Checked::Full(count) => {
            let_go(order);
            Err(DeskFault::ItemsFull(count))
        }
    }
}

/// Records the entry of an order that fits.
fn add_new<D: Disk, O: Origin>(
    store: &mut Store<D, O>,
    order: Order,
    id: ItemId,
    at: u64,
) -> Result<Taken, DeskFault>
    requires store { IsStore D.tells D.history store.old }
    requires order { IsOrder order }
    requires whole { store.old.broken ≡ false }
    requires id { id.0 ≡ store.old.items.next }
    requires fresh { IsNew store.old.items order }
    ensures store { IsStore D.tells D.history store.new }
    ensures answers { AddAnswers (view_of store.old) (view_of store.new) order at result }
    ensures keeps { Keeps D.tells D.history (λ o. said_of (O.says o)) (view_of store.old) (view_of store.new) }
    ensures beside { D.tells → KeepsFiles (D.history store.old.disk) (D.history store.new.disk) }
    ensures cause { HasCause desk_kind (D.faults store.old.disk) (D.faults store.new.disk) result }
    ensures far { StaysNear (D.far store.old.disk) (D.far store.new.disk) (view_of store.old) (view_of store.new) }
{
    let entry = added(order, id, at);
    match record_new(store, entry) {
        Ok(()) => Ok(Taken::New(id)),
        Err(fault) => match fault {
            Unrecorded::NoMemory => Err(DeskFault::NoMemory),
            Unrecorded::Journal(kind) => Err(DeskFault::Journal(kind)),
        },
    }
}

/// The entry of an order.
fn added(order: Order, id: ItemId, at: u64) -> Entry
    ensures { result ≡ added_entry id order.word order.address.text order.wish order.digest at }
{
    let Order {
        word,
        address,
        wish,
        digest,
    } = order;
    let Address { text, .. } = address;
    Entry::Added {
        id,
        word,
        address: text,
        wish,
        digest,
        at,
    }
}
