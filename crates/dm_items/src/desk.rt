use dm_answers::IdList;
use dm_change::{due, page};
use dm_disk_model::Disk;
use dm_edge::Origin;
use dm_item::Items;
use dm_store::Store;
use dm_types::{By, Item, ItemId, Limits, Mode, NoMemory};
use std::marker::Model;

/// A list of items over a disk's journal, and the attempts that run.
#[derive(Drop)]
pub struct Desk<D: Disk, O: Origin> {
    pub(crate) store: Store<D, O>,
}

impl<D: Disk, O: Origin> Model for Desk<D, O> {
    ghost use Rattle.dm_store.specs.Store.{IsStore, view_of};
    ghost use Rattle.dm_store.specs.View.{View};

    ghost Value = { View D O };

    ghost view = { λ s. view_of s.store };

    ghost invariant = { λ s. IsStore D.tells D.history s.store };
}

// What is read of a desk.
impl<D: Disk, O: Origin> Desk<D, O> {
    ghost use Rattle.std.specs.Prelude.{◌≡◌, ◌+◌, IfOk, option_map};
    ghost use Rattle.std.specs.Option.{option_copied};
    ghost use Rattle.dm_item.specs.Listing.{item_in};
    ghost use Rattle.dm_item.specs.Row.{mode_of_item};
    ghost use Rattle.dm_store.specs.Keeps.{IsDesk};
    ghost use Rattle.dm_change.specs.Due.{first_due};
    ghost use Rattle.dm_change.specs.Page.{page_of};

    /// The limits that it was opened with.
    pub fn limits(&self) -> Limits
        ensures { result ≡ self.now.limits }
    {
        self.store.limits
    }

    /// The items, by rising id.
    pub fn items(&self) -> &Items
        ensures items { result.now ≡ self.now.items }
        ensures kept { IsDesk D.tells D.history self.now }
    {
        &self.store.items
    }

    /// The item with an id, where there is one.
    pub fn view(&self, id: ItemId) -> Option<&Item>
        ensures { option_copied result ≡ item_in id.0 self.now.items.items }
    {
        self.store.items.get(id)
    }

    /// How the item with an id may go on.
    pub fn mode(&self, id: ItemId) -> Option<Mode>
        ensures { result ≡ option_map mode_of_item (item_in id.0 self.now.items.items) }
    {
        self.store.items.mode(id)
    }

    /// The least id of an item that is due for an attempt, and by whom: one that waits, by the user, or
    /// one that was interrupted and goes on at once, by itself.
    pub fn due(&self) -> Option<(ItemId, By)>
        ensures { result ≡ first_due self.now.items.items }
    {
        due(&self.store)
    }

    /// The rising ids above a number, at most so many.
    pub fn page(&self, after: u32, limit: u32) -> Result<IdList, NoMemory>
        ensures { IfOk result (λ ids. ids ≡ page_of after limit self.now.items.items) }
    {
        page(&self.store, after, limit)
    }

    /// How many bytes the journal has.
    pub fn journal_length(&self) -> u64
        ensures { result ≡ self.now.gate + 1 }
    {
        self.store.journal.length()
    }

    /// The disk, with no call on it.
    pub fn into_disk(self) -> D
        ensures { result ≡ self.disk }
    {
        let Desk { store } = self;
        let Store { disk, .. } = store;
        disk
    }
}
