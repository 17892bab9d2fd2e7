use crate::Desk;
use dm_answers::{Begun, DeskFault, Finished, Named, SlicePass, SlicePasses, Told};
use dm_attempt::Desk as Calls;
use dm_begin::{begin, describe, plan};
use dm_disk_model::Disk;
use dm_edge::Origin;
use dm_finish::finish;
use dm_land::{broke, check, checkpoint, land};
use dm_policy::Cause;
use dm_store::Pass;
use dm_types::{By, Item, ItemId, Limits, Mode};

// The calls by which an attempt brings an item's content.
impl<D: Disk, O: Origin> Calls for Desk<D, O> {
    type D = D;

    type O = O;

    ghost view = { λ desk. desk };

    fn item(&self, id: ItemId) -> Option<&Item> {
        self.store.items.get(id)
    }

    fn mode(&self, id: ItemId) -> Option<Mode> {
        self.store.items.mode(id)
    }

    fn limits(&self) -> Limits {
        self.store.limits
    }

    fn begin(&mut self, id: ItemId, by: By, at: u64) -> Result<Begun, DeskFault> {
        begin(&mut self.store, id, by, at)
    }

    fn describe(&mut self, pass: &Pass, told: Told) -> Result<Named, DeskFault> {
        describe(&mut self.store, pass, told)
    }

    fn plan(&mut self, pass: &Pass, n: u32) -> Result<SlicePasses, DeskFault> {
        plan(&mut self.store, pass, n)
    }

    fn check(&self, pass: &SlicePass) -> Result<u64, DeskFault> {
        check(&self.store, pass)
    }

    fn land(&mut self, pass: &SlicePass, at: u64, piece: &[u8]) -> Result<(), DeskFault> {
        land(&mut self.store, pass, at, piece)
    }

    fn checkpoint(&mut self, pass: &Pass) -> Result<(), DeskFault> {
        checkpoint(&mut self.store, pass)
    }

    fn broke(&mut self, pass: &Pass, cause: &Cause) -> Result<(), DeskFault> {
        broke(&mut self.store, pass, cause)
    }

    fn finish(&mut self, pass: &Pass, at: u64) -> Result<Finished, DeskFault> {
        finish(&mut self.store, pass, at)
    }
}
