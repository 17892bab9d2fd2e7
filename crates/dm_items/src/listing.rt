use crate::Desk;
use dm_answers::{DeskFault, Order, Taken};
use dm_change::{add, archived, cancel, remove, resume};
use dm_disk_model::Disk;
use dm_edge::Origin;
use dm_types::ItemId;

// The calls that change the list with no attempt and no file.
impl<D: Disk, O: Origin> Desk<D, O> {
    ghost use Rattle.dm_types.specs.declared.entry.Entry.TheVariants as entries;
    ghost use Rattle.dm_item.specs.Row.{is_cancelled};
    ghost use Rattle.dm_types.specs.Faults.{HasCause};
    ghost use Rattle.dm_disk_model.specs.Moments.{KeepsFiles};
    ghost use Rattle.dm_store.specs.Keeps.{IsDesk, Keeps, StaysNear};
    ghost use Rattle.dm_store.specs.Origin.{said_of};
    ghost use Rattle.dm_answers.specs.Faults.{desk_kind};
    ghost use Rattle.dm_answers.specs.Add.{AddAnswers, IsOrder};
    ghost use Rattle.dm_answers.specs.Change.{ChangeAnswers, in_no_phase, is_under_way};

    /// Adds an item, which waits. The answer comes once its entry is recorded. `at` is the moment in
    /// milliseconds since 1970. An order whose word an item has is not added again. After every fault but
    /// `Journal` all is as before; after that one the desk is broken, and its list is as before.
    pub fn add(&mut self, order: Order, at: u64) -> Result<Taken, DeskFault>
        requires order { IsOrder order }
        ensures kept { IsDesk D.tells D.history self.new }
        ensures answers { AddAnswers self.old self.new order at result }
        ensures keeps { Keeps D.tells D.history (λ o. said_of (O.says o)) self.old self.new }
        ensures beside { D.tells → KeepsFiles (D.history self.old.disk) (D.history self.new.disk) }
        ensures cause { HasCause desk_kind (D.faults self.old.disk) (D.faults self.new.disk) result }
        ensures far { StaysNear (D.far self.old.disk) (D.far self.new.disk) self.old self.new }
    {
        add(&mut self.store, order, at)
    }

    /// Resumes an item, which then waits for an attempt. One that waits or runs stays as it is; one that is
    /// paused or interrupted is resumed unless it may not go on.
    pub fn resume(&mut self, id: ItemId) -> Result<(), DeskFault>
        ensures kept { IsDesk D.tells D.history self.new }
        ensures answers { ChangeAnswers is_under_way (entries.Asked id) id self.old self.new result }
        ensures keeps { Keeps D.tells D.history (λ o. said_of (O.says o)) self.old self.new }
        ensures beside { D.tells → KeepsFiles (D.history self.old.disk) (D.history self.new.disk) }
        ensures cause { HasCause desk_kind (D.faults self.old.disk) (D.faults self.new.disk) result }
        ensures far { StaysNear (D.far self.old.disk) (D.far self.new.disk) self.old self.new }
    {
        resume(&mut self.store, id)
    }

    /// Cancels an item. A cancelled one stays as it is; one that is being finished or complete is refused.
    pub fn cancel(&mut self, id: ItemId) -> Result<(), DeskFault>
        ensures kept { IsDesk D.tells D.history self.new }
        ensures answers { ChangeAnswers is_cancelled (entries.Cancelled id) id self.old self.new result }
        ensures keeps { Keeps D.tells D.history (λ o. said_of (O.says o)) self.old self.new }
        ensures beside { D.tells → KeepsFiles (D.history self.old.disk) (D.history self.new.disk) }
        ensures cause { HasCause desk_kind (D.faults self.old.disk) (D.faults self.new.disk) result }
        ensures far { StaysNear (D.far self.old.disk) (D.far self.new.disk) self.old self.new }
    {
        cancel(&mut self.store, id)
    }

    /// Removes an item from the list. One that runs or is being finished is refused.
    pub fn remove(&mut self, id: ItemId) -> Result<(), DeskFault>
        ensures kept { IsDesk D.tells D.history self.new }
        ensures answers { ChangeAnswers in_no_phase (entries.Removed id) id self.old self.new result }
        ensures keeps { Keeps D.tells D.history (λ o. said_of (O.says o)) self.old self.new }
        ensures beside { D.tells → KeepsFiles (D.history self.old.disk) (D.history self.new.disk) }
        ensures cause { HasCause desk_kind (D.faults self.old.disk) (D.faults self.new.disk) result }
        ensures far { StaysNear (D.far self.old.disk) (D.far self.new.disk) self.old self.new }
    {
        remove(&mut self.store, id)
    }

    /// Takes an item out of the list that is kept elsewhere now. Only a complete or cancelled one is taken.
    pub fn archived(&mut self, id: ItemId) -> Result<(), DeskFault>
        ensures kept { IsDesk D.tells D.history self.new }
        ensures answers { ChangeAnswers in_no_phase (entries.Archived id) id self.old self.new result }
        ensures keeps { Keeps D.tells D.history (λ o. said_of (O.says o)) self.old self.new }
        ensures beside { D.tells → KeepsFiles (D.history self.old.disk) (D.history self.new.disk) }
        ensures cause { HasCause desk_kind (D.faults self.old.disk) (D.faults self.new.disk) result }
        ensures far { StaysNear (D.far self.old.disk) (D.far self.new.disk) self.old self.new }
    {
        archived(&mut self.store, id)
    }
}
