use crate::Desk;
use dm_answers::DeskFault;
use dm_disk_model::Disk;
use dm_edge::Origin;
use dm_sweep::sweep;

// Parts that none needs.
impl<D: Disk, O: Origin> Desk<D, O> {
    ghost use Rattle.dm_disk_model.specs.Beside.{Besides};
    ghost use Rattle.dm_types.specs.Faults.{HasCause};
    ghost use Rattle.dm_store.specs.Keeps.{IsDesk, Keeps, StaysNear};
    ghost use Rattle.dm_store.specs.Origin.{said_of};
    ghost use Rattle.dm_answers.specs.Faults.{desk_kind};
    ghost use Rattle.dm_answers.specs.Sweep.{IsLeftover, SweepAnswers};

    /// Removes each part that none needs: that of an item which is gone, cancelled or complete, or which has
    /// another epoch now. No item is interrupted.
    pub fn sweep(&mut self) -> Result<(), DeskFault>
        ensures kept { IsDesk D.tells D.history self.new }
        ensures answers { SweepAnswers D.tells D.history self.old self.new result }
        ensures keeps { Keeps D.tells D.history (λ o. said_of (O.says o)) self.old self.new }
        ensures beside { D.tells → Besides (IsLeftover self.old.items) (D.history self.old.disk) (D.history self.new.disk) }
        ensures cause { HasCause desk_kind (D.faults self.old.disk) (D.faults self.new.disk) result }
        ensures far { StaysNear (D.far self.old.disk) (D.far self.new.disk) self.old self.new }
    {
        sweep(&mut self.store)
    }
}
