use crate::Desk;
use dm_answers::{DeskFault, OpenFault};
use dm_disk_model::Disk;
use dm_edge::Origin;
use dm_open::{open, reopen};
use dm_types::Limits;
use std::alloc::Global;

// The openings of a desk.
impl<D: Disk, O: Origin> Desk<D, O> {
    ghost use Rattle.std.specs.Prelude.{IfErr, IfOk};
    ghost use Rattle.dm_types.specs.Faults.{HasCause};
    ghost use Rattle.dm_types.specs.Limits.{IsLimits};
    ghost use Rattle.dm_disk_model.specs.Beside.{Besides};
    ghost use Rattle.dm_disk_model.specs.Moments.{Throughout};
    ghost use Rattle.dm_store.specs.Keeps.{IsDesk};
    ghost use Rattle.dm_store.specs.Origin.{said_of};
    ghost use Rattle.dm_answers.specs.Faults.{desk_kind, open_kind};
    ghost use Rattle.dm_answers.specs.Opening.{OpenAnswers, OpenKeeps, OpenLeaves, ReopenAnswers, disk_of};
    ghost use Rattle.dm_answers.specs.Reads.{IsSettledName};
    ghost use Rattle.dm_open.specs.Refused.{OpenRefuses, OpensOn, ReopenRefuses};

    /// Opens the list of a disk: finds its journal or starts it, records that it was opened, settles each
    /// item that was being finished, and removes each part that none needs. `at` is the moment in
    /// milliseconds since 1970. After a fault the disk is handed back.
    pub fn open(
        alloc: Global,
        disk: D,
        origin: O,
        limits: Limits,
        at: u64,
    ) -> Result<Desk<D, O>, OpenFault<D>>
        requires { IsLimits limits }
        ensures kept { IfOk result (IsDesk D.tells D.history) }
        ensures answers { OpenAnswers D.tells D.history D.far (said_of (O.says origin)) disk origin limits at result }
        ensures refused { IfErr result (OpenRefuses D.tells D.history D.far (said_of (O.says origin)) disk limits.items at) }
        ensures on { OpensOn D.tells D.history (said_of (O.says origin)) disk result }
        ensures moments { D.tells → Throughout (D.history disk) (D.history (disk_of result)) (OpenLeaves D.tells (D.history disk) (D.history (disk_of result)) at) }
        ensures keeps { D.tells → OpenKeeps D.tells (said_of (O.says origin)) (D.history disk) (D.history (disk_of result)) at }
        ensures beside { D.tells → Besides (IsSettledName D.history disk) (D.history disk) (D.history (disk_of result)) }
        ensures cause { HasCause open_kind (D.faults disk) (D.faults (disk_of result)) result }
    {
        match open(alloc, disk, origin, limits, at) {
            Ok(store) => Ok(Desk { store }),
            Err(fault) => Err(fault),
        }
    }

    /// Opens the list anew on the desk's own disk, also where it is broken: after Ok it isn't. `at` is the
    /// moment in milliseconds since 1970.
    pub fn reopen(&mut self, at: u64) -> Result<(), DeskFault>
        ensures kept { IsDesk D.tells D.history self.new }
        ensures answers { ReopenAnswers D.tells D.history D.far (said_of (O.says self.old.origin)) at self.old self.new result }
        ensures refused { IfErr result (ReopenRefuses D.tells D.history D.far (said_of (O.says self.old.origin)) at self.old self.new) }
        ensures moments { D.tells → Throughout (D.history self.old.disk) (D.history self.new.disk) (OpenLeaves D.tells (D.history self.old.disk) (D.history self.new.disk) at) }
        ensures keeps { D.tells → OpenKeeps D.tells (said_of (O.says self.old.origin)) (D.history self.old.disk) (D.history self.new.disk) at }
        ensures beside { D.tells → Besides (IsSettledName D.history self.old.disk) (D.history self.old.disk) (D.history self.new.disk) }
        ensures cause { HasCause desk_kind (D.faults self.old.disk) (D.faults self.new.disk) result }
    {
        reopen(&mut self.store, at)
    }
}
