//! An import, from the name of the file to what is printed.
ghost use Rattle.std.specs.Prelude.{ℕ, List};
ghost use Rattle.dm_edge.specs.declared.fault.NetFault.{NetFault};
ghost use Rattle.dm_edge.specs.Wire.{Closed};
ghost use Rattle.dm_store.specs.Origin.{said_of};
ghost use Rattle.dm_list.specs.Running.{world_of};
ghost use Rattle.dm_list.specs.Writing.{outputs_of};
ghost use Rattle.dm_past.specs.Past.{past_of};
ghost use Rattle.dm_import.specs.Explaining.{ExplainsImport};

use crate::running::run_at;
use dm_disk_model::Disk;
use dm_edge::{Clock, Origin, Sink};
use dm_hist::Keeper;
use dm_list::{Over, Ran, print_ending};
use std::alloc::Global;

/// One run of an import: the file of this name among the user's files is read, what it tells is added to the
/// list of the disk, one item after another, the disk is handed back, and what is printed and the status say
/// how it ended. The clock is asked once, before anything is done.
pub fn run_import<D: Disk, O: Origin, K: Keeper, C: Clock, S: Sink>(
    alloc: Global,
    name: &[u8],
    disk: D,
    origin: O,
    keeper: &mut K,
    clock: &mut C,
    out: &mut S,
    errs: &mut S,
) -> Ran<D>
    ensures { (net_faults : NetFault → ℕ) (closed : List Closed) → ExplainsImport (record { disk = D.tells; clock = C.tells; outputs = S.tells }) K.tells (said_of (O.says origin)) name.now (C.next clock.old)
        (world_of D.history D.faults net_faults closed disk) (world_of D.history D.faults net_faults closed result.disk)
        (past_of K.rows K.faults keeper.old) (past_of K.rows K.faults keeper.new) (D.far disk) (D.far result.disk)
        (outputs_of S.written S.faults out.old errs.old) (outputs_of S.written S.faults out.new errs.new) result.status }
{
    let at = clock.now();
    let Over { ending, disk } = run_at(alloc, name, disk, origin, keeper, at);
    let status = print_ending(&ending, out, errs);
    Ran { status, disk }
}
