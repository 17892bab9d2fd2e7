//! A run of a task over a disk and a history.
ghost use Rattle.dm_store.specs.Origin.{said_of};
ghost use Rattle.dm_past.specs.Past.{past_of};
ghost use Rattle.dm_past.specs.Running.{TaskRuns};
ghost use Rattle.dm_past.specs.Tasks.{Does};

use crate::Task;
use crate::working::work;
use dm_disk_model::Disk;
use dm_edge::Origin;
use dm_hist::Keeper;
use dm_items::Desk;
use dm_list::{Over, refuse};
use dm_types::LIMITS;
use std::alloc::Global;

/// Opens the list of a disk, and does the task on it and on the history. `at` is the moment in milliseconds
/// since 1970.
pub(crate) fn run_opened<D: Disk, O: Origin, K: Keeper>(
    alloc: Global,
    task: Task,
    disk: D,
    origin: O,
    keeper: &mut K,
    at: u64,
) -> Over<D>
    ensures { TaskRuns D.tells K.tells D.history D.faults D.far (λ o. said_of (O.says o)) origin (Does K.tells task) at disk result.disk (past_of K.rows K.faults keeper.old) (past_of K.rows K.faults keeper.new) result.ending }
{
    match Desk::open(alloc, disk, origin, LIMITS, at) {
        Ok(desk) => {
            let mut desk = desk;
            let ending = work(alloc, &mut desk, keeper, task);
            Over {
                ending,
                disk: desk.into_disk(),
            }
        }
        Err(fault) => refuse(alloc, fault),
    }
}
