//! What a task does on a list that was opened.
ghost use Rattle.std.specs.Prelude.{◌≡◌, false};
ghost use Rattle.dm_store.specs.Origin.{said_of};
ghost use Rattle.dm_past.specs.Past.{past_of};
ghost use Rattle.dm_past.specs.Tasks.{Does};
ghost use Rattle.dm_past.specs.Working.{TaskGoes, TaskShows, TaskWorked};
ghost use Rattle.dm_past.specs.declared.task.Task.TheVariants as tasks;

use crate::Task;
use crate::lines::row_lines;
use crate::saying::{say_archive, say_keeper, say_moved, with_text};
use dm_archive::archive_all;
use dm_disk_model::Disk;
use dm_edge::Origin;
use dm_hist::Keeper;
use dm_items::Desk;
use dm_report::{Ending, Verdict};
use dm_shown::shown_rows;
use std::alloc::Global;

/// Moves each complete or cancelled item to the history.
fn archive<D: Disk, O: Origin, K: Keeper>(
    alloc: Global,
    desk: &mut Desk<D, O>,
    keeper: &mut K,
) -> Ending
    requires whole { desk.old.broken ≡ false }
    ensures worked { TaskWorked K.tells D.faults (Does K.tells tasks.Archive) desk.old desk.new (past_of K.rows K.faults keeper.old) (past_of K.rows K.faults keeper.new) result }
    ensures goes { TaskGoes D.tells D.history D.faults D.far (λ o. said_of (O.says o)) desk.old desk.new (past_of K.rows K.faults keeper.old) (past_of K.rows K.faults keeper.new) }
    ensures shows { TaskShows D.tells K.tells D.history (λ o. said_of (O.says o)) desk.old desk.new (past_of K.rows K.faults keeper.old) (past_of K.rows K.faults keeper.new) }
{
    match archive_all(alloc, desk, keeper) {
        Ok(count) => say_moved(alloc, count),
        Err(fault) => say_archive(alloc, fault),
    }
}

/// Prints rows of the history.
fn page<D: Disk, O: Origin, K: Keeper>(
    alloc: Global,
    desk: &Desk<D, O>,
    keeper: &mut K,
    after: u32,
    limit: u32,
) -> Ending
    requires whole { desk.now.broken ≡ false }
    ensures worked { TaskWorked K.tells D.faults (Does K.tells (tasks.Page after limit)) desk.now desk.now (past_of K.rows K.faults keeper.old) (past_of K.rows K.faults keeper.new) result }
    ensures goes { TaskGoes D.tells D.history D.faults D.far (λ o. said_of (O.says o)) desk.now desk.now (past_of K.rows K.faults keeper.old) (past_of K.rows K.faults keeper.new) }
    ensures shows { TaskShows D.tells K.tells D.history (λ o. said_of (O.says o)) desk.now desk.now (past_of K.rows K.faults keeper.old) (past_of K.rows K.faults keeper.new) }
{
    keeper.rows_rise();
    match shown_rows(alloc, desk.items(), keeper, after, limit) {
        Ok(rows) => with_text(alloc, Verdict::Done, row_lines(alloc, rows.items())),
        Err(fault) => say_keeper(alloc, fault),
    }
}

/// Does a task on a desk that was just opened.
pub(crate) fn work<D: Disk, O: Origin, K: Keeper>(
    alloc: Global,
    desk: &mut Desk<D, O>,
    keeper: &mut K,
    task: Task,
) -> Ending
    requires whole { desk.old.broken ≡ false }
    ensures worked { TaskWorked K.tells D.faults (Does K.tells task) desk.old desk.new (past_of K.rows K.faults keeper.old) (past_of K.rows K.faults keeper.new) result }
    ensures goes { TaskGoes D.tells D.history D.faults D.far (λ o. said_of (O.says o)) desk.old desk.new (past_of K.rows K.faults keeper.old) (past_of K.rows K.faults keeper.new) }
    ensures shows { TaskShows D.tells K.tells D.history (λ o. said_of (O.says o)) desk.old desk.new (past_of K.rows K.faults keeper.old) (past_of K.rows K.faults keeper.new) }
{
    match task {
        Task::Archive => archive(alloc, desk, keeper),
        Task::Page { after, limit } => page(alloc, desk, keeper, after, limit),
    }
}
