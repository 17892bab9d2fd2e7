//! What an import does on a list that was opened.
ghost use Rattle.std.specs.Prelude.{◌≡◌, false, Ok, IfOk};
ghost use Rattle.std.specs.List.{AllByRecursion};
ghost use Rattle.dm_store.specs.Keeps.{IsDesk};
ghost use Rattle.dm_store.specs.Origin.{said_of};
ghost use Rattle.dm_past.specs.ByRows.{RowsRest};
ghost use Rattle.dm_past.specs.Past.{past_of};
ghost use Rattle.dm_past.specs.Working.{TaskGoes};
ghost use Rattle.dm_import.specs.Working.{IsGoodRow, Worked};

use crate::adding::add_rows;
use crate::saying::say;
use dm_csv::ImportRows;
use dm_disk_model::Disk;
use dm_edge::Origin;
use dm_hist::Keeper;
use dm_items::Desk;
use dm_report::{Ending, Verdict};
use dm_types::Listed;
use std::alloc::Global;

/// Adds the rows of a file, and says what came of them.
fn add_file<D: Disk, O: Origin, K: Keeper>(
    alloc: Global,
    desk: &mut Desk<D, O>,
    keeper: &mut K,
    rows: ImportRows,
    at: u64,
) -> Ending
    requires good { AllByRecursion IsGoodRow rows }
    requires whole { desk.old.broken ≡ false }
    requires desk { IsDesk D.tells D.history desk.old }
    ensures worked { Worked K.tells D.faults at (Ok rows) desk.old desk.new (past_of K.rows K.faults keeper.old) (past_of K.rows K.faults keeper.new) result }
    ensures goes { TaskGoes D.tells D.history D.faults D.far (λ o. said_of (O.says o)) desk.old desk.new (past_of K.rows K.faults keeper.old) (past_of K.rows K.faults keeper.new) }
    ensures rest { RowsRest K.tells (past_of K.rows K.faults keeper.old) (past_of K.rows K.faults keeper.new) }
{
    let mut all = Listed::new(alloc);
    let verdict = add_rows(desk, keeper, rows, at, &mut all);
    say(alloc, desk.items(), all.items(), verdict)
}

/// Adds what was read of a file to a list that was just opened, or says why nothing was. `at` is the moment in
/// milliseconds since 1970.
pub(crate) fn work<D: Disk, O: Origin, K: Keeper>(
    alloc: Global,
    desk: &mut Desk<D, O>,
    keeper: &mut K,
    read: Result<ImportRows, Verdict>,
    at: u64,
) -> Ending
    requires good { IfOk read (AllByRecursion IsGoodRow) }
    requires whole { desk.old.broken ≡ false }
    requires desk { IsDesk D.tells D.history desk.old }
    ensures worked { Worked K.tells D.faults at read desk.old desk.new (past_of K.rows K.faults keeper.old) (past_of K.rows K.faults keeper.new) result }
    ensures goes { TaskGoes D.tells D.history D.faults D.far (λ o. said_of (O.says o)) desk.old desk.new (past_of K.rows K.faults keeper.old) (past_of K.rows K.faults keeper.new) }
    ensures rest { RowsRest K.tells (past_of K.rows K.faults keeper.old) (past_of K.rows K.faults keeper.new) }
{
    match read {
        Ok(rows) => add_file(alloc, desk, keeper, rows, at),
        Err(verdict) => say(alloc, desk.items(), &[], verdict),
    }
}
