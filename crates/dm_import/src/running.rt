//! A run of an import over a disk and a history.
ghost use Rattle.std.specs.Prelude.{ℕ, List, IfOk};
ghost use Rattle.std.specs.List.{AllByRecursion};
ghost use Rattle.dm_edge.specs.declared.fault.NetFault.{NetFault};
ghost use Rattle.dm_edge.specs.Wire.{Closed};
ghost use Rattle.dm_store.specs.Origin.{said_of};
ghost use Rattle.dm_list.specs.Running.{world_of};
ghost use Rattle.dm_past.specs.Past.{past_of};
ghost use Rattle.dm_import.specs.Explaining.{RunsImport};
ghost use Rattle.dm_import.specs.Running.{ImportRuns};
ghost use Rattle.dm_import.specs.Working.{IsGoodRow};

use crate::rows::read_rows;
use crate::working::work;
use dm_csv::ImportRows;
use dm_disk_model::Disk;
use dm_edge::Origin;
use dm_hist::Keeper;
use dm_items::Desk;
use dm_list::{Over, refuse};
use dm_report::Verdict;
use dm_types::{LIMITS, let_go};
use std::alloc::Global;

/// Opens the list of a disk, and adds what was read of a file.
fn run_opened<D: Disk, O: Origin, K: Keeper>(
    alloc: Global,
    read: Result<ImportRows, Verdict>,
    disk: D,
    origin: O,
    keeper: &mut K,
    at: u64,
) -> Over<D>
    requires good { IfOk read (AllByRecursion IsGoodRow) }
    ensures { ImportRuns D.tells K.tells D.history D.faults D.far (λ o. said_of (O.says o)) origin read at disk result.disk (past_of K.rows K.faults keeper.old) (past_of K.rows K.faults keeper.new) result.ending }
{
    match Desk::open(alloc, disk, origin, LIMITS, at) {
        Ok(desk) => {
            let mut desk = desk;
            let ending = work(alloc, &mut desk, keeper, read, at);
            Over {
                ending,
                disk: desk.into_disk(),
            }
        }
        Err(fault) => {
            let_go(read);
            refuse(alloc, fault)
        }
    }
}

/// Reads the file of this name as it stands, opens the list of the disk, and adds what the file tells. `at` is
/// the moment in milliseconds since 1970.
pub(crate) fn run_at<D: Disk, O: Origin, K: Keeper>(
    alloc: Global,
    name: &[u8],
    disk: D,
    origin: O,
    keeper: &mut K,
    at: u64,
) -> Over<D>
    ensures { (net_faults : NetFault → ℕ) (closed : List Closed) → RunsImport D.tells K.tells (said_of (O.says origin)) name.now at
        (world_of D.history D.faults net_faults closed disk) (world_of D.history D.faults net_faults closed result.disk)
        (past_of K.rows K.faults keeper.old) (past_of K.rows K.faults keeper.new) (D.far disk) (D.far result.disk) result.ending }
{
    let mut disk = disk;
    let read = read_rows(alloc, &mut disk, name);
    run_opened(alloc, read, disk, origin, keeper, at)
}
