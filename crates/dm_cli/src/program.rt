//! The call that the program makes.
ghost use Rattle.dm_brings.specs.Bringing.{brings_of};
ghost use Rattle.dm_store.specs.Origin.{said_of};
ghost use Rattle.dm_list.specs.Completing.{Completes};
ghost use Rattle.dm_list.specs.Running.{world_of};
ghost use Rattle.dm_list.specs.Writing.{outputs_of};
ghost use Rattle.dm_past.specs.All.{ExplainsAll};
ghost use Rattle.dm_past.specs.Past.{past_of};
ghost use Rattle.dm_import.specs.Explaining.{ExplainsImport};
ghost use Rattle.dm_cli.specs.Program.{ExplainsProgram, Rehearsed};

use dm_disk_model::Disk;
use dm_edge::{Clock, Net, Sink};
use dm_hist::Keeper;
use dm_import::{read_import, run_import};
use dm_list::Ran;
use dm_past::run_with_history;
use dm_rehearse_run::{read_rehearsal, run_rehearsal};
use dm_types::Text;
use std::alloc::Global;

/// One run: what the words ask is done on the list of the disk and on the history, the disk is handed back, and
/// what is printed and the status say how it ended. The clock is asked once, before anything is done. `turns`
/// says which open connection is read next, and they go round where it is empty. A rehearsal leaves the disk, the
/// net and the history as they were.
pub fn run_program<D: Disk, N: Net, K: Keeper, C: Clock, S: Sink>(
    alloc: Global,
    words: &[Text],
    turns: &[u8],
    disk: D,
    net: &mut N,
    keeper: &mut K,
    clock: &mut C,
    out: &mut S,
    errs: &mut S,
) -> Ran<D>
    ensures { ExplainsProgram words.now
        (λ number. Rehearsed S.tells number
        (world_of D.history D.faults (N.faults net.old) (N.closed net.old) disk) (world_of D.history D.faults (N.faults net.new) (N.closed net.new) result.disk)
        (past_of K.rows K.faults keeper.old) (past_of K.rows K.faults keeper.new)
        (outputs_of S.written S.faults out.old errs.old) (outputs_of S.written S.faults out.new errs.new) result.status)
        (λ name. ExplainsImport (record { disk = D.tells; clock = C.tells; outputs = S.tells }) K.tells (said_of (N.O.says (N.origin_of net.old))) name (C.next clock.old)
        (world_of D.history D.faults (N.faults net.old) (N.closed net.old) disk) (world_of D.history D.faults (N.faults net.new) (N.closed net.new) result.disk)
        (past_of K.rows K.faults keeper.old) (past_of K.rows K.faults keeper.new) (D.far disk) (D.far result.disk)
        (outputs_of S.written S.faults out.old errs.old) (outputs_of S.written S.faults out.new errs.new) result.status)
        (ExplainsAll (Completes D.tells D.history (λ o. said_of (N.O.says o)) D.far D.faults N.tells (N.origin_of net.old) disk result.disk (N.closed net.old) (N.closed net.new) (N.faults net.old) (N.faults net.new) words.now)
        (brings_of D.tells D.history (λ o. said_of (N.O.says o)) D.far D.faults N.tells) (record { disk = D.tells; clock = C.tells; outputs = S.tells }) K.tells (said_of (N.O.says (N.origin_of net.old))) words.now (C.next clock.old)
        (world_of D.history D.faults (N.faults net.old) (N.closed net.old) disk) (world_of D.history D.faults (N.faults net.new) (N.closed net.new) result.disk)
        (past_of K.rows K.faults keeper.old) (past_of K.rows K.faults keeper.new) (D.far disk) (D.far result.disk)
        (outputs_of S.written S.faults out.old errs.old) (outputs_of S.written S.faults out.new errs.new) result.status) }
{
    match read_rehearsal(words) {
        Some(number) => {
            let status = run_rehearsal(alloc, number, out, errs);
            Ran { status, disk }
        }
        None => match read_import(words) {
            Some(name) => run_import(alloc, name, disk, net.origin(), keeper, clock, out, errs),
            None => run_with_history(alloc, words, turns, disk, net, keeper, clock, out, errs),
        },
    }
}
