//! One run of any words, over a list and a history.
ghost use Rattle.dm_brings.specs.Bringing.{brings_of};
ghost use Rattle.dm_store.specs.Origin.{said_of};
ghost use Rattle.dm_list.specs.Completing.{Completes};
ghost use Rattle.dm_list.specs.Running.{world_of};
ghost use Rattle.dm_list.specs.Writing.{outputs_of};
ghost use Rattle.dm_past.specs.All.{ExplainsAll, RunsAll};
ghost use Rattle.dm_past.specs.Past.{past_of};

use crate::listed::run_words;
use crate::running::run_opened;
use crate::words::read_task;
use dm_disk_model::Disk;
use dm_edge::{Clock, Net, Sink};
use dm_hist::Keeper;
use dm_list::{Over, Ran, print_ending};
use dm_types::Text;
use std::alloc::Global;

/// Does what the words ask at this moment, in milliseconds since 1970.
fn run_at<D: Disk, N: Net, K: Keeper>(
    alloc: Global,
    words: &[Text],
    turns: &[u8],
    disk: D,
    net: &mut N,
    keeper: &mut K,
    at: u64,
) -> Over<D>
    ensures { RunsAll (Completes D.tells D.history (λ o. said_of (N.O.says o)) D.far D.faults N.tells (N.origin_of net.old) disk result.disk (N.closed net.old) (N.closed net.new) (N.faults net.old) (N.faults net.new) words.now at result.ending)
        (brings_of D.tells D.history (λ o. said_of (N.O.says o)) D.far D.faults N.tells) D.tells K.tells (said_of (N.O.says (N.origin_of net.old))) words.now at
        (world_of D.history D.faults (N.faults net.old) (N.closed net.old) disk) (world_of D.history D.faults (N.faults net.new) (N.closed net.new) result.disk)
        (past_of K.rows K.faults keeper.old) (past_of K.rows K.faults keeper.new) (D.far disk) (D.far result.disk) result.ending }
{
    match read_task(words) {
        Some(task) => run_opened(alloc, task, disk, net.origin(), keeper, at),
        None => run_words(alloc, words, turns, disk, net, keeper, at),
    }
}

/// One run: what the words ask is done on the list of the disk and on the history, the disk is handed back, and
/// what is printed and the status say how it ended. The clock is asked once, before anything is done. `turns`
/// says which open connection is read next, and they go round where it is empty.
pub fn run_with_history<D: Disk, N: Net, K: Keeper, C: Clock, S: Sink>(
    alloc: Global,
    words: &[Text],
    turns: &[u8],
    disk: D,
    net: &mut N,
    keeper: &mut K,
    clock: &mut C,
    out: &mut S,
    errs: &mut S,
) -> Ran<D>
    ensures { ExplainsAll (Completes D.tells D.history (λ o. said_of (N.O.says o)) D.far D.faults N.tells (N.origin_of net.old) disk result.disk (N.closed net.old) (N.closed net.new) (N.faults net.old) (N.faults net.new) words.now)
        (brings_of D.tells D.history (λ o. said_of (N.O.says o)) D.far D.faults N.tells) (record { disk = D.tells; clock = C.tells; outputs = S.tells }) K.tells (said_of (N.O.says (N.origin_of net.old))) words.now (C.next clock.old)
        (world_of D.history D.faults (N.faults net.old) (N.closed net.old) disk) (world_of D.history D.faults (N.faults net.new) (N.closed net.new) result.disk)
        (past_of K.rows K.faults keeper.old) (past_of K.rows K.faults keeper.new) (D.far disk) (D.far result.disk)
        (outputs_of S.written S.faults out.old errs.old) (outputs_of S.written S.faults out.new errs.new) result.status }
{
    let at = clock.now();
    let Over { ending, disk } = run_at(alloc, words, turns, disk, net, keeper, at);
    let status = print_ending(&ending, out, errs);
    Ran { status, disk }
}
