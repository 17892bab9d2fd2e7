//! The top call: the words of every command.
ghost use Rattle.std.specs.Prelude.{ℕ, List, IfSome, IfNone};
ghost use Rattle.dm_store.specs.Origin.{said_of};
ghost use Rattle.dm_list.specs.Running.{ExplainsAll};
ghost use Rattle.dm_list.specs.Writing.{outputs_of};
ghost use Rattle.dm_does.specs.Jobs.{HasSomeJob};
ghost use Rattle.dm_cli.specs.Refusing.{IsDone, IsListed, IsSomeCommand, RefusesImport, RefusesJob, RefusesSo, RefusesTask};

use dm_disk_model::Disk;
use dm_edge::{Clock, Net, Sink};
use dm_import::read_import;
use dm_list::{Ran, read_job, run_list};
use dm_past::read_task;
use dm_rehearse_run::read_rehearsal;
use dm_report::{Ending, Verdict};
use dm_types::{Text, let_go};
use std::alloc::Global;

/// One run over a list alone: what the words ask is done, the disk is handed back, and what is printed
/// and the status say how it ended. The clock is asked once, before anything is done. Connections that are open
/// side by side are read in turns.
pub fn run_words<D: Disk, N: Net, C: Clock, S: Sink>(
    alloc: Global,
    words: &[Text],
    disk: D,
    net: &mut N,
    clock: &mut C,
    out: &mut S,
    errs: &mut S,
) -> Ran<D>
    // One verdict, one log and one moment explain all that is seen of the run, and by them it completes the item that it brings.
    ensures { ExplainsAll (record { disk = D.tells; clock = C.tells; outputs = S.tells }) D.history D.faults D.far (λ o. said_of (N.O.says o)) N.tells (N.origin_of net.old) words.now (C.next clock.old) disk result.disk
        (N.closed net.old) (N.closed net.new) (N.faults net.old) (N.faults net.new) (outputs_of S.written S.faults out.old errs.old) (outputs_of S.written S.faults out.new errs.new) result.status }
{
    run_list(alloc, words, &[], disk, net, clock, out, errs)
}

/// The same as `refused`, of words that ask for no task of the history.
fn refused_job(alloc: Global, words: &[Text]) -> Option<Ending>
    ensures refused { IfSome result (RefusesJob words.now) }
    ensures none { IfNone result (HasSomeJob words.now) }
{
    match read_job(alloc, words) {
        Ok(job) => {
            let_go(job);
            None
        }
        Err(Verdict::BadWords) => Some(Ending::fixed(alloc, Verdict::BadWords)),
        Err(Verdict::BadAddress) => Some(Ending::fixed(alloc, Verdict::BadAddress)),
        Err(_) => Some(Ending::fixed(alloc, Verdict::NoMemory)),
    }
}

/// The same of words that ask for no import.
fn refused_task(alloc: Global, words: &[Text]) -> Option<Ending>
    ensures refused { IfSome result (RefusesTask words.now) }
    ensures none { IfNone result (IsListed words.now) }
{
    match read_task(words) {
        Some(_) => None,
        None => refused_job(alloc, words),
    }
}

/// The same of words that ask for no rehearsal.
fn refused_import(alloc: Global, words: &[Text]) -> Option<Ending>
    ensures refused { IfSome result (RefusesImport words.now) }
    ensures none { IfNone result (IsDone words.now) }
{
    match read_import(words) {
        Some(_) => None,
        None => refused_task(alloc, words),
    }
}

/// Whether the words are refused before any disk is looked at, and what is said then: they are no command, or
/// their address is refused, or memory was wanting to read it. `None` where they are a command.
pub fn refused(alloc: Global, words: &[Text]) -> Option<Ending>
    ensures refused { IfSome result (RefusesSo words.now) }
    ensures none { IfNone result (IsSomeCommand words.now) }
{
    match read_rehearsal(words) {
        Some(_) => None,
        None => refused_import(alloc, words),
    }
}
