//! What a command does on a list that was opened.
ghost use Rattle.std.specs.Prelude.{◌≡◌, true, false, [], IsTrue};
ghost use Rattle.dm_does.specs.Sweeping.{sweeps};
ghost use Rattle.dm_store.specs.Keeps.{IsDesk};
ghost use Rattle.dm_store.specs.Origin.{said_of};
ghost use Rattle.dm_answers.specs.Frame.{Went};
ghost use Rattle.dm_list.specs.Reading.{FitsJob};
ghost use Rattle.dm_list.specs.Working.{CallGoes, HasNoLife, Swept, Worked};

use crate::deciding::decide;
use crate::saying::say;
use dm_bring::bring;
use dm_disk_model::Disk;
use dm_does::Job;
use dm_edge::{Net, Origin};
use dm_items::Desk;
use dm_report::Ending;
use std::alloc::Global;

/// Whether parts are removed behind the job: where it may leave one that none needs.
fn sweeps(job: &Job) -> bool
    ensures { result ≡ sweeps job.now }
{
    match job {
        Job::Get(_, _) => true,
        Job::Resume(_, _) => true,
        Job::Cancel(_) => true,
        Job::Remove(_) => true,
        Job::Add(_) => false,
        Job::Pause(_) => false,
        Job::Show(_) => false,
        Job::List => false,
        Job::Report => false,
        Job::Export => false,
    }
}

/// Removes the parts that none needs. A fault is passed over: the next opening removes them.
fn sweep<D: Disk, O: Origin>(desk: &mut Desk<D, O>)
    requires desk { IsDesk D.tells D.history desk.old }
    ensures went { desk.old.broken ≡ false → Went desk.old desk.new [] [] false }
    ensures stays { desk.old.broken ≡ true → desk.new ≡ desk.old }
    ensures goes { CallGoes D.tells D.history D.faults D.far (λ o. said_of (O.says o)) desk.old desk.new }
    ensures swept { Swept D.tells D.history D.faults desk.old desk.new }
{
    let _passed_over = desk.sweep();
}

/// The same where the job is one behind which parts are removed.
fn sweep_if<D: Disk, O: Origin>(desk: &mut Desk<D, O>, sweeps: bool)
    requires desk { IsDesk D.tells D.history desk.old }
    ensures went { desk.old.broken ≡ false → Went desk.old desk.new [] [] false }
    ensures stays { desk.old.broken ≡ true → desk.new ≡ desk.old }
    ensures goes { CallGoes D.tells D.history D.faults D.far (λ o. said_of (O.says o)) desk.old desk.new }
    ensures swept { IsTrue sweeps → Swept D.tells D.history D.faults desk.old desk.new }
{
    if sweeps {
        sweep(desk);
    }
}

/// Does a job on a desk that was just opened, over a net with the desk's origin. `turns` says which open
/// connection is read next, and they go round where it is empty; `at` is the moment in milliseconds since 1970.
pub fn work<D: Disk, N: Net>(
    alloc: Global,
    desk: &mut Desk<D, N::O>,
    net: &mut N,
    job: Job,
    turns: &[u8],
    at: u64,
) -> Ending
    requires fits { FitsJob job }
    requires whole { desk.old.broken ≡ false }
    requires desk { IsDesk D.tells D.history desk.old }
    requires idle { HasNoLife desk.old }
    requires origin { N.origin_of net.old ≡ desk.old.origin }
    ensures { Worked D.tells D.history D.faults D.far (λ o. said_of (N.O.says o)) N.tells job at desk.old desk.new (N.closed net.old) (N.closed net.new) (N.faults net.old) (N.faults net.new) result }
{
    let sweeps = sweeps(&job);
    let decided = decide(desk, job, at);
    let onward = bring(alloc, desk, net, decided, turns, at);
    let ending = say(alloc, desk.items(), onward);
    sweep_if(desk, sweeps);
    ending
}
