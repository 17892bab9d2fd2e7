//! A job at a desk.
ghost use Rattle.std.specs.Prelude.{◌≡◌, ℕ, true, false, []};
ghost use Rattle.dm_answers.specs.Add.{IsOrder};
ghost use Rattle.dm_does.specs.declared.job.Job.TheVariants as jobs;
ghost use Rattle.dm_store.specs.Becomes.{Recorded};
ghost use Rattle.dm_store.specs.Keeps.{IsDesk};
ghost use Rattle.dm_store.specs.Origin.{said_of};
ghost use Rattle.dm_service.specs.Api.{does_now, is_change};
ghost use Rattle.dm_works.specs.Deciding.{DecidesNow, FitsJob, Settles, seen_of};
ghost use Rattle.dm_works.specs.Moving.{Steps};

use crate::deciding::{Broken, by_change, by_order, refused};
use dm_answers::Order;
use dm_disk_model::Disk;
use dm_does::{Course, Job, Show};
use dm_edge::Origin;
use dm_items::Desk;
use dm_report::Verdict;
use dm_types::ItemId;

/// Shows an item.
fn show<D: Disk, O: Origin>(desk: &Desk<D, O>, id: ItemId) -> Course
    ensures { (at : ℕ) → Settles D.faults (does_now (jobs.Show id) (seen_of desk.now at)) desk.now desk.now result }
{
    match desk.view(id) {
        Some(_) => Course::Ends(Verdict::Done, Show::Whole(id)),
        None => Course::Ends(Verdict::NoItem(id), Show::Nothing),
    }
}

/// Adds an item.
fn add<D: Disk, O: Origin>(desk: &mut Desk<D, O>, order: Order, at: u64) -> Result<Course, Broken>
    requires order { IsOrder order }
    requires desk { IsDesk D.tells D.history desk.old }
    ensures kept { IsDesk D.tells D.history desk.new }
    ensures decides { DecidesNow D.faults true (does_now (jobs.Add order) (seen_of desk.old at)) desk.old desk.new result }
    ensures steps { Steps D.tells D.history D.faults D.far (λ o. said_of (O.says o)) desk.old desk.new }
{
    let answer = desk.add(order, at);
    by_order(answer)
}

/// Pauses an item.
fn pause<D: Disk, O: Origin>(desk: &mut Desk<D, O>, id: ItemId) -> Result<Course, Broken>
    ensures kept { IsDesk D.tells D.history desk.new }
    ensures decides { (at : ℕ) → DecidesNow D.faults true (does_now (jobs.Pause id) (seen_of desk.old at)) desk.old desk.new result }
    ensures steps { Steps D.tells D.history D.faults D.far (λ o. said_of (O.says o)) desk.old desk.new }
{
    let answer = desk.pause(id);
    by_change(Course::Ends(Verdict::Done, Show::Line(id)), answer)
}

/// Asks for an item again.
fn resume<D: Disk, O: Origin>(
    desk: &mut Desk<D, O>,
    id: ItemId,
    slices: u32,
) -> Result<Course, Broken>
    ensures kept { IsDesk D.tells D.history desk.new }
    ensures decides { (at : ℕ) → DecidesNow D.faults true (does_now (jobs.Resume id slices) (seen_of desk.old at)) desk.old desk.new result }
    ensures steps { Steps D.tells D.history D.faults D.far (λ o. said_of (O.says o)) desk.old desk.new }
{
    let answer = desk.resume(id);
    by_change(Course::Brings(id, slices), answer)
}

/// Removes an item.
fn remove<D: Disk, O: Origin>(desk: &mut Desk<D, O>, id: ItemId) -> Result<Course, Broken>
    ensures kept { IsDesk D.tells D.history desk.new }
    ensures decides { (at : ℕ) → DecidesNow D.faults true (does_now (jobs.Remove id) (seen_of desk.old at)) desk.old desk.new result }
    ensures steps { Steps D.tells D.history D.faults D.far (λ o. said_of (O.says o)) desk.old desk.new }
{
    let answer = desk.remove(id);
    by_change(Course::Ends(Verdict::Done, Show::Nothing), answer)
}

/// Removes the parts that none needs. What it meets is passed over: the next opening removes them.
fn sweep<D: Disk, O: Origin>(desk: &mut Desk<D, O>)
    requires desk { IsDesk D.tells D.history desk.old }
    ensures kept { IsDesk D.tells D.history desk.new }
    ensures still { desk.old.broken ≡ false → Recorded desk.old desk.new [] }
    ensures steps { Steps D.tells D.history D.faults D.far (λ o. said_of (O.says o)) desk.old desk.new }
{
    let _passed_over = desk.sweep();
}

/// Cancels an item, and removes its part.
fn cancel<D: Disk, O: Origin>(desk: &mut Desk<D, O>, id: ItemId) -> Result<Course, Broken>
    ensures kept { IsDesk D.tells D.history desk.new }
    ensures decides { (at : ℕ) → DecidesNow D.faults true (does_now (jobs.Cancel id) (seen_of desk.old at)) desk.old desk.new result }
    ensures steps { Steps D.tells D.history D.faults D.far (λ o. said_of (O.says o)) desk.old desk.new }
{
    match desk.cancel(id) {
        Ok(()) => {
            sweep(desk);
            Ok(Course::Ends(Verdict::Done, Show::Line(id)))
        }
        Err(fault) => refused(fault),
    }
}

/// Does a job on a desk, and says how it goes on. `at` is the moment in milliseconds since 1970.
pub(crate) fn decide<D: Disk, O: Origin>(
    desk: &mut Desk<D, O>,
    job: Job,
    at: u64,
) -> Result<Course, Broken>
    requires fits { FitsJob job }
    requires desk { IsDesk D.tells D.history desk.old }
    ensures kept { IsDesk D.tells D.history desk.new }
    ensures decides { DecidesNow D.faults (is_change job) (does_now job (seen_of desk.old at)) desk.old desk.new result }
    ensures steps { Steps D.tells D.history D.faults D.far (λ o. said_of (O.says o)) desk.old desk.new }
{
    match job {
        Job::List => Ok(Course::Ends(Verdict::Done, Show::Lines)),
        Job::Show(id) => Ok(show(desk, id)),
        Job::Add(order) => add(desk, order, at),
        Job::Pause(id) => pause(desk, id),
        Job::Resume(id, slices) => resume(desk, id, slices),
        Job::Cancel(id) => cancel(desk, id),
        Job::Remove(id) => remove(desk, id),
        Job::Get(_, _) | Job::Report | Job::Export => unreachable!(),
    }
}
