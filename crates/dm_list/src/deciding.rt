//! A job's own part: the desk's call, and the course that the command takes by its answer.
ghost use Rattle.std.specs.Prelude.{◌≡◌, ℕ, false, Some, None};
ghost use Rattle.dm_types.specs.declared.item.Item.{Item};
ghost use Rattle.dm_item.specs.Listing.{item_in};
ghost use Rattle.dm_item.specs.Row.{is_complete};
ghost use Rattle.dm_report.specs.declared.verdict.Verdict.TheVariants.{Done};
ghost use Rattle.dm_answers.specs.Add.{IsOrder};
ghost use Rattle.dm_does.specs.declared.course.Course.TheVariants.{Brings, Ends};
ghost use Rattle.dm_does.specs.declared.course.Show.TheVariants.{Line};
ghost use Rattle.dm_does.specs.declared.job.Job.TheVariants as jobs;
ghost use Rattle.dm_does.specs.Deciding.{Decides, ShowsFault, course_of, course_of_fault, course_of_order};
ghost use Rattle.dm_does.specs.Doing.{does, goes_on};
ghost use Rattle.dm_does.proofs.Decisions.{given_of};
ghost use Rattle.dm_store.specs.Keeps.{IsDesk};
ghost use Rattle.dm_store.specs.Lives.{life_in};
ghost use Rattle.dm_store.specs.Origin.{said_of};
ghost use Rattle.dm_list.specs.Reading.{FitsJob};
ghost use Rattle.dm_list.specs.Working.{CallGoes, HasNoLife};

use dm_answers::{DeskFault, Order, Taken};
use dm_disk_model::Disk;
use dm_does::{Course, Job, Show};
use dm_edge::Origin;
use dm_items::Desk;
use dm_report::Verdict;
use dm_types::{ItemId, Phase};

/// How a command ends that is refused so. Faults that no call of a list gives are told as want of memory.
fn course_of_fault(fault: DeskFault) -> Course
    ensures { result ≡ course_of_fault fault }
{
    let verdict = match fault {
        DeskFault::NoItem(id) => Verdict::NoItem(id),
        DeskFault::WrongState(phase) => Verdict::WrongState(phase),
        DeskFault::ItemsFull(count) => Verdict::ItemsFull(count),
        DeskFault::WordTaken(id) => Verdict::OtherWord(id),
        DeskFault::Journal(kind) => Verdict::DiskFailed(kind),
        DeskFault::File(kind) => Verdict::DiskFailed(kind),
        DeskFault::Stale { .. } => Verdict::NoMemory,
        DeskFault::NotNext(_) => Verdict::NoMemory,
        DeskFault::PastEnd(_) => Verdict::NoMemory,
        DeskFault::CheckpointDue(_) => Verdict::NoMemory,
        DeskFault::Broken => Verdict::NoMemory,
        DeskFault::NoMemory => Verdict::NoMemory,
        DeskFault::Damaged(_) => Verdict::NoMemory,
    };
    Course::Ends(verdict, Show::Nothing)
}

/// The course by the answer to a change, where Ok ends with this text.
fn course_of_change(show: Show, answer: Result<(), DeskFault>) -> Course
    ensures { result ≡ course_of (Ends Done show) answer }
{
    match answer {
        Ok(()) => Course::Ends(Verdict::Done, show),
        Err(fault) => course_of_fault(fault),
    }
}

/// The course by the answer to an order: the line of the item that it is.
fn course_of_add(answer: Result<Taken, DeskFault>) -> Course
    ensures { result ≡ course_of_order (λ id. Ends Done (Line id)) (λ id. Ends Done (Line id)) answer }
{
    match answer {
        Ok(Taken::New(id)) => Course::Ends(Verdict::Done, Show::Line(id)),
        Ok(Taken::Same(id)) => Course::Ends(Verdict::Done, Show::Line(id)),
        Err(fault) => course_of_fault(fault),
    }
}

/// `show`.
fn show<D: Disk, O: Origin>(desk: &Desk<D, O>, id: ItemId) -> Course
    ensures decides { (at : ℕ) → Decides (does (jobs.Show id) (given_of desk.now at)) desk.now desk.now result }
    ensures shows { ShowsFault (D.faults desk.now.disk) (D.faults desk.now.disk) result }
{
    match desk.view(id) {
        Some(_) => Course::Ends(Verdict::Done, Show::Whole(id)),
        None => Course::Ends(Verdict::NoItem(id), Show::Nothing),
    }
}

/// `add`, as a job's own part: the desk's call, and the course by its answer.
pub fn add<D: Disk, O: Origin>(desk: &mut Desk<D, O>, order: Order, at: u64) -> Course
    requires order { IsOrder order }
    requires whole { desk.old.broken ≡ false }
    requires desk { IsDesk D.tells D.history desk.old }
    ensures kept { IsDesk D.tells D.history desk.new }
    ensures decides { Decides (does (jobs.Add order) (given_of desk.old at)) desk.old desk.new result }
    ensures goes { CallGoes D.tells D.history D.faults D.far (λ o. said_of (O.says o)) desk.old desk.new }
    ensures shows { ShowsFault (D.faults desk.old.disk) (D.faults desk.new.disk) result }
{
    let answer = desk.add(order, at);
    course_of_add(answer)
}

/// `pause`.
fn pause<D: Disk, O: Origin>(desk: &mut Desk<D, O>, id: ItemId) -> Course
    requires whole { desk.old.broken ≡ false }
    requires idle { life_in id.0 desk.old.lives ≡ None }
    ensures kept { IsDesk D.tells D.history desk.new }
    ensures decides { (at : ℕ) → Decides (does (jobs.Pause id) (given_of desk.old at)) desk.old desk.new result }
    ensures goes { CallGoes D.tells D.history D.faults D.far (λ o. said_of (O.says o)) desk.old desk.new }
    ensures shows { ShowsFault (D.faults desk.old.disk) (D.faults desk.new.disk) result }
{
    let answer = desk.pause(id);
    course_of_change(Show::Line(id), answer)
}

/// `cancel`.
fn cancel<D: Disk, O: Origin>(desk: &mut Desk<D, O>, id: ItemId) -> Course
    requires whole { desk.old.broken ≡ false }
    ensures kept { IsDesk D.tells D.history desk.new }
    ensures decides { (at : ℕ) → Decides (does (jobs.Cancel id) (given_of desk.old at)) desk.old desk.new result }
    ensures goes { CallGoes D.tells D.history D.faults D.far (λ o. said_of (O.says o)) desk.old desk.new }
    ensures shows { ShowsFault (D.faults desk.old.disk) (D.faults desk.new.disk) result }
{
    let answer = desk.cancel(id);
    course_of_change(Show::Line(id), answer)
}

/// `remove`.
fn remove<D: Disk, O: Origin>(desk: &mut Desk<D, O>, id: ItemId) -> Course
    requires whole { desk.old.broken ≡ false }
    ensures kept { IsDesk D.tells D.history desk.new }
    ensures decides { (at : ℕ) → Decides (does (jobs.Remove id) (given_of desk.old at)) desk.old desk.new result }
    ensures goes { CallGoes D.tells D.history D.faults D.far (λ o. said_of (O.says o)) desk.old desk.new }
    ensures shows { ShowsFault (D.faults desk.old.disk) (D.faults desk.new.disk) result }
{
    let answer = desk.remove(id);
    course_of_change(Show::Nothing, answer)
}

/// The course by the answer to a resumption: the item is brought.
fn course_of_resume(id: ItemId, slices: u32, answer: Result<(), DeskFault>) -> Course
    ensures { result ≡ course_of (Brings id slices) answer }
{
    match answer {
        Ok(()) => Course::Brings(id, slices),
        Err(fault) => course_of_fault(fault),
    }
}

/// `resume`.
fn resume<D: Disk, O: Origin>(desk: &mut Desk<D, O>, id: ItemId, slices: u32) -> Course
    requires whole { desk.old.broken ≡ false }
    ensures kept { IsDesk D.tells D.history desk.new }
    ensures decides { (at : ℕ) → Decides (does (jobs.Resume id slices) (given_of desk.old at)) desk.old desk.new result }
    ensures goes { CallGoes D.tells D.history D.faults D.far (λ o. said_of (O.says o)) desk.old desk.new }
    ensures shows { ShowsFault (D.faults desk.old.disk) (D.faults desk.new.disk) result }
{
    let answer = desk.resume(id);
    course_of_resume(id, slices, answer)
}

/// Whether the item with the id is complete, where there is one.
fn is_complete<D: Disk, O: Origin>(desk: &Desk<D, O>, id: ItemId) -> bool
    ensures { (item : Item) → item_in id.0 desk.now.items.items ≡ Some item → result ≡ is_complete item.phase }
{
    match desk.view(id) {
        Some(item) => item.phase == Phase::Complete,
        None => false,
    }
}

/// Goes on with an item that has the order's word: a complete one is shown, and every other one is brought.
fn go_on<D: Disk, O: Origin>(desk: &mut Desk<D, O>, id: ItemId, slices: u32) -> Course
    requires whole { desk.old.broken ≡ false }
    requires desk { IsDesk D.tells D.history desk.old }
    ensures kept { IsDesk D.tells D.history desk.new }
    ensures decides { (item : Item) → item_in id.0 desk.old.items.items ≡ Some item → Decides (goes_on slices item) desk.old desk.new result }
    ensures goes { CallGoes D.tells D.history D.faults D.far (λ o. said_of (O.says o)) desk.old desk.new }
    ensures shows { ShowsFault (D.faults desk.old.disk) (D.faults desk.new.disk) result }
{
    if is_complete(desk, id) {
        return Course::Ends(Verdict::Done, Show::Line(id));
    }
    resume(desk, id, slices)
}

/// `get`: a new item is brought, and with one that is there already it goes on.
fn get<D: Disk, O: Origin>(desk: &mut Desk<D, O>, order: Order, slices: u32, at: u64) -> Course
    requires order { IsOrder order }
    requires whole { desk.old.broken ≡ false }
    requires desk { IsDesk D.tells D.history desk.old }
    ensures kept { IsDesk D.tells D.history desk.new }
    ensures decides { Decides (does (jobs.Get order slices) (given_of desk.old at)) desk.old desk.new result }
    ensures goes { CallGoes D.tells D.history D.faults D.far (λ o. said_of (O.says o)) desk.old desk.new }
    ensures shows { ShowsFault (D.faults desk.old.disk) (D.faults desk.new.disk) result }
{
    match desk.add(order, at) {
        Ok(Taken::New(id)) => Course::Brings(id, slices),
        Ok(Taken::Same(id)) => go_on(desk, id, slices),
        Err(fault) => course_of_fault(fault),
    }
}

/// Does a job's own part on a desk that was just opened, and says how the command goes on. `at` is the moment
/// in milliseconds since 1970.
pub(crate) fn decide<D: Disk, O: Origin>(desk: &mut Desk<D, O>, job: Job, at: u64) -> Course
    requires fits { FitsJob job }
    requires whole { desk.old.broken ≡ false }
    requires desk { IsDesk D.tells D.history desk.old }
    requires idle { HasNoLife desk.old }
    ensures kept { IsDesk D.tells D.history desk.new }
    ensures decides { Decides (does job (given_of desk.old at)) desk.old desk.new result }
    ensures goes { CallGoes D.tells D.history D.faults D.far (λ o. said_of (O.says o)) desk.old desk.new }
    ensures shows { ShowsFault (D.faults desk.old.disk) (D.faults desk.new.disk) result }
{
    match job {
        Job::List => Course::Ends(Verdict::Done, Show::Lines),
        Job::Report => Course::Ends(Verdict::Done, Show::Counts),
        Job::Export => Course::Ends(Verdict::Done, Show::Records),
        Job::Show(id) => show(desk, id),
        Job::Add(order) => add(desk, order, at),
        Job::Pause(id) => pause(desk, id),
        Job::Cancel(id) => cancel(desk, id),
        Job::Remove(id) => remove(desk, id),
        Job::Get(order, slices) => get(desk, order, slices, at),
        Job::Resume(id, slices) => resume(desk, id, slices),
    }
}
