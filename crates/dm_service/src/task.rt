//! What is to be done for a call.
ghost use Rattle.std.specs.Prelude.{◌≡◌};
ghost use Rattle.dm_service.specs.Tasks.{order_by, task_by};

use dm_answers::Order;
use dm_call::{Call, Named, Window};
use dm_does::Job;
use dm_types::ItemId;

/// What is to be done for a call.
#[derive(Debug, Drop)]
pub enum Task {
    /// A job at the list, which asks nothing of the history.
    Job(Job),
    /// An item is added, where no row of the history has its word.
    Add(Order),
    /// An item is removed, or else its row.
    Remove(ItemId),
    /// Part of the list is shown.
    Page(Window),
    /// What is over goes to the history.
    Archive,
    /// Part of the history is shown.
    History(Window),
    /// The report on all items is told.
    Report,
    /// The service ends.
    Stop,
}

/// What is to be done for the call. To resume asks for the item again, and brings nothing here.
pub fn task_of(call: Call) -> Task
    ensures { result ≡ task_by call }
{
    match call {
        Call::Page(window) => Task::Page(window),
        Call::Add(named) => Task::Add(order_of(named)),
        Call::Show(id) => Task::Job(Job::Show(id)),
        Call::Remove(id) => Task::Remove(id),
        Call::Pause(id) => Task::Job(Job::Pause(id)),
        Call::Resume(id) => Task::Job(Job::Resume(id, 1)),
        Call::Cancel(id) => Task::Job(Job::Cancel(id)),
        Call::Archive => Task::Archive,
        Call::History(window) => Task::History(window),
        Call::Report => Task::Report,
        Call::Stop => Task::Stop,
    }
}

fn order_of(named: Named) -> Order
    ensures { result ≡ order_by named }
{
    let Named {
        word,
        address,
        name,
        digest,
    } = named;
    Order {
        word,
        address,
        wish: name,
        digest,
    }
}
