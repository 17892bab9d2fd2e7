//! How the service ended.
ghost use Rattle.std.specs.Prelude.{◌≡◌};
ghost use Rattle.dm_session.specs.Serving.{by_broken, said_at_end};

use crate::Closed;
use dm_report::{Ending, Verdict};
use dm_types::DiskKind;
use std::alloc::Global;

/// What is said by whether the list is broken.
fn by_broken(alloc: Global, broken: bool) -> Ending
    ensures { result ≡ by_broken broken }
{
    if broken {
        Ending::fixed(alloc, Verdict::DiskFailed(DiskKind::Failed))
    } else {
        Ending::fixed(alloc, Verdict::Done)
    }
}

/// What is said behind the last connection. An accept that failed is told before a list that is broken.
pub(crate) fn ending_of(alloc: Global, closed: Closed, broken: bool) -> Ending
    ensures { result ≡ said_at_end closed broken }
{
    match closed {
        Closed::AcceptFailed => Ending::fixed(alloc, Verdict::NotAccepted),
        Closed::Full => by_broken(alloc, broken),
        Closed::Stopped => by_broken(alloc, broken),
    }
}
