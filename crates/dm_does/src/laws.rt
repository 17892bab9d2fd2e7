ghost use Rattle.dm_item.specs.Kept.{IsNumbered};
ghost use Rattle.dm_store.specs.Origin.{said_of};
ghost use Rattle.dm_does.specs.declared.job.Job.{Job};
ghost use Rattle.dm_does.specs.Doing.{Given, does};
ghost use Rattle.dm_does.specs.Headline.{AnyRuns};
ghost use Rattle.dm_does.specs.Laws.{Fits};

use dm_edge::Origin;

/// A job records at most one entry of its own, which the list takes. Where it is refused it records none.
pub fn jobs_fit()
    ensures { (job : Job) (given : Given) → IsNumbered 1 given.list.items given.list.next → Fits given.list (does job given) }
{}

/// Whatever runs and crashes led to a disk, a crash now leaves the items after a list that has every acknowledged
/// entry, and of each run that was cut the first of what it tried. Each complete item's name holds the whole content,
/// every byte of it said by the origin under the item's one validator; no name of an item holds less; and nothing was
/// published twice. So it is for every origin.
pub fn any_runs<O: Origin>(origin: O)
    ensures { AnyRuns (said_of (O.says origin)) }
{
    let _origin = origin;
}
