ghost use Rattle.std.specs.Prelude.{◌≡◌, ◌≤◌, OnOk};
ghost use Rattle.dm_store.specs.Origin.{said_of};
ghost use Rattle.dm_fetch.specs.Starts.{StartLeaves};

use dm_answers::Begun;
use dm_attempt::{Desk, Ended};
use dm_store::Pass;
use dm_types::{By, ItemId, Reason};

/// An attempt that runs.
#[derive(Clone, Copy, Debug, PartialEq, Eq)]
pub enum Started {
    /// The content is to be asked for from its start.
    Fresh(Pass),
    /// What is missing is to be asked for.
    Continue(Pass),
}

/// Begins an attempt. Else it is not begun, or over at once.
pub fn start<S: Desk>(desk: &mut S, id: ItemId, by: By, at: u64) -> Result<Started, Ended>
    ensures leaves { StartLeaves S.D.tells S.D.history (λ o. said_of (S.O.says o)) S.D.far S.D.faults (S.view desk.old) (S.view desk.new) id by at result }
    ensures limits { OnOk result ((S.view desk.new).limits ≡ (S.view desk.old).limits) }
    ensures some { OnOk result (1 ≤ (S.view desk.new).limits.piece) }
{
    match desk.begin(id, by, at) {
        Ok(Begun::Fresh(pass)) => Ok(Started::Fresh(pass)),
        Ok(Begun::Continue(pass)) => Ok(Started::Continue(pass)),
        Ok(
            Begun::Short {
                have: _have,
                wanted: _wanted,
            },
        ) => Err(Ended::Stopped(Reason::FileTooShort)),
        Err(fault) => Err(Ended::Fault(fault)),
    }
}
