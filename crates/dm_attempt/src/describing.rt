ghost use Rattle.std.specs.Prelude.{◌≡◌, ℕ, List, None, IfErr};
ghost use Rattle.dm_types.specs.declared.address.Address.{Address};
ghost use Rattle.dm_edge.specs.Wire.{Closed};
ghost use Rattle.dm_item.specs.Fields.{no_bytes};
ghost use Rattle.dm_reply.specs.declared.head.Head.{Head};
ghost use Rattle.dm_store.specs.Origin.{said_of};
ghost use Rattle.dm_answers.specs.Broke.{IsMet};
ghost use Rattle.dm_attempt.specs.Ending.{IfBroke};
ghost use Rattle.dm_answers.specs.Describe.{IsTelling};
ghost use Rattle.dm_attempt.specs.Live.{LiveDesk};
ghost use Rattle.dm_attempt.specs.Scene.{Scene, begun_by};
ghost use Rattle.dm_attempt.specs.Ends.{DescribeLeaves};
ghost use Rattle.dm_attempt.specs.Trace.{untold};

use crate::stop::stop_of;
use crate::{Desk, Stop};
use dm_answers::{Named, Told};
use dm_store::Pass;
use dm_types::Reason;

/// Takes what the first reply told.
pub fn describe<S: Desk>(desk: &mut S, pass: &Pass, told: Told) -> Result<(), Stop>
    requires telling { IsTelling pass.now told }
    ensures goes { (scene : Scene S.D S.O) (led lost : List Closed) (count : ℕ) (head : Head) (address : Address)
        → LiveDesk S.D.tells S.D.history (λ o. said_of (S.O.says o)) S.D.far S.D.faults scene pass.now (S.view desk.old) (untold led lost count)
        → (begun_by scene).key ≡ None → told.last_address ≡ address.text
        → DescribeLeaves S.D.tells S.D.history (λ o. said_of (S.O.says o)) S.D.far S.D.faults scene pass.now (S.view desk.old) (S.view desk.new) led lost count head told address result }
    ensures bare { (scene : Scene S.D S.O) (led lost : List Closed) (count : ℕ)
        → LiveDesk S.D.tells S.D.history (λ o. said_of (S.O.says o)) S.D.far S.D.faults scene pass.now (S.view desk.old) (untold led lost count)
        → (begun_by scene).key ≡ None → (begun_by scene).slices ≡ no_bytes }
    ensures met { IfErr result (λ stop. IfBroke stop IsMet) }
{
    match desk.describe(pass, told) {
        Ok(Named::Named) => Ok(()),
        Ok(Named::AllTaken) => Err(Stop::Recorded(Reason::FileFailed)),
        Err(fault) => Err(stop_of(fault)),
    }
}
