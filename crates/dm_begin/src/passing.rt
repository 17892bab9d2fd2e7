ghost use Rattle.std.specs.Prelude.{◌≡◌};
ghost use Rattle.dm_answers.specs.Faults.{fault_of};

use dm_answers::DeskFault;
use dm_store::Gone;

/// What is answered to a pass that is refused.
pub(crate) fn fault_of(gone: Gone) -> DeskFault
    ensures { result ≡ fault_of gone }
{
    match gone {
        Gone::NoItem(id) => DeskFault::NoItem(id),
        Gone::Stale { attempt, round } => DeskFault::Stale { attempt, round },
    }
}
