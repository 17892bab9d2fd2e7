ghost use Rattle.std.specs.Prelude.{◌≡◌, ℕ, List, Result};
ghost use Rattle.dm_item.specs.Lawful.{History, KeepsHistory};
ghost use Rattle.dm_store.specs.Keeps.{IsDesk};
ghost use Rattle.dm_store.specs.View.{View};
ghost use Rattle.dm_answers.specs.declared.answer.SlicePass.{SlicePass};
ghost use Rattle.dm_answers.specs.declared.fault.DeskFault.{DeskFault};
ghost use Rattle.dm_answers.specs.Check.{CheckAnswers};
ghost use Rattle.dm_answers.specs.Land.{LandAnswers};
ghost use Rattle.dm_items.specs.Over.{IsOver, RefusesOld};

use dm_disk_model::Disk;
use dm_edge::Origin;

/// Once an attempt is over at a desk, its passes are refused at each later one, whatever was recorded
/// between them, and with the refusal nothing changes: neither the desk, nor a byte of the disk.
pub fn old_passes<D: Disk, O: Origin>()
    ensures check { (old later : View D O) (recorded : History) (pass : SlicePass) (answer : Result ℕ DeskFault)
        → IsDesk D.tells D.history old → IsOver old.items pass.id.0 pass.attempt.0 → KeepsHistory old.items later.items recorded
        → CheckAnswers later pass answer → RefusesOld answer }
    ensures land { (old later new : View D O) (recorded : History) (pass : SlicePass) (at : ℕ) (piece : List ℕ) (answer : Result (Unit {0}) DeskFault)
        → IsDesk D.tells D.history old → IsOver old.items pass.id.0 pass.attempt.0 → KeepsHistory old.items later.items recorded
        → LandAnswers D.faults later new pass at piece answer → RefusesOld answer × (new ≡ later) }
{}
