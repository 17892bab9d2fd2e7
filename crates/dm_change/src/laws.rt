ghost use Rattle.std.specs.Prelude.{◌≡◌, Bool, Some, Result};
ghost use Rattle.dm_types.specs.declared.entry.Entry.{Entry};
ghost use Rattle.dm_types.specs.declared.item.ItemId.{ItemId};
ghost use Rattle.dm_types.specs.declared.item.Phase.{Phase};
ghost use Rattle.dm_item.specs.Row.{target_of};
ghost use Rattle.dm_answers.specs.Change.{ChangeAnswers};
ghost use Rattle.dm_change.specs.Changing.{SameAnswer};
ghost use Rattle.dm_store.specs.View.{View};
ghost use Rattle.dm_answers.specs.declared.fault.DeskFault.{DeskFault};

use dm_disk_model::Disk;
use dm_edge::Origin;

/// A call that changes an item has one answer on a desk, but for want of memory and a failed journal:
/// the causes exclude each other.
pub fn one_answer<D: Disk, O: Origin>()
    ensures { (is_done : Phase → Bool) (entry : Entry) (id : ItemId) (old new other : View D O) (a b : Result (Unit {0}) DeskFault) → target_of entry ≡ Some id
        → ChangeAnswers is_done entry id old new a → ChangeAnswers is_done entry id old other b → SameAnswer a b }
{}
