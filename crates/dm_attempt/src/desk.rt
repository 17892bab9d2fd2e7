ghost use Rattle.std.specs.Prelude.{◌≡◌, ◌≤◌, length, OnOk, Ok};
ghost use Rattle.std.specs.Option.{option_copied, option_map};
ghost use Rattle.dm_types.specs.Faults.{HasCause};
ghost use Rattle.dm_types.specs.Name.{IsPart};
ghost use Rattle.dm_disk_model.specs.Beside.{Besides};
ghost use Rattle.dm_disk_model.specs.Moments.{KeepsFiles};
ghost use Rattle.dm_item.specs.Listing.{item_in};
ghost use Rattle.dm_item.specs.Row.{mode_of_item};
ghost use Rattle.dm_store.specs.Keeps.{IsDesk, Keeps, StaysNear};
ghost use Rattle.dm_store.specs.Origin.{said_of};
ghost use Rattle.dm_store.specs.View.{View};
ghost use Rattle.dm_answers.specs.declared.answer.Finished.TheVariants as finished;
ghost use Rattle.dm_answers.specs.declared.answer.Named.TheVariants as named;
ghost use Rattle.dm_answers.specs.Begin.{BeginAnswers};
ghost use Rattle.dm_answers.specs.Broke.{BrokeAnswers, IsMet};
ghost use Rattle.dm_answers.specs.Check.{CheckAnswers};
ghost use Rattle.dm_answers.specs.Checkpoint.{CheckpointAnswers};
ghost use Rattle.dm_answers.specs.Describe.{DescribeAnswers, IsTelling};
ghost use Rattle.dm_answers.specs.Faults.{desk_kind};
ghost use Rattle.dm_answers.specs.Finish.{FinishAnswers, HasMoved};
ghost use Rattle.dm_answers.specs.Frame.{KeepsReads};
ghost use Rattle.dm_answers.specs.Land.{LandAnswers, SaysPiece};
ghost use Rattle.dm_answers.specs.Plan.{PlanAnswers};
ghost use Rattle.dm_answers.specs.Reads.{HasPiece, IsEmptied, IsPartOrNameOf, PartReads};
ghost use Rattle.dm_answers.specs.Running.{RunsWith};

use dm_answers::{Begun, DeskFault, Finished, Named, SlicePass, SlicePasses, Told};
use dm_disk_model::Disk;
use dm_edge::Origin;
use dm_policy::Cause;
use dm_store::Pass;
use dm_types::{By, Item, ItemId, Limits, Mode};

/// The calls of a desk that an attempt makes. `view` is the desk, seen from outside. Each call that changes
/// it says what every desk keeps: before the call (`was`) and behind it (`kept`).
pub trait Desk {
    type D: Disk;

    type O: Origin;

    ghost view: { Self → View Self.D Self.O };

    /// The item with an id.
    fn item(&self, id: ItemId) -> Option<&Item>
        ensures { option_copied result ≡ item_in id.0 (view self.now).items.items };

    /// How the item with an id may go on.
    fn mode(&self, id: ItemId) -> Option<Mode>
        ensures { result ≡ option_map mode_of_item (item_in id.0 (view self.now).items.items) };

    fn limits(&self) -> Limits
        ensures { result ≡ (view self.now).limits };

    /// Begins an attempt. An item whose content is brought anew gets a new epoch first.
    fn begin(&mut self, id: ItemId, by: By, at: u64) -> Result<Begun, DeskFault>
        ensures was { IsDesk Self.D.tells Self.D.history (view self.old) }
        ensures kept { IsDesk Self.D.tells Self.D.history (view self.new) }
        ensures answers { BeginAnswers Self.D.tells Self.D.history Self.D.faults (view self.old) (view self.new) id by at result }
        ensures keeps { Keeps Self.D.tells Self.D.history (λ o. said_of (Self.O.says o)) (view self.old) (view self.new) }
        ensures cause { HasCause desk_kind (Self.D.faults (view self.old).disk) (Self.D.faults (view self.new).disk) result }
        ensures far { StaysNear (Self.D.far (view self.old).disk) (Self.D.far (view self.new).disk) (view self.old) (view self.new) }
        ensures beside { Self.D.tells → KeepsFiles (Self.D.history (view self.old).disk) (Self.D.history (view self.new).disk) };

    /// Takes what the first reply told: the name, the total, the key. The part is made.
    fn describe(&mut self, pass: &Pass, told: Told) -> Result<Named, DeskFault>
        requires telling { IsTelling pass.now told }
        ensures was { IsDesk Self.D.tells Self.D.history (view self.old) }
        ensures kept { IsDesk Self.D.tells Self.D.history (view self.new) }
        ensures answers { DescribeAnswers Self.D.tells Self.D.history Self.D.faults (view self.old) (view self.new) pass.now told result }
        ensures keeps { Keeps Self.D.tells Self.D.history (λ o. said_of (Self.O.says o)) (view self.old) (view self.new) }
        ensures cause { HasCause desk_kind (Self.D.faults (view self.old).disk) (Self.D.faults (view self.new).disk) result }
        ensures far { StaysNear (Self.D.far (view self.old).disk) (Self.D.far (view self.new).disk) (view self.old) (view self.new) }
        ensures beside { Self.D.tells → Besides IsPart (Self.D.history (view self.old).disk) (Self.D.history (view self.new).disk) }
        ensures reads { Self.D.tells → result ≡ Ok named.Named → PartReads Self.D.history (view self.old) (view self.new) pass.now.id IsEmptied };

    /// Plans the next round of at most `n` parts.
    fn plan(&mut self, pass: &Pass, n: u32) -> Result<SlicePasses, DeskFault>
        requires some { 1 ≤ n }
        requires few { n ≤ 16 }
        ensures was { IsDesk Self.D.tells Self.D.history (view self.old) }
        ensures kept { IsDesk Self.D.tells Self.D.history (view self.new) }
        ensures answers { PlanAnswers (view self.old) (view self.new) pass.now n result }
        ensures keeps { Keeps Self.D.tells Self.D.history (λ o. said_of (Self.O.says o)) (view self.old) (view self.new) }
        ensures cause { HasCause desk_kind (Self.D.faults (view self.old).disk) (Self.D.faults (view self.new).disk) result }
        ensures far { StaysNear (Self.D.far (view self.old).disk) (Self.D.far (view self.new).disk) (view self.old) (view self.new) }
        ensures beside { Self.D.tells → KeepsFiles (Self.D.history (view self.old).disk) (Self.D.history (view self.new).disk) };

    /// The next place of a part. It takes no memory and changes nothing.
    fn check(&self, pass: &SlicePass) -> Result<u64, DeskFault>
        ensures answers { CheckAnswers (view self.now) pass.now result };

    /// Writes a piece into its part. It takes no memory.
    fn land(&mut self, pass: &SlicePass, at: u64, piece: &[u8]) -> Result<(), DeskFault>
        requires some { 1 ≤ length piece.now }
        requires few { length piece.now ≤ (view self.old).limits.piece }
        requires said { SaysPiece (said_of (Self.O.says (view self.old).origin)) (view self.old).items.items pass.now.id at piece.now }
        ensures was { IsDesk Self.D.tells Self.D.history (view self.old) }
        ensures kept { IsDesk Self.D.tells Self.D.history (view self.new) }
        ensures answers { LandAnswers Self.D.faults (view self.old) (view self.new) pass.now at piece.now result }
        ensures keeps { Keeps Self.D.tells Self.D.history (λ o. said_of (Self.O.says o)) (view self.old) (view self.new) }
        ensures cause { HasCause desk_kind (Self.D.faults (view self.old).disk) (Self.D.faults (view self.new).disk) result }
        ensures far { StaysNear (Self.D.far (view self.old).disk) (Self.D.far (view self.new).disk) (view self.old) (view self.new) }
        ensures beside { Self.D.tells → Besides IsPart (Self.D.history (view self.old).disk) (Self.D.history (view self.new).disk) }
        ensures reads { Self.D.tells → OnOk result (PartReads Self.D.history (view self.old) (view self.new) pass.now.id (HasPiece at piece.now)) };

    /// Saves what was landed: syncs the part and records its cover.
    fn checkpoint(&mut self, pass: &Pass) -> Result<(), DeskFault>
        ensures was { IsDesk Self.D.tells Self.D.history (view self.old) }
        ensures kept { IsDesk Self.D.tells Self.D.history (view self.new) }
        ensures answers { CheckpointAnswers Self.D.faults (view self.old) (view self.new) pass.now result }
        ensures keeps { Keeps Self.D.tells Self.D.history (λ o. said_of (Self.O.says o)) (view self.old) (view self.new) }
        ensures cause { HasCause desk_kind (Self.D.faults (view self.old).disk) (Self.D.faults (view self.new).disk) result }
        ensures far { StaysNear (Self.D.far (view self.old).disk) (Self.D.far (view self.new).disk) (view self.old) (view self.new) }
        ensures beside { Self.D.tells → Besides IsPart (Self.D.history (view self.old).disk) (Self.D.history (view self.new).disk) }
        ensures reads { Self.D.tells → KeepsReads Self.D.history (view self.old).disk (view self.new).disk };

    /// Interrupts an attempt by a cause that it met. It takes no memory.
    fn broke(&mut self, pass: &Pass, cause: &Cause) -> Result<(), DeskFault>
        requires met { IsMet cause.now }
        ensures was { IsDesk Self.D.tells Self.D.history (view self.old) }
        ensures kept { IsDesk Self.D.tells Self.D.history (view self.new) }
        ensures answers { BrokeAnswers (view self.old) (view self.new) pass.now cause.now result }
        ensures keeps { Keeps Self.D.tells Self.D.history (λ o. said_of (Self.O.says o)) (view self.old) (view self.new) }
        ensures cause { HasCause desk_kind (Self.D.faults (view self.old).disk) (Self.D.faults (view self.new).disk) result }
        ensures far { StaysNear (Self.D.far (view self.old).disk) (Self.D.far (view self.new).disk) (view self.old) (view self.new) }
        ensures beside { Self.D.tells → KeepsFiles (Self.D.history (view self.old).disk) (Self.D.history (view self.new).disk) };

    /// Ends an attempt that has brought all: saves, takes the sum, and gives the file its name.
    fn finish(&mut self, pass: &Pass, at: u64) -> Result<Finished, DeskFault>
        ensures was { IsDesk Self.D.tells Self.D.history (view self.old) }
        ensures kept { IsDesk Self.D.tells Self.D.history (view self.new) }
        ensures answers { FinishAnswers Self.D.tells Self.D.history Self.D.faults (view self.old) (view self.new) pass.now at result }
        ensures keeps { Keeps Self.D.tells Self.D.history (λ o. said_of (Self.O.says o)) (view self.old) (view self.new) }
        ensures cause { HasCause desk_kind (Self.D.faults (view self.old).disk) (Self.D.faults (view self.new).disk) result }
        ensures far { StaysNear (Self.D.far (view self.old).disk) (Self.D.far (view self.new).disk) (view self.old) (view self.new) }
        ensures beside { Self.D.tells → Besides (IsPartOrNameOf (view self.new) pass.now.id) (Self.D.history (view self.old).disk) (Self.D.history (view self.new).disk) }
        ensures reads { Self.D.tells → result ≡ Ok finished.Complete → RunsWith (view self.old) pass.now.id pass.now.attempt (HasMoved Self.D.history (view self.old) (view self.new)) };
}
