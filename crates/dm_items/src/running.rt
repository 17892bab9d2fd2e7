use crate::Desk;
use dm_answers::{Begun, DeskFault, Finished, Named, SlicePass, SlicePasses, Told};
use dm_begin::{begin, describe, plan};
use dm_disk_model::Disk;
use dm_edge::Origin;
use dm_finish::finish;
use dm_land::{broke, check, checkpoint, land, pause, shut};
use dm_policy::Cause;
use dm_store::Pass;
use dm_types::{By, ItemId};

// The calls of an attempt.
impl<D: Disk, O: Origin> Desk<D, O> {
    ghost use Rattle.std.specs.Prelude.{◌≡◌, ◌≤◌, length, OnOk, Ok};
    ghost use Rattle.dm_types.specs.Name.{IsPart};
    ghost use Rattle.dm_disk_model.specs.Beside.{Besides};
    ghost use Rattle.dm_types.specs.Faults.{HasCause};
    ghost use Rattle.dm_disk_model.specs.Moments.{KeepsFiles};
    ghost use Rattle.dm_store.specs.Keeps.{IsDesk, Keeps, StaysNear};
    ghost use Rattle.dm_store.specs.Origin.{said_of};
    ghost use Rattle.dm_answers.specs.Faults.{desk_kind};
    ghost use Rattle.dm_answers.specs.declared.answer.Finished.TheVariants as finished;
    ghost use Rattle.dm_answers.specs.declared.answer.Named.TheVariants as named;
    ghost use Rattle.dm_answers.specs.Begin.{BeginAnswers};
    ghost use Rattle.dm_answers.specs.Broke.{BrokeAnswers, IsMet};
    ghost use Rattle.dm_answers.specs.Check.{CheckAnswers};
    ghost use Rattle.dm_answers.specs.Checkpoint.{CheckpointAnswers};
    ghost use Rattle.dm_answers.specs.Describe.{DescribeAnswers, IsTelling};
    ghost use Rattle.dm_answers.specs.Finish.{FinishAnswers, HasMoved};
    ghost use Rattle.dm_answers.specs.Frame.{KeepsReads};
    ghost use Rattle.dm_answers.specs.Land.{LandAnswers, SaysPiece};
    ghost use Rattle.dm_answers.specs.Pause.{PauseAnswers};
    ghost use Rattle.dm_answers.specs.Plan.{PlanAnswers};
    ghost use Rattle.dm_answers.specs.Reads.{HasPiece, IsEmptied, IsPartOrNameOf, PartReads};
    ghost use Rattle.dm_answers.specs.Running.{RunsWith};
    ghost use Rattle.dm_answers.specs.Shut.{ShutAnswers};

    /// Begins an attempt. An item whose content is brought anew gets a new epoch first.
    pub fn begin(&mut self, id: ItemId, by: By, at: u64) -> Result<Begun, DeskFault>
        ensures kept { IsDesk D.tells D.history self.new }
        ensures answers { BeginAnswers D.tells D.history D.faults self.old self.new id by at result }
        ensures keeps { Keeps D.tells D.history (λ o. said_of (O.says o)) self.old self.new }
        ensures beside { D.tells → KeepsFiles (D.history self.old.disk) (D.history self.new.disk) }
        ensures cause { HasCause desk_kind (D.faults self.old.disk) (D.faults self.new.disk) result }
        ensures far { StaysNear (D.far self.old.disk) (D.far self.new.disk) self.old self.new }
    {
        begin(&mut self.store, id, by, at)
    }

    /// Takes what the first reply told: the name, the total, the key. The part is made.
    pub fn describe(&mut self, pass: &Pass, told: Told) -> Result<Named, DeskFault>
        requires telling { IsTelling pass.now told }
        ensures kept { IsDesk D.tells D.history self.new }
        ensures answers { DescribeAnswers D.tells D.history D.faults self.old self.new pass.now told result }
        ensures keeps { Keeps D.tells D.history (λ o. said_of (O.says o)) self.old self.new }
        ensures beside { D.tells → Besides IsPart (D.history self.old.disk) (D.history self.new.disk) }
        ensures reads { D.tells → result ≡ Ok named.Named → PartReads D.history self.old self.new pass.now.id IsEmptied }
        ensures cause { HasCause desk_kind (D.faults self.old.disk) (D.faults self.new.disk) result }
        ensures far { StaysNear (D.far self.old.disk) (D.far self.new.disk) self.old self.new }
    {
        describe(&mut self.store, pass, told)
    }

    /// Plans the next round of at most `n` parts.
    pub fn plan(&mut self, pass: &Pass, n: u32) -> Result<SlicePasses, DeskFault>
        requires some { 1 ≤ n }
        requires few { n ≤ 16 }
        ensures kept { IsDesk D.tells D.history self.new }
        ensures answers { PlanAnswers self.old self.new pass.now n result }
        ensures keeps { Keeps D.tells D.history (λ o. said_of (O.says o)) self.old self.new }
        ensures beside { D.tells → KeepsFiles (D.history self.old.disk) (D.history self.new.disk) }
        ensures cause { HasCause desk_kind (D.faults self.old.disk) (D.faults self.new.disk) result }
        ensures far { StaysNear (D.far self.old.disk) (D.far self.new.disk) self.old self.new }
    {
        plan(&mut self.store, pass, n)
    }

    /// The next place of a part. It takes no memory and changes nothing.
    pub fn check(&self, pass: &SlicePass) -> Result<u64, DeskFault>
        ensures { CheckAnswers self.now pass.now result }
    {
        check(&self.store, pass)
    }

    /// Writes a piece into its part. It takes no memory.
    pub fn land(&mut self, pass: &SlicePass, at: u64, piece: &[u8]) -> Result<(), DeskFault>
        requires some { 1 ≤ length piece.now }
        requires few { length piece.now ≤ self.old.limits.piece }
        requires said { SaysPiece (said_of (O.says self.old.origin)) self.old.items.items pass.now.id at piece.now }
        ensures kept { IsDesk D.tells D.history self.new }
        ensures answers { LandAnswers D.faults self.old self.new pass.now at piece.now result }
        ensures keeps { Keeps D.tells D.history (λ o. said_of (O.says o)) self.old self.new }
        ensures beside { D.tells → Besides IsPart (D.history self.old.disk) (D.history self.new.disk) }
        ensures reads { D.tells → OnOk result (PartReads D.history self.old self.new pass.now.id (HasPiece at piece.now)) }
        ensures cause { HasCause desk_kind (D.faults self.old.disk) (D.faults self.new.disk) result }
        ensures far { StaysNear (D.far self.old.disk) (D.far self.new.disk) self.old self.new }
    {
        land(&mut self.store, pass, at, piece)
    }

    /// Saves what was landed: syncs the part and records its cover.
    pub fn checkpoint(&mut self, pass: &Pass) -> Result<(), DeskFault>
        ensures kept { IsDesk D.tells D.history self.new }
        ensures answers { CheckpointAnswers D.faults self.old self.new pass.now result }
        ensures keeps { Keeps D.tells D.history (λ o. said_of (O.says o)) self.old self.new }
        ensures beside { D.tells → Besides IsPart (D.history self.old.disk) (D.history self.new.disk) }
        ensures reads { D.tells → KeepsReads D.history self.old.disk self.new.disk }
        ensures cause { HasCause desk_kind (D.faults self.old.disk) (D.faults self.new.disk) result }
        ensures far { StaysNear (D.far self.old.disk) (D.far self.new.disk) self.old self.new }
    {
        checkpoint(&mut self.store, pass)
    }

    /// Interrupts an attempt by a cause that it met. It takes no memory.
    pub fn broke(&mut self, pass: &Pass, cause: &Cause) -> Result<(), DeskFault>
        requires met { IsMet cause.now }
        ensures kept { IsDesk D.tells D.history self.new }
        ensures answers { BrokeAnswers self.old self.new pass.now cause.now result }
        ensures keeps { Keeps D.tells D.history (λ o. said_of (O.says o)) self.old self.new }
        ensures beside { D.tells → KeepsFiles (D.history self.old.disk) (D.history self.new.disk) }
        ensures cause { HasCause desk_kind (D.faults self.old.disk) (D.faults self.new.disk) result }
        ensures far { StaysNear (D.far self.old.disk) (D.far self.new.disk) self.old self.new }
    {
        broke(&mut self.store, pass, cause)
    }

    /// Ends an attempt that has brought all: saves, takes the sum, and gives the file its name.
    pub fn finish(&mut self, pass: &Pass, at: u64) -> Result<Finished, DeskFault>
        ensures kept { IsDesk D.tells D.history self.new }
        ensures answers { FinishAnswers D.tells D.history D.faults self.old self.new pass.now at result }
        ensures keeps { Keeps D.tells D.history (λ o. said_of (O.says o)) self.old self.new }
        ensures beside { D.tells → Besides (IsPartOrNameOf self.new pass.now.id) (D.history self.old.disk) (D.history self.new.disk) }
        ensures reads { D.tells → result ≡ Ok finished.Complete → RunsWith self.old pass.now.id pass.now.attempt (HasMoved D.history self.old self.new) }
        ensures cause { HasCause desk_kind (D.faults self.old.disk) (D.faults self.new.disk) result }
        ensures far { StaysNear (D.far self.old.disk) (D.far self.new.disk) self.old self.new }
    {
        finish(&mut self.store, pass, at)
    }

    /// Pauses an item; what was landed is saved first.
    pub fn pause(&mut self, id: ItemId) -> Result<(), DeskFault>
        ensures kept { IsDesk D.tells D.history self.new }
        ensures answers { PauseAnswers D.faults self.old self.new id result }
        ensures keeps { Keeps D.tells D.history (λ o. said_of (O.says o)) self.old self.new }
        ensures beside { D.tells → Besides IsPart (D.history self.old.disk) (D.history self.new.disk) }
        ensures reads { D.tells → KeepsReads D.history self.old.disk self.new.disk }
        ensures cause { HasCause desk_kind (D.faults self.old.disk) (D.faults self.new.disk) result }
        ensures far { StaysNear (D.far self.old.disk) (D.far self.new.disk) self.old self.new }
    {
        pause(&mut self.store, id)
    }

    /// Interrupts each item that runs, by rising id. It takes no memory.
    pub fn shut(&mut self) -> Result<(), DeskFault>
        ensures kept { IsDesk D.tells D.history self.new }
        ensures answers { ShutAnswers self.old self.new result }
        ensures keeps { Keeps D.tells D.history (λ o. said_of (O.says o)) self.old self.new }
        ensures beside { D.tells → KeepsFiles (D.history self.old.disk) (D.history self.new.disk) }
        ensures cause { HasCause desk_kind (D.faults self.old.disk) (D.faults self.new.disk) result }
        ensures far { StaysNear (D.far self.old.disk) (D.far self.new.disk) self.old self.new }
    {
        shut(&mut self.store)
    }
}
