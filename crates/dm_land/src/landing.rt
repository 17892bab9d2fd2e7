ghost use Rattle.std.specs.Prelude.{◌≡◌, ◌≤◌, ◌+◌, ◌<◌, ◌^◌, false, length, unwrap_or, OnOk};
ghost use Rattle.dm_types.specs.Faults.{HasCause};
ghost use Rattle.dm_types.specs.Name.{IsPart};
ghost use Rattle.dm_disk_model.specs.Beside.{Besides};
ghost use Rattle.dm_slice.specs.Cover.{limit_at, next_of};
ghost use Rattle.dm_store.specs.Keeps.{Keeps, StaysNear};
ghost use Rattle.dm_store.specs.Lives.{changed_life};
ghost use Rattle.dm_store.specs.Origin.{said_of};
ghost use Rattle.dm_store.specs.Store.{IsStore, view_of};
ghost use Rattle.dm_answers.specs.Faults.{desk_kind};
ghost use Rattle.dm_answers.specs.Land.{LandAnswers, MayLand, SaysPiece, grown_life};
ghost use Rattle.dm_answers.specs.Reads.{HasPiece, PartReads};
ghost use Rattle.dm_answers.specs.Running.{RunsWith};
ghost use Rattle.dm_land.specs.Landing.{CanGrow, PieceAnswers};

use crate::passes::{declined, find_pass};
use dm_answers::{DeskFault, SlicePass};
use dm_disk_model::Disk;
use dm_edge::Origin;
use dm_part::put;
use dm_policy::{Cause, reason_of};
use dm_store::{Life, Store, find_life, interrupt, life_of};
use dm_types::ItemId;

/// Writes a piece into its part. It takes no memory.
pub fn land<D: Disk, O: Origin>(
    store: &mut Store<D, O>,
    pass: &SlicePass,
    at: u64,
    piece: &[u8],
) -> Result<(), DeskFault>
    requires store { IsStore D.tells D.history store.old }
    requires some { 1 ≤ length piece.now }
    requires few { length piece.now ≤ store.old.limits.piece }
    requires said { SaysPiece (said_of (O.says store.old.origin)) store.old.items.items pass.now.id at piece.now }
    ensures store { IsStore D.tells D.history store.new }
    ensures answers { LandAnswers D.faults (view_of store.old) (view_of store.new) pass.now at piece.now result }
    ensures keeps { Keeps D.tells D.history (λ o. said_of (O.says o)) (view_of store.old) (view_of store.new) }
    ensures beside { D.tells → Besides IsPart (D.history store.old.disk) (D.history store.new.disk) }
    ensures reads { D.tells → OnOk result (PartReads D.history (view_of store.old) (view_of store.new) pass.now.id (HasPiece at piece.now)) }
    ensures cause { HasCause desk_kind (D.faults store.old.disk) (D.faults store.new.disk) result }
    ensures far { StaysNear (D.far store.old.disk) (D.far store.new.disk) (view_of store.old) (view_of store.new) }
{
    if store.broken {
        return Err(DeskFault::Broken);
    }
    match check_piece(store, pass, at, piece) {
        Ok(()) => put_piece(store, pass, at, piece),
        Err(fault) => Err(fault),
    }
}

/// Whether a piece may land: its place comes next, it ends in its part, and no checkpoint is due.
fn check_piece<D: Disk, O: Origin>(
    store: &Store<D, O>,
    pass: &SlicePass,
    at: u64,
    piece: &[u8],
) -> Result<(), DeskFault>
    requires store { IsStore D.tells D.history store.now }
    requires whole { store.now.broken ≡ false }
    ensures { PieceAnswers D.faults (view_of store.now) pass.now at piece.now result }
{
    let (next, unsaved) = match find_pass(store, pass) {
        Ok(found) => found,
        Err(gone) => return Err(declined(gone)),
    };
    if next != at {
        return Err(DeskFault::NotNext(next));
    }
    if u128::from(pass.end) < u128::from(at) + piece.len() as u128 {
        return Err(DeskFault::PastEnd(pass.end));
    }
    if store.limits.checkpoint <= unsaved {
        return Err(DeskFault::CheckpointDue(unsaved));
    }
    Ok(())
}

/// Writes a piece that may land, and then counts it. Where the part fails the item is interrupted.
fn put_piece<D: Disk, O: Origin>(
    store: &mut Store<D, O>,
    pass: &SlicePass,
    at: u64,
    piece: &[u8],
) -> Result<(), DeskFault>
    requires store { IsStore D.tells D.history store.old }
    requires whole { store.old.broken ≡ false }
    requires may { RunsWith (view_of store.old) pass.now.id pass.now.attempt (MayLand pass.now at (length piece.now) store.old.limits.checkpoint) }
    requires some { 1 ≤ length piece.now }
    requires few { length piece.now ≤ store.old.limits.piece }
    requires said { SaysPiece (said_of (O.says store.old.origin)) store.old.items.items pass.now.id at piece.now }
    ensures store { IsStore D.tells D.history store.new }
    ensures answers { LandAnswers D.faults (view_of store.old) (view_of store.new) pass.now at piece.now result }
    ensures keeps { Keeps D.tells D.history (λ o. said_of (O.says o)) (view_of store.old) (view_of store.new) }
    ensures beside { D.tells → Besides IsPart (D.history store.old.disk) (D.history store.new.disk) }
    ensures reads { D.tells → OnOk result (PartReads D.history (view_of store.old) (view_of store.new) pass.now.id (HasPiece at piece.now)) }
    ensures cause { HasCause desk_kind (D.faults store.old.disk) (D.faults store.new.disk) result }
    ensures far { StaysNear (D.far store.old.disk) (D.far store.new.disk) (view_of store.old) (view_of store.new) }
{
    let Some(life) = life_of(&store.lives, pass.id) else {
        unreachable!();
    };
    match put(&mut store.disk, &life.part, at, piece) {
        Ok(()) => {
            grow_life(&mut store.lives, pass.id, pass.index, piece.len() as u64);
            Ok(())
        }
        Err(fault) => match interrupt(store, pass.id, reason_of(&Cause::File(fault.0))) {
            Ok(()) => Err(DeskFault::File(fault.0)),
            Err(kind) => Err(DeskFault::Journal(kind)),
        },
    }
}

/// The life of an id has so many bytes more in one of its slices.
fn grow_life(lives: &mut Vec<Life>, id: ItemId, index: u32, count: u64)
    requires { CanGrow lives.old.items id.0 index count }
    ensures { lives.new.items ≡ changed_life id.0 (grown_life index count) lives.old.items }
{
    match find_life(lives, id) {
        Some(place) => grow_at(&mut lives[place], index, count),
        None => unreachable!(),
    }
}

fn grow_at(life: &mut Life, index: u32, count: u64)
    requires there { index < length life.old.cover }
    requires room { unwrap_or (next_of life.old.cover index) 0 + count ≤ limit_at life.old.cover index }
    requires fits { life.old.unsaved + count < 2 ^ 64 }
    ensures { life.new ≡ grown_life index count life.old }
{
    life.cover.grow(index, count);
    life.unsaved += count;
}
