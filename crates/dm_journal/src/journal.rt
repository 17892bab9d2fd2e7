ghost use Rattle.std.specs.Prelude.{◌≡◌, ◌+◌, ◌^◌, ◌≤◌, ◌++◌, ◌∷◌, [], List, ℕ, length, Err, IfOk, IfErr, OnOk, OnErr, vec_capacity};
ghost use Rattle.dm_types.specs.Faults.{HasCause};
ghost use Rattle.dm_disk_model.specs.declared.place.Place.{Place as Spot};
ghost use Rattle.dm_disk_model.specs.Faults.{disk_kind};
ghost use Rattle.dm_disk_model.specs.Names.{NeverStands};
ghost use Rattle.dm_disk_model.specs.Disk.{now, Stands, StandsNot, ChangesOnly, MayLeave, bytes_at};
ghost use Rattle.dm_disk_model.specs.Moments.{LeavesOnly, KeepsFiles};
ghost use Rattle.dm_journal.specs.declared.fault.JournalFault.TheVariants as faults;
ghost use Rattle.dm_journal.specs.Fault.{journal_kind, IsNoDamage};
ghost use Rattle.dm_journal.specs.Finding.{Finds, IsAsRead, IsBehind};
ghost use Rattle.dm_journal.specs.InMemory.{IsRoom, state_place};
ghost use Rattle.dm_journal.specs.Starting.{spare_place, OldOr, NoneOrBlank, ChangesTheTwo};
ghost use Rattle.dm_journal.specs.Text.{FitsCell, header, largest_tail};
ghost use Rattle.dm_journal.specs.AtRest.{journal_place, AtRest, MayLeaveJust, ReadsJournal, WithOrWithout, cell_tail};

use crate::appending::write_cell;
use crate::cell::LARGEST_BODY;
use crate::finding::find_text;
use crate::starting::start_blank;
use crate::text::HEADER;
use crate::{Bodies, JournalFault};
use dm_disk_model::{Area, Disk, DiskFault, Place};
use dm_types::{NoMemory, Text};
use std::alloc::Global;
use std::marker::Model;

/// The most bytes that are written at once: a cell's length and body, and a gate.
const LARGEST_TAIL: usize = 5 + LARGEST_BODY;

/// The journal of a disk. In contracts it is the place of its closed gate in the file.
#[derive(Drop)]
pub struct Journal {
    place: Place,
    gate: u64,
    /// Room for a cell, so that an append takes no memory.
    buffer: Vec<u8>,
}

impl Model for Journal {
    ghost use Rattle.std.specs.Prelude.{ℕ};

    ghost Value = { ℕ };

    ghost use Rattle.dm_journal.specs.InMemory.{gate_of, IsJournal};

    ghost view = { gate_of };

    ghost invariant = { IsJournal };
}

impl Journal {
    /// Makes a journal of no bodies, where none stands. It is made as `journal.new`, of which one that
    /// was left is removed first. Memory is taken before the disk is called.
    pub fn start<D: Disk>(alloc: Global, disk: &mut D) -> Result<Journal, JournalFault>
        requires stands_not { D.tells → StandsNot (now (D.history disk.old)) journal_place }

        // A crash at any moment of the call leaves `journal` as one at its start might have, or with no bodies.
        ensures any_moment { D.tells → LeavesOnly (D.history disk.old) (D.history disk.new) (OldOr [] (now (D.history disk.old))) }
        ensures fresh { D.tells → NeverStands journal_place (now (D.history disk.old)) → LeavesOnly (D.history disk.old) (D.history disk.new) NoneOrBlank }
        ensures ok { D.tells → IfOk result (λ journal. AtRest (now (D.history disk.new)) journal []) }
        ensures at { IfOk result (λ journal. journal ≡ length header) }

        // Nothing stands as `journal.new` then, and all other places of the folder read as before, also after a fault.
        ensures gone { D.tells → IfOk result (λ journal. NeverStands spare_place (now (D.history disk.new))) }
        ensures others { D.tells → ChangesTheTwo (now (D.history disk.old)) (now (D.history disk.new)) }
        ensures beside { D.tells → KeepsFiles (D.history disk.old) (D.history disk.new) }
        ensures starved { result ≡ Err faults.NoMemory → disk.new ≡ disk.old }
        ensures undamaged { IfErr result IsNoDamage }
        ensures cause { HasCause journal_kind (D.faults disk.old) (D.faults disk.new) result }
        ensures far { D.far disk.new ≡ D.far disk.old }
    {
        let (place, spare, buffer) = match make_room(alloc) {
            Ok(room) => room,
            Err(NoMemory) => return Err(JournalFault::NoMemory),
        };
        match start_blank(disk, &spare, &place) {
            Ok(()) => Ok(Journal {
                place,
                gate: HEADER.len() as u64,
                buffer,
            }),
            Err(fault) => Err(JournalFault::Disk(fault.0)),
        }
    }

    /// Finds the journal and what it holds, or `None` where none stands. First the names are made
    /// durable, and then the file. Where memory is wanting, nothing but these syncs was done.
    pub fn find<D: Disk>(
        alloc: Global,
        disk: &mut D,
    ) -> Result<Option<(Journal, Bodies)>, JournalFault>
        ensures found { D.tells → Finds (now (D.history disk.old)) (now (D.history disk.new)) result }
        ensures exact { D.tells → IsAsRead (now (D.history disk.old)) result }
        ensures at { IfOk result IsBehind }

        // A crash at any moment of the call leaves what one at its start might have.
        ensures any_moment { D.tells → LeavesOnly (D.history disk.old) (D.history disk.new) (MayLeave (now (D.history disk.old))) }
        ensures reads { D.tells → (place : Spot) → bytes_at (now (D.history disk.new)) place ≡ bytes_at (now (D.history disk.old)) place }
        ensures beside { D.tells → KeepsFiles (D.history disk.old) (D.history disk.new) }
        ensures cause { HasCause journal_kind (D.faults disk.old) (D.faults disk.new) result }
        ensures far { D.far disk.new ≡ D.far disk.old }
    {
        let (place, _, buffer) = match make_room(alloc) {
            Ok(room) => room,
            Err(NoMemory) => return Err(JournalFault::NoMemory),
        };
        match find_text(alloc, disk, &place) {
            Ok(Some(found)) => Ok(Some((
                Journal {
                    place,
                    gate: found.gate,
                    buffer,
                },
                found.bodies,
            ))),
            Ok(None) => Ok(None),
            Err(fault) => Err(fault),
        }
    }

    /// The length in bytes of the header, the cells and the closed gate.
    pub fn length(&self) -> u64
        ensures { result ≡ self.now + 1 }
    {
        self.gate + 1
    }

    /// Adds a body. Where it answers Ok the body is acknowledged: from then on each crash leaves it.
    /// After a fault the journal must be found anew. It takes no memory.
    pub fn append<D: Disk>(&mut self, disk: &mut D, body: &[u8]) -> Result<(), DiskFault>
        requires size { FitsCell body.now }
        requires stands { D.tells → Stands (now (D.history disk.old)) journal_place }

        // A crash at any moment of the call leaves the bodies from before it, with the new one or without.
        ensures any_moment { D.tells → (bodies : List (List ℕ)) → AtRest (now (D.history disk.old)) self.old bodies
            → LeavesOnly (D.history disk.old) (D.history disk.new) (WithOrWithout bodies body.now) }
        ensures acknowledged { D.tells → (bodies : List (List ℕ)) → AtRest (now (D.history disk.old)) self.old bodies
            → OnOk result (AtRest (now (D.history disk.new)) self.new (bodies ++ body.now ∷ [])) }
        ensures read { D.tells → (bodies : List (List ℕ)) → ReadsJournal (now (D.history disk.old)) self.old bodies
            → OnOk result (ReadsJournal (now (D.history disk.new)) self.new (bodies ++ body.now ∷ [])) }

        // Where it fails, some crash leaves just the bodies from before it.
        ensures lost { D.tells → (bodies : List (List ℕ)) → AtRest (now (D.history disk.old)) self.old bodies
            → OnErr result (MayLeaveJust bodies (now (D.history disk.new)).state) }
        ensures others { D.tells → ChangesOnly journal_place (now (D.history disk.old)) (now (D.history disk.new)) }
        ensures beside { D.tells → KeepsFiles (D.history disk.old) (D.history disk.new) }
        ensures ok { OnOk result (self.new ≡ self.old + (5 + length body.now)) }
        ensures err { OnErr result (self.new ≡ self.old) }
        ensures cause { HasCause disk_kind (D.faults disk.old) (D.faults disk.new) result }
        ensures far { self.old + (6 + length body.now) ≤ 2 ^ 62 → D.far disk.new ≡ D.far disk.old }
    {
        fill_tail(&mut self.buffer, body);
        write_cell(disk, &self.place, self.gate, &self.buffer)?;
        self.gate += 5 + body.len() as u64;
        Ok(())
    }
}

/// The places of the journal and of the file in which it is made, and a buffer for its cells.
fn make_room(alloc: Global) -> Result<(Place, Place, Vec<u8>), NoMemory>
    ensures { IfOk result IsRoom }
{
    let place = place_of(alloc, b"journal")?;
    let spare = place_of(alloc, b"journal.new")?;
    let buffer = Vec::with_capacity(alloc, LARGEST_TAIL)?;
    Ok((place, spare, buffer))
}

/// A place of the state area.
fn place_of(alloc: Global, name: &[u8]) -> Result<Place, NoMemory>
    ensures { IfOk result (λ place. place ≡ state_place name.now) }
{
    let name = Text::from_bytes(alloc, name)?;
    Ok(Place {
        area: Area::State,
        name,
    })
}

/// Puts what is written behind a closed gate into the buffer.
fn fill_tail(buffer: &mut Vec<u8>, body: &[u8])
    requires size { FitsCell body.now }
    requires room { largest_tail ≤ vec_capacity buffer.old }
    ensures tail { buffer.new.items ≡ cell_tail body.now }
    ensures room { largest_tail ≤ vec_capacity buffer.new }
{
    let size = body.len();
    buffer.clear();
    buffer.push_reserved((size / 16_777_216) as u8);
    buffer.push_reserved((size / 65_536 % 256) as u8);
    buffer.push_reserved((size / 256 % 256) as u8);
    buffer.push_reserved((size % 256) as u8);
    match buffer.extend_from_slice(body) {
        Ok(()) => {}
        Err(_) => unreachable!(),
    }
    buffer.push_reserved(0);
}
