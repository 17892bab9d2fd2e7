ghost use Rattle.std.specs.Prelude.{◌≡◌, ℕ, [], length, OnOk};
ghost use Rattle.dm_item.specs.Lawful.{IsOf};
ghost use Rattle.dm_journal.specs.Text.{front};
ghost use Rattle.dm_find.specs.Bodies.{ReadsBody, TakesBodies, TakesBody, TakesEntry, WholeEntry, apply_fault, read_fault};

use dm_item::{ApplyFault, Items};
use dm_journal::TextFault;
use dm_record::{RecordFault, read_entry};
use dm_types::{Entry, Text, let_go};
use std::alloc::Global;

/// Why a body was not taken.
pub(crate) enum BodyFault {
    /// It isn't exactly one entry that may come here.
    Refused,
    NoMemory,
}

fn read_fault(fault: RecordFault) -> BodyFault
    ensures { result ≡ read_fault fault }
{
    match fault {
        RecordFault::Short => BodyFault::Refused,
        RecordFault::Bad(_) => BodyFault::Refused,
        RecordFault::NoMemory => BodyFault::NoMemory,
    }
}

/// The entry, where it takes the whole body.
fn whole_entry(entry: Entry, count: usize, length: usize) -> Result<Entry, BodyFault>
    ensures { WholeEntry entry count length result }
{
    if count == length {
        Ok(entry)
    } else {
        let_go(entry);
        Err(BodyFault::Refused)
    }
}

/// Reads a body that is exactly one entry.
fn read_body(alloc: Global, body: &[u8]) -> Result<Entry, BodyFault>
    ensures { ReadsBody body.now result }
{
    match read_entry(alloc, body) {
        Ok((entry, count)) => whole_entry(entry, count, body.len()),
        Err(fault) => Err(read_fault(fault)),
    }
}

fn apply_fault(fault: ApplyFault) -> BodyFault
    ensures { result ≡ apply_fault fault }
{
    match fault {
        ApplyFault::NoItem(_) => BodyFault::Refused,
        ApplyFault::WrongPhase(_) => BodyFault::Refused,
        ApplyFault::Full(_) => BodyFault::Refused,
        ApplyFault::Unlawful(_) => BodyFault::Refused,
        ApplyFault::NoMemory => BodyFault::NoMemory,
    }
}

fn take_entry(entry: &Entry, items: &mut Items) -> Result<(), BodyFault>
    ensures { TakesEntry entry.now items.old items.new result }
{
    match items.apply(entry) {
        Ok(()) => Ok(()),
        Err(fault) => Err(apply_fault(fault)),
    }
}

/// Takes one body into the list.
fn take_body(alloc: Global, body: &[u8], items: &mut Items) -> Result<(), BodyFault>
    ensures { TakesBody body.now items.old items.new result }
{
    match read_body(alloc, body) {
        Ok(entry) => {
            let result = take_entry(&entry, items);
            let_go(entry);
            result
        }
        Err(fault) => Err(fault),
    }
}

/// Takes the bodies of a journal into an empty list. `end` is the place of the closed gate behind them.
pub(crate) fn take_bodies(
    alloc: Global,
    bodies: &[Text],
    end: u64,
    items: &mut Items,
) -> Result<(), TextFault>
    requires empty { IsOf [] items.old }
    requires end { end ≡ length (front bodies.now) }
    ensures takes { TakesBodies items.old.limit bodies.now items.new result }
    ensures limit { OnOk result (items.new.limit ≡ items.old.limit) }
{
    let mut place: u64 = 8;
    for body in bodies {
        match take_body(alloc, body.bytes(), items) {
            Ok(()) => {}
            Err(BodyFault::Refused) => return Err(TextFault::Damaged(place)),
            Err(BodyFault::NoMemory) => return Err(TextFault::NoMemory),
        }
        place += 5 + body.len() as u64;
    }
    Ok(())
}
