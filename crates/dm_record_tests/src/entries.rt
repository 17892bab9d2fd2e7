ghost use Rattle.std.specs.Prelude.{◌≡◌, length, IfOk};
ghost use Rattle.dm_record.specs.Limits.{IsSpellable};

use dm_record::{RecordFault, read_entry, write_broke, write_done, write_entry};
use dm_types::{Attempt, Entry, Epoch, Item, ItemId, Phase, Reason, Slice, Slices, Text};
use std::alloc::Global;
use std::process::Abort;
use std::test::Fail;

/// An entry of each kind, and one of each form that a kind has.
const ENTRIES: [&[u8]; 17] = [
    b"\x01\0\0\0\x01\0\x02w1\0\x01a\0\0\0\0\0\0\0\0\0\0\x07",
    b"\x02\0\0\0\x01\0\0\x01\x02\x02\0\0\0\0\0\0\0\x03",
    b"\x02\0\0\0\x01\0\0\0\x01\x01\0\0\0\0\0\0\0\x03",
    b"\x03\0\0\0\x01\x01\0\x03\"a\"\0\x01b\x01\0\0\0\0\0\0\0\x0b\0\x01c\0\0",
    b"\x04\0\0\0\x01\x01\0\0\0\0\0\0\0\x05\0\0\0\0\0\0\0\x06\x01",
    b"\x05\0\0\0\x01\0\x26",
    b"\x06\0\0\0\x01",
    b"\x07\0\0\0\x01",
    b"\x08\0\0\0\x01\0\0\0\x02\x04",
    b"\x09\0\0\0\x01\0\0\0\0\0\0\0\x0b",
    b"\x0a\0\0\0\x01\x01\x01\x01\x01\x01\x01\x01\x01\x01\x01\x01\x01\x01\x01\x01\x01\x01\x01\x01\x01\x01\x01\x01\x01\x01\x01\x01\x01\x01\x01\x01\x02\0\0\0\0\0\0\0\x05",
    b"\x0b\0\0\0\x01",
    b"\x0c\0\0\0\x01",
    b"\x0d\0\0\0\x01\0\0\0\0\0\0\0\0",
    b"\x0f\0\0\0\x01",
    // under no tag
    b"\x03\0\0\0\x01\x02\0\0\0\x01\0\0\0\x01\0\x01b\0\0\x01c\0\x01d",
    // an interrupted item with every field
    b"\x0e\0\0\0\x01\0\0\0\x01a\0\x01b\x01\x07\x07\x07\x07\x07\x07\x07\x07\x07\x07\x07\x07\x07\x07\x07\x07\x07\x07\x07\x07\x07\x07\x07\x07\x07\x07\x07\x07\x07\x07\x07\x07\x07\x01\0\x15\0\0\0\x02\0\0\0\x03\0\0\0\x01\x01\x01\x02\0\0\0\x01\0\0\0\x03\x01\0\x01c\x01\0\0\0\0\0\0\0\x0b\x01\0\x01d\x01\0\0\x01\0\0\0\0\0\0\0\0\0\0\0\0\0\0\0\0\0\x01\x09\x09\x09\x09\x09\x09\x09\x09\x09\x09\x09\x09\x09\x09\x09\x09\x09\x09\x09\x09\x09\x09\x09\x09\x09\x09\x09\x09\x09\x09\x09\x09\0\0\0\0\0\0\0\x05",
];

const WRONG: [(&[u8], usize); 27] = [
    (b"\0", 0),
    (b"\x10", 0),
    (b"\xff\0\0", 0),
    // a reason
    (b"\x05\0\0\0\x01\x01", 5),
    (b"\x05\0\0\0\x01\0\x04", 6),
    // who began, why anew
    (b"\x02\0\0\0\x01\0\0\0\x01\0", 9),
    (b"\x02\0\0\0\x01\0\0\0\x01\x03\0", 9),
    (b"\x08\0\0\0\x01\0\0\0\x02\0", 9),
    (b"\x08\0\0\0\x01\0\0\0\x02\x05", 9),
    // slices
    (b"\x04\0\0\0\x01\0", 5),
    (b"\x04\0\0\0\x01\x41", 5),
    (
        b"\x04\0\0\0\x01\x01\0\0\0\0\0\0\0\0\0\0\0\0\0\0\0\0\x02",
        22,
    ),
    // a word, an address, a wish, a digest
    (b"\x01\0\0\0\x01\x01", 5),
    (b"\x01\0\0\0\x01\0\x41", 6),
    (b"\x01\0\0\0\x01\0\0\x11", 7),
    (b"\x01\0\0\0\x01\0\0\x10\x01", 8),
    (b"\x01\0\0\0\x01\0\0\0\0\x01", 9),
    (b"\x01\0\0\0\x01\0\0\0\0\0\0\x02", 11),
    // a key, a tag, a date
    (b"\x03\0\0\0\x01\0", 5),
    (b"\x03\0\0\0\x01\x03", 5),
    (b"\x03\0\0\0\x01\x01\x05", 6),
    (b"\x03\0\0\0\x01\x01\x04\x01", 7),
    (
        b"\x03\0\0\0\x01\x02\0\0\0\x01\0\0\0\x01\0\0\0\0\0\0\x81",
        20,
    ),
    // a phase, the reason of an interrupted item and of another, a flag
    (b"\x0e\0\0\0\x01\0\0\0\0\0\0\0\x08", 12),
    (b"\x0e\0\0\0\x01\0\0\0\0\0\0\0\x07\0", 13),
    (b"\x0e\0\0\0\x01\0\0\0\0\0\0\0\x01\x02", 13),
    (
        b"\x0e\0\0\0\x01\0\0\0\0\0\0\0\x01\0\0\0\0\x01\0\0\0\0\0\0\0\0\x02",
        26,
    ),
];

/// The bytes are an entry, which is written so again, and each proper front of them is short.
fn both_ways(rt: &impl Abort, alloc: Global, bytes: &[u8]) -> Result<(), Fail> {
    let (entry, count) = read_entry(alloc, bytes).ok().ok_or("an entry")?;
    assert_eq!(rt; count, bytes.len());
    let written = write_entry(alloc, &entry)?;
    assert_eq!(rt; written.bytes(), bytes);
    for count in 0..bytes.len() {
        let cut = read_entry(alloc, &bytes[..count]).err();
        assert_eq!(rt; cut, Some(RecordFault::Short));
    }
    Ok(())
}

#[test]
fn each_kind_is_read_and_written(rt: HostRuntime) -> Result<(), Fail> {
    for bytes in &ENTRIES {
        both_ways(&rt, rt.alloc(), bytes)?;
    }
    Ok(())
}

#[test]
fn the_journal_after_one_add(rt: HostRuntime) -> Result<(), Fail> {
    let added = Entry::Added {
        id: ItemId(1),
        word: Text::from_bytes(rt.alloc(), b"w1")?,
        address: Text::from_bytes(rt.alloc(), b"http://h/a")?,
        wish: Text::new(rt.alloc()),
        digest: None,
        at: 0,
    };
    let written = write_entry(rt.alloc(), &added)?;
    assert_eq!(rt;
        written.bytes(),
        b"\x01\0\0\0\x01\0\x02w1\0\x0ahttp://h/a\0\0\0\0\0\0\0\0\0\0\0".as_slice()
    );
    let reopened = write_entry(rt.alloc(), &Entry::Reopened { next: 1, at: 0 })?;
    assert_eq!(rt;
        reopened.bytes(),
        b"\x0d\0\0\0\x01\0\0\0\0\0\0\0\0".as_slice()
    );
    Ok(())
}

fn waiting_item(alloc: Global) -> Result<Item, Fail>
    ensures { IfOk result (λ item. IsSpellable (Entry.Restored item)) }
{
    let mut slices = Slices::new(alloc);
    slices.push(Slice {
        first: 0,
        got: 0,
        finished: false,
    })?;
    let word = Text::from_bytes(alloc, b"w1")?;
    let first_address = Text::from_bytes(alloc, b"http://h/a")?;
    Ok(Item {
        id: ItemId(1),
        word,
        first_address,
        wish: Text::new(alloc),
        digest: None,
        phase: Phase::Waiting,
        reason: None,
        epoch: Epoch(1),
        attempt: Attempt(0),
        autos: 0,
        begun: false,
        key: None,
        last_address: None,
        total: None,
        name: None,
        modified: None,
        slices,
        have: None,
        at_ms: 0,
    })
}

#[test]
fn the_item_of_a_compacted_journal(rt: HostRuntime) -> Result<(), Fail> {
    let item = waiting_item(rt.alloc())?;
    let bytes = [
        0x0e, 0, 0, 0, 1, 0, 2, 0x77, 0x31, 0, 0x0a, 0x68, 0x74, 0x74, 0x70, 0x3a, 0x2f, 0x2f,
        0x68, 0x2f, 0x61, 0, 0, 0, 1, 0, 0, 0, 0, 1, 0, 0, 0, 0, 0, 0, 0, 0, 0, 0, 0, 0, 0, 0, 1,
        0, 0, 0, 0, 0, 0, 0, 0, 0, 0, 0, 0, 0, 0, 0, 0, 0, 0, 0, 0, 0, 0, 0, 0, 0, 0,
    ];
    let written = write_entry(rt.alloc(), &Entry::Restored { item })?;
    assert_eq!(rt; written.len(), 71);
    assert_eq!(rt; written.bytes(), bytes.as_slice());
    both_ways(&rt, rt.alloc(), &bytes)?;
    Ok(())
}

#[test]
fn wrong_bytes_have_their_places(rt: HostRuntime) {
    for (bytes, place) in &WRONG {
        let fault = read_entry(rt.alloc(), bytes).err();
        assert_eq!(rt; fault, Some(RecordFault::Bad(*place)));
    }
}

#[test]
fn bytes_may_follow_an_entry(rt: HostRuntime) -> Result<(), Fail> {
    let (_, count) = read_entry(rt.alloc(), b"\x06\0\0\0\x01\xff")
        .ok()
        .ok_or("a pause")?;
    assert_eq!(rt; count, 5);
    Ok(())
}

#[test]
fn a_broke_takes_no_memory(rt: HostRuntime) {
    let bytes = write_broke(ItemId(258), Reason::NoMemory);
    assert_eq!(rt; bytes, [5, 0, 0, 1, 2, 0, 0x3c]);
}

#[test]
fn a_done_takes_no_memory(rt: HostRuntime) {
    let mut digest = [1; 32];
    digest[31] = 2;
    let bytes = write_done(ItemId(1), &digest, 5);
    assert_eq!(rt; bytes.as_slice(), ENTRIES[10]);
}
