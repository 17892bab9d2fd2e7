ghost use Rattle.std.specs.Prelude.{◌≡◌, false, IsTrue};
ghost use Rattle.dm_item.specs.Before.{adds_or_changes};
ghost use Rattle.dm_item.specs.Ready.{adds_item};

use dm_item::{ApplyFault, Items};
use dm_types::{Attempt, By, Entry, Epoch, ItemId, Key, Mode, Phase, Reason, Slice, Slices, Text};
use std::alloc::Global;
use std::process::Abort;
use std::test::Fail;

const DIGEST: [u8; 32] = [7; 32];

fn text(rt: &impl Abort, alloc: Global, bytes: &[u8]) -> Text {
    Text::from_bytes(alloc, bytes).expect(rt, "memory")
}

/// A cover of one slice from 0.
fn slices(rt: &impl Abort, alloc: Global, got: u64, finished: bool) -> Slices {
    let mut slices = Slices::new(alloc);
    slices
        .push(Slice {
            first: 0,
            got,
            finished,
        })
        .expect(rt, "memory");
    slices
}

fn added(rt: &impl Abort, alloc: Global, id: u32, word: &[u8]) -> Entry {
    Entry::Added {
        id: ItemId(id),
        word: text(rt, alloc, word),
        address: text(rt, alloc, b"http://h/a"),
        wish: Text::new(alloc),
        digest: Some(DIGEST),
        at: 5,
    }
}

fn described(rt: &impl Abort, alloc: Global, id: u32, name: &[u8]) -> Entry
    ensures { adds_item result ≡ false }
{
    Entry::Described {
        id: ItemId(id),
        key: Key::Strong(text(rt, alloc, b"\"a\"")),
        last_address: text(rt, alloc, b"http://h/b"),
        total: Some(5),
        name: text(rt, alloc, name),
        modified: Text::new(alloc),
    }
}

/// An entry of each kind that names item 1.
fn entry(rt: &impl Abort, alloc: Global, kind: u8) -> Entry
    ensures { adds_item result ≡ false }
{
    match kind {
        3 => described(rt, alloc, 1, b"a"),
        4 => progress(rt, alloc, 5, true),
        _ => plain(kind),
    }
}

/// The kinds that hold no text and no slices.
fn plain(kind: u8) -> Entry
    ensures { adds_item result ≡ false }
{
    let id = ItemId(1);
    match kind {
        2 => began(1, 2, By::User),
        5 => Entry::Broke {
            id,
            reason: Reason::NetworkTimeout,
        },
        6 => Entry::Paused { id },
        7 => Entry::Cancelled { id },
        8 => Entry::Restarted {
            id,
            epoch: Epoch(2),
            because: 1,
        },
        9 => Entry::Finishing { id, total: 5 },
        10 => Entry::Done {
            id,
            digest: DIGEST,
            at: 9,
        },
        11 => Entry::Removed { id },
        12 => Entry::Archived { id },
        _ => Entry::Asked { id },
    }
}

/// Item 1 has this many bytes.
fn progress(rt: &impl Abort, alloc: Global, got: u64, finished: bool) -> Entry
    ensures { adds_item result ≡ false }
{
    Entry::Progress {
        id: ItemId(1),
        slices: slices(rt, alloc, got, finished),
    }
}

fn began(id: u32, attempt: u32, by: By) -> Entry
    ensures { adds_item result ≡ false }
{
    Entry::Began {
        id: ItemId(id),
        attempt: Attempt(attempt),
        by,
        at: 6,
    }
}

/// The answer of an entry that is let go.
fn take(items: &mut Items, entry: Entry) -> Result<(), ApplyFault> {
    items.apply(&entry)
}

/// A list with item 1 in its first attempt, described.
fn running(rt: &impl Abort, alloc: Global) -> Items {
    let mut items = Items::new(alloc, 9).expect(rt, "memory");
    take(&mut items, Entry::Reopened { next: 1, at: 0 }).expect(rt, "opened");
    take(&mut items, added(rt, alloc, 1, b"w1")).expect(rt, "added");
    take(&mut items, began(1, 1, By::User)).expect(rt, "began");
    take(&mut items, described(rt, alloc, 1, b"a")).expect(rt, "described");
    items
}

/// The kinds of entries that bring a running item into a phase.
fn way(phase: Phase) -> &'static [u8] {
    match phase {
        Phase::Waiting => &[4, 6, 15],
        Phase::Running => &[4],
        Phase::Paused => &[4, 6],
        Phase::Finishing => &[4, 9],
        Phase::Complete => &[4, 9, 10],
        Phase::Cancelled => &[4, 7],
        Phase::Interrupted(_) => &[4, 5],
    }
}

/// A list with item 1 in a phase, with all of its five bytes.
fn in_phase(rt: &impl Abort, alloc: Global, phase: Phase) -> Items {
    let mut items = running(rt, alloc);
    for kind in way(phase) {
        take(&mut items, entry(rt, alloc, *kind)).expect(rt, "on the way");
    }
    items
}

/// The answer of an entry of this kind to item 1 in a phase.
fn answer(rt: &impl Abort, alloc: Global, kind: u8, phase: Phase) -> Result<(), ApplyFault> {
    let entry = entry(rt, alloc, kind);
    let mut items = in_phase(rt, alloc, phase);
    items.apply(&entry)
}

#[test]
fn each_kind_comes_in_its_phases(rt: HostRuntime) -> Result<(), Fail> {
    let phases = [
        Phase::Waiting,
        Phase::Running,
        Phase::Paused,
        Phase::Finishing,
        Phase::Complete,
        Phase::Cancelled,
        Phase::Interrupted(Reason::NetworkTimeout),
    ];
    // The phases in their order above in which each kind may come.
    let rows = [
        (2, [true, false, false, false, false, false, false]),
        (3, [false, true, false, false, false, false, false]),
        (4, [false, true, false, false, false, false, false]),
        (5, [false, true, false, true, false, false, false]),
        (6, [true, true, false, false, false, false, true]),
        (7, [true, true, true, false, false, false, true]),
        (8, [true, false, false, false, false, false, true]),
        (9, [false, true, false, false, false, false, false]),
        (10, [false, false, false, true, false, false, false]),
        (11, [true, false, true, false, true, true, true]),
        (12, [false, false, false, false, true, true, false]),
        (15, [false, false, true, false, false, false, true]),
    ];
    for (kind, allowed) in rows {
        for (phase, may_come) in phases.into_iter().zip(allowed) {
            let answer = answer(&rt, rt.alloc(), kind, phase);
            assert_eq!(rt;
                answer != Err(ApplyFault::WrongPhase(phase)),
                may_come,
                "kind {kind}"
            );
        }
    }
    Ok(())
}

/// A list with item 1 broken off after three bytes.
fn broken_off(rt: &impl Abort, alloc: Global) -> Items {
    let mut items = running(rt, alloc);
    let reason = Reason::ServerContentLengthMismatch;
    let id = ItemId(1);
    take(&mut items, progress(rt, alloc, 3, false)).expect(rt, "progress");
    take(&mut items, Entry::Broke { id, reason }).expect(rt, "broke");
    items
}

#[test]
fn an_item_is_brought(rt: HostRuntime) -> Result<(), Fail> {
    let mut items = broken_off(&rt, rt.alloc());
    assert_eq!(rt; items.mode(ItemId(1)), Some(Mode::ImmediateContinue));
    assert_eq!(rt; take(&mut items, began(1, 2, By::Itself)), Ok(()));
    for kind in [4, 9, 10] {
        assert_eq!(rt; take(&mut items, entry(&rt, rt.alloc(), kind)), Ok(()));
    }
    let item = items.get(ItemId(1)).ok_or("item 1")?;
    assert_eq!(rt; item.phase, Phase::Complete);
    assert_eq!(rt; (item.attempt, item.autos, item.at_ms), (Attempt(2), 1, 9));
    assert_eq!(rt; item.have, Some(DIGEST));
    assert_eq!(rt; take(&mut items, entry(&rt, rt.alloc(), 12)), Ok(()));
    assert_eq!(rt; items.count(), 0);
    Ok(())
}

#[test]
fn items_are_looked_up(rt: HostRuntime) -> Result<(), Fail> {
    let items = broken_off(&rt, rt.alloc());
    assert_eq!(rt; (items.next(), items.count()), (2, 1));
    assert_eq!(rt; items.by_word(b"w1"), Some(ItemId(1)));
    assert_eq!(rt; items.by_word(b""), None);
    assert_eq!(rt; items.mode(ItemId(2)), None);
    assert!(rt; items.get(ItemId(2)).is_none());
    Ok(())
}

#[test]
fn a_full_list_refuses(rt: HostRuntime) -> Result<(), Fail> {
    let mut items = Items::new(rt.alloc(), 1)?;
    assert_eq!(rt; take(&mut items, added(&rt, rt.alloc(), 1, b"w1")), Ok(()));
    let full = take(&mut items, added(&rt, rt.alloc(), 2, b"w2"));
    assert_eq!(rt; full, Err(ApplyFault::Full(1)));
    let absent = take(&mut items, Entry::Asked { id: ItemId(2) });
    assert_eq!(rt; absent, Err(ApplyFault::NoItem(ItemId(2))));
    Ok(())
}

#[test]
fn a_further_condition_fails(rt: HostRuntime) -> Result<(), Fail> {
    let broken = Phase::Interrupted(Reason::NetworkTimeout);
    let rows = [(3, Phase::Running), (8, broken), (15, Phase::Cancelled)];
    for (kind, phase) in rows {
        assert!(rt; answer(&rt, rt.alloc(), kind, phase).is_err());
    }
    let mut items = in_phase(&rt, rt.alloc(), Phase::Running);
    let word = take(&mut items, added(&rt, rt.alloc(), 2, b"w1"));
    assert_eq!(rt; word, Err(ApplyFault::Unlawful(1)));
    assert_eq!(rt; take(&mut items, added(&rt, rt.alloc(), 2, b"")), Ok(()));
    assert_eq!(rt; take(&mut items, began(2, 1, By::User)), Ok(()));
    let name = take(&mut items, described(&rt, rt.alloc(), 2, b"A"));
    assert_eq!(rt; name, Err(ApplyFault::Unlawful(3)));
    assert_eq!(rt;
        take(&mut items, described(&rt, rt.alloc(), 2, b"b")),
        Ok(())
    );
    Ok(())
}

#[test]
fn a_reopened_list_runs_nothing(rt: HostRuntime) -> Result<(), Fail> {
    let mut items = in_phase(&rt, rt.alloc(), Phase::Running);
    let early = take(&mut items, Entry::Reopened { next: 1, at: 0 });
    assert_eq!(rt; early, Err(ApplyFault::Unlawful(13)));
    assert_eq!(rt;
        take(&mut items, Entry::Reopened { next: 2, at: 0 }),
        Ok(())
    );
    let item = items.get(ItemId(1)).ok_or("item 1")?;
    assert_eq!(rt; item.phase, Phase::Interrupted(Reason::Crash));
    assert_eq!(rt; item.reason, Some(Reason::Crash));
    Ok(())
}

#[test]
fn a_short_history_leaves_the_same_items(rt: HostRuntime) -> Result<(), Fail> {
    let mut items = in_phase(&rt, rt.alloc(), Phase::Running);
    let entries = items.short_history(8)?;
    assert_eq!(rt; entries.count(), 2);
    let mut again = Items::new(rt.alloc(), 9)?;
    assert_eq!(rt; again.apply_all(entries.items()), Ok(()));
    assert_eq!(rt; (again.next(), again.count()), (2, 1));
    assert_eq!(rt; again.mode(ItemId(1)), items.mode(ItemId(1)));
    assert_eq!(rt;
        items.apply_all(entries.items()),
        Err(ApplyFault::Unlawful(14))
    );
    Ok(())
}

/// A running list with 3 bytes of item 1, after an entry was taken and taken back.
fn taken_back(rt: &impl Abort, alloc: Global, entry: &Entry) -> Items
    requires { IsTrue (adds_or_changes entry.now) }
{
    let mut items = running(rt, alloc);
    take(&mut items, progress(rt, alloc, 3, false)).expect(rt, "progress");
    let before = items.before(entry).expect(rt, "memory");
    items.apply(entry).expect(rt, "taken");
    items.take_back(before);
    items
}

#[test]
fn an_entry_is_taken_back(rt: HostRuntime) -> Result<(), Fail> {
    let items = taken_back(&rt, rt.alloc(), &Entry::Paused { id: ItemId(1) });
    assert_eq!(rt; (items.next(), items.count()), (2, 1));
    let item = items.get(ItemId(1)).ok_or("item 1")?;
    assert_eq!(rt; item.phase, Phase::Running);
    assert!(rt; item.slices.items() == slices(&rt, rt.alloc(), 3, false).items());
    Ok(())
}

/// The answer of an entry that was made ready, where the list admits it.
fn put(rt: &impl Abort, items: &mut Items, entry: &Entry) -> Result<(), ApplyFault>
    requires { adds_item entry.now ≡ false }
{
    let item = items.ready(entry).expect(rt, "memory");
    match items.admits(entry) {
        Ok(()) => {
            items.put(entry, item);
            Ok(())
        }
        Err(fault) => Err(fault),
    }
}

#[test]
fn entries_are_made_ready_and_put(rt: HostRuntime) -> Result<(), Fail> {
    let mut items = running(&rt, rt.alloc());
    for kind in [4, 9, 10, 12] {
        let entry = entry(&rt, rt.alloc(), kind);
        assert_eq!(rt; put(&rt, &mut items, &entry), Ok(()));
    }
    assert_eq!(rt; items.count(), 0);
    let gone = put(&rt, &mut items, &Entry::Asked { id: ItemId(1) });
    assert_eq!(rt; gone, Err(ApplyFault::NoItem(ItemId(1))));
    Ok(())
}
