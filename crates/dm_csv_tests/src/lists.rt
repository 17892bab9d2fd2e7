use dm_item::Items;
use dm_report::{csv_export, report_text};
use dm_types::{Attempt, By, Entry, ItemId, Key, Reason, Slice, Slices, Text};
use std::alloc::Global;
use std::test::Fail;

fn text(alloc: Global, bytes: &[u8]) -> Result<Text, Fail> {
    Ok(Text::from_bytes(alloc, bytes)?)
}

/// A step of an item's life.
#[derive(Clone, Copy)]
enum Step {
    Added(&'static [u8]),
    Began,
    Described(u64, &'static [u8]),
    Received(u64),
    Broke(Reason),
    Paused,
    Cancelled,
    Finishing(u64),
    Done,
}

fn entry(alloc: Global, number: u32, step: Step) -> Result<Entry, Fail> {
    let id = ItemId(number);
    Ok(match step {
        Step::Added(word) => Entry::Added {
            id,
            word: text(alloc, word)?,
            address: text(alloc, b"http://h/a")?,
            wish: Text::new(alloc),
            digest: None,
            at: 0,
        },
        Step::Began => Entry::Began {
            id,
            attempt: Attempt(1),
            by: By::User,
            at: 0,
        },
        Step::Described(total, name) => Entry::Described {
            id,
            key: Key::Once(id, Attempt(1)),
            last_address: text(alloc, b"http://h/b")?,
            total: Some(total),
            name: text(alloc, name)?,
            modified: Text::new(alloc),
        },
        Step::Received(got) => received(alloc, id, got)?,
        Step::Broke(reason) => Entry::Broke { id, reason },
        Step::Paused => Entry::Paused { id },
        Step::Cancelled => Entry::Cancelled { id },
        Step::Finishing(total) => Entry::Finishing { id, total },
        Step::Done => Entry::Done {
            id,
            digest: [0xab; 32],
            at: 0,
        },
    })
}

fn received(alloc: Global, id: ItemId, got: u64) -> Result<Entry, Fail> {
    let mut slices = Slices::new(alloc);
    slices.push(Slice {
        first: 0,
        got,
        finished: false,
    })?;
    Ok(Entry::Progress { id, slices })
}

fn list(alloc: Global, steps: &[(u32, Step)]) -> Result<Items, Fail> {
    let mut items = Items::new(alloc, 4096)?;
    for (id, step) in steps {
        let entry = entry(alloc, *id, *step)?;
        let _taken = items.apply(&entry);
    }
    Ok(items)
}

/// An item in each state, and three more that are interrupted.
fn each_state(alloc: Global) -> Result<Items, Fail> {
    list(
        alloc,
        &[
            (1, Step::Added(b"w1")),
            (2, Step::Added(b"")),
            (2, Step::Began),
            (2, Step::Described(11, b"a, \"b\"\nc")),
            (2, Step::Received(5)),
            (3, Step::Added(b"")),
            (3, Step::Began),
            (3, Step::Broke(Reason::NetworkFailed)),
            (3, Step::Paused),
            (4, Step::Added(b"")),
            (4, Step::Began),
            (4, Step::Described(0, b"d")),
            (4, Step::Finishing(0)),
            (5, Step::Added(b"")),
            (5, Step::Began),
            (5, Step::Described(0, b"e")),
            (5, Step::Finishing(0)),
            (5, Step::Done),
            (6, Step::Added(b"")),
            (6, Step::Cancelled),
            (7, Step::Added(b"")),
            (7, Step::Began),
            (7, Step::Broke(Reason::ServerContentLengthMismatch)),
            (8, Step::Added(b"")),
            (8, Step::Began),
            (8, Step::Broke(Reason::NoMemory)),
            (9, Step::Added(b"")),
            (9, Step::Began),
            (9, Step::Broke(Reason::ServerContentLengthMismatch)),
            (10, Step::Added(b"")),
            (10, Step::Began),
            (10, Step::Broke(Reason::FileFailed)),
        ],
    )
}

#[test]
fn report_on_each_state_and_three_reasons(rt: HostRuntime) -> Result<(), Fail> {
    let report = report_text(rt.alloc(), &each_state(rt.alloc())?)?;
    assert_eq!(rt;
        report.bytes(),
        b"waiting 1\nrunning 1\npaused 1\nfinishing 1\ncomplete 1\ncancelled 1\ninterrupted 4\n\
          reason 1 1\nreason 38 2\nreason 60 1\nbytes 5\n"
            .as_slice()
    );
    Ok(())
}

#[test]
fn report_on_an_empty_list(rt: HostRuntime) -> Result<(), Fail> {
    let report = report_text(rt.alloc(), &list(rt.alloc(), &[])?)?;
    assert_eq!(rt;
        report.bytes(),
        b"waiting 0\nrunning 0\npaused 0\nfinishing 0\ncomplete 0\ncancelled 0\ninterrupted 0\nbytes 0\n".as_slice()
    );
    Ok(())
}

#[test]
fn the_list_as_csv(rt: HostRuntime) -> Result<(), Fail> {
    let text = csv_export(rt.alloc(), &each_state(rt.alloc())?)?;
    assert_eq!(rt;
        text.bytes(),
        b"id,word,address,name,state,reason,total,sha256\n\
          1,w1,http://h/a,,waiting,,,\n\
          2,,http://h/a,\"a, \"\"b\"\"\nc\",running,,11,\n\
          3,,http://h/a,,paused,20,,\n\
          4,,http://h/a,d,finishing,,0,\n\
          5,,http://h/a,e,complete,,0,abababababababababababababababababababababababababababababababab\n\
          6,,http://h/a,,cancelled,40,,\n\
          7,,http://h/a,,interrupted:38,38,,\n\
          8,,http://h/a,,interrupted:60,60,,\n\
          9,,http://h/a,,interrupted:38,38,,\n\
          10,,http://h/a,,interrupted:1,1,,\n"
            .as_slice()
    );
    Ok(())
}
