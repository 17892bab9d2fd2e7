use crate::*;
use dm_types::{Attempt, DiskKind, Epoch, Item, ItemId, Phase, Reason, Slice, Slices, Text};
use std::alloc::Global;
use std::test::Fail;

/// SHA-256 of `hello world`.
const DIGEST: [u8; 32] = [
    0xb9, 0x4d, 0x27, 0xb9, 0x93, 0x4d, 0x3e, 0x08, 0xa5, 0x2e, 0x52, 0xd7, 0xda, 0x7d, 0xab, 0xfa,
    0xc4, 0x84, 0xef, 0xe3, 0x7a, 0x53, 0x80, 0xee, 0x90, 0x88, 0xf7, 0xac, 0xe2, 0xef, 0xcd, 0xe9,
];

fn waiting(alloc: Global) -> Result<Item, Fail> {
    Ok(Item {
        id: ItemId(1),
        word: Text::new(alloc),
        first_address: Text::from_bytes(alloc, b"http://h/a")?,
        wish: Text::new(alloc),
        digest: None,
        phase: Phase::Waiting,
        reason: None,
        epoch: Epoch(1),
        attempt: Attempt(0),
        autos: 0,
        begun: false,
        key: None,
        last_address: None,
        total: None,
        name: None,
        modified: None,
        slices: Slices::new(alloc),
        have: None,
        at_ms: 0,
    })
}

fn received(alloc: Global) -> Result<Slices, Fail> {
    let mut slices = Slices::new(alloc);
    slices.push(Slice {
        first: 0,
        got: 4,
        finished: false,
    })?;
    slices.push(Slice {
        first: 4,
        got: 7,
        finished: true,
    })?;
    Ok(slices)
}

fn complete(alloc: Global) -> Result<Item, Fail> {
    let mut item = waiting(alloc)?;
    item.phase = Phase::Complete;
    item.attempt = Attempt(1);
    item.total = Some(11);
    item.name = Some(Text::from_bytes(alloc, b"hello.txt")?);
    item.slices = received(alloc)?;
    Ok(item)
}

fn shown_whole(alloc: Global) -> Result<Item, Fail> {
    let mut item = complete(alloc)?;
    item.id = ItemId(4_294_967_295);
    item.word = Text::from_bytes(alloc, b"w1")?;
    item.epoch = Epoch(2);
    item.attempt = Attempt(7);
    item.autos = 5;
    item.last_address = Some(Text::from_bytes(alloc, b"http://m/b")?);
    item.modified = Some(Text::from_bytes(alloc, b"Tue, 15 Nov 1994 12:45:26 GMT")?);
    item.have = Some(DIGEST);
    Ok(item)
}

#[test]
fn line_of_a_new_item(rt: HostRuntime) -> Result<(), Fail> {
    let line = item_line(rt.alloc(), &waiting(rt.alloc())?)?;
    assert_eq!(rt; line.bytes(), b"1 waiting 0 ? -\n".as_slice());
    Ok(())
}

#[test]
fn line_of_a_complete_item(rt: HostRuntime) -> Result<(), Fail> {
    let line = item_line(rt.alloc(), &complete(rt.alloc())?)?;
    assert_eq!(rt; line.bytes(), b"1 complete 11 11 hello.txt\n".as_slice());
    Ok(())
}

#[test]
fn line_of_an_interrupted_item(rt: HostRuntime) -> Result<(), Fail> {
    let mut item = complete(rt.alloc())?;
    item.phase = Phase::Interrupted(Reason::ServerContentLengthMismatch);
    let line = item_line(rt.alloc(), &item)?;
    assert_eq!(rt;
        line.bytes(),
        b"1 interrupted:38 11 11 hello.txt\n".as_slice()
    );
    Ok(())
}

#[test]
fn text_of_a_new_item(rt: HostRuntime) -> Result<(), Fail> {
    let text = item_text(rt.alloc(), &waiting(rt.alloc())?)?;
    assert_eq!(rt;
        text.bytes(),
        b"id 1\nstate waiting\nword -\naddress http://h/a\nlast -\nname -\ncovered 0\ntotal -\n\
          epoch 1\nattempts 0\nautomatic 0\nmodified -\nsha256 -\n"
            .as_slice()
    );
    Ok(())
}

#[test]
fn text_with_everything(rt: HostRuntime) -> Result<(), Fail> {
    let text = item_text(rt.alloc(), &shown_whole(rt.alloc())?)?;
    assert_eq!(rt;
        text.bytes(),
        b"id 4294967295\nstate complete\nword w1\naddress http://h/a\nlast http://m/b\n\
          name hello.txt\ncovered 11\ntotal 11\nepoch 2\nattempts 7\nautomatic 5\n\
          modified Tue, 15 Nov 1994 12:45:26 GMT\n\
          sha256 b94d27b9934d3e08a52e52d7da7dabfac484efe37a5380ee9088f7ace2efcde9\n"
            .as_slice()
    );
    Ok(())
}

#[test]
fn lines_of_verdicts(rt: HostRuntime) -> Result<(), Fail> {
    let rows: &[(Verdict, u8, &[u8])] = &[
        (Verdict::Done, 0, b""),
        (
            Verdict::Interrupted(Reason::ServerContentLengthMismatch),
            1,
            b"interrupted 38 SERVER_CONTENT_LENGTH_MISMATCH\n",
        ),
        (Verdict::BadWords, 2, b"bad words\n"),
        (Verdict::BadAddress, 2, b"bad address\n"),
        (Verdict::NoItem(ItemId(5)), 3, b"no item 5\n"),
        (Verdict::WrongState(Phase::Paused), 4, b"state paused\n"),
        (
            Verdict::WrongState(Phase::Interrupted(Reason::ServerContentLengthMismatch)),
            4,
            b"state interrupted:38\n",
        ),
        (Verdict::Damaged(26), 5, b"journal damaged at 26\n"),
        (Verdict::DiskFailed(DiskKind::Failed), 6, b"disk failed\n"),
        (Verdict::DiskFailed(DiskKind::Denied), 6, b"disk denied\n"),
        (
            Verdict::DiskFailed(DiskKind::NoSpace),
            6,
            b"disk no-space\n",
        ),
        (
            Verdict::DiskFailed(DiskKind::NameTooLong),
            6,
            b"disk name-too-long\n",
        ),
        (Verdict::ItemsFull(4096), 8, b"items full 4096\n"),
        (Verdict::NoMemory, 9, b"no memory\n"),
        (Verdict::OtherWord(ItemId(1)), 10, b"word of item 1\n"),
        (Verdict::BadImport(2), 11, b"import 2\n"),
        (Verdict::NotAccepted, 12, b"accept failed\n"),
        (Verdict::HistoryFailed, 13, b"history failed\n"),
    ];
    let alloc = rt.alloc();
    for (verdict, status, line) in rows {
        let ending = Ending::new(alloc, *verdict, Text::from_bytes(alloc, b"out")?);
        assert!(rt; ending.verdict() == *verdict);
        assert_eq!(rt; ending.status(), *status);
        assert_eq!(rt; ending.out_text(), b"out".as_slice());
        assert_eq!(rt; ending.errs_text(), *line);
        assert_eq!(rt; errs_line(alloc, *verdict)?.bytes(), *line);
    }
    let ending = Ending::fixed(alloc, Verdict::BadWords);
    assert_eq!(rt; ending.out_text(), b"".as_slice());
    assert_eq!(rt; ending.errs_text(), b"bad words\n".as_slice());
    Ok(())
}
