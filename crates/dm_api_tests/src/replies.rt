use dm_call::{Refusal, Target};
use dm_hist::Row;
use dm_response::{
    Trouble, fixed_memory_reply, item_text, items_text, row_text, rows_text, trouble_reply,
};
use dm_types::{Attempt, Epoch, Item, ItemId, Phase, Reason, Slices, Text};
use std::alloc::Global;
use std::test::Fail;

fn waiting(alloc: Global) -> Result<Item, Fail> {
    Ok(Item {
        id: ItemId(1),
        word: Text::from_bytes(alloc, b"w1")?,
        first_address: Text::from_bytes(alloc, b"http://h/a")?,
        wish: Text::new(alloc),
        digest: None,
        phase: Phase::Waiting,
        reason: None,
        epoch: Epoch(1),
        attempt: Attempt(0),
        autos: 0,
        begun: false,
        key: None,
        last_address: None,
        total: None,
        name: None,
        modified: None,
        slices: Slices::new(alloc),
        have: None,
        at_ms: 0,
    })
}

#[test]
fn an_item_is_json(rt: HostRuntime) -> Result<(), Fail> {
    let item = waiting(rt.alloc())?;
    let text = item_text(rt.alloc(), &item)?;
    assert_eq!(rt; text.len(), 136);
    assert_eq!(rt;
        text.bytes(),
        b"{\"address\":\"http://h/a\",\"autos\":0,\"covered\":0,\"id\":1,\"name\":null,\"phase\":\"waiting\",\"reason\":null,\"sha256\":null,\"total\":null,\"word\":\"w1\"}".as_slice()
    );
    Ok(())
}

#[test]
fn an_interrupted_item_has_its_reason(rt: HostRuntime) -> Result<(), Fail> {
    let mut item = waiting(rt.alloc())?;
    item.phase = Phase::Interrupted(Reason::ServerFailed);
    item.reason = Some(Reason::ServerFailed);
    item.name = Some(Text::from_bytes(rt.alloc(), b"a\"b")?);
    item.total = Some(11);
    item.have = Some([0xab; 32]);
    let text = item_text(rt.alloc(), &item)?;
    assert_eq!(rt;
        text.bytes(),
        b"{\"address\":\"http://h/a\",\"autos\":0,\"covered\":0,\"id\":1,\"name\":\"a\\\"b\",\"phase\":\"interrupted\",\"reason\":30,\"sha256\":\"abababababababababababababababababababababababababababababababab\",\"total\":11,\"word\":\"w1\"}".as_slice()
    );
    Ok(())
}

#[test]
fn a_list_has_commas_between(rt: HostRuntime) -> Result<(), Fail> {
    assert_eq!(rt;
        items_text(rt.alloc(), &[])?.bytes(),
        b"{\"items\":[]}".as_slice()
    );
    let items = [waiting(rt.alloc())?, waiting(rt.alloc())?];
    let text = items_text(rt.alloc(), &items)?;
    assert_eq!(rt; text.len(), 10 + 136 + 1 + 136 + 2);
    Ok(())
}

fn row(alloc: Global) -> Result<Row, Fail> {
    Ok(Row {
        id: ItemId(3),
        word: Text::new(alloc),
        address: Text::from_bytes(alloc, b"http://h/a")?,
        name: Text::from_bytes(alloc, b"a.txt")?,
        complete: true,
        total: Some(11),
        digest: Some([0xcd; 32]),
        at_ms: u64::MAX,
    })
}

#[test]
fn a_row_is_json(rt: HostRuntime) -> Result<(), Fail> {
    let mut row = row(rt.alloc())?;
    let text = row_text(rt.alloc(), &row)?;
    assert_eq!(rt;
        text.bytes(),
        b"{\"address\":\"http://h/a\",\"at\":18446744073709551615,\"id\":3,\"name\":\"a.txt\",\"phase\":\"complete\",\"sha256\":\"cdcdcdcdcdcdcdcdcdcdcdcdcdcdcdcdcdcdcdcdcdcdcdcdcdcdcdcdcdcdcdcd\",\"total\":11,\"word\":\"\"}".as_slice()
    );
    row.complete = false;
    row.name = Text::new(rt.alloc());
    row.total = None;
    row.digest = None;
    let text = row_text(rt.alloc(), &row)?;
    assert_eq!(rt;
        text.bytes(),
        b"{\"address\":\"http://h/a\",\"at\":18446744073709551615,\"id\":3,\"name\":null,\"phase\":\"cancelled\",\"sha256\":null,\"total\":null,\"word\":\"\"}".as_slice()
    );
    let rows = [row];
    let text = rows_text(rt.alloc(), &rows)?;
    assert!(rt; text.bytes().starts_with(b"{\"rows\":[{\"address\":"));
    assert_eq!(rt;
        rows_text(rt.alloc(), &[])?.bytes(),
        b"{\"rows\":[]}".as_slice()
    );
    Ok(())
}

#[test]
fn methods_are_told(rt: HostRuntime) -> Result<(), Fail> {
    let reply = trouble_reply(rt.alloc(), Trouble::Refused(Refusal::Method(Target::Items)))?;
    assert_eq!(rt; reply.status, 405);
    assert_eq!(rt;
        reply.bytes.bytes(),
        b"HTTP/1.1 405 Method Not Allowed\r\nContent-Type: application/json\r\nContent-Length: 18\r\nConnection: close\r\nAllow: GET, POST\r\n\r\n{\"error\":\"method\"}".as_slice()
    );
    Ok(())
}

#[test]
fn troubles_have_their_content(rt: HostRuntime) -> Result<(), Fail> {
    let cases = [
        (Trouble::Head, 400, b"{\"error\":\"head\"}".as_slice()),
        (Trouble::Length, 400, b"{\"error\":\"length\"}".as_slice()),
        (Trouble::Size, 413, b"{\"error\":\"size\"}".as_slice()),
        (Trouble::NoItem, 404, b"{\"error\":\"item\"}".as_slice()),
        (
            Trouble::WrongState(Phase::Running),
            409,
            b"{\"error\":\"phase\",\"phase\":\"running\"}".as_slice(),
        ),
        (
            Trouble::OtherWord(ItemId(1)),
            409,
            b"{\"error\":\"word\",\"item\":1}".as_slice(),
        ),
        (
            Trouble::Full(4096),
            409,
            b"{\"count\":4096,\"error\":\"full\"}".as_slice(),
        ),
        (Trouble::Memory, 500, b"{\"error\":\"memory\"}".as_slice()),
        (Trouble::Disk, 503, b"{\"error\":\"disk\"}".as_slice()),
        (Trouble::Broken, 503, b"{\"error\":\"broken\"}".as_slice()),
        (Trouble::History, 503, b"{\"error\":\"history\"}".as_slice()),
    ];
    for (trouble, status, content) in &cases {
        let reply = trouble_reply(rt.alloc(), *trouble)?;
        assert_eq!(rt; reply.status, *status);
        assert!(rt; reply.bytes.bytes().ends_with(content));
    }
    let reply = trouble_reply(rt.alloc(), Trouble::Memory)?;
    assert_eq!(rt; reply.bytes.bytes(), fixed_memory_reply());
    Ok(())
}
