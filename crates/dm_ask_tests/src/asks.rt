ghost use Rattle.std.specs.Prelude.{IfOk};
ghost use Rattle.dm_edge.specs.Fair.{IsOrdered};

use crate::bench::{Faults, address, net};
use dm_ask::{Asked, ask};
use dm_edge::{Net, NetFault, NetScript, Wanted, WireFault};
use dm_policy::Cause;
use dm_types::{Attempt, ItemId, Key, NoMemory, Text};
use std::alloc::Global;
use std::test::Fail;

/// What came of asking, where the connection is handed back at once.
#[derive(Debug, Drop)]
enum Answer {
    /// Content at this address, under this key.
    Content(Text, Key),
    Broke(Cause),
    NoMemory,
}

/// What came of asking for this, and the net behind it.
#[derive(Debug, Drop)]
struct Outcome {
    answer: Answer,
    net: NetScript,
}

fn ran(
    alloc: Global,
    streams: &[&[u8]],
    faults: Faults,
    wanted: Wanted,
) -> Result<Outcome, NoMemory>
    requires { IsOrdered wanted }
{
    let mut net = net(alloc, streams, faults)?;
    let at = address(alloc)?;
    let answer = match ask(alloc, &mut net, &at, ItemId(7), Attempt(3), wanted) {
        Asked::Content {
            wire,
            reader: _,
            head: _,
            address,
            key,
        } => {
            net.close(wire);
            Answer::Content(address.text, key)
        }
        Asked::Broke(cause) => Answer::Broke(cause),
        Asked::NoMemory => Answer::NoMemory,
    };
    Ok(Outcome { answer, net })
}

/// The second half of `hello world`, under the tag `"a"`.
fn part(alloc: Global) -> Result<Wanted, NoMemory>
    ensures { IfOk result (λ wanted. IsOrdered wanted) }
{
    Ok(Wanted::Part {
        first: 5,
        last: 10,
        tag: Text::from_bytes(alloc, b"\"a\"")?,
        total: 11,
    })
}

/// Whether so many connections were handed back, and the one at this place was sent this.
fn was_sent(net: &NetScript, count: u64, place: u64, request: &[u8]) -> bool {
    let last = match net.closed(count) {
        Some(_) => false,
        None => true,
    };
    match net.closed(place) {
        Some(exchange) => last
            && exchange.sent.is(request)
            && exchange.id == ItemId(7)
            && exchange.attempt == Attempt(3),
        None => false,
    }
}

/// Whether it is content at this address under this strong tag, or without one under the attempt's own key.
fn is_content(answer: &Answer, address: &[u8], tag: Option<&[u8]>) -> bool {
    match answer {
        Answer::Content(at, Key::Strong(found)) => at.is(address)
            && tag.is_some_and(|tag| found.is(tag)),
        Answer::Content(at, Key::Once(id, attempt)) => {
            at.is(address) && tag.is_none() && *id == ItemId(7) && *attempt == Attempt(3)
        }
        Answer::Broke(_) => false,
        Answer::NoMemory => false,
    }
}

fn is_broken(answer: &Answer, by: Cause) -> bool {
    match answer {
        Answer::Broke(cause) => *cause == by,
        Answer::Content(..) => false,
        Answer::NoMemory => false,
    }
}

const CONTENT: &[u8] = b"HTTP/1.1 200 OK\r\nETag: \"a\"\r\nContent-Length: 11\r\n\r\nhello world";

const UNTAGGED: &[u8] = b"HTTP/1.1 200 OK\r\nContent-Length: 11\r\n\r\nhello world";

const MOVED: &[u8] = b"HTTP/1.1 302 Found\r\nLocation: /g\r\n\r\n";

const FIRST: &[u8] =
    b"GET /f HTTP/1.1\r\nHost: a.test\r\nUser-Agent: dm/1\r\nAccept: */*\r\nAccept-Encoding: identity\r\nConnection: close\r\n\r\n";

const SECOND: &[u8] =
    b"GET /g HTTP/1.1\r\nHost: a.test\r\nUser-Agent: dm/1\r\nAccept: */*\r\nAccept-Encoding: identity\r\nConnection: close\r\n\r\n";

const RANGE: &[u8] =
    b"GET /f HTTP/1.1\r\nHost: a.test\r\nUser-Agent: dm/1\r\nAccept: */*\r\nAccept-Encoding: identity\r\nConnection: close\r\nRange: bytes=5-10\r\nIf-Range: \"a\"\r\n\r\n";

#[test]
fn content_is_asked_for(rt: HostRuntime) -> Result<(), Fail> {
    let ran = ran(rt.alloc(), &[CONTENT], Faults::NONE, Wanted::Whole)?;
    assert!(rt;
        is_content(&ran.answer, b"http://a.test/f", Some(b"\"a\"")),
        "{:?}",
        ran.answer
    );
    assert!(rt; was_sent(&ran.net, 1, 0, FIRST));
    Ok(())
}

#[test]
fn a_redirect_is_followed(rt: HostRuntime) -> Result<(), Fail> {
    let ran = ran(rt.alloc(), &[MOVED, UNTAGGED], Faults::NONE, Wanted::Whole)?;
    assert!(rt;
        is_content(&ran.answer, b"http://a.test/g", None),
        "{:?}",
        ran.answer
    );
    assert!(rt; was_sent(&ran.net, 2, 0, FIRST));
    assert!(rt; was_sent(&ran.net, 2, 1, SECOND));
    Ok(())
}

#[test]
fn ten_redirects_are_followed(rt: HostRuntime) -> Result<(), Fail> {
    let streams = [
        MOVED, MOVED, MOVED, MOVED, MOVED, MOVED, MOVED, MOVED, MOVED, MOVED, CONTENT,
    ];
    let ran = ran(rt.alloc(), &streams, Faults::NONE, Wanted::Whole)?;
    assert!(rt;
        is_content(&ran.answer, b"http://a.test/g", Some(b"\"a\"")),
        "{:?}",
        ran.answer
    );
    assert!(rt; was_sent(&ran.net, 11, 10, SECOND));
    Ok(())
}

#[test]
fn an_eleventh_redirect_is_too_many(rt: HostRuntime) -> Result<(), Fail> {
    let streams = [
        MOVED, MOVED, MOVED, MOVED, MOVED, MOVED, MOVED, MOVED, MOVED, MOVED, MOVED, CONTENT,
    ];
    let ran = ran(rt.alloc(), &streams, Faults::NONE, Wanted::Whole)?;
    assert!(rt;
        is_broken(&ran.answer, Cause::TooManyRedirects),
        "{:?}",
        ran.answer
    );
    assert!(rt; was_sent(&ran.net, 11, 10, SECOND));
    Ok(())
}

/// Replies to a request for the whole content that bring none, and why.
const BROKEN: [(&[u8], Cause); 4] = [
    (b"HTTP/1.1 404 Not Found\r\n\r\n", Cause::Status(404)),
    (
        b"HTTP/1.1 302 F\r\nLocation: ftp://a.test/\r\n\r\n",
        Cause::BadLocation,
    ),
    (b"HTTP/1.1 200 OK\r\n", Cause::HeadCut),
    (b"SSH-2.0-a\r\n", Cause::BadHead),
];

#[test]
fn other_replies_bring_none(rt: HostRuntime) -> Result<(), Fail> {
    for (stream, cause) in BROKEN {
        let ran = ran(rt.alloc(), &[stream], Faults::NONE, Wanted::Whole)?;
        assert!(rt; is_broken(&ran.answer, cause), "{:?}", ran.answer);
        assert!(rt; was_sent(&ran.net, 1, 0, FIRST));
    }
    Ok(())
}

#[test]
fn a_part_is_asked_for(rt: HostRuntime) -> Result<(), Fail> {
    let stream: &[u8] =
        b"HTTP/1.1 206 P\r\nETag: \"a\"\r\nContent-Range: bytes 5-10/11\r\n\r\n world";
    let ran = ran(rt.alloc(), &[stream], Faults::NONE, part(rt.alloc())?)?;
    assert!(rt;
        is_content(&ran.answer, b"http://a.test/f", Some(b"\"a\"")),
        "{:?}",
        ran.answer
    );
    assert!(rt; was_sent(&ran.net, 1, 0, RANGE));
    Ok(())
}

#[test]
fn no_part_comes_with_another_status(rt: HostRuntime) -> Result<(), Fail> {
    let whole = ran(rt.alloc(), &[CONTENT], Faults::NONE, part(rt.alloc())?)?;
    assert!(rt;
        is_broken(&whole.answer, Cause::RangeRefused(200)),
        "{:?}",
        whole.answer
    );
    let moved = ran(
        rt.alloc(),
        &[MOVED, CONTENT],
        Faults::NONE,
        part(rt.alloc())?,
    )?;
    assert!(rt;
        is_broken(&moved.answer, Cause::RangeRefused(302)),
        "{:?}",
        moved.answer
    );
    assert!(rt; was_sent(&moved.net, 1, 0, RANGE));
    Ok(())
}

/// How the first connect fails, and what the cause is.
const UNREACHED: [(NetFault, Cause); 4] = [
    (NetFault::NoRoute, Cause::NetNoRoute),
    (NetFault::Refused, Cause::NetRefused),
    (NetFault::Timeout, Cause::NetTimeout),
    (NetFault::Failed, Cause::NetFailed),
];

#[test]
fn a_fault_of_the_net_is_its_cause(rt: HostRuntime) -> Result<(), Fail> {
    for (fault, cause) in UNREACHED {
        let faults = Faults {
            connect: Some(fault),
            wire: None,
        };
        let ran = ran(rt.alloc(), &[CONTENT], faults, Wanted::Whole)?;
        assert!(rt; is_broken(&ran.answer, cause), "{:?}", ran.answer);
    }
    Ok(())
}

/// Which call on the wire fails, the send or the first receive, and how.
const CUT: [(u64, WireFault, Cause); 4] = [
    (0, WireFault::Failed, Cause::NetFailed),
    (0, WireFault::Timeout, Cause::NetTimeout),
    (1, WireFault::Failed, Cause::NetFailed),
    (1, WireFault::Timeout, Cause::NetTimeout),
];

#[test]
fn a_fault_of_the_wire_is_its_cause(rt: HostRuntime) -> Result<(), Fail> {
    for (call, fault, cause) in CUT {
        let faults = Faults {
            connect: None,
            wire: Some((call, fault)),
        };
        let ran = ran(rt.alloc(), &[CONTENT], faults, Wanted::Whole)?;
        assert!(rt; is_broken(&ran.answer, cause), "{:?}", ran.answer);
        assert!(rt; was_sent(&ran.net, 1, 0, if call == 0 { b"" } else { FIRST }));
    }
    Ok(())
}
