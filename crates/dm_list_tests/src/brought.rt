// What `get` and `resume` print, ask for, and leave.
use crate::runs::ListRuns;
use dm_run_bench::{Left, Played, Row, Step, play};

/// `hello world` at once, with no tag.
const WHOLE: &[u8] = b"HTTP/1.1 200 OK\r\nContent-Length: 11\r\n\r\nhello world";

/// The same under the tag `"a"`, where the stream ends behind `hello`.
const CUT: &[u8] = b"HTTP/1.1 200 OK\r\nETag: \"a\"\r\nContent-Length: 11\r\n\r\nhello";

/// The rest of it.
const REST: &[u8] =
    b"HTTP/1.1 206 Partial Content\r\nETag: \"a\"\r\nContent-Range: bytes 5-10/11\r\nContent-Length: 6\r\n\r\n world";

/// Another content, under another tag.
const OTHER: &[u8] = b"HTTP/1.1 200 OK\r\nETag: \"b\"\r\nContent-Length: 11\r\n\r\nHELLO WORLD";

/// One that is packed.
const PACKED: &[u8] =
    b"HTTP/1.1 200 OK\r\nContent-Encoding: gzip\r\nContent-Length: 5\r\n\r\nhello";

/// What the first request asks.
const FIRST: &[u8] =
    b"GET /a/hello.txt HTTP/1.1\r\nHost: files.example\r\nUser-Agent: dm/1\r\nAccept: */*\r\nAccept-Encoding: identity\r\nConnection: close\r\n\r\n";

/// How the one for the rest ends.
const RANGE: &[u8] = b"Connection: close\r\nRange: bytes=5-10\r\nIf-Range: \"a\"\r\n\r\n";

const GET: &[&[u8]] = &[
    b"get",
    b"--name",
    b"hello.txt",
    b"--word",
    b"w",
    b"http://files.example/a/hello.txt",
];

const HELLO: &[(&[u8], &[u8])] = &[(b"hello.txt", b"hello world")];

/// A content at once.
const BROUGHT: Row = Row {
    words: GET,
    streams: &[WHOLE],
    sent: &[FIRST],
    out: b"1 complete 11 11 hello.txt\n",
    files: HELLO,
    ..Row::NOTHING
};

/// It is there already.
const SHOWN: Row = Row {
    streams: &[OTHER],
    sent: &[],
    ..BROUGHT
};

/// The rest of one that was cut.
const GONE_ON: Row = Row {
    streams: &[CUT, REST],
    sent: &[FIRST, RANGE],
    ..BROUGHT
};

/// The range is answered by another content.
const BROUGHT_ANEW: Row = Row {
    streams: &[CUT, OTHER, OTHER],
    sent: &[FIRST, RANGE, FIRST],
    files: &[(b"hello.txt", b"HELLO WORLD")],
    ..BROUGHT
};

const NO_ROUTE: Row = Row {
    words: GET,
    status: 1,
    out: b"1 interrupted:22 0 ? -\n",
    errs: b"interrupted 22 NETWORK_DISCONNECTED\n",
    ..Row::NOTHING
};

const RESUMED: Row = Row {
    words: &[b"resume", b"1"],
    ..BROUGHT
};

const BAD_CONTENT: Row = Row {
    words: GET,
    streams: &[PACKED, WHOLE],
    sent: &[FIRST],
    status: 1,
    out: b"1 interrupted:33 0 ? -\n",
    errs: b"interrupted 33 SERVER_BAD_CONTENT\n",
    ..Row::NOTHING
};

const MAY_NOT: Row = Row {
    words: &[b"resume", b"1"],
    streams: &[WHOLE],
    status: 4,
    errs: b"state interrupted:33\n",
    ..Row::NOTHING
};

const IS_COMPLETE: Row = Row {
    errs: b"state complete\n",
    ..MAY_NOT
};

const NONE_TO_RESUME: Row = Row {
    words: &[b"resume", b"7"],
    streams: &[WHOLE],
    status: 3,
    errs: b"no item 7\n",
    ..Row::NOTHING
};

const NO_COMMAND: Row = Row {
    words: &[b"fetch"],
    streams: &[WHOLE],
    status: 2,
    errs: b"bad words\n",
    ..Row::NOTHING
};

const TOO_MANY: Row = Row {
    words: &[b"get", b"--slices", b"17", b"http://h/a"],
    ..NO_COMMAND
};

const NO_FILE: Step = Step::Left(Left::Stands(b"hello.txt", false));

/// Commands one after another, and whether `hello.txt` stands where it isn't brought.
const CASES: [&[Step]; 6] = [
    &[
        Step::Runs(BROUGHT),
        Step::Runs(SHOWN),
        Step::Runs(IS_COMPLETE),
        Step::Left(Left::File(b"hello.txt", b"hello world")),
    ],
    &[Step::Runs(GONE_ON)],
    &[Step::Runs(BROUGHT_ANEW)],
    &[Step::Runs(BAD_CONTENT), Step::Runs(MAY_NOT), NO_FILE],
    &[Step::Runs(NO_ROUTE), NO_FILE, Step::Runs(RESUMED)],
    &[
        Step::Runs(NONE_TO_RESUME),
        Step::Runs(NO_COMMAND),
        Step::Runs(TOO_MANY),
        NO_FILE,
    ],
];

#[test]
fn items_are_brought_and_resumed(rt: HostRuntime) {
    for (number, steps) in CASES.iter().enumerate() {
        let played = play(rt.alloc(), &ListRuns, None, steps);
        assert_eq!(rt; played, Played::AsSaid, "in {number}");
    }
}
