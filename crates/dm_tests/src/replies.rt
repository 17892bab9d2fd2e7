// Every reply, every cause: the line that each ends with.
use crate::runs::WordRuns;
use dm_edge::{NetFault, WireFault};
use dm_run_bench::{Asked, Left, Outside, Played, Row, Step, Told, play};
use std::alloc::Global;

const WORDS: &[&[u8]] = &[
    b"get",
    b"--name",
    b"hello.txt",
    b"http://files.example/a/hello.txt",
];

const HELLO: &[u8] = b"HTTP/1.1 200 OK\r\nContent-Length: 11\r\n\r\nhello world";

const HELLO_HEAD: usize = 39;

const LINE: &[u8] = b"1 complete 11 11 hello.txt\n";

const CUT_IN_HEAD: &[u8] = b"interrupted 20 NETWORK_FAILED\n";

const CUT_IN_CONTENT: &[u8] = b"interrupted 38 SERVER_CONTENT_LENGTH_MISMATCH\n";

const CHUNKED: &[u8] =
    b"HTTP/1.1 200 OK\r\nTransfer-Encoding: chunked\r\n\r\n5\r\nhello\r\n6\r\n world\r\n0\r\n\r\n";

const CHUNKED_HEAD: usize = 47;

const ELSEWHERE: &[u8] =
    b"HTTP/1.1 302 Found\r\nLocation: http://other.example:81/b/c?d#e\r\nContent-Length: 0\r\n\r\n";

const BESIDE: &[u8] = b"HTTP/1.1 308 Permanent Redirect\r\nLocation: ../next\r\n\r\n";

const BAD_REQUEST: &[u8] = b"interrupted 24 NETWORK_INVALID_REQUEST\n";

const SERVER_FAILED: &[u8] = b"interrupted 30 SERVER_FAILED\n";

const BAD_CONTENT: &[u8] = b"interrupted 33 SERVER_BAD_CONTENT\n";

/// Brings `hello world`.
const BRINGS: Row = Row {
    words: WORDS,
    asked: Asked::Anyhow,
    out: LINE,
    files: &[(b"hello.txt", b"hello world")],
    ..Row::NOTHING
};

/// Is interrupted in some way.
const BREAKS: Row = Row {
    words: WORDS,
    asked: Asked::Anyhow,
    told: Told::More,
    status: 1,
    out: b"1 interrupted:",
    ..Row::NOTHING
};

const BY_BYTE: Outside = Outside {
    by_byte: true,
    ..Outside::SOUND
};

/// No file has the name.
const NO_NAME: Step = Step::Left(Left::Stands(b"hello.txt", false));

/// Whether a run comes to its row, and leaves the name absent.
fn is_interrupted(alloc: Global, row: &Row<'static>) -> bool {
    let steps = [Step::Runs(*row), NO_NAME];
    play(alloc, &WordRuns, None, &steps) == Played::AsSaid
}

const CUT_HELLO: Row = Row {
    streams: &[HELLO; 6],
    ..BREAKS
};

const CUT_CHUNKED: Row = Row {
    streams: &[CHUNKED; 6],
    ..BREAKS
};

/// The row where each connection ends behind so many bytes, of which so many are its head's.
fn cut_at(row: Row<'static>, end: usize, head: usize) -> Row<'static> {
    let outside = Outside {
        cut: Some(end),
        ..Outside::SOUND
    };
    let errs = if end < head {
        CUT_IN_HEAD
    } else {
        CUT_IN_CONTENT
    };
    Row {
        outside,
        errs,
        ..row
    }
}

/// The first of so many places where the streams don't end as ones that are cut off.
fn ends_anywhere(alloc: Global, row: Row<'static>, length: usize, head: usize) -> Option<usize> {
    for end in 0..length {
        if !is_interrupted(alloc, &cut_at(row, end, head)) {
            return Some(end);
        }
    }
    None
}

#[test]
fn a_stream_cut_anywhere_leaves_no_name(rt: HostRuntime) {
    let hello = ends_anywhere(rt.alloc(), CUT_HELLO, HELLO.len(), HELLO_HEAD);
    assert_eq!(rt; hello, None);
    let chunked = ends_anywhere(rt.alloc(), CUT_CHUNKED, CHUNKED.len(), CHUNKED_HEAD);
    assert_eq!(rt; chunked, None);
}

const TOO_LARGE: &[u8] = b"HTTP/1.1 200 OK\r\nContent-Length: 1099511627777\r\n\r\nhello";

const PACKED: &[u8] =
    b"HTTP/1.1 200 OK\r\nContent-Encoding: gzip\r\nContent-Length: 5\r\n\r\nhello";

const TO_TLS: &[u8] = b"HTTP/1.1 301 Moved\r\nLocation: https://x/\r\n\r\n";

const NOWHERE: &[u8] = b"HTTP/1.1 301 Moved\r\n\r\n";

const UNAVAILABLE: &[u8] = b"HTTP/1.1 503 Unavailable\r\n\r\n";

const UNAUTHORIZED: &[u8] = b"HTTP/1.1 401 Unauthorized\r\n\r\n";

const NOT_FOUND: &[u8] = b"HTTP/1.1 404 Not Found\r\n\r\n";

const NO_HEAD: &[u8] = b"no head\r\n\r\n";

const NOTHING_SAID: &[u8] = b"";

/// A reply that all connections give, and what is then told.
const REASONS: &[Row] = &[
    Row {
        streams: &[TOO_LARGE; 6],
        errs: b"interrupted 6 FILE_TOO_LARGE\n",
        ..BREAKS
    },
    Row {
        streams: &[PACKED; 6],
        errs: BAD_CONTENT,
        ..BREAKS
    },
    Row {
        streams: &[TO_TLS; 6],
        errs: BAD_REQUEST,
        ..BREAKS
    },
    Row {
        streams: &[NOWHERE; 6],
        errs: BAD_CONTENT,
        ..BREAKS
    },
    Row {
        streams: &[UNAVAILABLE; 6],
        errs: SERVER_FAILED,
        ..BREAKS
    },
    Row {
        streams: &[UNAUTHORIZED; 6],
        errs: b"interrupted 34 SERVER_UNAUTHORIZED\n",
        ..BREAKS
    },
    Row {
        streams: &[NOT_FOUND; 6],
        errs: BAD_CONTENT,
        ..BREAKS
    },
    Row {
        streams: &[NO_HEAD; 6],
        errs: BAD_CONTENT,
        ..BREAKS
    },
    Row {
        streams: &[NOTHING_SAID; 6],
        errs: CUT_IN_HEAD,
        ..BREAKS
    },
];

#[test]
fn each_reply_has_its_reason(rt: HostRuntime) {
    for (place, row) in REASONS.iter().enumerate() {
        assert!(rt; is_interrupted(rt.alloc(), row), "in {place}");
    }
}

const TWELVE: [&[u8]; 12] = [BESIDE; 12];

/// Ten redirects, and what they lead to.
const ELEVENTH: [&[u8]; 12] = [
    BESIDE, BESIDE, BESIDE, BESIDE, BESIDE, BESIDE, BESIDE, BESIDE, BESIDE, BESIDE, HELLO, BESIDE,
];

/// What single runs come to.
const ONCE: &[Row] = &[
    // chunks, byte by byte and at once
    Row {
        streams: &[CHUNKED],
        outside: BY_BYTE,
        ..BRINGS
    },
    Row {
        streams: &[CHUNKED],
        ..BRINGS
    },
    // a content goes on to the end of the connection
    Row {
        streams: &[b"HTTP/1.1 200 OK\r\n\r\nhello"],
        out: b"1 complete 5 5 hello.txt\n",
        files: &[(b"hello.txt", b"hello")],
        ..BRINGS
    },
    // redirects are followed
    Row {
        streams: &[ELSEWHERE, BESIDE, CHUNKED],
        ..BRINGS
    },
    Row {
        streams: &[ELSEWHERE, BESIDE, HELLO],
        asked: Asked::Fronts,
        sent: &[
            b"GET /a/hello.txt HTTP/1.1\r\nHost: files.example\r\n",
            b"GET /b/c?d HTTP/1.1\r\nHost: other.example:81\r\n",
            b"GET /next HTTP/1.1\r\nHost: other.example:81\r\n",
        ],
        ..BRINGS
    },
    // ten of them are, and no more
    Row {
        streams: &TWELVE,
        asked: Asked::Times(11),
        told: Told::Exactly,
        out: b"1 interrupted:24 0 ? -\n",
        errs: BAD_REQUEST,
        ..BREAKS
    },
    Row {
        streams: &ELEVENTH,
        ..BRINGS
    },
    // a failing call of the net, where the next connection is sound
    Row {
        outside: Outside {
            connect: Some(NetFault::Failed),
            ..Outside::SOUND
        },
        ..FAILED
    },
    Row {
        streams: &[HELLO],
        outside: Outside {
            connect: Some(NetFault::NoRoute),
            ..Outside::SOUND
        },
        told: Told::Exactly,
        out: b"1 interrupted:22 0 ? -\n",
        errs: b"interrupted 22 NETWORK_DISCONNECTED\n",
        ..BREAKS
    },
    Row {
        streams: &[HELLO],
        outside: Outside {
            connect: Some(NetFault::Timeout),
            ..Outside::SOUND
        },
        ..BRINGS
    },
    // the send and the receive
    Row {
        outside: Outside {
            wire: Some((0, WireFault::Failed)),
            ..Outside::SOUND
        },
        ..FAILED
    },
    Row {
        outside: Outside {
            wire: Some((1, WireFault::Failed)),
            ..Outside::SOUND
        },
        ..FAILED
    },
    // a write fails
    Row {
        streams: &[HELLO],
        outside: Outside {
            out: Some(0),
            ..Outside::SOUND
        },
        status: 7,
        out: b"",
        files: &[],
        ..BRINGS
    },
    Row {
        streams: &[b"HTTP/1.1 404 Not Found\r\n\r\n"],
        outside: Outside {
            errs: Some(0),
            ..Outside::SOUND
        },
        told: Told::Exactly,
        status: 7,
        out: b"1 interrupted:33 0 ? -\n",
        ..BREAKS
    },
    Row {
        streams: &[HELLO],
        outside: Outside {
            errs: Some(0),
            ..Outside::SOUND
        },
        ..BRINGS
    },
];

const FAILED: Row = Row {
    streams: &[HELLO],
    told: Told::Exactly,
    out: b"1 interrupted:20 0 ? -\n",
    errs: CUT_IN_HEAD,
    ..BREAKS
};

#[test]
fn a_reply_or_a_fault_comes_to_its_line(rt: HostRuntime) {
    for (place, row) in ONCE.iter().enumerate() {
        let played = play(rt.alloc(), &WordRuns, None, &[Step::Runs(*row)]);
        assert_eq!(rt; played, Played::AsSaid, "in {place}");
    }
}
