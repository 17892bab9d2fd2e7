// Worked rows: what a get and what follows it come to.
use crate::runs::WordRuns;
use dm_edge::{NetFault, WireFault};
use dm_run_bench::{Outside, Played, Row, Step, play, said};
use std::alloc::Global;

/// `hello world` at once, with no tag.
const WHOLE: &[u8] = b"HTTP/1.1 200 OK\r\nContent-Length: 11\r\n\r\nhello world";

const EMPTY: &[u8] = b"HTTP/1.1 200 OK\r\nContent-Length: 0\r\n\r\n";

/// `hello world` under the tag `"a"`, of which `hello` comes, and the rest of it.
const CUT: &[u8] = b"HTTP/1.1 200 OK\r\nETag: \"a\"\r\nContent-Length: 11\r\n\r\nhello";

const REST: &[u8] =
    b"HTTP/1.1 206 Partial Content\r\nETag: \"a\"\r\nContent-Range: bytes 5-10/11\r\nContent-Length: 6\r\n\r\n world";

/// Another part than the one that was asked for.
const OTHER_PART: &[u8] =
    b"HTTP/1.1 206 Partial Content\r\nETag: \"a\"\r\nContent-Range: bytes 4-10/11\r\nContent-Length: 7\r\n\r\no world";

const WEAK: &[u8] = b"HTTP/1.1 200 OK\r\nETag: W/\"a\"\r\nContent-Length: 11\r\n\r\nhello";

/// Another content.
const OTHER: &[u8] = b"HTTP/1.1 200 OK\r\nETag: \"b\"\r\nContent-Length: 11\r\n\r\nHELLO WORLD";

/// 60 of 100 bytes, and then a shorter content.
const SIXTY: &[u8] =
    b"HTTP/1.1 200 OK\r\nETag: \"a\"\r\nContent-Length: 100\r\n\r\n012345678901234567890123456789012345678901234567890123456789";

const FORTY: &[u8] =
    b"HTTP/1.1 200 OK\r\nETag: \"b\"\r\nContent-Length: 40\r\n\r\nabcdefghijabcdefghijabcdefghijabcdefghij";

const NAMED: &[u8] =
    b"HTTP/1.1 200 OK\r\nContent-Disposition: attachment; filename=\"a.txt\"; filename*=UTF-8''%e2%82%ac.txt\r\nContent-Length: 0\r\n\r\n";

const NAMED_TWICE: &[u8] =
    b"HTTP/1.1 200 OK\r\nContent-Disposition: attachment; filename=a; FILENAME=b\r\nContent-Length: 0\r\n\r\n";

const ZIPPED: &[u8] =
    b"HTTP/1.1 200 OK\r\nContent-Encoding: gzip\r\nContent-Length: 5\r\n\r\nhello";

const LARGEST: &[u8] =
    b"HTTP/1.1 200 OK\r\nETag: \"a\"\r\nContent-Length: 1099511627776\r\n\r\nhello";

const GET: &[&[u8]] = &[
    b"get",
    b"--name",
    b"hello.txt",
    b"http://files.example/a/hello.txt",
];

const SHOW: &[&[u8]] = &[b"show", b"1"];

const RESUME: &[&[u8]] = &[b"resume", b"1"];

const BY_WORD: &[&[u8]] = &[
    b"get",
    b"--word",
    b"w1",
    b"http://files.example/a/hello.txt",
];

/// How a request without a range ends, and those for the rest.
const PLAIN: &[u8] = b"Accept-Encoding: identity\r\nConnection: close\r\n\r\n";

const FROM_FIVE: &[u8] = b"Connection: close\r\nRange: bytes=5-10\r\nIf-Range: \"a\"\r\n\r\n";

const FROM_SIXTY: &[u8] = b"Connection: close\r\nRange: bytes=60-99\r\nIf-Range: \"a\"\r\n\r\n";

const LINE: &[u8] = b"1 complete 11 11 hello.txt\n";

const HELLO: &[(&[u8], &[u8])] = &[(b"hello.txt", b"hello world")];

/// What brings a file under the name `hello.txt`.
const BRINGS: Row = Row {
    words: GET,
    out: LINE,
    files: HELLO,
    ..Row::NOTHING
};

const SHOWN: Row = Row {
    words: SHOW,
    ..Row::NOTHING
};

/// One that is broken off.
const BREAKS: Row = Row {
    words: GET,
    status: 1,
    ..Row::NOTHING
};

// Each case begins with an empty disk.

/// One reply, or a content that is gone on with.
const CONTINUED: &[&[Row]] = &[
    // one reply
    &[
        Row {
            streams: &[WHOLE],
            sent: &[
                b"GET /a/hello.txt HTTP/1.1\r\nHost: files.example\r\nUser-Agent: dm/1\r\nAccept: */*\r\nAccept-Encoding: identity\r\nConnection: close\r\n\r\n",
            ],
            ..BRINGS
        },
        Row {
            out: b"id 1\nstate complete\nword -\naddress http://files.example/a/hello.txt\nlast http://files.example/a/hello.txt\nname hello.txt\ncovered 11\ntotal 11\nepoch 1\nattempts 1\nautomatic 0\nmodified -\nsha256 b94d27b9934d3e08a52e52d7da7dabfac484efe37a5380ee9088f7ace2efcde9\n",
            ..SHOWN
        },
    ],
    // an empty content
    &[
        Row {
            streams: &[EMPTY],
            sent: &[PLAIN],
            out: b"1 complete 0 0 hello.txt\n",
            files: &[(b"hello.txt", b"")],
            ..BRINGS
        },
        Row {
            out: b"id 1\nstate complete\nword -\naddress http://files.example/a/hello.txt\nlast http://files.example/a/hello.txt\nname hello.txt\ncovered 0\ntotal 0\nepoch 1\nattempts 1\nautomatic 0\nmodified -\nsha256 e3b0c44298fc1c149afbf4c8996fb92427ae41e4649b934ca495991b7852b855\n",
            ..SHOWN
        },
    ],
    // the rest is asked for under the tag
    &[
        Row {
            streams: &[CUT, REST],
            sent: &[PLAIN, FROM_FIVE],
            ..BRINGS
        },
        Row {
            out: b"id 1\nstate complete\nword -\naddress http://files.example/a/hello.txt\nlast http://files.example/a/hello.txt\nname hello.txt\ncovered 11\ntotal 11\nepoch 1\nattempts 2\nautomatic 1\nmodified -\nsha256 b94d27b9934d3e08a52e52d7da7dabfac484efe37a5380ee9088f7ace2efcde9\n",
            ..SHOWN
        },
    ],
    // a weak tag: all is asked for again
    &[
        Row {
            streams: &[WEAK, WHOLE],
            sent: &[PLAIN, PLAIN],
            ..BRINGS
        },
        Row {
            out: b"id 1\nstate complete\nword -\naddress http://files.example/a/hello.txt\nlast http://files.example/a/hello.txt\nname hello.txt\ncovered 11\ntotal 11\nepoch 2\nattempts 2\nautomatic 1\nmodified -\nsha256 b94d27b9934d3e08a52e52d7da7dabfac484efe37a5380ee9088f7ace2efcde9\n",
            ..SHOWN
        },
    ],
    // another part than the one that was asked for
    &[Row {
        streams: &[CUT, OTHER_PART, WHOLE],
        sent: &[PLAIN, FROM_FIVE, PLAIN],
        ..BRINGS
    }],
    // another content
    &[
        Row {
            streams: &[CUT, OTHER, OTHER],
            sent: &[PLAIN, FROM_FIVE, PLAIN],
            files: &[(b"hello.txt", b"HELLO WORLD")],
            ..BRINGS
        },
        Row {
            out: b"id 1\nstate complete\nword -\naddress http://files.example/a/hello.txt\nlast http://files.example/a/hello.txt\nname hello.txt\ncovered 11\ntotal 11\nepoch 2\nattempts 3\nautomatic 2\nmodified -\nsha256 787ec76dcafd20c1908eb0936a12f91edd105ab5cd7ecc2b1ae2032648345dff\n",
            ..SHOWN
        },
    ],
    // six attempts, and no more
    &[
        Row {
            streams: &[WHOLE, WHOLE, WHOLE, WHOLE, WHOLE, WHOLE, WHOLE],
            outside: Outside {
                wire: Some((1, WireFault::Timeout)),
                ..Outside::SOUND
            },
            sent: &[PLAIN, PLAIN, PLAIN, PLAIN, PLAIN, PLAIN],
            out: b"1 interrupted:21 0 ? -\n",
            errs: b"interrupted 21 NETWORK_TIMEOUT\n",
            ..BREAKS
        },
        Row {
            out: b"id 1\nstate interrupted:21\nword -\naddress http://files.example/a/hello.txt\nlast -\nname -\ncovered 0\ntotal -\nepoch 6\nattempts 6\nautomatic 5\nmodified -\nsha256 -\n",
            ..SHOWN
        },
    ],
];

/// What a single reply comes to.
const ONCE: &[&[Row]] = &[
    // the name that the server gives
    &[Row {
        words: &[b"get", b"http://files.example/a/hello.txt"],
        streams: &[NAMED],
        sent: &[PLAIN],
        out: b"1 complete 0 0 \xe2\x82\xac.txt\n",
        files: &[(b"\xe2\x82\xac.txt", b"")],
        ..Row::NOTHING
    }],
    &[Row {
        words: &[b"get", b"http://files.example/a/hello.txt"],
        streams: &[NAMED_TWICE],
        sent: &[PLAIN],
        out: b"1 complete 0 0 hello.txt\n",
        ..Row::NOTHING
    }],
    // a content that got shorter
    &[Row {
        streams: &[SIXTY, FORTY, FORTY],
        sent: &[PLAIN, FROM_SIXTY, PLAIN],
        out: b"1 complete 40 40 hello.txt\n",
        files: &[(b"hello.txt", b"abcdefghijabcdefghijabcdefghijabcdefghij")],
        ..BRINGS
    }],
    // the largest content is described
    &[Row {
        streams: &[LARGEST],
        sent: &[PLAIN],
        out: b"1 interrupted:22 5 1099511627776 hello.txt\n",
        errs: b"interrupted 22 NETWORK_DISCONNECTED\n",
        ..BREAKS
    }],
    // a reply that no attempt can use, and an item that is gone on with no more
    &[
        Row {
            streams: &[ZIPPED],
            sent: &[PLAIN],
            out: b"1 interrupted:33 0 ? -\n",
            errs: b"interrupted 33 SERVER_BAD_CONTENT\n",
            ..BREAKS
        },
        Row {
            words: RESUME,
            status: 4,
            errs: b"state interrupted:33\n",
            ..Row::NOTHING
        },
    ],
    // another sum is stated
    &[Row {
        words: &[
            b"get",
            b"--sha256",
            b"0000000000000000000000000000000000000000000000000000000000000000",
            b"http://files.example/a/hello.txt",
        ],
        streams: &[WHOLE, WHOLE, WHOLE, WHOLE, WHOLE, WHOLE, WHOLE],
        sent: &[PLAIN, PLAIN, PLAIN, PLAIN, PLAIN, PLAIN],
        out: b"1 interrupted:14 11 11 hello.txt\n",
        errs: b"interrupted 14 FILE_HASH_MISMATCH\n",
        files: &[(b"Unconfirmed 1-6.crdownload", b"hello world")],
        ..BREAKS
    }],
];

/// What the user asks behind it.
const WORDS: &[&[Row]] = &[
    // no server, and then the user asks again
    &[
        Row {
            outside: Outside {
                connect: Some(NetFault::Refused),
                ..Outside::SOUND
            },
            out: b"1 interrupted:23 0 ? -\n",
            errs: b"interrupted 23 NETWORK_SERVER_DOWN\n",
            ..BREAKS
        },
        Row {
            words: &[b"report"],
            out: b"waiting 0\nrunning 0\npaused 0\nfinishing 0\ncomplete 0\ncancelled 0\ninterrupted 1\nreason 23 1\nbytes 0\n",
            ..Row::NOTHING
        },
        Row {
            words: RESUME,
            streams: &[WHOLE],
            sent: &[PLAIN],
            ..BRINGS
        },
        Row {
            words: RESUME,
            status: 4,
            errs: b"state complete\n",
            ..Row::NOTHING
        },
        Row {
            words: &[b"export"],
            out: b"id,word,address,name,state,reason,total,sha256\n1,,http://files.example/a/hello.txt,hello.txt,complete,,11,b94d27b9934d3e08a52e52d7da7dabfac484efe37a5380ee9088f7ace2efcde9\n",
            ..Row::NOTHING
        },
    ],
    // an item with the word is brought once
    &[
        Row {
            words: &[
                b"add",
                b"--word",
                b"w1",
                b"http://files.example/a/hello.txt",
            ],
            out: b"1 waiting 0 ? -\n",
            ..Row::NOTHING
        },
        Row {
            words: &[b"pause", b"1"],
            out: b"1 paused 0 ? -\n",
            ..Row::NOTHING
        },
        Row {
            words: BY_WORD,
            streams: &[WHOLE],
            sent: &[PLAIN],
            ..BRINGS
        },
        Row {
            words: BY_WORD,
            ..BRINGS
        },
        Row {
            words: &[b"get", b"--word", b"w1", b"http://files.example/b"],
            status: 10,
            errs: b"word of item 1\n",
            ..Row::NOTHING
        },
    ],
    // a cancelled item is never brought
    &[
        Row {
            words: &[
                b"add",
                b"--word",
                b"w1",
                b"http://files.example/a/hello.txt",
            ],
            out: b"1 waiting 0 ? -\n",
            ..Row::NOTHING
        },
        Row {
            words: &[b"cancel", b"1"],
            out: b"1 cancelled 0 ? -\n",
            ..Row::NOTHING
        },
        Row {
            words: BY_WORD,
            status: 4,
            errs: b"state cancelled\n",
            ..Row::NOTHING
        },
    ],
    &[Row {
        words: &[b"resume", b"9"],
        status: 3,
        errs: b"no item 9\n",
        ..Row::NOTHING
    }],
];

/// The number of the first case that comes to something else.
fn first_case(alloc: Global, cases: &[&[Row]]) -> Option<usize> {
    for (number, rows) in cases.iter().enumerate() {
        if said(alloc, &WordRuns, rows) != rows.len() {
            return Some(number);
        }
    }
    None
}

#[test]
fn a_content_is_gone_on_with(rt: HostRuntime) {
    assert_eq!(rt; first_case(rt.alloc(), CONTINUED), None);
}

#[test]
fn a_reply_comes_to_what_it_says(rt: HostRuntime) {
    assert_eq!(rt; first_case(rt.alloc(), ONCE), None);
}

#[test]
fn a_user_asks_again(rt: HostRuntime) {
    assert_eq!(rt; first_case(rt.alloc(), WORDS), None);
}

const FIRST_FORM: Row = Row {
    words: &[b"get", b"--name", b"report.pdf", b"http://h/a"],
    streams: &[WHOLE],
    sent: &[PLAIN],
    out: b"1 complete 11 11 report (1).pdf\n",
    files: &[(b"Report.PDF", b""), (b"report (1).pdf", b"hello world")],
    ..Row::NOTHING
};

const NO_FORM: Row = Row {
    words: &[b"get", b"--name", b"report.pdf", b"http://h/a"],
    streams: &[WHOLE],
    sent: &[PLAIN],
    status: 1,
    out: b"2 interrupted:1 0 ? -\n",
    errs: b"interrupted 1 FILE_FAILED\n",
    ..Row::NOTHING
};

#[test]
fn a_name_that_is_taken_gets_a_number(rt: HostRuntime) {
    let steps = [
        Step::File(b"Report.PDF", b""),
        Step::Runs(FIRST_FORM),
        Step::Forms(1),
        Step::Runs(NO_FORM),
    ];
    assert_eq!(rt; play(rt.alloc(), &WordRuns, None, &steps), Played::AsSaid);
}
