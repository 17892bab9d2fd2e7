// What a stop or a fault at each call of the disk leaves of a get.
use crate::runs::WordRuns;
use dm_run_bench::{Asked, Behind, Broken, Left, Played, Row, Step, Told, play_broken};
use dm_types::DiskKind;
use std::alloc::Global;

const STREAM: &[u8] = b"HTTP/1.1 200 OK\r\nContent-Length: 11\r\n\r\nhello world";

const LINE: &[u8] = b"1 complete 11 11 hello.txt\n";

const HELLO: &[(&[u8], &[u8])] = &[(b"hello.txt", b"hello world")];

/// A get that ends with status 0.
const GET: Row = Row {
    words: &[
        b"get",
        b"--word",
        b"w1",
        b"--name",
        b"hello.txt",
        b"http://files.example/a/hello.txt",
    ],
    streams: &[STREAM],
    asked: Asked::Anyhow,
    told: Told::Anyhow,
    ..Row::NOTHING
};

/// One that brings the file, or shows that it was brought.
const BRINGS: Row = Row {
    told: Told::Exactly,
    out: LINE,
    files: HELLO,
    ..GET
};

/// The name is absent or holds the whole content.
const SAFE: Step = Step::Left(Left::NoneOr(b"hello.txt", b"hello world"));

/// Behind a stop the name is safe, and a get completes it.
const COMPLETES: &[Step] = &[SAFE, Step::Runs(BRINGS)];

/// The first stop behind which the name isn't safe, or a get doesn't complete it.
fn first_bad(alloc: Global) -> Option<u64> {
    for calls in 0..200 {
        let broken = Broken {
            failing: None,
            stop_after: Some(calls),
            row: GET,
            rows: &[GET],
            behind: Behind::Images,
            steps: COMPLETES,
        };
        let (ended, played) = play_broken(alloc, &WordRuns, &broken);
        if played != Played::AsSaid {
            return Some(calls);
        }
        if ended.is_some() {
            return None;
        }
    }
    Some(200)
}

#[test]
fn a_stop_at_each_call_leaves_the_name_safe(rt: HostRuntime) {
    assert_eq!(rt; first_bad(rt.alloc()), None);
}

const STAYS_SAFE: &[Step] = &[SAFE];

/// How a fault is told: it met the sweep, or is the reason of an interruption, or one of the disk.
const TOLD: &[Row] = &[
    Row {
        told: Told::Out,
        out: LINE,
        ..GET
    },
    Row {
        told: Told::Errs,
        status: 1,
        errs: b"interrupted 3 FILE_NO_SPACE\n",
        ..GET
    },
    Row {
        told: Told::Errs,
        status: 6,
        errs: b"disk no-space\n",
        ..GET
    },
];

/// The first call whose fault isn't told, or behind which the name isn't safe. The images have no fault left
/// that a look could meet.
fn first_untold(alloc: Global) -> Option<u64> {
    for call in 0..60 {
        let broken = Broken {
            failing: Some((call, DiskKind::NoSpace)),
            stop_after: None,
            row: GET,
            rows: TOLD,
            behind: Behind::Images,
            steps: STAYS_SAFE,
        };
        let (told, played) = play_broken(alloc, &WordRuns, &broken);
        if told.is_none() || played != Played::AsSaid {
            return Some(call);
        }
    }
    None
}

#[test]
fn each_failing_call_is_told(rt: HostRuntime) {
    assert_eq!(rt; first_untold(rt.alloc()), None);
}

/// The disk was full before a byte was saved.
const FULL: Row = Row {
    told: Told::Out,
    status: 1,
    out: b"1 interrupted:3 0 11 hello.txt\n",
    ..GET
};

const RESUMED: &[Step] = &[
    Step::Runs(Row {
        words: &[b"resume", b"1"],
        streams: &[STREAM],
        sent: &[b"Accept-Encoding: identity\r\nConnection: close\r\n\r\n"],
        out: LINE,
        files: HELLO,
        ..Row::NOTHING
    }),
    Step::Runs(Row {
        words: &[b"show", b"1"],
        out: b"id 1\nstate complete\nword w1\naddress http://files.example/a/hello.txt\nlast http://files.example/a/hello.txt\nname hello.txt\ncovered 11\ntotal 11\nepoch 2\nattempts 2\nautomatic 0\nmodified -\nsha256 b94d27b9934d3e08a52e52d7da7dabfac484efe37a5380ee9088f7ace2efcde9\n",
        ..Row::NOTHING
    }),
];

#[test]
fn a_full_disk_is_gone_on_with(rt: HostRuntime) {
    let mut found = false;
    for call in 0..60 {
        let broken = Broken {
            failing: Some((call, DiskKind::NoSpace)),
            stop_after: None,
            row: GET,
            rows: &[FULL],
            behind: Behind::Disk,
            steps: RESUMED,
        };
        let (full, played) = play_broken(rt.alloc(), &WordRuns, &broken);
        if full.is_some() {
            assert_eq!(rt; played, Played::AsSaid, "call {call}");
            found = true;
        }
    }
    assert!(rt; found);
}
