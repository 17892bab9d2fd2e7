// Worked runs of the service: what is replied, what the journal then holds, and how the run ends.
use crate::asks::{
    A_IS_CANCELLED, A_IS_PAUSED, A_LISTED, A_WAITS, ADD_A, ADD_B, ADD_OTHER, B_WAITS, BOTH_LISTED,
    CANCEL_1, LIST, NO_ITEM, NO_ITEMS, PAUSE_1, PAUSED_A_LISTED, REMOVE_1, REMOVE_2, REPORT,
    RESUME_1, SHOW_1, STOP, STOPPING,
};
use crate::bench::{Outside, Run, Step, hold, make_outside, played, tools};
use crate::told::{Head, Told, Turn, conns, first_other};
use dm_disk::MemoryDisk;
use dm_hist::MemoryKeeper;
use dm_run_bench::{Left, stands};
use dm_session::Session;
use dm_types::NoMemory;
use std::alloc::Global;

/// The journal with the first item: a Reopened and an Added.
pub(crate) const A_ALONE: &[u8] =
    b"DMJRNL1\n\x01\0\0\0\x0d\x0d\0\0\0\x01\0\0\0\0\0\0\0\0\x01\0\0\0\x20\x01\0\0\0\x01\0\x02w1\0\x0ahttp://h/a\0\0\0\0\0\0\0\0\0\0\0\0";

/// The same and two more turns: both items, of which the first is paused and the second removed.
const A_PAUSED: &[u8] =
    b"DMJRNL1\n\x01\0\0\0\x0d\x0d\0\0\0\x01\0\0\0\0\0\0\0\0\x01\0\0\0\x20\x01\0\0\0\x01\0\x02w1\0\x0ahttp://h/a\0\0\0\0\0\0\0\0\0\0\0\x01\0\0\0\x20\x01\0\0\0\x02\0\x02w2\0\x0ahttp://h/b\0\0\0\0\0\0\0\0\0\0\0\x01\0\0\0\x05\x06\0\0\0\x01\x01\0\0\0\x05\x0b\0\0\0\x02\0";

/// The list is opened at 1000 and the first item added at 2000. The next connection, which is cut, takes a moment too, and
/// the second item is added at 4000. Then the first one is cancelled, and moves to the history.
const AT_MOMENTS: &[u8] =
    b"DMJRNL1\n\x01\0\0\0\x0d\x0d\0\0\0\x01\0\0\0\0\0\0\x03\xe8\x01\0\0\0\x20\x01\0\0\0\x01\0\x02w1\0\x0ahttp://h/a\0\0\0\0\0\0\0\0\0\x07\xd0\x01\0\0\0\x20\x01\0\0\0\x02\0\x02w2\0\x0ahttp://h/b\0\0\0\0\0\0\0\0\0\x0f\xa0\x01\0\0\0\x05\x07\0\0\0\x01\x01\0\0\0\x05\x0c\0\0\0\x01\0";

/// The reply to a request that adds the first item, byte by byte.
const FIRST_REPLY: &[u8] =
    b"HTTP/1.1 200 OK\r\nContent-Type: application/json\r\nContent-Length: 136\r\nConnection: close\r\n\r\n{\"address\":\"http://h/a\",\"autos\":0,\"covered\":0,\"id\":1,\"name\":null,\"phase\":\"waiting\",\"reason\":null,\"sha256\":null,\"total\":null,\"word\":\"w1\"}";

const SERVE: Run = Run::SERVE;

const A_IS_ADDED: Turn = (ADD_A, Told::Reply(Head::Ok, A_WAITS));

const B_IS_ADDED: Turn = (ADD_B, Told::Reply(Head::Ok, B_WAITS));

const NONE_LISTED: Turn = (LIST, Told::Reply(Head::Ok, NO_ITEMS));

const A_IS_LISTED: Turn = (LIST, Told::Reply(Head::Ok, A_LISTED));

const STOPS: Turn = (STOP, Told::Reply(Head::Ok, STOPPING));

const ONE_PAUSED: &str =
    "waiting 0\nrunning 0\npaused 1\nfinishing 0\ncomplete 0\ncancelled 0\ninterrupted 0\nbytes 0\n";

/// A word twice with one address, and then with another.
const TWICE: &[Turn] = &[
    (ADD_A, Told::Bytes(FIRST_REPLY)),
    (ADD_A, Told::Bytes(FIRST_REPLY)),
    (
        ADD_OTHER,
        Told::Reply(Head::Conflict, "{\"error\":\"word\",\"item\":1}"),
    ),
    (
        b"GET /items?after=0&limit=1 HTTP/1.1\r\nHost: a\r\n\r\n",
        Told::Reply(Head::Ok, A_LISTED),
    ),
];

/// Both are added, one is paused and one removed.
const PAUSED: &[Turn] = &[
    A_IS_ADDED,
    B_IS_ADDED,
    (PAUSE_1, Told::Reply(Head::Ok, A_IS_PAUSED)),
    (REMOVE_2, Told::Reply(Head::Ok, "{\"removed\":2}")),
];

const PAUSED_SHOWN: &[Turn] = &[
    (REPORT, Told::Reply(Head::Text, ONE_PAUSED)),
    (LIST, Told::Reply(Head::Ok, PAUSED_A_LISTED)),
];

/// Each reply shows the item as the request left it, and the next request finds it so.
const IN_TURN: &[Turn] = &[
    NONE_LISTED,
    (SHOW_1, Told::Reply(Head::NotFound, NO_ITEM)),
    A_IS_ADDED,
    (SHOW_1, Told::Reply(Head::Ok, A_WAITS)),
    (PAUSE_1, Told::Reply(Head::Ok, A_IS_PAUSED)),
    (PAUSE_1, Told::Reply(Head::Ok, A_IS_PAUSED)),
    (SHOW_1, Told::Reply(Head::Ok, A_IS_PAUSED)),
    (RESUME_1, Told::Reply(Head::Ok, A_WAITS)),
    (RESUME_1, Told::Reply(Head::Ok, A_WAITS)),
    A_IS_LISTED,
    (CANCEL_1, Told::Reply(Head::Ok, A_IS_CANCELLED)),
    (CANCEL_1, Told::Reply(Head::Ok, A_IS_CANCELLED)),
    (SHOW_1, Told::Reply(Head::Ok, A_IS_CANCELLED)),
    (ADD_A, Told::Reply(Head::Ok, A_IS_CANCELLED)),
    (
        RESUME_1,
        Told::Reply(
            Head::Conflict,
            "{\"error\":\"phase\",\"phase\":\"cancelled\"}",
        ),
    ),
    (REMOVE_1, Told::Reply(Head::Ok, "{\"removed\":1}")),
    (REMOVE_1, Told::Reply(Head::NotFound, NO_ITEM)),
    B_IS_ADDED,
];

const MOMENTS: &[Turn] = &[
    A_IS_ADDED,
    (b"POST /items HT", Told::Cut),
    B_IS_ADDED,
    (CANCEL_1, Told::Reply(Head::Ok, A_IS_CANCELLED)),
    (
        b"POST /archive HTTP/1.1\r\nHost: a\r\n\r\n",
        Told::Reply(Head::Ok, "{\"archived\":1}"),
    ),
    (
        b"GET /history HTTP/1.1\r\nHost: a\r\n\r\n",
        Told::Reply(
            Head::Ok,
            "{\"rows\":[{\"address\":\"http://h/a\",\"at\":2000,\"id\":1,\"name\":null,\"phase\":\"cancelled\",\"sha256\":null,\"total\":null,\"word\":\"w1\"}]}",
        ),
    ),
];

/// Runs on one disk, one after another, and what they leave.
const CASES: [&[Step]; 5] = [
    &[
        Step::Serves(Run {
            turns: TWICE,
            ..SERVE
        }),
        Step::Left(Left::Journal(A_ALONE)),
    ],
    // With nothing running the end records nothing.
    &[
        Step::Serves(Run {
            turns: PAUSED,
            ..SERVE
        }),
        Step::Left(Left::Journal(A_PAUSED)),
        Step::Serves(Run {
            turns: PAUSED_SHOWN,
            ..SERVE
        }),
        Step::Left(Left::Length(Some(139))),
        Step::Serves(SERVE),
        Step::Left(Left::Length(Some(157))),
    ],
    &[
        Step::Serves(Run {
            turns: IN_TURN,
            ..SERVE
        }),
        Step::Serves(Run {
            turns: &[(
                LIST,
                Told::Reply(
                    Head::Ok,
                    "{\"items\":[{\"address\":\"http://h/b\",\"autos\":0,\"covered\":0,\"id\":2,\"name\":null,\"phase\":\"waiting\",\"reason\":null,\"sha256\":null,\"total\":null,\"word\":\"w2\"}]}",
                ),
            )],
            ..SERVE
        }),
    ],
    &[
        Step::Serves(Run {
            turns: MOMENTS,
            moments: [1000, 2000, 3000, 4000, 5000, 6000, 7000, 8000],
            ..SERVE
        }),
        Step::Left(Left::Journal(AT_MOMENTS)),
    ],
    &[
        Step::Serves(Run {
            turns: &[A_IS_ADDED, B_IS_ADDED],
            ..SERVE
        }),
        Step::Serves(Run {
            turns: &[(LIST, Told::Reply(Head::Ok, BOTH_LISTED))],
            ..SERVE
        }),
    ],
];

/// How a run ends: by its count, by a reply, where no connection is accepted, where nothing can be printed, and by its words.
const ENDS: [&[Step]; 9] = [
    &[Step::Serves(Run {
        turns: &[A_IS_ADDED],
        left: &[NONE_LISTED],
        ..SERVE
    })],
    &[Step::Serves(Run {
        left: &[A_IS_ADDED],
        requests: Some(0),
        ..SERVE
    })],
    &[Step::Serves(Run {
        turns: &[A_IS_ADDED, STOPS],
        left: &[NONE_LISTED],
        requests: Some(u32::MAX),
        ..SERVE
    })],
    &[Step::Serves(Run {
        turns: &[STOPS],
        ..SERVE
    })],
    // A reply that isn't written doesn't end it.
    &[Step::Serves(Run {
        turns: &[(STOP, Told::Unwritten), NONE_LISTED],
        ..SERVE
    })],
    &[Step::Serves(Run {
        turns: &[A_IS_ADDED, A_IS_LISTED],
        requests: Some(3),
        status: 12,
        errs: b"accept failed\n",
        ..SERVE
    })],
    &[
        Step::Serves(Run {
            turns: &[A_IS_ADDED],
            left: &[NONE_LISTED],
            requests: Some(2),
            refused: &[1],
            status: 12,
            errs: b"accept failed\n",
            ..SERVE
        }),
        Step::Left(Left::Journal(A_ALONE)),
    ],
    &[Step::Serves(Run {
        requests: Some(1),
        room: 0,
        status: 7,
        ..SERVE
    })],
    &[
        Step::Serves(Run {
            words: &[b"serve", b"--workers", b"1"],
            left: &[NONE_LISTED],
            requests: Some(1),
            status: 2,
            errs: b"bad words\n",
            ..SERVE
        }),
        Step::Serves(Run {
            words: &[b"list"],
            left: &[NONE_LISTED],
            requests: Some(1),
            status: 2,
            errs: b"bad words\n",
            ..SERVE
        }),
        Step::Left(Left::Length(None)),
        Step::Serves(Run {
            words: &[b"serve", b"--port", b"9000"],
            turns: &[NONE_LISTED],
            ..SERVE
        }),
    ],
];

#[test]
fn requests_are_answered_in_turn(rt: HostRuntime) {
    for (number, steps) in CASES.iter().enumerate() {
        let other = played(rt.alloc(), None, &[], steps);
        assert_eq!(rt; other, None, "in {number}");
    }
}

#[test]
fn a_run_ends(rt: HostRuntime) {
    for (number, steps) in ENDS.iter().enumerate() {
        let other = played(rt.alloc(), None, &[], steps);
        assert_eq!(rt; other, None, "in {number}");
    }
}

/// The clock's moments behind the opening's.
const BEHIND: Run = Run {
    moments: [2000, 3000, 4000, 5000, 6000, 7000, 8000, 9000],
    ..SERVE
};

fn outside_of_moments(alloc: Global) -> Result<Outside, NoMemory> {
    let coming = conns(alloc, MOMENTS)?;
    make_outside(alloc, &BEHIND, coming)
}

/// The status of a session, the first turn that goes otherwise, and whether the journal is right.
fn held(
    alloc: Global,
    outside: &mut Outside,
    disk: MemoryDisk,
    keeper: &mut MemoryKeeper,
) -> (u8, Option<usize>, bool) {
    let Session { ending, disk } = hold(alloc, outside, disk, keeper, 1000, 6);
    let mut disk = disk;
    let is_left = stands(alloc, &mut disk, Left::Journal(AT_MOMENTS));
    let other = first_other(alloc, &outside.conns, MOMENTS);
    (ending.status(), other, is_left)
}

fn session(alloc: Global) -> Option<(u8, Option<usize>, bool)> {
    match tools(alloc, None, &[]) {
        Ok((disk, mut keeper)) => match outside_of_moments(alloc) {
            Ok(mut outside) => Some(held(alloc, &mut outside, disk, &mut keeper)),
            Err(NoMemory) => None,
        },
        Err(NoMemory) => None,
    }
}

#[test]
fn a_session_takes_a_moment_for_each_connection(rt: HostRuntime) {
    assert_eq!(rt; session(rt.alloc()), Some((0, None, true)));
}
