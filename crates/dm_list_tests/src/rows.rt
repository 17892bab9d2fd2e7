// What each command prints, its status, and the journal behind it.
use crate::runs::ListRuns;
use dm_run_bench::{Left, Played, Row, Step, play};
use dm_types::DiskKind;

// The journal after `add --word w1 http://h/a` at moment 0: a Reopened and an Added.
const ADDED: [u8; 64] = [
    0x44, 0x4d, 0x4a, 0x52, 0x4e, 0x4c, 0x31, 0x0a, 0x01, 0x00, 0x00, 0x00, 0x0d, 0x0d, 0x00, 0x00,
    0x00, 0x01, 0x00, 0x00, 0x00, 0x00, 0x00, 0x00, 0x00, 0x00, 0x01, 0x00, 0x00, 0x00, 0x20, 0x01,
    0x00, 0x00, 0x00, 0x01, 0x00, 0x02, 0x77, 0x31, 0x00, 0x0a, 0x68, 0x74, 0x74, 0x70, 0x3a, 0x2f,
    0x2f, 0x68, 0x2f, 0x61, 0x00, 0x00, 0x00, 0x00, 0x00, 0x00, 0x00, 0x00, 0x00, 0x00, 0x00, 0x00,
];

// The same with the name a.txt and the SHA-256 of the empty text.
const WISHED_FOR: [u8; 101] = [
    0x44, 0x4d, 0x4a, 0x52, 0x4e, 0x4c, 0x31, 0x0a, 0x01, 0x00, 0x00, 0x00, 0x0d, 0x0d, 0x00, 0x00,
    0x00, 0x01, 0x00, 0x00, 0x00, 0x00, 0x00, 0x00, 0x00, 0x00, 0x01, 0x00, 0x00, 0x00, 0x45, 0x01,
    0x00, 0x00, 0x00, 0x01, 0x00, 0x02, 0x77, 0x31, 0x00, 0x0a, 0x68, 0x74, 0x74, 0x70, 0x3a, 0x2f,
    0x2f, 0x68, 0x2f, 0x61, 0x00, 0x05, 0x61, 0x2e, 0x74, 0x78, 0x74, 0x01, 0xe3, 0xb0, 0xc4, 0x42,
    0x98, 0xfc, 0x1c, 0x14, 0x9a, 0xfb, 0xf4, 0xc8, 0x99, 0x6f, 0xb9, 0x24, 0x27, 0xae, 0x41, 0xe4,
    0x64, 0x9b, 0x93, 0x4c, 0xa4, 0x95, 0x99, 0x1b, 0x78, 0x52, 0xb8, 0x55, 0x00, 0x00, 0x00, 0x00,
    0x00, 0x00, 0x00, 0x00, 0x00,
];

const FIRST: Row = Row {
    words: &[b"add", b"--word", b"w1", b"http://h/a"],
    status: 0,
    out: b"1 waiting 0 ? -\n",
    errs: b"",
    ..Row::NOTHING
};

const WITH_A_WISH: Row = Row {
    words: &[
        b"add",
        b"--sha256",
        b"e3b0c44298fc1c149afbf4c8996fb92427ae41e4649b934ca495991b7852b855",
        b"--name",
        b"a.txt",
        b"--word",
        b"w1",
        b"http://h/a",
    ],
    status: 0,
    out: b"1 waiting 0 ? -\n",
    errs: b"",
    ..Row::NOTHING
};

const IN_ANOTHER_ORDER: Row = Row {
    words: &[
        b"add",
        b"http://h/a",
        b"--word",
        b"w1",
        b"--name",
        b"a.txt",
        b"--sha256",
        b"E3B0C44298FC1C149AFBF4C8996FB92427AE41E4649B934CA495991B7852B855",
    ],
    status: 0,
    out: b"1 waiting 0 ? -\n",
    errs: b"",
    ..Row::NOTHING
};

const OTHER_ADDRESS: Row = Row {
    words: &[b"add", b"--word", b"w1", b"http://h/b"],
    status: 10,
    out: b"",
    errs: b"word of item 1\n",
    ..Row::NOTHING
};

const SECOND: Row = Row {
    words: &[b"add", b"http://h/b"],
    status: 0,
    out: b"2 waiting 0 ? -\n",
    errs: b"",
    ..Row::NOTHING
};

const THIRD: Row = Row {
    words: &[b"add", b"http://h/b"],
    status: 0,
    out: b"3 waiting 0 ? -\n",
    errs: b"",
    ..Row::NOTHING
};

const BOTH: Row = Row {
    words: &[b"list"],
    status: 0,
    out: b"1 waiting 0 ? -\n2 waiting 0 ? -\n",
    errs: b"",
    ..Row::NOTHING
};

const NONE: Row = Row {
    words: &[b"list"],
    status: 0,
    out: b"",
    errs: b"",
    ..Row::NOTHING
};

const SHOWN: Row = Row {
    words: &[b"show", b"001"],
    status: 0,
    out: b"id 1\nstate waiting\nword w1\naddress http://h/a\nlast -\nname -\ncovered 0\ntotal -\nepoch 1\nattempts 0\nautomatic 0\nmodified -\nsha256 -\n",
    errs: b"",
    ..Row::NOTHING
};

const NO_ITEM: Row = Row {
    words: &[b"show", b"5"],
    status: 3,
    out: b"",
    errs: b"no item 5\n",
    ..Row::NOTHING
};

const BAD_ADDRESS: Row = Row {
    words: &[b"add", b"ftp://x/a"],
    status: 2,
    out: b"",
    errs: b"bad address\n",
    ..Row::NOTHING
};

const DAMAGED: Row = Row {
    words: &[b"list"],
    status: 5,
    out: b"",
    errs: b"journal damaged at 26\n",
    ..Row::NOTHING
};

const DENIED: Row = Row {
    words: &[b"list"],
    status: 6,
    out: b"",
    errs: b"disk denied\n",
    ..Row::NOTHING
};

/// What is done on an empty disk, of which a call may fail.
const CASES: [(Option<(u64, DiskKind)>, &[Step]); 9] = [
    // An added item is in the journal.
    (
        None,
        &[Step::Runs(FIRST), Step::Left(Left::Journal(&ADDED))],
    ),
    // A name and a digest are in the journal, in whichever order the words stand.
    (
        None,
        &[
            Step::Runs(WITH_A_WISH),
            Step::Left(Left::Journal(&WISHED_FOR)),
        ],
    ),
    (
        None,
        &[
            Step::Runs(IN_ANOTHER_ORDER),
            Step::Left(Left::Journal(&WISHED_FOR)),
        ],
    ),
    // Another order of the words adds nothing. An opening is recorded in 18 bytes.
    (
        None,
        &[
            Step::Runs(WITH_A_WISH),
            Step::Runs(IN_ANOTHER_ORDER),
            Step::Runs(SHOWN),
            Step::Left(Left::Length(Some(137))),
        ],
    ),
    // A word with its address adds nothing, and one with another address is refused.
    (
        None,
        &[
            Step::Runs(FIRST),
            Step::Runs(FIRST),
            Step::Left(Left::Length(Some(82))),
            Step::Runs(OTHER_ADDRESS),
            Step::Left(Left::Length(Some(100))),
        ],
    ),
    // Items are listed and shown.
    (
        None,
        &[
            Step::Runs(NONE),
            Step::Runs(FIRST),
            Step::Runs(SECOND),
            Step::Runs(BOTH),
            Step::Runs(SHOWN),
            Step::Left(Left::Length(Some(171))),
        ],
    ),
    // An item that isn't there.
    (
        None,
        &[Step::Runs(NO_ITEM), Step::Left(Left::Length(Some(27)))],
    ),
    // A bad address starts no journal.
    (
        None,
        &[Step::Runs(BAD_ADDRESS), Step::Left(Left::Length(None))],
    ),
    // A denied call is told.
    (Some((0, DiskKind::Denied)), &[Step::Runs(DENIED)]),
];

#[test]
fn commands_print_and_record(rt: HostRuntime) {
    for (place, (failing, steps)) in CASES.iter().enumerate() {
        let played = play(rt.alloc(), &ListRuns, *failing, steps);
        assert_eq!(rt; played, Played::AsSaid, "in {place}");
    }
}

#[test]
fn a_cut_journal_stays_as_it_is(rt: HostRuntime) {
    let cut = &ADDED[..40];
    let steps = [
        Step::Journal(cut),
        Step::Runs(DAMAGED),
        Step::Left(Left::Journal(cut)),
    ];
    assert_eq!(rt; play(rt.alloc(), &ListRuns, None, &steps), Played::AsSaid);
}

#[test]
fn a_last_byte_of_seven_is_a_closed_gate(rt: HostRuntime) {
    let mut bytes = ADDED;
    bytes[63] = 7;
    let steps = [
        Step::Journal(&bytes),
        Step::Runs(FIRST),
        Step::Runs(SECOND),
        Step::Runs(BOTH),
    ];
    assert_eq!(rt; play(rt.alloc(), &ListRuns, None, &steps), Played::AsSaid);
}

// The Added has the id 2, where 1 comes next.
#[test]
fn an_entry_that_may_not_come_is_damage(rt: HostRuntime) {
    let mut bytes = ADDED;
    bytes[35] = 2;
    let steps = [Step::Journal(&bytes), Step::Runs(DAMAGED)];
    assert_eq!(rt; play(rt.alloc(), &ListRuns, None, &steps), Played::AsSaid);
}

#[test]
fn items_without_a_word_are_many(rt: HostRuntime) {
    let steps = [Step::Journal(&ADDED), Step::Runs(SECOND), Step::Runs(THIRD)];
    assert_eq!(rt; play(rt.alloc(), &ListRuns, None, &steps), Played::AsSaid);
}
