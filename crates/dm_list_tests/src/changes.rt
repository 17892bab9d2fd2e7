// What the commands print that change an item, and what the journal holds behind them.
use crate::runs::ListRuns;
use dm_run_bench::{Left, Outside, Played, Row, Step, Told, play};

const ADD: Row = Row {
    words: &[b"add", b"--word", b"w1", b"http://h/a"],
    status: 0,
    out: b"1 waiting 0 ? -\n",
    errs: b"",
    ..Row::NOTHING
};

const OTHER: Row = Row {
    words: &[b"add", b"http://h/b"],
    status: 0,
    out: b"2 waiting 0 ? -\n",
    errs: b"",
    ..Row::NOTHING
};

const ADD_ANEW: Row = Row {
    words: &[b"add", b"--word", b"w1", b"http://h/a"],
    status: 0,
    out: b"2 waiting 0 ? -\n",
    errs: b"",
    ..Row::NOTHING
};

const PAUSE: Row = Row {
    words: &[b"pause", b"1"],
    status: 0,
    out: b"1 paused 0 ? -\n",
    errs: b"",
    ..Row::NOTHING
};

const CANCEL: Row = Row {
    words: &[b"cancel", b"1"],
    status: 0,
    out: b"1 cancelled 0 ? -\n",
    errs: b"",
    ..Row::NOTHING
};

const REMOVE: Row = Row {
    words: &[b"remove", b"1"],
    status: 0,
    out: b"",
    errs: b"",
    ..Row::NOTHING
};

const REMOVE_OTHER: Row = Row {
    words: &[b"remove", b"2"],
    status: 0,
    out: b"",
    errs: b"",
    ..Row::NOTHING
};

const ONE_PAUSED: Row = Row {
    words: &[b"list"],
    status: 0,
    out: b"1 paused 0 ? -\n",
    errs: b"",
    ..Row::NOTHING
};

const NONE: Row = Row {
    words: &[b"list"],
    status: 0,
    out: b"",
    errs: b"",
    ..Row::NOTHING
};

const NO_PAUSE: Row = Row {
    words: &[b"pause", b"1"],
    status: 4,
    out: b"",
    errs: b"state cancelled\n",
    ..Row::NOTHING
};

const GONE: Row = Row {
    words: &[b"remove", b"1"],
    status: 3,
    out: b"",
    errs: b"no item 1\n",
    ..Row::NOTHING
};

const NONE_TO_PAUSE: Row = Row {
    words: &[b"pause", b"7"],
    status: 3,
    out: b"",
    errs: b"no item 7\n",
    ..Row::NOTHING
};

const NONE_TO_CANCEL: Row = Row {
    words: &[b"cancel", b"7"],
    status: 3,
    out: b"",
    errs: b"no item 7\n",
    ..Row::NOTHING
};

const NONE_TO_REMOVE: Row = Row {
    words: &[b"remove", b"7"],
    status: 3,
    out: b"",
    errs: b"no item 7\n",
    ..Row::NOTHING
};

/// With room for 5 bytes it prints a front of its text.
const CUT_OFF: Row = Row {
    words: &[b"list"],
    outside: Outside {
        room: 5,
        ..Outside::SOUND
    },
    told: Told::Front,
    status: 7,
    out: b"1 waiting 0 ? -\n",
    ..Row::NOTHING
};

/// Commands one after another, and how long the journal is then: 8 bytes of a header and 1 of its end, 18
/// of each opening, 37 of an Added with the word, 35 of one without, and 10 of each entry with an id alone.
const CASES: [&[Step]; 15] = [
    &[
        Step::Runs(ADD),
        Step::Runs(PAUSE),
        Step::Left(Left::Length(Some(92))),
    ],
    &[
        Step::Runs(ADD),
        Step::Runs(PAUSE),
        Step::Runs(PAUSE),
        Step::Left(Left::Length(Some(110))),
    ],
    &[
        Step::Runs(ADD),
        Step::Runs(PAUSE),
        Step::Runs(ONE_PAUSED),
        Step::Left(Left::Length(Some(110))),
    ],
    &[
        Step::Runs(ADD),
        Step::Runs(CANCEL),
        Step::Left(Left::Length(Some(92))),
    ],
    &[
        Step::Runs(ADD),
        Step::Runs(CANCEL),
        Step::Runs(CANCEL),
        Step::Left(Left::Length(Some(110))),
    ],
    &[
        Step::Runs(ADD),
        Step::Runs(PAUSE),
        Step::Runs(CANCEL),
        Step::Left(Left::Length(Some(120))),
    ],
    &[
        Step::Runs(ADD),
        Step::Runs(CANCEL),
        Step::Runs(NO_PAUSE),
        Step::Left(Left::Length(Some(110))),
    ],
    &[
        Step::Runs(ADD),
        Step::Runs(REMOVE),
        Step::Runs(NONE),
        Step::Left(Left::Length(Some(110))),
    ],
    &[
        Step::Runs(ADD),
        Step::Runs(REMOVE),
        Step::Runs(GONE),
        Step::Left(Left::Length(Some(110))),
    ],
    &[
        Step::Runs(ADD),
        Step::Runs(CANCEL),
        Step::Runs(REMOVE),
        Step::Left(Left::Length(Some(120))),
    ],
    &[
        Step::Runs(ADD),
        Step::Runs(REMOVE),
        Step::Runs(OTHER),
        Step::Left(Left::Length(Some(145))),
    ],
    &[
        Step::Runs(ADD),
        Step::Runs(REMOVE),
        Step::Runs(ADD_ANEW),
        Step::Left(Left::Length(Some(147))),
    ],
    &[
        Step::Runs(NONE_TO_PAUSE),
        Step::Runs(NONE_TO_CANCEL),
        Step::Runs(NONE_TO_REMOVE),
        Step::Left(Left::Length(Some(63))),
    ],
    &[
        Step::Runs(ADD),
        Step::Runs(OTHER),
        Step::Runs(PAUSE),
        Step::Runs(REMOVE_OTHER),
        Step::Runs(ONE_PAUSED),
        Step::Left(Left::Length(Some(191))),
    ],
    // A line that is cut off has status 7.
    &[Step::Runs(ADD), Step::Runs(CUT_OFF)],
];

#[test]
fn items_are_paused_cancelled_and_removed(rt: HostRuntime) {
    for (place, steps) in CASES.iter().enumerate() {
        let played = play(rt.alloc(), &ListRuns, None, steps);
        assert_eq!(rt; played, Played::AsSaid, "in {place}");
    }
}
