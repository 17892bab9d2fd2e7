// What a stop or a fault at each call of the disk leaves of a command of the list.
use crate::runs::ListRuns;
use dm_run_bench::{Row, first_lost, first_untold, said};

const ADD: Row = Row {
    words: &[b"add", b"--word", b"w1", b"http://h/a"],
    status: 0,
    out: b"1 waiting 0 ? -\n",
    errs: b"",
    ..Row::NOTHING
};

const PAUSE: Row = Row {
    words: &[b"pause", b"1"],
    status: 0,
    out: b"1 paused 0 ? -\n",
    errs: b"",
    ..Row::NOTHING
};

const CANCEL: Row = Row {
    words: &[b"cancel", b"1"],
    status: 0,
    out: b"1 cancelled 0 ? -\n",
    errs: b"",
    ..Row::NOTHING
};

const REMOVE: Row = Row {
    words: &[b"remove", b"1"],
    status: 0,
    out: b"",
    errs: b"",
    ..Row::NOTHING
};

/// A list without an item, and ones with an item in each phase.
const NONE: Row = Row {
    words: &[b"list"],
    ..Row::NOTHING
};

const WAITING: Row = Row {
    out: b"1 waiting 0 ? -\n",
    ..NONE
};

const PAUSED: Row = Row {
    out: b"1 paused 0 ? -\n",
    ..NONE
};

const CANCELLED: Row = Row {
    out: b"1 cancelled 0 ? -\n",
    ..NONE
};

/// The fault is told.
const DENIED: Row = Row {
    status: 6,
    errs: b"disk denied\n",
    ..NONE
};

/// Commands, and what `list` may show behind what ended, in their order.
struct Case {
    rows: &'static [Row<'static>],
    shows: &'static [Row<'static>],
}

const CASES: &[Case] = &[
    Case {
        rows: &[ADD],
        shows: &[NONE, WAITING, DENIED],
    },
    Case {
        rows: &[ADD, PAUSE],
        shows: &[NONE, WAITING, PAUSED, DENIED],
    },
    Case {
        rows: &[ADD, CANCEL],
        shows: &[NONE, WAITING, CANCELLED, DENIED],
    },
    Case {
        rows: &[ADD, REMOVE],
        shows: &[NONE, WAITING, NONE, DENIED],
    },
];

#[test]
fn a_stop_at_each_call_keeps_what_ended(rt: HostRuntime) {
    for (number, case) in CASES.iter().enumerate() {
        let lost = first_lost(rt.alloc(), &ListRuns, case.rows, case.shows);
        assert_eq!(rt; lost, None, "case {number}");
        let said = said(rt.alloc(), &ListRuns, case.rows);
        assert_eq!(rt; said, case.rows.len(), "case {number}");
    }
}

#[test]
fn a_fault_of_each_call_is_told(rt: HostRuntime) {
    for (number, case) in CASES.iter().enumerate() {
        let untold = first_untold(rt.alloc(), &ListRuns, case.rows, case.shows);
        assert_eq!(rt; untold, None, "case {number}");
    }
}
