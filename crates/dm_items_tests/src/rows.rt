// What calls answer, one after another, at items that are brought in one opening.
use dm_items::{Begun, DeskFault, Finished, Named, Pass, SlicePass, Taken};
use dm_items_bench::{
    AGAIN, ANEW, ASKED, Call, FIRST, LEFT_HALF, Left, ON, Opening, PART, Played, REST, RIGHT_HALF,
    Said, THIRD, TOLD, play,
};
use dm_types::{Attempt, By, Epoch, ItemId, Mode, Phase, Reason};

const BROUGHT: [(Call, Said); 6] = [
    (Call::Land(PART, 0, b"hello"), Said::Done),
    (Call::Check(PART), Said::Next(5)),
    (Call::Checkpoint(FIRST), Said::Done),
    (Call::Land(PART, 5, b" world"), Said::Done),
    (Call::Finish(FIRST), Said::Finished(Finished::Complete)),
    (Call::View(1), Said::Is(Phase::Complete, 11)),
];

const REOPENED: &[u8] = b"\x0d\0\0\0\x01\0\0\0\0\0\0\0\0";

const ADDED: &[u8] = b"\x01\0\0\0\x01\0\x02w1\0\x0ahttp://h/a\0\0\0\0\0\0\0\0\0\0\0";

const BEGAN: &[u8] = b"\x02\0\0\0\x01\0\0\0\x01\x01\0\0\0\0\0\0\0\0";

/// The entries of it in the form of the journal: `hello world` in two pieces, the first saved apart.
const BODIES: [&[u8]; 8] = [
    REOPENED,
    ADDED,
    BEGAN,
    b"\x03\0\0\0\x01\x01\0\x03\"a\"\0\x0ahttp://h/a\x01\0\0\0\0\0\0\0\x0b\0\x09hello.txt\0\0",
    b"\x04\0\0\0\x01\x01\0\0\0\0\0\0\0\0\0\0\0\0\0\0\0\x05\0",
    b"\x04\0\0\0\x01\x01\0\0\0\0\0\0\0\0\0\0\0\0\0\0\0\x0b\x01",
    b"\x09\0\0\0\x01\0\0\0\0\0\0\0\x0b",
    b"\x0a\0\0\0\x01\xb9\x4d\x27\xb9\x93\x4d\x3e\x08\xa5\x2e\x52\xd7\xda\x7d\xab\xfa\xc4\x84\xef\xe3\x7a\x53\x80\xee\x90\x88\xf7\xac\xe2\xef\xcd\xe9\0\0\0\0\0\0\0\0",
];

/// Its calls, its entries and its file.
const WHOLE: Opening = Opening {
    given: &[],
    groups: &[&ASKED, &TOLD, &BROUGHT],
    left: &[
        Left::Bodies(&BODIES),
        Left::File(b"hello.txt", Some(b"hello world")),
        Left::Files(1),
    ],
};

/// A content of no byte: nothing is planned, and nothing is saved.
const EMPTY: [(Call, Said); 4] = [
    (
        Call::Untagged(FIRST, Some(0), b"hello.txt"),
        Said::Named(Named::Named),
    ),
    (Call::Plan(FIRST, 1), Said::Parts(0, None)),
    (Call::Finish(FIRST), Said::Finished(Finished::Complete)),
    (Call::View(1), Said::Is(Phase::Complete, 0)),
];

const EMPTY_BODIES: [&[u8]; 6] = [
    REOPENED,
    ADDED,
    BEGAN,
    b"\x03\0\0\0\x01\x02\0\0\0\x01\0\0\0\x01\0\x0ahttp://h/a\x01\0\0\0\0\0\0\0\0\0\x09hello.txt\0\0",
    b"\x09\0\0\0\x01\0\0\0\0\0\0\0\0",
    b"\x0a\0\0\0\x01\xe3\xb0\xc4\x42\x98\xfc\x1c\x14\x9a\xfb\xf4\xc8\x99\x6f\xb9\x24\x27\xae\x41\xe4\x64\x9b\x93\x4c\xa4\x95\x99\x1b\x78\x52\xb8\x55\0\0\0\0\0\0\0\0",
];

const NOTHING: Opening = Opening {
    given: &[],
    groups: &[&ASKED, &EMPTY],
    left: &[
        Left::Bodies(&EMPTY_BODIES),
        Left::File(b"hello.txt", Some(b"")),
    ],
};

#[test]
fn a_whole_download_and_an_empty_one_record_their_entries(rt: HostRuntime) {
    for (place, opening) in [WHOLE, NOTHING].iter().enumerate() {
        let played = play(rt.alloc(), None, opening);
        assert_eq!(rt; played, Played::AsSaid, "in {place}");
    }
}

// ---- rows whose calls say all

const SHORT: Reason = Reason::ServerContentLengthMismatch;

/// The stream ends behind 5 bytes, which are saved.
const CUT: [(Call, Said); 4] = [
    (Call::Land(PART, 0, b"hello"), Said::Done),
    (Call::Checkpoint(FIRST), Said::Done),
    (Call::Cut(FIRST), Said::Done),
    (Call::View(1), Said::Is(Phase::Interrupted(SHORT), 5)),
];

/// The next attempt goes on by itself, and calls with the older passes are refused.
const WENT_ON: [(Call, Said); 14] = [
    (Call::Due, Said::Due(Some((ItemId(1), By::Itself)))),
    (Call::Begin(1, By::Itself), Said::Begun(Begun::Continue(ON))),
    (Call::Land(PART, 5, b" earth"), Said::No(OLD)),
    (Call::Plan(ON, 1), Said::Parts(1, Some(REST))),
    (Call::Land(PART, 5, b" earth"), Said::No(OLD_ROUND)),
    (Call::Check(PART), Said::No(OLD_ROUND)),
    (Call::Checkpoint(FIRST), Said::No(OLD_ROUND)),
    (Call::Plan(FIRST, 1), Said::No(OLD_ROUND)),
    (Call::Untagged(FIRST, None, b"a"), Said::No(OLD_ROUND)),
    (Call::Cut(FIRST), Said::No(OLD_ROUND)),
    (Call::Finish(FIRST), Said::No(OLD_ROUND)),
    (Call::Land(REST, 5, b" world"), Said::Done),
    (Call::Finish(ON), Said::Finished(Finished::Complete)),
    (Call::View(1), Said::Is(Phase::Complete, 11)),
];

const OLD: DeskFault = DeskFault::Stale {
    attempt: Attempt(2),
    round: 0,
};

const OLD_ROUND: DeskFault = DeskFault::Stale {
    attempt: Attempt(2),
    round: 1,
};

/// The reply to the range request of the next attempt is another whole one.
const BROUGHT_ANEW: [(Call, Said); 12] = [
    (Call::Begin(1, By::Itself), Said::Begun(Begun::Continue(ON))),
    (Call::Plan(ON, 1), Said::Parts(1, Some(REST))),
    (Call::Whole(ON), Said::Done),
    (
        Call::View(1),
        Said::Is(Phase::Interrupted(Reason::ServerNoRange), 5),
    ),
    (Call::Mode(1), Said::Mode(Some(Mode::ImmediateRestart))),
    (Call::Begin(1, By::User), Said::No(STOPPED)),
    (Call::Begin(1, By::Itself), Said::Begun(Begun::Fresh(THIRD))),
    (
        Call::Tagged(THIRD, Some(11), b"hello.txt"),
        Said::Named(Named::Named),
    ),
    (Call::Plan(THIRD, 1), Said::Parts(1, Some(THIRD_PART))),
    (Call::Land(THIRD_PART, 0, b"HELLO WORLD"), Said::Done),
    (Call::Finish(THIRD), Said::Finished(Finished::Complete)),
    (Call::View(1), Said::Is(Phase::Complete, 11)),
];

const STOPPED: DeskFault = DeskFault::WrongState(Phase::Interrupted(Reason::ServerNoRange));

/// Without a tag the next attempt brings all anew.
const UNTAGGED: [(Call, Said); 2] = [
    (
        Call::Untagged(FIRST, Some(11), b"hello.txt"),
        Said::Named(Named::Named),
    ),
    (Call::Plan(FIRST, 1), Said::Parts(1, Some(PART))),
];

const UNTAGGED_ANEW: [(Call, Said); 5] = [
    (Call::Begin(1, By::Itself), Said::Begun(Begun::Fresh(ANEW))),
    (Call::View(1), Said::Is(Phase::Running, 0)),
    (
        Call::Tagged(ANEW, Some(11), b"hello.txt"),
        Said::Named(Named::Named),
    ),
    (Call::Plan(ANEW, 1), Said::Parts(1, Some(AGAIN))),
    (Call::Land(AGAIN, 0, b"HELLO WORLD"), Said::Done),
];

const THIRD_PART: SlicePass = SlicePass {
    id: ItemId(1),
    attempt: Attempt(3),
    round: 1,
    index: 0,
    first: 0,
    end: 11,
};

const OPEN_PART: SlicePass = SlicePass {
    id: ItemId(1),
    attempt: Attempt(1),
    round: 1,
    index: 0,
    first: 0,
    end: 1_099_511_627_776,
};

/// No total is told: the one part has no end of its own, and all that was landed is the content.
const UNTOLD: [(Call, Said); 6] = [
    (
        Call::Untagged(FIRST, None, b"hello.txt"),
        Said::Named(Named::Named),
    ),
    (Call::Plan(FIRST, 4), Said::Parts(1, Some(OPEN_PART))),
    (Call::Land(OPEN_PART, 0, b"hello"), Said::Done),
    (Call::Land(OPEN_PART, 5, b" world"), Said::Done),
    (Call::Finish(FIRST), Said::Finished(Finished::Complete)),
    (Call::View(1), Said::Is(Phase::Complete, 11)),
];

/// Another content than the stated one is refused, and is to be brought anew.
const STATED: [(Call, Said); 7] = [
    (Call::Stated(b"w1"), Said::Taken(Taken::New(ItemId(1)))),
    (Call::Begin(1, By::User), Said::Begun(Begun::Fresh(FIRST))),
    (
        Call::Tagged(FIRST, Some(0), b"hello.txt"),
        Said::Named(Named::Named),
    ),
    (
        Call::Finish(FIRST),
        Said::Finished(Finished::Mismatch {
            have: OF_NOTHING,
            wanted: [0; 32],
        }),
    ),
    (
        Call::View(1),
        Said::Is(Phase::Interrupted(Reason::FileHashMismatch), 0),
    ),
    (Call::Due, Said::Due(Some((ItemId(1), By::Itself)))),
    (Call::Begin(1, By::Itself), Said::Begun(Begun::Fresh(ANEW))),
];

/// SHA-256 of nothing (FIPS 180-4).
const OF_NOTHING: [u8; 32] = [
    0xe3, 0xb0, 0xc4, 0x42, 0x98, 0xfc, 0x1c, 0x14, 0x9a, 0xfb, 0xf4, 0xc8, 0x99, 0x6f, 0xb9, 0x24,
    0x27, 0xae, 0x41, 0xe4, 0x64, 0x9b, 0x93, 0x4c, 0xa4, 0x95, 0x99, 0x1b, 0x78, 0x52, 0xb8, 0x55,
];

const LEFT_HOLE: SlicePass = SlicePass {
    id: ItemId(1),
    attempt: Attempt(2),
    round: 1,
    index: 0,
    first: 5,
    end: 8,
};

const RIGHT_HOLE: SlicePass = SlicePass {
    id: ItemId(1),
    attempt: Attempt(2),
    round: 1,
    index: 1,
    first: 11,
    end: 16,
};

/// Two parts are cut, and the next attempt brings what is missing of both.
const HOLES: [(Call, Said); 13] = [
    (
        Call::Tagged(FIRST, Some(16), b"hello.txt"),
        Said::Named(Named::Named),
    ),
    (Call::Plan(FIRST, 2), Said::Parts(2, Some(RIGHT_HALF))),
    (Call::Land(RIGHT_HALF, 8, b"rld"), Said::Done),
    (Call::Land(LEFT_HALF, 0, b"hello"), Said::Done),
    (Call::Checkpoint(FIRST), Said::Done),
    (Call::Cut(FIRST), Said::Done),
    (Call::View(1), Said::Is(Phase::Interrupted(SHORT), 8)),
    (Call::Begin(1, By::Itself), Said::Begun(Begun::Continue(ON))),
    (Call::Plan(ON, 2), Said::Parts(2, Some(RIGHT_HOLE))),
    (Call::Land(LEFT_HOLE, 5, b" wo"), Said::Done),
    (Call::Finish(ON), Said::No(DeskFault::NotNext(11))),
    (Call::Land(RIGHT_HOLE, 11, b" here"), Said::Done),
    (Call::Finish(ON), Said::Finished(Finished::Complete)),
];

/// A reopening interrupts what runs, and loses what wasn't saved.
const REOPENED_RUNNING: [(Call, Said); 4] = [
    (Call::Land(PART, 0, b"hello"), Said::Done),
    (Call::Reopen, Said::Done),
    (
        Call::View(1),
        Said::Is(Phase::Interrupted(Reason::Crash), 0),
    ),
    (Call::Mode(1), Said::Mode(Some(Mode::UserRestart))),
];

const LONG_PART: SlicePass = SlicePass {
    id: ItemId(1),
    attempt: Attempt(1),
    round: 1,
    index: 0,
    first: 0,
    end: 100,
};

const LONG_REST: SlicePass = SlicePass {
    id: ItemId(1),
    attempt: Attempt(2),
    round: 1,
    index: 0,
    first: 60,
    end: 100,
};

const FORTY_PART: SlicePass = SlicePass {
    id: ItemId(1),
    attempt: Attempt(3),
    round: 1,
    index: 0,
    first: 0,
    end: 40,
};

/// 60 of 100 bytes, and then a fresh content of 40.
const SHORTER: [(Call, Said); 14] = [
    (
        Call::Tagged(FIRST, Some(100), b"hello.txt"),
        Said::Named(Named::Named),
    ),
    (Call::Plan(FIRST, 1), Said::Parts(1, Some(LONG_PART))),
    (Call::Land(LONG_PART, 0, &[97; 60]), Said::Done),
    (Call::Checkpoint(FIRST), Said::Done),
    (Call::Cut(FIRST), Said::Done),
    (Call::Begin(1, By::Itself), Said::Begun(Begun::Continue(ON))),
    (Call::Plan(ON, 1), Said::Parts(1, Some(LONG_REST))),
    (Call::Whole(ON), Said::Done),
    (Call::Begin(1, By::Itself), Said::Begun(Begun::Fresh(THIRD))),
    (
        Call::Tagged(THIRD, Some(40), b"hello.txt"),
        Said::Named(Named::Named),
    ),
    (Call::Plan(THIRD, 1), Said::Parts(1, Some(FORTY_PART))),
    (Call::Land(FORTY_PART, 0, &[98; 40]), Said::Done),
    (Call::Sweep, Said::Done),
    (Call::View(1), Said::Is(Phase::Running, 0)),
];

const PAUSED: DeskFault = DeskFault::Stale {
    attempt: Attempt(1),
    round: 0,
};

/// A pause saves what was landed.
const PAUSED_AND_RESUMED: [(Call, Said); 13] = [
    (Call::Land(PART, 0, b"hello"), Said::Done),
    (Call::View(1), Said::Is(Phase::Running, 0)),
    (Call::Pause(1), Said::Done),
    (Call::View(1), Said::Is(Phase::Paused, 5)),
    (Call::Land(PART, 5, b" world"), Said::No(PAUSED)),
    (Call::Pause(1), Said::Done),
    (
        Call::Begin(1, By::User),
        Said::No(DeskFault::WrongState(Phase::Paused)),
    ),
    (Call::Resume(1), Said::Done),
    (Call::View(1), Said::Is(Phase::Waiting, 5)),
    (Call::Begin(1, By::User), Said::Begun(Begun::Continue(ON))),
    (Call::Plan(ON, 1), Said::Parts(1, Some(REST))),
    (Call::Land(REST, 5, b" world"), Said::Done),
    (Call::Finish(ON), Said::Finished(Finished::Complete)),
];

/// What a piece may not do.
const REFUSED: [(Call, Said); 7] = [
    (
        Call::Land(PART, 1, b"hello"),
        Said::No(DeskFault::NotNext(0)),
    ),
    (
        Call::Land(PART, 0, b"hello worlds"),
        Said::No(DeskFault::PastEnd(11)),
    ),
    (Call::Land(PART, 0, b"hello wo"), Said::Done),
    (
        Call::Land(PART, 8, b"r"),
        Said::No(DeskFault::CheckpointDue(8)),
    ),
    (Call::Finish(FIRST), Said::No(DeskFault::NotNext(8))),
    (Call::Checkpoint(FIRST), Said::Done),
    (Call::Land(PART, 8, b"rld"), Said::Done),
];

const ANEW_3: Pass = Pass {
    id: ItemId(1),
    attempt: Attempt(3),
    epoch: Epoch(3),
};

const ANEW_4: Pass = Pass {
    id: ItemId(1),
    attempt: Attempt(4),
    epoch: Epoch(4),
};

const ANEW_5: Pass = Pass {
    id: ItemId(1),
    attempt: Attempt(5),
    epoch: Epoch(5),
};

const ANEW_6: Pass = Pass {
    id: ItemId(1),
    attempt: Attempt(6),
    epoch: Epoch(6),
};

/// The first attempt and five by itself, which bring all anew, are cut at once. No sixth is due.
const CUT_AT_ONCE: [(Call, Said); 15] = [
    (Call::Cut(FIRST), Said::Done),
    (Call::Begin(1, By::Itself), Said::Begun(Begun::Fresh(ANEW))),
    (Call::Cut(ANEW), Said::Done),
    (
        Call::Begin(1, By::Itself),
        Said::Begun(Begun::Fresh(ANEW_3)),
    ),
    (Call::Cut(ANEW_3), Said::Done),
    (
        Call::Begin(1, By::Itself),
        Said::Begun(Begun::Fresh(ANEW_4)),
    ),
    (Call::Cut(ANEW_4), Said::Done),
    (
        Call::Begin(1, By::Itself),
        Said::Begun(Begun::Fresh(ANEW_5)),
    ),
    (Call::Cut(ANEW_5), Said::Done),
    (
        Call::Begin(1, By::Itself),
        Said::Begun(Begun::Fresh(ANEW_6)),
    ),
    (Call::Cut(ANEW_6), Said::Done),
    (Call::Due, Said::Due(None)),
    (Call::Mode(1), Said::Mode(Some(Mode::UserRestart))),
    (
        Call::Begin(1, By::Itself),
        Said::No(DeskFault::WrongState(Phase::Interrupted(SHORT))),
    ),
    (Call::Resume(1), Said::Done),
];

/// Calls at an empty disk, and the files that they leave.
const OPENINGS: [Opening; 11] = [
    Opening {
        given: &[],
        groups: &[&STATED],
        left: &[Left::File(b"hello.txt", None)],
    },
    Opening {
        given: &[],
        groups: &[&ASKED, &HOLES],
        left: &[Left::File(b"hello.txt", Some(b"hello world here"))],
    },
    Opening {
        given: &[],
        groups: &[&ASKED, &TOLD, &REOPENED_RUNNING],
        left: &[Left::File(b"hello.txt", None)],
    },
    Opening {
        given: &[],
        groups: &[&ASKED, &UNTOLD],
        left: &[Left::File(b"hello.txt", Some(b"hello world"))],
    },
    Opening {
        given: &[],
        groups: &[&ASKED, &TOLD, &CUT, &WENT_ON],
        left: &[Left::File(b"hello.txt", Some(b"hello world"))],
    },
    Opening {
        given: &[],
        groups: &[&ASKED, &TOLD, &CUT, &BROUGHT_ANEW],
        left: &[Left::File(b"hello.txt", Some(b"HELLO WORLD"))],
    },
    Opening {
        given: &[],
        groups: &[&ASKED, &UNTAGGED, &CUT, &UNTAGGED_ANEW],
        left: &[
            Left::File(b"Unconfirmed 1-2.crdownload", Some(b"HELLO WORLD")),
            Left::File(b"Unconfirmed 1-1.crdownload", Some(b"hello")),
        ],
    },
    Opening {
        given: &[],
        groups: &[&ASKED, &SHORTER],
        left: &[
            Left::File(b"Unconfirmed 1-2.crdownload", Some(&[98; 40])),
            Left::File(b"Unconfirmed 1-1.crdownload", None),
        ],
    },
    Opening {
        given: &[],
        groups: &[&ASKED, &TOLD, &PAUSED_AND_RESUMED],
        left: &[Left::File(b"hello.txt", Some(b"hello world"))],
    },
    Opening {
        given: &[],
        groups: &[&ASKED, &TOLD, &REFUSED],
        left: &[Left::File(b"Unconfirmed 1-1.crdownload", Some(b"hello world"))],
    },
    Opening {
        given: &[],
        groups: &[&ASKED, &CUT_AT_ONCE],
        left: &[Left::File(b"hello.txt", None)],
    },
];

#[test]
fn calls_say_what_their_rows_say(rt: HostRuntime) {
    for (place, opening) in OPENINGS.iter().enumerate() {
        let played = play(rt.alloc(), None, opening);
        assert_eq!(rt; played, Played::AsSaid, "in {place}");
    }
}
