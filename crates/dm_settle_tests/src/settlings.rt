// What an opening finds of an item whose files were changed behind a crash.
use dm_disk::FailingCall;
use dm_items::{Begun, DeskFault};
use dm_items_bench::{
    ASKED, Call, FIRST, Given, Left, ON, Opening, PART, Played, REST, Said, THIRD, TOLD, crash,
};
use dm_types::{By, DiskKind, ItemId, Phase, Reason};

// ---- a part that was cut between two openings

const SAVED: [(Call, Said); 3] = [
    (Call::Land(PART, 0, b"hello"), Said::Done),
    (Call::Checkpoint(FIRST), Said::Done),
    (Call::Land(PART, 5, b" w"), Said::Done),
];

const FOUND_CUT: [(Call, Said); 3] = [
    (
        Call::View(1),
        Said::Is(Phase::Interrupted(Reason::Crash), 5),
    ),
    (Call::Resume(1), Said::Done),
    (
        Call::Begin(1, By::User),
        Said::Begun(Begun::Short { have: 3, wanted: 5 }),
    ),
];

const FOUND_MISSING: [(Call, Said); 2] = [
    (Call::Resume(1), Said::Done),
    (
        Call::Begin(1, By::User),
        Said::Begun(Begun::Short { have: 0, wanted: 5 }),
    ),
];

const SHORT_ANEW: [(Call, Said); 3] = [
    (
        Call::View(1),
        Said::Is(Phase::Interrupted(Reason::FileTooShort), 5),
    ),
    (Call::Due, Said::Due(Some((ItemId(1), By::Itself)))),
    (Call::Begin(1, By::Itself), Said::Begun(Begun::Fresh(THIRD))),
];

const FOUND_LONGER: [(Call, Said); 3] = [
    (Call::Resume(1), Said::Done),
    (Call::Begin(1, By::User), Said::Begun(Begun::Continue(ON))),
    (Call::Plan(ON, 1), Said::Parts(1, Some(REST))),
];

const SAVED_APART: Opening = Opening {
    given: &[],
    groups: &[&ASKED, &TOLD, &SAVED],
    left: &[],
};

/// The part is too short, or missing, or longer than what was saved.
const CUTS: [Opening; 3] = [
    Opening {
        given: &[Given::File(b"Unconfirmed 1-1.crdownload", Some(b"hel"))],
        groups: &[&FOUND_CUT, &SHORT_ANEW],
        left: &[],
    },
    Opening {
        given: &[Given::File(b"Unconfirmed 1-1.crdownload", None)],
        groups: &[&FOUND_MISSING, &SHORT_ANEW],
        left: &[],
    },
    Opening {
        given: &[Given::File(b"Unconfirmed 1-1.crdownload", Some(b"hello w"))],
        groups: &[&FOUND_LONGER],
        left: &[],
    },
];

#[test]
fn a_cut_part_is_short(rt: HostRuntime) {
    for (place, opening) in CUTS.iter().enumerate() {
        let played = crash(rt.alloc(), None, &SAVED_APART, opening);
        assert_eq!(rt; played, Played::AsSaid, "in {place}");
    }
}

// ---- a stop inside of a finish

/// The journal holds that the content is whole, and the file's name isn't given yet.
const FINISHING: [(Call, Said); 4] = [
    (Call::Land(PART, 0, b"hello"), Said::Done),
    (Call::Checkpoint(FIRST), Said::Done),
    (Call::Land(PART, 5, b" world"), Said::Done),
    (
        Call::Finish(FIRST),
        Said::No(DeskFault::Journal(DiskKind::Denied)),
    ),
];

const STOPPED: Opening = Opening {
    given: &[],
    groups: &[&ASKED, &TOLD, &FINISHING],
    left: &[],
};

const DENIED: FailingCall = FailingCall {
    call: 48,
    kind: DiskKind::Denied,
};

const COMPLETE: [(Call, Said); 1] = [(Call::View(1), Said::Is(Phase::Complete, 11))];

const FAILED: [(Call, Said); 1] = [(
    Call::View(1),
    Said::Is(Phase::Interrupted(Reason::FileFailed), 11),
)];

const TOO_SHORT: [(Call, Said); 1] = [(
    Call::View(1),
    Said::Is(Phase::Interrupted(Reason::FileTooShort), 11),
)];

/// The part and the file that stand, how item 1 is settled, and what stands then.
const SETTLINGS: [Opening; 6] = [
    Opening {
        given: &[
            Given::File(b"Unconfirmed 1-1.crdownload", Some(b"hello world")),
            Given::File(b"hello.txt", None),
        ],
        groups: &[&COMPLETE],
        left: &[
            Left::File(b"Unconfirmed 1-1.crdownload", None),
            Left::File(b"hello.txt", Some(b"hello world")),
        ],
    },
    Opening {
        given: &[
            Given::File(b"Unconfirmed 1-1.crdownload", None),
            Given::File(b"hello.txt", Some(b"hello world")),
        ],
        groups: &[&COMPLETE],
        left: &[
            Left::File(b"Unconfirmed 1-1.crdownload", None),
            Left::File(b"hello.txt", Some(b"hello world")),
        ],
    },
    Opening {
        given: &[
            Given::File(b"Unconfirmed 1-1.crdownload", Some(b"hello world")),
            Given::File(b"hello.txt", Some(b"theirs")),
        ],
        groups: &[&FAILED],
        left: &[
            Left::File(b"Unconfirmed 1-1.crdownload", Some(b"hello world")),
            Left::File(b"hello.txt", Some(b"theirs")),
        ],
    },
    Opening {
        given: &[
            Given::File(b"Unconfirmed 1-1.crdownload", None),
            Given::File(b"hello.txt", None),
        ],
        groups: &[&TOO_SHORT],
        left: &[
            Left::File(b"Unconfirmed 1-1.crdownload", None),
            Left::File(b"hello.txt", None),
        ],
    },
    Opening {
        given: &[
            Given::File(b"Unconfirmed 1-1.crdownload", Some(b"hello")),
            Given::File(b"hello.txt", None),
        ],
        groups: &[&TOO_SHORT],
        left: &[
            Left::File(b"Unconfirmed 1-1.crdownload", Some(b"hello")),
            Left::File(b"hello.txt", None),
        ],
    },
    Opening {
        given: &[
            Given::File(b"Unconfirmed 1-1.crdownload", None),
            Given::File(b"hello.txt", Some(b"hello")),
        ],
        groups: &[&TOO_SHORT],
        left: &[
            Left::File(b"Unconfirmed 1-1.crdownload", None),
            Left::File(b"hello.txt", Some(b"hello")),
        ],
    },
];

#[test]
fn what_stands_settles_a_finish(rt: HostRuntime) {
    for (place, opening) in SETTLINGS.iter().enumerate() {
        let played = crash(rt.alloc(), Some(DENIED), &STOPPED, opening);
        assert_eq!(rt; played, Played::AsSaid, "in {place}");
    }
}
