// What calls answer over disks that fail once or hold other files, and at a full list.
use dm_disk::FailingCall;
use dm_items::{Begun, DeskFault, Finished, Named, Taken};
use dm_items_bench::{
    AGAIN, ANEW, ASKED, Call, FIRST, Given, LEFT_HALF, Left, ON, OTHER, OTHER_PART, Opening, PART,
    Played, REST, RIGHT_HALF, Said, TOLD, play,
};
use dm_types::{Attempt, By, DiskKind, ItemId, Mode, Phase, Reason};

/// Which call of the disk fails, and what is called and left over it.
type Row = (Option<FailingCall>, Opening);

const NO_SPACE: [(Call, Said); 11] = [
    (
        Call::Land(PART, 0, b"hello"),
        Said::No(DeskFault::File(DiskKind::NoSpace)),
    ),
    (
        Call::View(1),
        Said::Is(Phase::Interrupted(Reason::FileNoSpace), 0),
    ),
    (Call::Mode(1), Said::Mode(Some(Mode::UserRestart))),
    (Call::Due, Said::Due(None)),
    (Call::Resume(1), Said::Done),
    (Call::Due, Said::Due(Some((ItemId(1), By::User)))),
    (Call::Begin(1, By::User), Said::Begun(Begun::Fresh(ANEW))),
    (
        Call::Tagged(ANEW, Some(11), b"hello.txt"),
        Said::Named(Named::Named),
    ),
    (Call::Plan(ANEW, 1), Said::Parts(1, Some(AGAIN))),
    (Call::Land(AGAIN, 0, b"hello world"), Said::Done),
    (Call::Finish(ANEW), Said::Finished(Finished::Complete)),
];

const REPORT: [(Call, Said); 2] = [
    (
        Call::Tagged(FIRST, Some(11), b"report.pdf"),
        Said::Named(Named::Named),
    ),
    (Call::Named(1, b"report (1).pdf"), Said::Holds(true)),
];

const OVER: DeskFault = DeskFault::Stale {
    attempt: Attempt(1),
    round: 0,
};

/// Two workers, and a cancel between two pieces.
const CANCELLED: [(Call, Said); 10] = [
    (
        Call::Tagged(FIRST, Some(16), b"hello.txt"),
        Said::Named(Named::Named),
    ),
    (Call::Plan(FIRST, 2), Said::Parts(2, Some(RIGHT_HALF))),
    (Call::Land(LEFT_HALF, 0, b"hello"), Said::Done),
    (Call::Cancel(1), Said::Done),
    (Call::Land(RIGHT_HALF, 8, b"rld"), Said::No(OVER)),
    (Call::Land(LEFT_HALF, 5, b" wo"), Said::No(OVER)),
    (Call::View(1), Said::Is(Phase::Cancelled, 0)),
    (Call::Cancel(1), Said::Done),
    (Call::Mode(1), Said::Mode(Some(Mode::Invalid))),
    (
        Call::Resume(1),
        Said::No(DeskFault::WrongState(Phase::Cancelled)),
    ),
];

/// Two items at once, with one wish.
const TWO: [(Call, Said); 13] = [
    (Call::Add(b"w2"), Said::Taken(Taken::New(ItemId(2)))),
    (Call::Begin(2, By::User), Said::Begun(Begun::Fresh(OTHER))),
    (Call::Land(PART, 0, b"hello"), Said::Done),
    (
        Call::Untagged(OTHER, Some(11), b"HELLO.txt"),
        Said::Named(Named::Named),
    ),
    (Call::Named(2, b"HELLO (1).txt"), Said::Holds(true)),
    (Call::Plan(OTHER, 1), Said::Parts(1, Some(OTHER_PART))),
    (Call::Land(OTHER_PART, 0, b"HELLO"), Said::Done),
    (Call::Checkpoint(FIRST), Said::Done),
    (Call::Land(PART, 5, b" world"), Said::Done),
    (Call::Land(OTHER_PART, 5, b" W"), Said::Done),
    (Call::Finish(FIRST), Said::Finished(Finished::Complete)),
    (Call::Shut, Said::Done),
    (
        Call::View(2),
        Said::Is(Phase::Interrupted(Reason::UserShutdown), 0),
    ),
];

const NONE: DeskFault = DeskFault::NoItem(ItemId(1));

const REMOVED: [(Call, Said); 8] = [
    (
        Call::Remove(1),
        Said::No(DeskFault::WrongState(Phase::Running)),
    ),
    (Call::Pause(1), Said::Done),
    (Call::Remove(1), Said::Done),
    (Call::View(1), Said::Gone),
    (Call::Begin(1, By::User), Said::No(NONE)),
    (Call::Land(PART, 0, b"hello"), Said::No(NONE)),
    (Call::Add(b"w1"), Said::Taken(Taken::New(ItemId(2)))),
    (Call::Sweep, Said::Done),
];

const ARCHIVED: [(Call, Said); 8] = [
    (
        Call::Archive(1),
        Said::No(DeskFault::WrongState(Phase::Running)),
    ),
    (Call::Land(PART, 0, b"hello world"), Said::Done),
    (Call::Finish(FIRST), Said::Finished(Finished::Complete)),
    (
        Call::Pause(1),
        Said::No(DeskFault::WrongState(Phase::Complete)),
    ),
    (Call::Archive(1), Said::Done),
    (Call::View(1), Said::Gone),
    (Call::Archive(1), Said::No(NONE)),
    (Call::Sweep, Said::Done),
];

const SWEPT: [(Call, Said); 1] = [(Call::Sweep, Said::Done)];

/// Its third call on the journal fails, and what was landed isn't saved.
const BROKEN: [(Call, Said); 11] = [
    (Call::Land(PART, 0, b"hello"), Said::Done),
    (
        Call::Checkpoint(FIRST),
        Said::No(DeskFault::Journal(DiskKind::Denied)),
    ),
    (Call::Land(PART, 5, b" world"), Said::No(DeskFault::Broken)),
    (Call::Check(PART), Said::No(DeskFault::Broken)),
    (Call::Finish(FIRST), Said::No(DeskFault::Broken)),
    (Call::Pause(1), Said::No(DeskFault::Broken)),
    (Call::Shut, Said::No(DeskFault::Broken)),
    (Call::Sweep, Said::No(DeskFault::Broken)),
    (Call::View(1), Said::Is(Phase::Running, 0)),
    (Call::Reopen, Said::Done),
    (Call::Land(PART, 5, b" world"), Said::No(OVER)),
];

const FOUND_UNSAVED: [(Call, Said); 1] = [(
    Call::View(1),
    Said::Is(Phase::Interrupted(Reason::Crash), 0),
)];

/// The last call on the journal fails, and reopening finds that it was saved.
const FOUND_SAVED: [(Call, Said); 5] = [
    (
        Call::View(1),
        Said::Is(Phase::Interrupted(Reason::Crash), 5),
    ),
    (Call::Resume(1), Said::Done),
    (Call::Begin(1, By::User), Said::Begun(Begun::Continue(ON))),
    (Call::Plan(ON, 1), Said::Parts(1, Some(REST))),
    (Call::Land(REST, 5, b" world"), Said::Done),
];

/// All forms of the wished name are taken.
const TAKEN: [(Call, Said); 3] = [
    (
        Call::Tagged(FIRST, Some(11), b"report.pdf"),
        Said::Named(Named::AllTaken),
    ),
    (
        Call::View(1),
        Said::Is(Phase::Interrupted(Reason::FileFailed), 0),
    ),
    (Call::Mode(1), Said::Mode(Some(Mode::UserRestart))),
];

/// As many items as a list takes.
const FULL: [(Call, Said); 4] = [
    (Call::AddMany(4096), Said::Done),
    (Call::Add(b""), Said::No(DeskFault::ItemsFull(4096))),
    (Call::Cancel(4096), Said::Done),
    (Call::View(4096), Said::Is(Phase::Cancelled, 0)),
];

const AS_MANY: Opening = Opening {
    given: &[],
    groups: &[&FULL],
    left: &[],
};

/// A word names one item, the empty word none.
const THREE: [(Call, Said); 7] = [
    (Call::Add(b"w1"), Said::Taken(Taken::New(ItemId(1)))),
    (Call::Add(b"w1"), Said::Taken(Taken::Same(ItemId(1)))),
    (Call::Add(b""), Said::Taken(Taken::New(ItemId(2)))),
    (Call::Add(b""), Said::Taken(Taken::New(ItemId(3)))),
    (
        Call::Lists(0, 50, &[ItemId(1), ItemId(2), ItemId(3)]),
        Said::Holds(true),
    ),
    (Call::Lists(1, 1, &[ItemId(2)]), Said::Holds(true)),
    (Call::Lists(3, 50, &[]), Said::Holds(true)),
];

// Opening makes 15 calls of the disk, adding and beginning four each, describing eight, landing one, and
// a checkpoint five, of which the first syncs the part.
const ROWS: [Row; 11] = [
    (
        Some(FailingCall {
            call: 31,
            kind: DiskKind::NoSpace,
        }),
        Opening {
            given: &[],
            groups: &[&ASKED, &TOLD, &NO_SPACE],
            left: &[Left::File(b"hello.txt", Some(b"hello world"))],
        },
    ),
    (
        None,
        Opening {
            given: &[Given::File(b"Report.PDF", Some(b"theirs"))],
            groups: &[&ASKED, &REPORT],
            left: &[
                Left::File(b"Report.PDF", Some(b"theirs")),
                Left::File(b"report (1).pdf", None),
            ],
        },
    ),
    (
        None,
        Opening {
            given: &[],
            groups: &[&ASKED, &CANCELLED],
            left: &[Left::File(b"Unconfirmed 1-1.crdownload", Some(b"hello"))],
        },
    ),
    (
        None,
        Opening {
            given: &[],
            groups: &[&ASKED, &TOLD, &TWO],
            left: &[
                Left::File(b"hello.txt", Some(b"hello world")),
                Left::File(b"HELLO (1).txt", None),
                Left::File(b"Unconfirmed 2-1.crdownload", Some(b"HELLO W")),
            ],
        },
    ),
    (
        None,
        Opening {
            given: &[],
            groups: &[&ASKED, &TOLD, &REMOVED],
            left: &[Left::File(b"Unconfirmed 1-1.crdownload", None)],
        },
    ),
    (
        None,
        Opening {
            given: &[],
            groups: &[&ASKED, &TOLD, &ARCHIVED],
            left: &[Left::File(b"hello.txt", Some(b"hello world"))],
        },
    ),
    (
        None,
        Opening {
            given: &[
                Given::File(b"Unconfirmed 1-7.crdownload", Some(b"of an older epoch")),
                Given::File(b"Unconfirmed 2-1.crdownload", Some(b"of no item yet")),
                Given::File(b"unconfirmed 1-7.crdownload", Some(b"theirs")),
            ],
            groups: &[&ASKED, &TOLD, &SWEPT],
            left: &[
                Left::File(b"Unconfirmed 1-7.crdownload", None),
                Left::File(b"Unconfirmed 2-1.crdownload", Some(b"of no item yet")),
                Left::File(b"unconfirmed 1-7.crdownload", Some(b"theirs")),
                Left::File(b"Unconfirmed 1-1.crdownload", Some(b"")),
            ],
        },
    ),
    (
        Some(FailingCall {
            call: 35,
            kind: DiskKind::Denied,
        }),
        Opening {
            given: &[],
            groups: &[&ASKED, &TOLD, &BROKEN, &FOUND_UNSAVED],
            left: &[Left::File(b"Unconfirmed 1-1.crdownload", Some(b"hello"))],
        },
    ),
    (
        Some(FailingCall {
            call: 36,
            kind: DiskKind::Denied,
        }),
        Opening {
            given: &[],
            groups: &[&ASKED, &TOLD, &BROKEN, &FOUND_SAVED],
            left: &[Left::File(b"Unconfirmed 1-1.crdownload", Some(b"hello world"))],
        },
    ),
    (
        None,
        Opening {
            given: &[Given::Forms],
            groups: &[&ASKED, &TAKEN],
            left: &[Left::Files(101)],
        },
    ),
    (
        None,
        Opening {
            given: &[],
            groups: &[&THREE],
            left: &[],
        },
    ),
];

#[test]
fn disks_that_fail_or_hold_files(rt: HostRuntime) {
    for (place, (failing, opening)) in ROWS.iter().enumerate() {
        let played = play(rt.alloc(), *failing, opening);
        assert_eq!(rt; played, Played::AsSaid, "in {place}");
    }
}

#[test]
fn a_desk_takes_4096_items(rt: HostRuntime) {
    assert_eq!(rt; play(rt.alloc(), None, &AS_MANY), Played::AsSaid);
}
