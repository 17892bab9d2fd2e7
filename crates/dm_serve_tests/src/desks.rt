// Requests to a desk on which attempts run, and what the next run finds of it.
use crate::asks::{
    ARCHIVE, CANCEL_1, CANCEL_2, HISTORY, LIST, NO_ITEM, NO_ROWS, PAUSE_1, REMOVE_1, REMOVE_2,
    REPORT, RESUME_1, STOP, STOPPING,
};
use crate::bench::{Run, Went, play};
use crate::told::{Head, Told, Turn, conn, is_reply, is_told};
use dm_api::{ApiReply, ApiRequest, MethodKind, Served};
use dm_hist::MemoryKeeper;
use dm_items::{Begun, DeskFault, Finished, Named, Pass, Taken};
use dm_items_bench::{Call, FIRST, MemoryDesk, OTHER, OTHER_PART, PART, Said, make, waiting};
use dm_run_bench::Left;
use dm_types::{Attempt, By, Epoch, ItemId, NoMemory, Phase, Reason, Text};
use dm_works::{answer, serve_one};
use std::alloc::Global;

/// What is done at a desk next. Requests come at moment 7.
#[derive(Clone, Copy)]
enum Step {
    /// A call says this.
    Calls(Call, Said),
    /// A connection is served.
    Asks(Turn),
    /// Items are added up to as many as a list takes.
    Fills,
    /// A request without a content is answered.
    Answers(MethodKind, &'static [u8], Head, &'static str),
}

fn served_by(told: Told) -> Served {
    match told {
        Told::Reply(head, content) => Served::Answered {
            status: head.status(),
            stop: content == STOPPING,
        },
        Told::Bytes(_) | Told::Cut | Told::Unread | Told::Unwritten => Served::Dropped,
    }
}

fn ask(alloc: Global, desk: &mut MemoryDesk, keeper: &mut MemoryKeeper, turn: &Turn) -> bool {
    match conn(alloc, turn) {
        Ok(mut conn) => {
            let served = serve_one(alloc, desk, keeper, &mut conn, 7);
            served == served_by(turn.1) && is_told(alloc, conn.written(), turn.1)
        }
        Err(NoMemory) => false,
    }
}

fn request(alloc: Global, method: MethodKind, path: &[u8]) -> Result<ApiRequest, NoMemory> {
    Ok(ApiRequest {
        method,
        path: Text::from_bytes(alloc, path)?,
        query: Text::new(alloc),
        body: Text::new(alloc),
    })
}

fn is_answer(alloc: Global, reply: &ApiReply, head: Head, content: &str) -> bool {
    let is_stop = content == STOPPING;
    reply.status == head.status()
        && reply.stop == is_stop
        && is_reply(alloc, reply.bytes.bytes(), head, content)
}

fn answers(
    alloc: Global,
    desk: &mut MemoryDesk,
    keeper: &mut MemoryKeeper,
    request: &ApiRequest,
    head: Head,
    content: &str,
) -> bool {
    match answer(alloc, desk, keeper, request, 7) {
        Ok(reply) => is_answer(alloc, &reply, head, content),
        Err(NoMemory) => false,
    }
}

/// Adds items, and tells whether one more isn't taken.
fn fill(alloc: Global, desk: &mut MemoryDesk) -> bool {
    for _ in 1..4096 {
        let _ = make(alloc, desk, Call::Add(b""));
    }
    make(alloc, desk, Call::Add(b"")) == Said::No(DeskFault::ItemsFull(4096))
}

fn go(alloc: Global, desk: &mut MemoryDesk, keeper: &mut MemoryKeeper, step: &Step) -> bool {
    match step {
        Step::Calls(call, said) => make(alloc, desk, *call) == *said,
        Step::Asks(turn) => ask(alloc, desk, keeper, turn),
        Step::Fills => fill(alloc, desk),
        Step::Answers(method, path, head, content) => match request(alloc, *method, path) {
            Ok(request) => answers(alloc, desk, keeper, &request, *head, content),
            Err(NoMemory) => false,
        },
    }
}

/// The first step that goes otherwise.
fn first_other(
    alloc: Global,
    desk: &mut MemoryDesk,
    keeper: &mut MemoryKeeper,
    steps: &[Step],
) -> Option<usize> {
    for (place, step) in steps.iter().enumerate() {
        if !go(alloc, desk, keeper, step) {
            return Some(place);
        }
    }
    None
}

/// The first attempt of item 3.
const THIRD: Pass = Pass {
    id: ItemId(3),
    attempt: Attempt(1),
    epoch: Epoch(1),
};

/// Item 1 is complete, item 2 is interrupted behind 5 bytes, item 3 is running.
const BEGUN: &[Step] = &[
    Step::Calls(Call::Begin(1, By::User), Said::Begun(Begun::Fresh(FIRST))),
    Step::Calls(
        Call::Tagged(FIRST, Some(11), b"hello.txt"),
        Said::Named(Named::Named),
    ),
    Step::Calls(Call::Plan(FIRST, 1), Said::Parts(1, Some(PART))),
    Step::Calls(Call::Land(PART, 0, b"hello"), Said::Done),
    Step::Calls(Call::Land(PART, 5, b" world"), Said::Done),
    Step::Calls(Call::Finish(FIRST), Said::Finished(Finished::Complete)),
    Step::Calls(Call::Add(b"w2"), Said::Taken(Taken::New(ItemId(2)))),
    Step::Calls(Call::Begin(2, By::User), Said::Begun(Begun::Fresh(OTHER))),
    Step::Calls(
        Call::Tagged(OTHER, Some(11), b"other.txt"),
        Said::Named(Named::Named),
    ),
    Step::Calls(Call::Plan(OTHER, 1), Said::Parts(1, Some(OTHER_PART))),
    Step::Calls(Call::Land(OTHER_PART, 0, b"hello"), Said::Done),
    Step::Calls(Call::Checkpoint(OTHER), Said::Done),
    Step::Calls(Call::Cut(OTHER), Said::Done),
    Step::Calls(Call::Add(b"w3"), Said::Taken(Taken::New(ItemId(3)))),
    Step::Calls(Call::Begin(3, By::User), Said::Begun(Begun::Fresh(THIRD))),
];

const REMOVE_3: &[u8] = b"DELETE /items/3 HTTP/1.1\r\nHost: a\r\n\r\n";

const IS_RUNNING: &str = "{\"error\":\"phase\",\"phase\":\"running\"}";

const IS_COMPLETE: Told = Told::Reply(
    Head::Conflict,
    "{\"error\":\"phase\",\"phase\":\"complete\"}",
);

const THIRD_RUNS: &str =
    "{\"address\":\"http://h/a\",\"autos\":0,\"covered\":0,\"id\":3,\"name\":null,\"phase\":\"running\",\"reason\":null,\"sha256\":null,\"total\":null,\"word\":\"w3\"}";

/// A running item isn't removed, and is shown and left.
const RUNNING: &[Step] = &[
    Step::Answers(MethodKind::Delete, b"/items/3", Head::Conflict, IS_RUNNING),
    Step::Asks((REMOVE_3, Told::Reply(Head::Conflict, IS_RUNNING))),
    Step::Answers(MethodKind::Get, b"/items/3", Head::Ok, THIRD_RUNS),
    Step::Asks((
        b"POST /items/3/resume HTTP/1.1\r\n\r\n",
        Told::Reply(Head::Ok, THIRD_RUNS),
    )),
    Step::Asks((
        b"GET /items?after=1&limit=1 HTTP/1.1\r\n\r\n",
        Told::Reply(
            Head::Ok,
            "{\"items\":[{\"address\":\"http://h/a\",\"autos\":0,\"covered\":5,\"id\":2,\"name\":\"other.txt\",\"phase\":\"interrupted\",\"reason\":38,\"sha256\":null,\"total\":11,\"word\":\"w2\"}]}",
        ),
    )),
    Step::Asks((
        REPORT,
        Told::Reply(
            Head::Text,
            "waiting 0\nrunning 1\npaused 0\nfinishing 0\ncomplete 1\ncancelled 0\ninterrupted 1\nreason 38 1\nbytes 16\n",
        ),
    )),
    Step::Asks((PAUSE_1, IS_COMPLETE)),
    Step::Asks((RESUME_1, IS_COMPLETE)),
    Step::Asks((CANCEL_1, IS_COMPLETE)),
    Step::Asks((
        b"POST /items/2/resume HTTP/1.1\r\n\r\n",
        Told::Reply(
            Head::Ok,
            "{\"address\":\"http://h/a\",\"autos\":0,\"covered\":5,\"id\":2,\"name\":\"other.txt\",\"phase\":\"waiting\",\"reason\":38,\"sha256\":null,\"total\":11,\"word\":\"w2\"}",
        ),
    )),
    Step::Asks((b"POST /items/3/pa", Told::Cut)),
    Step::Answers(MethodKind::Post, b"/stop", Head::Ok, STOPPING),
    Step::Asks((STOP, Told::Reply(Head::Ok, STOPPING))),
];

/// It is paused, which ends its attempt.
const PAUSED: &[Step] = &[
    Step::Asks((
        b"POST /items/3/pause HTTP/1.1\r\n\r\n",
        Told::Reply(
            Head::Ok,
            "{\"address\":\"http://h/a\",\"autos\":0,\"covered\":0,\"id\":3,\"name\":null,\"phase\":\"paused\",\"reason\":null,\"sha256\":null,\"total\":null,\"word\":\"w3\"}",
        ),
    )),
    Step::Asks((
        b"POST /items/3/resume HTTP/1.1\r\n\r\n",
        Told::Reply(
            Head::Ok,
            "{\"address\":\"http://h/a\",\"autos\":0,\"covered\":0,\"id\":3,\"name\":null,\"phase\":\"waiting\",\"reason\":null,\"sha256\":null,\"total\":null,\"word\":\"w3\"}",
        ),
    )),
    Step::Asks((REMOVE_3, Told::Reply(Head::Ok, "{\"removed\":3}"))),
];

/// The end of a session interrupts it.
const SHUT: &[Step] = &[
    Step::Calls(Call::Shut, Said::Done),
    Step::Calls(
        Call::View(3),
        Said::Is(Phase::Interrupted(Reason::UserShutdown), 0),
    ),
    Step::Calls(Call::View(1), Said::Is(Phase::Complete, 11)),
];

/// The part of item 2.
const HALF: &[u8] = b"Unconfirmed 2-1.crdownload";

/// What the next run finds: the attempt that ran is gone, and the part of a cancelled item too.
const FOUND: &[crate::bench::Step] = &[
    crate::bench::Step::Left(Left::File(HALF, b"hello")),
    crate::bench::Step::Serves(Run {
        turns: &[
            (
                LIST,
                Told::Reply(
                    Head::Ok,
                    "{\"items\":[{\"address\":\"http://h/a\",\"autos\":0,\"covered\":11,\"id\":1,\"name\":\"hello.txt\",\"phase\":\"complete\",\"reason\":null,\"sha256\":\"b94d27b9934d3e08a52e52d7da7dabfac484efe37a5380ee9088f7ace2efcde9\",\"total\":11,\"word\":\"\"},{\"address\":\"http://h/a\",\"autos\":0,\"covered\":5,\"id\":2,\"name\":\"other.txt\",\"phase\":\"waiting\",\"reason\":38,\"sha256\":null,\"total\":11,\"word\":\"w2\"},{\"address\":\"http://h/a\",\"autos\":0,\"covered\":0,\"id\":3,\"name\":null,\"phase\":\"interrupted\",\"reason\":50,\"sha256\":null,\"total\":null,\"word\":\"w3\"}]}",
                ),
            ),
            (
                CANCEL_2,
                Told::Reply(
                    Head::Ok,
                    "{\"address\":\"http://h/a\",\"autos\":0,\"covered\":5,\"id\":2,\"name\":\"other.txt\",\"phase\":\"cancelled\",\"reason\":40,\"sha256\":null,\"total\":11,\"word\":\"w2\"}",
                ),
            ),
            (HISTORY, Told::Reply(Head::Ok, NO_ROWS)),
            (ARCHIVE, Told::Reply(Head::Ok, "{\"archived\":2}")),
            (
                HISTORY,
                Told::Reply(
                    Head::Ok,
                    "{\"rows\":[{\"address\":\"http://h/a\",\"at\":0,\"id\":1,\"name\":\"hello.txt\",\"phase\":\"complete\",\"sha256\":\"b94d27b9934d3e08a52e52d7da7dabfac484efe37a5380ee9088f7ace2efcde9\",\"total\":11,\"word\":\"\"},{\"address\":\"http://h/a\",\"at\":0,\"id\":2,\"name\":\"other.txt\",\"phase\":\"cancelled\",\"sha256\":null,\"total\":11,\"word\":\"w2\"}]}",
                ),
            ),
            (REMOVE_2, Told::Reply(Head::Ok, "{\"removed\":2}")),
            (REMOVE_2, Told::Reply(Head::NotFound, NO_ITEM)),
        ],
        ..Run::SERVE
    }),
    crate::bench::Step::Left(Left::Stands(HALF, false)),
    crate::bench::Step::Left(Left::File(b"hello.txt", b"hello world")),
];

/// A full list takes no more, and its next item has a number that none had.
const FULL: &[Step] = &[
    Step::Asks((
        b"POST /items HTTP/1.1\r\nHost: a\r\nContent-Length: 32\r\n\r\n{\"url\":\"http://h/d\",\"word\":\"w4\"}",
        Told::Reply(Head::Conflict, "{\"count\":4096,\"error\":\"full\"}"),
    )),
    Step::Asks((REMOVE_1, Told::Reply(Head::Ok, "{\"removed\":1}"))),
    Step::Asks((
        b"POST /items HTTP/1.1\r\nHost: a\r\nContent-Length: 32\r\n\r\n{\"url\":\"http://h/d\",\"word\":\"w4\"}",
        Told::Reply(
            Head::Ok,
            "{\"address\":\"http://h/d\",\"autos\":0,\"covered\":0,\"id\":4097,\"name\":null,\"phase\":\"waiting\",\"reason\":null,\"sha256\":null,\"total\":null,\"word\":\"w4\"}",
        ),
    )),
];

/// How steps at a desk went, and those of the next runs.
#[derive(Clone, Copy, Debug, PartialEq, Eq)]
enum Played {
    AsSaid,
    NotMade,
    /// The first step that went otherwise.
    Other(usize),
    /// The first one of the next runs.
    Later(usize, Went),
}

/// Both groups of steps at a desk, and then the steps on its disk.
fn play_all(
    alloc: Global,
    desk: MemoryDesk,
    keeper: &mut MemoryKeeper,
    groups: (&[Step], &[Step]),
    later: &[crate::bench::Step],
) -> Played {
    let mut desk = desk;
    let first = first_other(alloc, &mut desk, keeper, groups.0);
    let next = first_other(alloc, &mut desk, keeper, groups.1);
    let behind = play(alloc, desk.into_disk(), keeper, later);
    match (first, next, behind) {
        (Some(place), _, _) => Played::Other(place),
        (None, Some(place), _) => Played::Other(place),
        (None, None, Some((place, went))) => Played::Later(place, went),
        (None, None, None) => Played::AsSaid,
    }
}

/// The same from a desk with item 1 on.
fn play_from_one(
    alloc: Global,
    groups: (&[Step], &[Step]),
    later: &[crate::bench::Step],
) -> Played {
    match MemoryKeeper::new(alloc, &[]) {
        Ok(mut keeper) => match waiting(alloc) {
            Some(desk) => play_all(alloc, desk, &mut keeper, groups, later),
            None => Played::NotMade,
        },
        Err(NoMemory) => Played::NotMade,
    }
}

#[test]
fn a_running_item_is_shown_and_left(rt: HostRuntime) {
    assert_eq!(rt;
        play_from_one(rt.alloc(), (BEGUN, RUNNING), FOUND),
        Played::AsSaid
    );
}

#[test]
fn a_running_item_is_paused_or_interrupted(rt: HostRuntime) {
    for last in [PAUSED, SHUT] {
        assert_eq!(rt;
            play_from_one(rt.alloc(), (BEGUN, last), &[]),
            Played::AsSaid
        );
    }
}

#[test]
fn a_full_list_takes_no_more(rt: HostRuntime) {
    assert_eq!(rt;
        play_from_one(rt.alloc(), (&[Step::Fills], FULL), &[]),
        Played::AsSaid
    );
}
