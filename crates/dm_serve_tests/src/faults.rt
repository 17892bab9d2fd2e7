// A fault of each call of the disk, and a stop behind each, while requests change the list and the history: what is told,
// and what the list and the history have when they are opened anew.
use crate::asks::{
    A_IN_HISTORY, A_IS_CANCELLED, A_IS_PAUSED, A_LISTED, A_WAITS, ADD_A, ADD_B, ARCHIVE,
    B_IS_CANCELLED, B_WAITS, BOTH_CANCELLED_LISTED, BOTH_IN_HISTORY, BOTH_LISTED, CANCEL_1,
    CANCEL_2, CANCELLED_B_LISTED, DISK_FAILED, HISTORY, IS_BROKEN, LIST, NO_ITEMS, NO_ROWS,
    PAUSE_1, RESUME_1, STOP, STOPPING,
};
use crate::bench::{Outside, Run, Step, disk, make_outside, played, printed, serve, tools};
use crate::told::{Head, Told, Turn, conn, conns, first_other, was_told};
use dm_conns::ConnsMem;
use dm_disk::{MemoryDisk, Pick};
use dm_hist::MemoryKeeper;
use dm_types::NoMemory;
use std::alloc::Global;

/// Changes, each of which makes at least one call of the disk.
const CHANGES: [Turn; 8] = [
    (ADD_A, Told::Reply(Head::Ok, A_WAITS)),
    (ADD_B, Told::Reply(Head::Ok, B_WAITS)),
    (PAUSE_1, Told::Reply(Head::Ok, A_IS_PAUSED)),
    (RESUME_1, Told::Reply(Head::Ok, A_WAITS)),
    (CANCEL_1, Told::Reply(Head::Ok, A_IS_CANCELLED)),
    (CANCEL_2, Told::Reply(Head::Ok, B_IS_CANCELLED)),
    (ARCHIVE, Told::Reply(Head::Ok, "{\"archived\":2}")),
    (
        b"POST /items HTTP/1.1\r\nHost: a\r\nContent-Length: 32\r\n\r\n{\"url\":\"http://h/c\",\"word\":\"w3\"}",
        Told::Reply(
            Head::Ok,
            "{\"address\":\"http://h/c\",\"autos\":0,\"covered\":0,\"id\":3,\"name\":null,\"phase\":\"waiting\",\"reason\":null,\"sha256\":null,\"total\":null,\"word\":\"w3\"}",
        ),
    ),
];

/// What is looked at behind them.
const LOOKS: [Turn; 2] = [
    (LIST, Told::Reply(Head::Ok, NO_ITEMS)),
    (HISTORY, Told::Reply(Head::Ok, NO_ROWS)),
];

/// What the list and the history show.
type Shown = (&'static str, &'static str);

const NONE: Shown = (NO_ITEMS, NO_ROWS);

const A_WAITING: Shown = (A_LISTED, NO_ROWS);

const BOTH_WAITING: Shown = (BOTH_LISTED, NO_ROWS);

const A_PAUSED: Shown = (
    "{\"items\":[{\"address\":\"http://h/a\",\"autos\":0,\"covered\":0,\"id\":1,\"name\":null,\"phase\":\"paused\",\"reason\":null,\"sha256\":null,\"total\":null,\"word\":\"w1\"},{\"address\":\"http://h/b\",\"autos\":0,\"covered\":0,\"id\":2,\"name\":null,\"phase\":\"waiting\",\"reason\":null,\"sha256\":null,\"total\":null,\"word\":\"w2\"}]}",
    NO_ROWS,
);

const A_CANCELLED: Shown = (
    "{\"items\":[{\"address\":\"http://h/a\",\"autos\":0,\"covered\":0,\"id\":1,\"name\":null,\"phase\":\"cancelled\",\"reason\":40,\"sha256\":null,\"total\":null,\"word\":\"w1\"},{\"address\":\"http://h/b\",\"autos\":0,\"covered\":0,\"id\":2,\"name\":null,\"phase\":\"waiting\",\"reason\":null,\"sha256\":null,\"total\":null,\"word\":\"w2\"}]}",
    NO_ROWS,
);

const BOTH_CANCELLED: Shown = (BOTH_CANCELLED_LISTED, NO_ROWS);

const A_MOVED: Shown = (CANCELLED_B_LISTED, A_IN_HISTORY);

const BOTH_MOVED: Shown = (NO_ITEMS, BOTH_IN_HISTORY);

const ALL: Shown = (
    "{\"items\":[{\"address\":\"http://h/c\",\"autos\":0,\"covered\":0,\"id\":3,\"name\":null,\"phase\":\"waiting\",\"reason\":null,\"sha256\":null,\"total\":null,\"word\":\"w3\"}]}",
    BOTH_IN_HISTORY,
);

/// What changes that were told as done left, and what the next one may have made of it.
type May = (&'static [Shown], Shown);

/// What may be shown, by how many changes were told as done.
const MAY: [May; 9] = [
    (&[NONE], A_WAITING),
    (&[A_WAITING], BOTH_WAITING),
    (&[BOTH_WAITING], A_PAUSED),
    (&[A_PAUSED], BOTH_WAITING),
    (&[BOTH_WAITING], A_CANCELLED),
    (&[A_CANCELLED], BOTH_CANCELLED),
    (&[BOTH_CANCELLED, A_MOVED], BOTH_MOVED),
    (&[BOTH_MOVED], ALL),
    (&[ALL], ALL),
];

/// How a session went.
#[derive(Clone, Copy, Debug, PartialEq, Eq)]
enum Went {
    /// The list couldn't be opened, which is told, and nothing was accepted.
    NotOpened,
    /// So many changes were done. The next one is told as failed, the others as broken, and the session shows the list as
    /// those that were done left it.
    Done(usize),
    Sound,
    /// Something else was told.
    Otherwise,
}

/// Whether the connections at these places were told the list and the history of one of these.
fn shows(alloc: Global, conns: &ConnsMem, first: usize, next: usize, may: &[Shown]) -> bool {
    for (list, rows) in may {
        if was_told(alloc, conns, first, Told::Reply(Head::Ok, *list))
            && was_told(alloc, conns, next, Told::Reply(Head::Ok, *rows))
        {
            return true;
        }
    }
    false
}

/// What is told of a change where so many were done and the next one failed. Where nothing is cancelled yet an archive
/// changes nothing.
fn refusal_of(done: usize, place: usize) -> Told {
    if place == done {
        Told::Reply(Head::Unavailable, DISK_FAILED)
    } else if place == 6 && done < 5 {
        Told::Reply(Head::Ok, "{\"archived\":0}")
    } else {
        Told::Reply(Head::Unavailable, IS_BROKEN)
    }
}

/// Whether the change behind those that were done is told as failed, and each one behind it as broken.
fn are_refused(alloc: Global, conns: &ConnsMem, done: usize) -> bool {
    for place in done..CHANGES.len() {
        if !was_told(alloc, conns, place, refusal_of(done, place)) {
            return false;
        }
    }
    true
}

/// Whether the session shows what so many changes left. An archive that failed may have moved the first item.
fn shows_left(alloc: Global, conns: &ConnsMem, done: usize) -> bool {
    match MAY.get(done) {
        Some((left, _)) => shows(alloc, conns, CHANGES.len(), CHANGES.len() + 1, *left),
        None => false,
    }
}

/// How the changes went, by what was told and by how the session ended.
fn judge(alloc: Global, outside: &Outside, status: u8) -> Went {
    let conns = &outside.conns;
    let done = first_other(alloc, conns, &CHANGES).unwrap_or(CHANGES.len());
    let is_shown = shows_left(alloc, conns, done);
    if conns.served() == 0 {
        let is_told = printed(outside, b"disk denied\n") || printed(outside, b"disk failed\n");
        if status == 6 && is_told {
            Went::NotOpened
        } else {
            Went::Otherwise
        }
    } else if !is_shown || !are_refused(alloc, conns, done) {
        Went::Otherwise
    } else if done < CHANGES.len() && status == 6 && printed(outside, b"disk failed\n") {
        Went::Done(done)
    } else if done == CHANGES.len() && status == 0 && printed(outside, b"") {
        Went::Sound
    } else {
        Went::Otherwise
    }
}

/// All the changes, behind which the list and the history are looked at.
fn outside_of_changes(alloc: Global) -> Result<Outside, NoMemory> {
    let mut coming = conns(alloc, &CHANGES)?;
    for turn in &LOOKS {
        coming.push(conn(alloc, turn)?)?;
    }
    make_outside(alloc, &Run::SERVE, coming)
}

fn outside_of_looks(alloc: Global) -> Result<Outside, NoMemory> {
    let coming = conns(alloc, &LOOKS)?;
    make_outside(alloc, &Run::SERVE, coming)
}

/// A session of all the changes, and the disk.
fn session(alloc: Global, disk: MemoryDisk, keeper: &mut MemoryKeeper) -> (Went, MemoryDisk) {
    match outside_of_changes(alloc) {
        Ok(mut outside) => {
            let (status, disk) = serve(alloc, &mut outside, disk, keeper, 10);
            (judge(alloc, &outside, status), disk)
        }
        Err(NoMemory) => (Went::Otherwise, disk),
    }
}

/// What may be found behind a session that went so.
fn may_behind(went: Went) -> Option<May> {
    match went {
        Went::NotOpened => Some((&[NONE], NONE)),
        Went::Done(done) => match MAY.get(done) {
            Some(may) => Some(*may),
            None => None,
        },
        Went::Sound => Some((&[ALL], ALL)),
        Went::Otherwise => None,
    }
}

fn shows_may(alloc: Global, conns: &ConnsMem, may: Option<May>) -> bool {
    match may {
        Some((left, next)) => {
            shows(alloc, conns, 0, 1, left) || shows(alloc, conns, 0, 1, &[next])
        }
        None => false,
    }
}

/// Whether the next run shows what may be found behind a session that went so, each item and each row once.
fn is_found(alloc: Global, disk: MemoryDisk, keeper: &mut MemoryKeeper, went: Went) -> bool {
    match outside_of_looks(alloc) {
        Ok(mut outside) => {
            let (status, _) = serve(alloc, &mut outside, disk, keeper, 2);
            status == 0 && shows_may(alloc, &outside.conns, may_behind(went))
        }
        Err(NoMemory) => false,
    }
}

fn is_found_on(
    alloc: Global,
    left: &MemoryDisk,
    pick: Pick,
    keeper: &mut MemoryKeeper,
    went: Went,
) -> bool {
    match left.image(alloc, pick) {
        Ok(image) => is_found(alloc, image, keeper, went),
        Err(NoMemory) => false,
    }
}

/// A session over a disk that stops: how it went, where both images have what was told as done.
fn by_images(alloc: Global, disk: MemoryDisk, keeper: &mut MemoryKeeper) -> Went {
    let (went, left) = session(alloc, disk, keeper);
    let least = is_found_on(alloc, &left, Pick::Least, keeper, went);
    let present = is_found_on(alloc, &left, Pick::Present, keeper, went);
    if least && present {
        went
    } else {
        Went::Otherwise
    }
}

/// The same over a disk of which a call is denied, where the next run has what was told as done.
fn by_next_run(alloc: Global, disk: MemoryDisk, keeper: &mut MemoryKeeper) -> Went {
    let (went, left) = session(alloc, disk, keeper);
    if is_found(alloc, left, keeper, went) {
        went
    } else {
        Went::Otherwise
    }
}

fn after_stop(alloc: Global, calls: u64) -> Went {
    match (
        disk(alloc, None, Some(calls)),
        MemoryKeeper::new(alloc, &[]),
    ) {
        (Ok(disk), Ok(mut keeper)) => by_images(alloc, disk, &mut keeper),
        _ => Went::Otherwise,
    }
}

fn after_fault(alloc: Global, call: u64) -> Went {
    match tools(alloc, Some(call), &[]) {
        Ok((disk, mut keeper)) => by_next_run(alloc, disk, &mut keeper),
        Err(NoMemory) => Went::Otherwise,
    }
}

/// More calls of the disk than a session makes.
const MANY: u64 = 200;

/// Stops after each call: how many calls a whole session makes, and how the last one went that wasn't whole.
fn stops(alloc: Global) -> (u64, Went) {
    let mut last = Went::Sound;
    for calls in 0..MANY {
        match after_stop(alloc, calls) {
            Went::Sound => return (calls, last),
            Went::Otherwise => return (calls, Went::Otherwise),
            went => last = went,
        }
    }
    (MANY, Went::Otherwise)
}

/// The first of so many calls whose denial goes otherwise, and how the last one went.
fn faults(alloc: Global, calls: u64) -> (Option<u64>, Went) {
    let mut last = Went::Sound;
    for call in 0..calls {
        last = after_fault(alloc, call);
        if last == Went::Otherwise {
            return (Some(call), last);
        }
    }
    (None, last)
}

#[test]
fn a_stop_or_a_fault_at_each_call_leaves_what_was_told(rt: HostRuntime) {
    let (calls, last) = stops(rt.alloc());
    assert_eq!(rt; last, Went::Done(7), "behind {calls}");
    assert_eq!(rt; faults(rt.alloc(), calls), (None, Went::Done(7)));
}

const SERVE: Run = Run::SERVE;

/// An opening makes 15 calls of the disk, and an item that is added four.
const BROKEN: &[Turn] = &[
    (ADD_A, Told::Reply(Head::Unavailable, DISK_FAILED)),
    (ADD_A, Told::Reply(Head::Unavailable, IS_BROKEN)),
    (LIST, Told::Reply(Head::Ok, NO_ITEMS)),
    (HISTORY, Told::Reply(Head::Ok, NO_ROWS)),
    (STOP, Told::Reply(Head::Ok, STOPPING)),
];

/// Which call fails, and how the run goes. That none is accepted is told before a broken list.
const ENDS: [(u64, Run); 3] = [
    (
        0,
        Run {
            left: &[(LIST, Told::Cut)],
            requests: Some(1),
            status: 6,
            errs: b"disk denied\n",
            ..SERVE
        },
    ),
    (
        15,
        Run {
            turns: BROKEN,
            requests: Some(9),
            status: 6,
            errs: b"disk failed\n",
            ..SERVE
        },
    ),
    (
        16,
        Run {
            turns: &[(ADD_A, Told::Reply(Head::Unavailable, DISK_FAILED))],
            requests: Some(2),
            status: 12,
            errs: b"accept failed\n",
            ..SERVE
        },
    ),
];

#[test]
fn a_broken_list_is_told(rt: HostRuntime) {
    for (call, run) in &ENDS {
        let other = played(rt.alloc(), Some(*call), &[], &[Step::Serves(*run)]);
        assert_eq!(rt; other, None, "at {call}");
    }
}
