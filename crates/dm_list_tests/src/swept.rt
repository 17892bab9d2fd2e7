// Which parts stand behind a command.
use crate::runs::ListRuns;
use dm_run_bench::{Asked, Left, Played, Row, Step, Told, play};

/// Of eleven bytes five come, under a tag.
const CUT: &[u8] = b"HTTP/1.1 200 OK\r\nETag: \"a\"\r\nContent-Length: 11\r\n\r\nhello";

/// The part of item 1.
const PART: &[u8] = b"Unconfirmed 1-1.crdownload";

/// A part of a number that no item ever had.
const OTHER: &[u8] = b"Unconfirmed 9-1.crdownload";

/// It is interrupted there.
const INTERRUPTED: Row = Row {
    words: &[b"get", b"--name", b"a.txt", b"http://h/a"],
    streams: &[CUT],
    asked: Asked::Anyhow,
    told: Told::Anyhow,
    status: 1,
    ..Row::NOTHING
};

const ENDS: Row = Row {
    told: Told::Anyhow,
    ..Row::NOTHING
};

const SHOW: Row = Row {
    words: &[b"show", b"1"],
    ..ENDS
};

const CANCEL: Row = Row {
    words: &[b"cancel", b"1"],
    ..ENDS
};

const REMOVE: Row = Row {
    words: &[b"remove", b"1"],
    ..ENDS
};

#[test]
fn the_part_of_an_item_that_is_gone_is_removed(rt: HostRuntime) {
    for (row, stays) in [(SHOW, true), (CANCEL, false), (REMOVE, false)] {
        let steps = [
            Step::File(b"notes.txt", b"mine"),
            Step::File(OTHER, b"mine"),
            Step::Runs(INTERRUPTED),
            Step::Left(Left::Stands(PART, true)),
            Step::Left(Left::Stands(b"notes.txt", true)),
            Step::Left(Left::Stands(OTHER, true)),
            Step::Runs(row),
            Step::Left(Left::Stands(PART, stays)),
            Step::Left(Left::Stands(b"notes.txt", true)),
            Step::Left(Left::Stands(OTHER, true)),
        ];
        assert_eq!(rt; play(rt.alloc(), &ListRuns, None, &steps), Played::AsSaid);
    }
}
