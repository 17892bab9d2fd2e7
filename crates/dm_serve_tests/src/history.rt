// What is asked of the history, also where its calls fail.
ghost use Rattle.std.specs.Prelude.{[]};
ghost use Rattle.dm_hist.specs.Faults.{keeper_count};

use crate::asks::{
    A_IN_HISTORY, A_IS_CANCELLED, A_LISTED, A_ROW, A_WAITS, ADD_A, ADD_B, ADD_OTHER, ARCHIVE,
    B_IN_HISTORY, B_IS_CANCELLED, B_WAITS, BOTH_CANCELLED_LISTED, BOTH_IN_HISTORY, CANCEL_1,
    CANCEL_2, CANCELLED_B_LISTED, HISTORY, HISTORY_FAILED, LIST, NO_ITEM, NO_ITEMS, NO_ROWS,
    REMOVE_1,
};
use crate::bench::{Run, Step, Went, disk, play, played};
use crate::told::{Head, Told, Turn};
use dm_hist::{Keeper, KeeperFault, Row, RowFilter, RowList};
use dm_types::{ItemId, NoMemory};
use std::alloc::Global;

const FAILED: Told = Told::Reply(Head::Unavailable, HISTORY_FAILED);

const ARCHIVED_2: Turn = (ARCHIVE, Told::Reply(Head::Ok, "{\"archived\":2}"));

const ARCHIVED_1: Turn = (ARCHIVE, Told::Reply(Head::Ok, "{\"archived\":1}"));

const ARCHIVED_0: Turn = (ARCHIVE, Told::Reply(Head::Ok, "{\"archived\":0}"));

const NONE_LISTED: Turn = (LIST, Told::Reply(Head::Ok, NO_ITEMS));

const NO_HISTORY: Turn = (HISTORY, Told::Reply(Head::Ok, NO_ROWS));

const BOTH_SHOWN: Turn = (HISTORY, Told::Reply(Head::Ok, BOTH_IN_HISTORY));

const REMOVED: Turn = (REMOVE_1, Told::Reply(Head::Ok, "{\"removed\":1}"));

/// Both items are added and cancelled. Each word is looked for by a call of the history.
const BOTH: &[Turn] = &[
    (ADD_A, Told::Reply(Head::Ok, A_WAITS)),
    (ADD_B, Told::Reply(Head::Ok, B_WAITS)),
    (CANCEL_1, Told::Reply(Head::Ok, A_IS_CANCELLED)),
    (CANCEL_2, Told::Reply(Head::Ok, B_IS_CANCELLED)),
];

/// Both move, and are asked for and removed there.
const MOVED: &[Turn] = &[
    NO_HISTORY,
    ARCHIVED_2,
    NONE_LISTED,
    BOTH_SHOWN,
    (
        b"GET /history?limit=1 HTTP/1.1\r\n\r\n",
        Told::Reply(Head::Ok, A_IN_HISTORY),
    ),
    (
        b"GET /history?after=1&limit=1 HTTP/1.1\r\n\r\n",
        Told::Reply(Head::Ok, B_IN_HISTORY),
    ),
    (ADD_A, Told::Reply(Head::Ok, A_ROW)),
    (
        ADD_OTHER,
        Told::Reply(Head::Conflict, "{\"error\":\"word\",\"item\":1}"),
    ),
    NONE_LISTED,
    ARCHIVED_0,
    REMOVED,
    (REMOVE_1, Told::Reply(Head::NotFound, NO_ITEM)),
    (HISTORY, Told::Reply(Head::Ok, B_IN_HISTORY)),
    (
        ADD_OTHER,
        Told::Reply(
            Head::Ok,
            "{\"address\":\"http://h/b\",\"autos\":0,\"covered\":0,\"id\":3,\"name\":null,\"phase\":\"waiting\",\"reason\":null,\"sha256\":null,\"total\":null,\"word\":\"w1\"}",
        ),
    ),
];

/// A word isn't looked for.
const NOT_ADDED: &[Turn] = &[
    (ADD_A, FAILED),
    NONE_LISTED,
    (ADD_A, Told::Reply(Head::Ok, A_WAITS)),
    (LIST, Told::Reply(Head::Ok, A_LISTED)),
];

/// The first row isn't put, and then the second one.
const NONE_MOVED: &[Turn] = &[
    (ARCHIVE, FAILED),
    (LIST, Told::Reply(Head::Ok, BOTH_CANCELLED_LISTED)),
    NO_HISTORY,
    ARCHIVED_2,
    NONE_LISTED,
    BOTH_SHOWN,
];

const ONE_MOVED: &[Turn] = &[
    (ARCHIVE, FAILED),
    (LIST, Told::Reply(Head::Ok, CANCELLED_B_LISTED)),
    (HISTORY, Told::Reply(Head::Ok, A_IN_HISTORY)),
    ARCHIVED_1,
    NONE_LISTED,
    BOTH_SHOWN,
];

/// A page isn't read, and a row isn't dropped.
const NOT_READ: &[Turn] = &[(HISTORY, FAILED), NO_HISTORY];

const NOT_DROPPED: &[Turn] = &[
    ARCHIVED_2,
    (REMOVE_1, FAILED),
    BOTH_SHOWN,
    REMOVED,
    (HISTORY, Told::Reply(Head::Ok, B_IN_HISTORY)),
];

/// Which call of the history fails, and what is asked one after another.
const CASES: [(&[u64], &[Turn], &[Turn]); 6] = [
    (&[], BOTH, MOVED),
    (&[0], &[], NOT_ADDED),
    (&[2], BOTH, NONE_MOVED),
    (&[3], BOTH, ONE_MOVED),
    (&[2], BOTH, NOT_READ),
    (&[4], BOTH, NOT_DROPPED),
];

#[test]
fn items_move_to_the_history(rt: HostRuntime) {
    for (number, (failing, before, turns)) in CASES.iter().enumerate() {
        let steps = [
            Step::Serves(Run {
                turns: *before,
                ..Run::SERVE
            }),
            Step::Serves(Run {
                turns: *turns,
                ..Run::SERVE
            }),
        ];
        let other = played(rt.alloc(), None, failing, &steps);
        assert_eq!(rt; other, None, "in {number}");
    }
}

/// A history for which there is no memory.
#[derive(Drop)]
struct Wanting;

impl Keeper for Wanting {
    ghost tells = { ⊥ };

    ghost rows = { λ _. [] };

    ghost faults = { λ _. keeper_count 0 };

    fn rows_rise(&self) {}

    fn put_row(&mut self, _row: &Row) -> Result<(), KeeperFault> {
        Err(KeeperFault::NoMemory)
    }

    fn find_row(&mut self, _id: ItemId) -> Result<Option<Row>, KeeperFault> {
        Err(KeeperFault::NoMemory)
    }

    fn find_word(&mut self, _word: &[u8]) -> Result<Option<Row>, KeeperFault> {
        Err(KeeperFault::NoMemory)
    }

    fn rows_page(
        &mut self,
        _filter: &RowFilter,
        _after: u32,
        _limit: u32,
    ) -> Result<RowList, KeeperFault> {
        Err(KeeperFault::NoMemory)
    }

    fn drop_row(&mut self, _id: ItemId) -> Result<bool, KeeperFault> {
        Err(KeeperFault::NoMemory)
    }
}

const NO_MEMORY: Told = Told::Reply(Head::NoMemory, "{\"error\":\"memory\"}");

const WANTED: &[Turn] = &[
    (ADD_A, NO_MEMORY),
    (HISTORY, NO_MEMORY),
    (REMOVE_1, NO_MEMORY),
    ARCHIVED_0,
    NONE_LISTED,
];

/// The first run that goes otherwise.
fn first_untold(alloc: Global) -> Option<(usize, Went)> {
    let steps = [Step::Serves(Run {
        turns: WANTED,
        ..Run::SERVE
    })];
    match disk(alloc, None, None) {
        Ok(disk) => play(alloc, disk, &mut Wanting, &steps),
        Err(NoMemory) => Some((usize::MAX, Went::Otherwise)),
    }
}

#[test]
fn want_of_memory_is_told(rt: HostRuntime) {
    assert_eq!(rt; first_untold(rt.alloc()), None);
}
