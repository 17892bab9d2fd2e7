// What each command prints, and its status.
use crate::bench::{Row, disk, say};
use dm_hist::MemoryKeeper;
use dm_types::NoMemory;
use std::alloc::Global;
use std::test::Fail;

const HELLO: &[u8] = b"http://files.example/a/hello.txt";

pub(crate) const GET: Row = Row {
    words: &[b"get", b"--name", b"hello.txt", HELLO],
    may: &[(0, b"1 complete 11 11 hello.txt\n", b"")],
};

pub(crate) const ADD: Row = Row {
    words: &[b"add", b"http://h/b"],
    may: &[(0, b"2 waiting 0 ? -\n", b"")],
};

const GET_W1: Row = Row {
    words: &[b"get", b"--name", b"hello.txt", b"--word", b"w1", HELLO],
    may: &[(0, b"1 complete 11 11 hello.txt\n", b"")],
};

const ADD_W2: Row = Row {
    words: &[b"add", b"--word", b"w2", b"http://h/b"],
    may: &[(0, b"2 waiting 0 ? -\n", b"")],
};

pub(crate) const CANCEL: Row = Row {
    words: &[b"cancel", b"2"],
    may: &[(0, b"2 cancelled 0 ? -\n", b"")],
};

const ARCHIVED: Row = Row {
    words: &[b"archive"],
    may: &[(0, b"archived 2\n", b"")],
};

const NONE_ARCHIVED: Row = Row {
    words: &[b"archive"],
    may: &[(0, b"archived 0\n", b"")],
};

const NOT_ARCHIVED: Row = Row {
    words: &[b"archive"],
    may: &[(13, b"", b"history failed\n")],
};

const NO_LIST: Row = Row {
    words: &[b"list"],
    may: &[(0, b"", b"")],
};

const BOTH_LISTED: Row = Row {
    words: &[b"list"],
    may: &[(0, b"1 complete 11 11 hello.txt\n2 cancelled 0 ? -\n", b"")],
};

const NO_HISTORY: Row = Row {
    words: &[b"history"],
    may: &[(0, b"", b"")],
};

const BOTH_SHOWN: Row = Row {
    words: &[b"history"],
    may: &[(0, b"1 complete 11 hello.txt\n2 cancelled ? -\n", b"")],
};

const SECOND_SHOWN: Row = Row {
    words: &[b"history"],
    may: &[(0, b"2 cancelled ? -\n", b"")],
};

const FIRST_PAGE: Row = Row {
    words: &[b"history", b"--limit", b"1"],
    may: &[(0, b"1 complete 11 hello.txt\n", b"")],
};

const NEXT_PAGE: Row = Row {
    words: &[b"history", b"--limit", b"1", b"--after", b"1"],
    may: &[(0, b"2 cancelled ? -\n", b"")],
};

const LAST_PAGE: Row = Row {
    words: &[b"history", b"--after", b"2"],
    may: &[(0, b"", b"")],
};

const NO_PAGE: Row = Row {
    words: &[b"history", b"--limit", b"101"],
    may: &[(2, b"", b"bad words\n")],
};

const PAGE_FAILED: Row = Row {
    words: &[b"history"],
    may: &[(13, b"", b"history failed\n")],
};

const ADDED_BEFORE: Row = Row {
    words: &[b"add", b"--word", b"w1", HELLO],
    may: &[(0, b"1 complete 11 hello.txt\n", b"")],
};

const BROUGHT_BEFORE: Row = Row {
    words: &[b"get", b"--word", b"w1", HELLO],
    may: &[(0, b"1 complete 11 hello.txt\n", b"")],
};

const CANCELLED_BEFORE: Row = Row {
    words: &[b"get", b"--word", b"w2", b"http://h/b"],
    may: &[(4, b"2 cancelled ? -\n", b"state cancelled\n")],
};

const OTHER_ADDRESS: Row = Row {
    words: &[b"add", b"--word", b"w1", b"http://h/c"],
    may: &[(10, b"", b"word of item 1\n")],
};

const WORD_FAILED: Row = Row {
    words: &[b"add", b"--word", b"w3", b"http://h/c"],
    may: &[(13, b"", b"history failed\n")],
};

const REMOVED: Row = Row {
    words: &[b"remove", b"1"],
    may: &[(0, b"", b"")],
};

const REMOVED_BEFORE: Row = Row {
    words: &[b"remove", b"1"],
    may: &[(3, b"", b"no item 1\n")],
};

const REMOVE_FAILED: Row = Row {
    words: &[b"remove", b"1"],
    may: &[(13, b"", b"history failed\n")],
};

const ADDED_ANEW: Row = Row {
    words: &[b"add", b"--word", b"w1", b"http://h/c"],
    may: &[(0, b"3 waiting 0 ? -\n", b"")],
};

/// Which calls of the history fail, and commands one after another. Words are looked for by the history's first
/// two calls, where there are words.
const CASES: [(&[u64], &[Row]); 7] = [
    (
        &[],
        &[
            GET,
            ADD,
            CANCEL,
            NO_HISTORY,
            ARCHIVED,
            NO_LIST,
            BOTH_SHOWN,
            NONE_ARCHIVED,
            BOTH_SHOWN,
        ],
    ),
    (
        &[],
        &[
            GET, ADD, CANCEL, ARCHIVED, FIRST_PAGE, NEXT_PAGE, LAST_PAGE, NO_PAGE,
        ],
    ),
    (
        &[],
        &[
            GET_W1,
            ADD_W2,
            CANCEL,
            ARCHIVED,
            ADDED_BEFORE,
            BROUGHT_BEFORE,
            CANCELLED_BEFORE,
            OTHER_ADDRESS,
            NO_LIST,
            REMOVED,
            REMOVED_BEFORE,
            SECOND_SHOWN,
            ADDED_ANEW,
        ],
    ),
    (
        &[0],
        &[
            GET,
            ADD,
            CANCEL,
            NOT_ARCHIVED,
            BOTH_LISTED,
            NO_HISTORY,
            ARCHIVED,
            BOTH_SHOWN,
        ],
    ),
    (&[2], &[GET, ADD, CANCEL, ARCHIVED, PAGE_FAILED, BOTH_SHOWN]),
    (
        &[2],
        &[GET, ADD, CANCEL, ARCHIVED, WORD_FAILED, NO_LIST, BOTH_SHOWN],
    ),
    (
        &[2],
        &[
            GET,
            ADD,
            CANCEL,
            ARCHIVED,
            REMOVE_FAILED,
            BOTH_SHOWN,
            REMOVED,
            SECOND_SHOWN,
        ],
    ),
];

/// The first command that says something else.
fn first_other(alloc: Global, failing: &[u64], rows: &[Row]) -> Result<Option<usize>, NoMemory> {
    let mut keeper = MemoryKeeper::new(alloc, failing)?;
    let (other, _) = say(alloc, rows, disk(alloc, None, None)?, &mut keeper)?;
    Ok(other)
}

#[test]
fn items_move_to_the_history(rt: HostRuntime) -> Result<(), Fail> {
    for (place, (failing, rows)) in CASES.iter().enumerate() {
        assert_eq!(rt; first_other(rt.alloc(), failing, rows)?, None, "in {place}");
    }
    Ok(())
}
