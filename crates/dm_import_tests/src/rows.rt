// What imports print, and what the list then has.
use crate::bench::{Row, disk, put, say};
use dm_hist::MemoryKeeper;
use std::alloc::Global;
use std::test::Fail;

/// A file, and what commands say behind it.
struct Case {
    file: &'static [u8],
    streams: &'static [&'static [u8]],
    rows: &'static [Row],
}

const IMPORT: &[&[u8]] = &[b"import", b"links.csv"];

const LIST: &[&[u8]] = &[b"list"];

const DONE: Row = Row {
    words: &[],
    status: 0,
    out: b"",
    errs: b"",
};

/// Two items, twice; then one is paused and one removed, and the file is imported again.
const TWO: Case = Case {
    file: b"word,address,name,sha256\nw1,http://h/a,,\nw2,http://h/b,b.txt,e3b0c44298fc1c149afbf4c8996fb92427ae41e4649b934ca495991b7852b855\n",
    streams: &[],
    rows: &[
        Row {
            words: IMPORT,
            out: b"1 waiting 0 ? -\n2 waiting 0 ? -\n",
            ..DONE
        },
        Row {
            words: IMPORT,
            out: b"1 waiting 0 ? -\n2 waiting 0 ? -\n",
            ..DONE
        },
        Row {
            words: LIST,
            out: b"1 waiting 0 ? -\n2 waiting 0 ? -\n",
            ..DONE
        },
        Row {
            words: &[b"export"],
            out: b"id,word,address,name,state,reason,total,sha256\n1,w1,http://h/a,,waiting,,,\n2,w2,http://h/b,,waiting,,,\n",
            ..DONE
        },
        Row {
            words: &[b"pause", b"1"],
            out: b"1 paused 0 ? -\n",
            ..DONE
        },
        Row {
            words: &[b"remove", b"2"],
            out: b"",
            ..DONE
        },
        Row {
            words: &[b"report"],
            out: b"waiting 0\nrunning 0\npaused 1\nfinishing 0\ncomplete 0\ncancelled 0\ninterrupted 0\nbytes 0\n",
            ..DONE
        },
        Row {
            words: LIST,
            out: b"1 paused 0 ? -\n",
            ..DONE
        },
        Row {
            words: IMPORT,
            out: b"1 paused 0 ? -\n3 waiting 0 ? -\n",
            ..DONE
        },
    ],
};

/// A word twice with one address, and then with another: what was added before stays, and the rest isn't added.
const TWICE: Case = Case {
    file: b"word,address,name,sha256\nw1,http://h/a,,\nw1,http://h/a,,\nw2,http://h/b,,\nw1,http://h/c,,\nw3,http://h/d,,\n",
    streams: &[],
    rows: &[
        Row {
            words: IMPORT,
            status: 10,
            out: b"1 waiting 0 ? -\n1 waiting 0 ? -\n2 waiting 0 ? -\n",
            errs: b"word of item 1\n",
        },
        Row {
            words: LIST,
            out: b"1 waiting 0 ? -\n2 waiting 0 ? -\n",
            ..DONE
        },
    ],
};

/// A row of the history has the word of the first record, and then another address than the second's.
const IN_THE_HISTORY: Case = Case {
    file: b"word,address,name,sha256\nw1,http://h/a,,\nw2,http://h/b,,\nw1,http://h/c,,\n",
    streams: &[],
    rows: &[
        Row {
            words: &[b"add", b"--word", b"w1", b"http://h/a"],
            out: b"1 waiting 0 ? -\n",
            ..DONE
        },
        Row {
            words: &[b"cancel", b"1"],
            out: b"1 cancelled 0 ? -\n",
            ..DONE
        },
        Row {
            words: &[b"archive"],
            out: b"archived 1\n",
            ..DONE
        },
        Row {
            words: IMPORT,
            status: 10,
            out: b"1 cancelled ? -\n2 waiting 0 ? -\n",
            errs: b"word of item 1\n",
        },
        Row {
            words: LIST,
            out: b"2 waiting 0 ? -\n",
            ..DONE
        },
    ],
};

/// Fields in quotes, with quotes, commas and a line feed: the name is cleaned once the content comes, and written in
/// quotes again.
const QUOTED: Case = Case {
    file: b"word,address,\"name\",sha256\r\nw1,\"http://h/a,b\",\"a \"\"b\"\",\nc.txt\",\n",
    streams: &[b"HTTP/1.1 200 OK\r\nContent-Length: 11\r\n\r\nhello world"],
    rows: &[
        Row {
            words: IMPORT,
            out: b"1 waiting 0 ? -\n",
            ..DONE
        },
        Row {
            words: &[b"get", b"--word", b"w1", b"http://h/a,b"],
            out: b"1 complete 11 11 a _b_,_c.txt\n",
            ..DONE
        },
        Row {
            words: &[b"export"],
            out: b"id,word,address,name,state,reason,total,sha256\n1,w1,\"http://h/a,b\",\"a _b_,_c.txt\",complete,,11,b94d27b9934d3e08a52e52d7da7dabfac484efe37a5380ee9088f7ace2efcde9\n",
            ..DONE
        },
    ],
};

/// The first row of a case that says something else.
fn other(alloc: Global, case: &Case) -> Result<Option<usize>, Fail> {
    let mut there = disk(alloc, None, None)?;
    put(alloc, &mut there, b"links.csv", case.file)?;
    let mut keeper = MemoryKeeper::new(alloc, &[])?;
    let (other, _) = say(alloc, case.streams, there, &mut keeper, case.rows)?;
    Ok(other)
}

#[test]
fn a_file_is_imported(rt: HostRuntime) -> Result<(), Fail> {
    assert_eq!(rt; other(rt.alloc(), &TWO)?, None);
    Ok(())
}

#[test]
fn a_word_may_stand_twice(rt: HostRuntime) -> Result<(), Fail> {
    assert_eq!(rt; other(rt.alloc(), &TWICE)?, None);
    assert_eq!(rt; other(rt.alloc(), &IN_THE_HISTORY)?, None);
    Ok(())
}

#[test]
fn quoted_fields_are_read_and_written(rt: HostRuntime) -> Result<(), Fail> {
    assert_eq!(rt; other(rt.alloc(), &QUOTED)?, None);
    Ok(())
}

/// Files that can't be imported, and the record that is told.
const BAD: &[(&[u8], &[u8])] = &[
    (b"", b"import 0\n"),
    (b"word,address,name\nw1,http://h/a,\n", b"import 0\n"),
    (b"w1,http://h/a,,\n", b"import 0\n"),
    (b"word,address,name,sha256\n,http://h/a,,\n", b"import 1\n"),
    (
        b"word,address,name,sha256\nw1,http://h/a,,\n,http://h/b,,\nw3,http://h/c,,\n",
        b"import 2\n",
    ),
    (
        b"word,address,name,sha256\nw1,http://h/a,,\nw2,https://h/b,,\n",
        b"import 2\n",
    ),
    (
        b"word,address,name,sha256\nw1,http://h/a,,\nw2,http://h/b,,\nw3,http://h/c,,00\n",
        b"import 3\n",
    ),
    (
        b"word,address,name,sha256\nw1,http://h/a,,,\n",
        b"import 1\n",
    ),
];

#[test]
fn nothing_is_added_of_a_bad_file(rt: HostRuntime) -> Result<(), Fail> {
    let alloc = rt.alloc();
    for (number, (file, errs)) in BAD.iter().enumerate() {
        let mut there = disk(alloc, None, None)?;
        put(alloc, &mut there, b"links.csv", file)?;
        let mut keeper = MemoryKeeper::new(alloc, &[])?;
        let rows = [
            Row {
                words: IMPORT,
                status: 11,
                out: b"",
                errs: *errs,
            },
            Row {
                words: &[b"import", b"other.csv"],
                status: 11,
                out: b"",
                errs: b"import 0\n",
            },
            Row {
                words: LIST,
                out: b"",
                ..DONE
            },
        ];
        let (other, _) = say(alloc, &[], there, &mut keeper, &rows)?;
        assert_eq!(rt; other, None, "file {number}");
    }
    Ok(())
}
