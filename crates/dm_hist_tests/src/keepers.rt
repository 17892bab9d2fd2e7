// The same rows over each keeper.
use crate::bench::{ALL, Found, STOPPED, Sketch, WHOLE, drop_row, has, page, put, word_of};
use dm_hist::{Keeper, KeeperFault, MemoryKeeper, RowFilter};
use dm_hist_sql::SqlKeeper;
use dm_types::NoMemory;
use std::alloc::Global;
use std::fs;
use std::test::Fail;

// Three rows as they are put, of which 9 and 2 have one word.
const ROWS: [Sketch; 3] = [(9, b"w", true), (2, b"w", false), (5, b"", true)];

// Words, and the id that each finds.
const WORDS: [(&[u8], u32); 3] = [(b"w", 2), (b"", 5), (b"v", 0)];

// Pages of these rows.
const PAGES: [(RowFilter, u32, u32, Found); 6] = [
    (ALL, 0, 50, (3, 2, 5)),
    (ALL, 2, 1, (1, 5, 0)),
    (WHOLE, 0, 50, (2, 5, 9)),
    (STOPPED, 0, 50, (1, 2, 0)),
    (STOPPED, 2, 50, (0, 0, 0)),
    (ALL, 0, 0, (0, 0, 0)),
];

fn finds_rows<K: Keeper>(alloc: Global, keeper: &mut K) -> Result<bool, KeeperFault> {
    for sketch in ROWS {
        put(alloc, keeper, sketch)?;
    }
    for sketch in ROWS {
        if !has(alloc, keeper, sketch)? {
            return Ok(false);
        }
    }
    Ok(!has(alloc, keeper, (3, b"w", false))?)
}

fn finds_words<K: Keeper>(keeper: &mut K) -> Result<bool, KeeperFault> {
    for (word, id) in WORDS {
        if word_of(keeper, word)? != id {
            return Ok(false);
        }
    }
    Ok(true)
}

fn pages_rows<K: Keeper>(keeper: &mut K) -> Result<bool, KeeperFault> {
    for (filter, after, limit, wanted) in PAGES {
        if page(keeper, filter, after, limit)? != wanted {
            return Ok(false);
        }
    }
    Ok(true)
}

fn puts_over<K: Keeper>(alloc: Global, keeper: &mut K) -> Result<bool, KeeperFault> {
    put(alloc, keeper, (2, b"v", true))?;
    let is_there = has(alloc, keeper, (2, b"v", true))?;
    let is_one = page(keeper, ALL, 0, 50)? == (3, 2, 5);
    Ok(is_there && is_one && word_of(keeper, b"w")? == 9)
}

fn drops_rows<K: Keeper>(keeper: &mut K) -> Result<bool, KeeperFault> {
    let was = drop_row(keeper, 5)?;
    let is = drop_row(keeper, 5)?;
    Ok(was && !is && is_left(keeper)?)
}

/// Whether rows 2 and 9 are there.
fn is_left<K: Keeper>(keeper: &mut K) -> Result<bool, KeeperFault> {
    Ok(page(keeper, ALL, 0, 50)? == (2, 2, 9))
}

fn keeps_rows<K: Keeper>(alloc: Global, keeper: &mut K) -> Result<bool, KeeperFault> {
    if !finds_rows(alloc, keeper)? || !finds_words(keeper)? || !pages_rows(keeper)? {
        return Ok(false);
    }
    Ok(puts_over(alloc, keeper)? && drops_rows(keeper)?)
}

/// What is looked for at a keeper.
#[derive(Clone, Copy)]
enum Look {
    /// The rows are put, found, paged, put over and dropped.
    Rows,
    /// Those that are left of them are found again.
    Left,
    /// So many rows are put, and some of them are found.
    Many(u32),
}

fn looked<K: Keeper>(alloc: Global, keeper: &mut K, look: Look) -> Result<bool, KeeperFault> {
    match look {
        Look::Rows => keeps_rows(alloc, keeper),
        Look::Left => Ok(is_left(keeper)? && has(alloc, keeper, (9, b"w", true))?),
        Look::Many(count) => keeps_many(alloc, keeper, count),
    }
}

/// Whether a keeper that was opened shows each of these. It is let go here, where its type isn't known: to
/// prove that a keeper over SQLite is let go takes minutes.
fn shows<K: Keeper + Drop>(
    alloc: Global,
    opened: Result<K, KeeperFault>,
    looks: &[Look],
) -> Result<bool, KeeperFault> {
    match opened {
        Ok(mut keeper) => shows_each(alloc, &mut keeper, looks),
        Err(fault) => Err(fault),
    }
}

fn shows_each<K: Keeper>(
    alloc: Global,
    keeper: &mut K,
    looks: &[Look],
) -> Result<bool, KeeperFault> {
    for look in looks {
        if !looked(alloc, keeper, *look)? {
            return Ok(false);
        }
    }
    Ok(true)
}

/// Whether a page is found and a word among so many rows, of which each other one is complete.
fn keeps_many<K: Keeper>(alloc: Global, keeper: &mut K, count: u32) -> Result<bool, KeeperFault> {
    for id in 0..count {
        put(alloc, keeper, (id + 1, b"w", id % 2 == 0))?;
    }
    let is_paged = page(keeper, WHOLE, 5000, 50)? == (50, 5001, 5003);
    Ok(is_paged && word_of(keeper, b"w")? == 1)
}

#[test]
fn rows_are_kept_in_memory(rt: HostRuntime) -> Result<(), Fail> {
    let mut keeper = MemoryKeeper::new(rt.alloc(), &[])?;
    let looks = [Look::Rows, Look::Many(100_000)];
    assert!(rt; shows_each(rt.alloc(), &mut keeper, &looks)?);
    assert_eq!(rt; keeper.failed(), 0);
    Ok(())
}

#[test]
fn rows_are_kept_by_sqlite(rt: HostRuntime) -> Result<(), Fail> {
    let opened = SqlKeeper::open_in_memory(rt.alloc());
    assert!(rt; shows(rt.alloc(), opened, &[Look::Rows, Look::Many(10_000)])?);
    Ok(())
}

/// What a keeper over this file shows.
fn shows_file(rt: &HostRuntime, path: &str, looks: &[Look]) -> Result<bool, KeeperFault> {
    shows(rt.alloc(), SqlKeeper::open(rt.alloc(), rt, path), looks)
}

#[test]
fn rows_stay_in_a_file(rt: HostRuntime) -> Result<(), Fail> {
    let _ = fs::remove_dir_all(&rt, "dm_hist_file");
    fs::create_dir(&rt, "dm_hist_file")?;
    let path = "dm_hist_file/history.sqlite";
    assert!(rt; shows_file(&rt, path, &[Look::Rows])?);
    assert!(rt; shows_file(&rt, path, &[Look::Left])?);
    fs::remove_dir_all(&rt, "dm_hist_file")?;
    Ok(())
}

#[test]
fn a_file_that_is_no_database_is_refused(rt: HostRuntime) -> Result<(), Fail> {
    let _ = fs::remove_dir_all(&rt, "dm_hist_bad");
    fs::create_dir(&rt, "dm_hist_bad")?;
    let path = "dm_hist_bad/history.sqlite";
    fs::write(&rt, path, b"no database, but a text of some length")?;
    assert!(rt; shows_file(&rt, path, &[]).is_err());
    fs::remove_dir_all(&rt, "dm_hist_bad")?;
    Ok(())
}

/// Which of five calls fail, where the one with this number is to.
fn failing(alloc: Global, call: u64) -> Result<[bool; 5], NoMemory> {
    let mut keeper = MemoryKeeper::new(alloc, &[call])?;
    let put = put(alloc, &mut keeper, (1, b"w", true)).is_err();
    let has = has(alloc, &mut keeper, (1, b"w", true)).is_err();
    let word = word_of(&mut keeper, b"w").is_err();
    let page = page(&mut keeper, ALL, 0, 1).is_err();
    let dropped = drop_row(&mut keeper, 1).is_err();
    Ok([put, has, word, page, dropped])
}

#[test]
fn listed_calls_fail(rt: HostRuntime) -> Result<(), Fail> {
    for call in 0..5 {
        let wanted = [call == 0, call == 1, call == 2, call == 3, call == 4];
        assert!(rt; failing(rt.alloc(), call)? == wanted, "call {call}");
    }
    Ok(())
}
