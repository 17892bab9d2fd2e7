ghost use Rattle.std.specs.Prelude.{◌≡◌, ◌≤◌, IfOk, IfErr, OnOk, OnErr};
ghost use Rattle.std.specs.Option.{option_copied};
ghost use Rattle.dm_hist.specs.Place.{IsAt, IsGapFor};
ghost use Rattle.dm_hist.specs.Rows.{AreRows, is_there, page_of, row_of, row_with, with_row, without_row};
ghost use Rattle.dm_hist.specs.Page.{with_next};

use crate::{Row, RowFilter, RowList};
use dm_types::{ItemId, Listed, NoMemory};
use std::alloc::Global;

/// Where the row of an id stands, or would stand.
fn place_of(rows: &[Row], id: ItemId) -> Result<usize, usize>
    requires { AreRows rows.now }
    ensures found { IfOk result (IsAt rows.now id.0) }
    ensures absent { IfErr result (IsGapFor rows.now id.0) }
{
    rows.binary_search_by_key(&id.0, |row| row.id.0)
}

/// Puts a row where its id belongs, over the row of the same id where there is one.
fn put(rows: &mut Vec<Row>, row: Row) -> Result<(), NoMemory>
    requires { AreRows rows.old.items }
    ensures ok { OnOk result (rows.new.items ≡ with_row row rows.old.items) }
    ensures err { OnErr result (rows.new.items ≡ rows.old.items) }
{
    match place_of(rows, row.id) {
        Ok(place) => {
            rows[place] = row;
            Ok(())
        }
        Err(place) => match rows.insert(place, row) {
            Ok(()) => Ok(()),
            Err(_) => Err(NoMemory),
        },
    }
}

/// Puts a copy of a row. Where memory is wanting the rows stay as they were.
pub(crate) fn put_copy(alloc: Global, rows: &mut Vec<Row>, row: &Row) -> Result<(), NoMemory>
    requires { AreRows rows.old.items }
    ensures ok { OnOk result (rows.new.items ≡ with_row row.now rows.old.items) }
    ensures err { OnErr result (rows.new.items ≡ rows.old.items) }
{
    match row.copy(alloc) {
        Ok(copy) => put(rows, copy),
        Err(NoMemory) => Err(NoMemory),
    }
}

/// The row of an id.
pub(crate) fn find(rows: &[Row], id: ItemId) -> Option<&Row>
    ensures { option_copied result ≡ row_of id.0 rows.now }
{
    rows.iter().find(|row| row.id.0 == id.0)
}

/// The first row that has the word.
pub(crate) fn find_with<'a>(rows: &'a [Row], word: &[u8]) -> Option<&'a Row>
    ensures { option_copied result ≡ row_with word.now rows.now }
{
    rows.iter().find(|row| row.has_word(word))
}

/// Whether an id has a row.
fn is_there(rows: &[Row], id: ItemId) -> bool
    ensures { result ≡ is_there id.0 rows.now }
{
    rows.iter().any(|row| row.id.0 == id.0)
}

/// Drops the row of an id.
fn forget(rows: &mut Vec<Row>, id: ItemId)
    ensures { rows.new.items ≡ without_row id.0 rows.old.items }
{
    rows.retain(|row| row.id.0 != id.0);
}

/// Drops the row of an id, and says whether there was one.
pub(crate) fn drop_from(rows: &mut Vec<Row>, id: ItemId) -> bool
    ensures was { result ≡ is_there id.0 rows.old.items }
    ensures dropped { rows.new.items ≡ without_row id.0 rows.old.items }
{
    let was = is_there(rows, id);
    forget(rows, id);
    was
}

/// The same row again, where there is one.
pub(crate) fn copy_found(alloc: Global, found: Option<&Row>) -> Result<Option<Row>, NoMemory>
    ensures { IfOk result (λ copy. copy ≡ option_copied found.entry) }
{
    match found {
        Some(row) => match row.copy(alloc) {
            Ok(row) => Ok(Some(row)),
            Err(NoMemory) => Err(NoMemory),
        },
        None => Ok(None),
    }
}

/// Which rows a page has.
#[derive(Clone, Copy)]
pub(crate) struct Asked {
    filter: RowFilter,
    after: u32,
    limit: u32,
}

pub(crate) fn asked_for(filter: &RowFilter, after: u32, limit: u32) -> Asked
    ensures { result ≡ record { filter = filter.now; after = after; limit = limit } }
{
    Asked {
        filter: *filter,
        after,
        limit,
    }
}

/// Adds a copy of the row to the page where it is asked for and there is room.
fn add(alloc: Global, page: &mut RowList, row: &Row, asked: Asked) -> Result<(), NoMemory>
    ensures { OnOk result (page.new ≡ with_next asked.filter asked.after asked.limit page.old row.now) }
{
    if row.id.0 > asked.after && asked.filter.allows(row) && page.count() < u64::from(asked.limit) {
        page.push(row.copy(alloc)?)?;
    }
    Ok(())
}

/// The page of rows that is asked for.
pub(crate) fn page(alloc: Global, rows: &[Row], asked: Asked) -> Result<RowList, NoMemory>
    ensures { IfOk result (λ page. page ≡ page_of asked.filter asked.after asked.limit rows.now) }
{
    let mut page: RowList = Listed::new(alloc);
    for row in rows {
        add(alloc, &mut page, row, asked)?;
    }
    Ok(page)
}
