// Calls of a keeper, of which the tests know only their answers.
ghost use Rattle.std.specs.Prelude.{◌≤◌, ◌<◌, ◌^◌, IfOk, IfSome};

use dm_hist::{Keeper, KeeperFault, Row, RowFilter};
use dm_types::{ItemId, NoMemory, Text};
use std::alloc::Global;

pub const ALL: RowFilter = RowFilter { complete: None };

pub const WHOLE: RowFilter = RowFilter {
    complete: Some(true),
};

pub const STOPPED: RowFilter = RowFilter {
    complete: Some(false),
};

/// A row in few words: id, word, and whether it is complete.
pub type Sketch = (u32, &'static [u8], bool);

/// A complete row of eleven bytes, or a cancelled one of a length that wasn't known.
fn row(alloc: Global, sketch: Sketch) -> Result<Row, NoMemory>
    requires { 1 ≤ sketch.0 }
    ensures id { IfOk result (λ row. 1 ≤ row.id.0) }
    ensures total { IfOk result (λ row. IfSome row.total (λ total. total ≤ 2 ^ 40)) }
{
    let (id, word, complete) = sketch;
    let word = Text::from_bytes(alloc, word)?;
    let address = Text::from_bytes(alloc, b"http://a.example/f")?;
    let name = Text::from_bytes(alloc, if complete { b"f" } else { b"" })?;
    Ok(Row {
        id: ItemId(id),
        word,
        address,
        name,
        complete,
        total: if complete { Some(11) } else { None },
        digest: if complete { Some([7; 32]) } else { None },
        at_ms: u64::MAX - u64::from(id),
    })
}

pub fn put<K: Keeper>(alloc: Global, keeper: &mut K, sketch: Sketch) -> Result<(), KeeperFault> {
    if sketch.0 == 0 {
        return Err(KeeperFault::Failed);
    }
    match row(alloc, sketch) {
        Ok(row) => keeper.put_row(&row),
        Err(NoMemory) => Err(KeeperFault::NoMemory),
    }
}

fn is_same(a: &Row, b: &Row) -> bool {
    a.id == b.id
        && a.word.same(&b.word)
        && a.address.same(&b.address)
        && a.name.same(&b.name)
        && a.complete == b.complete
        && a.total == b.total
        && a.digest == b.digest
        && a.at_ms == b.at_ms
}

/// Whether the row of an id is kept as this one.
pub fn has<K: Keeper>(alloc: Global, keeper: &mut K, sketch: Sketch) -> Result<bool, KeeperFault> {
    if sketch.0 == 0 {
        return Err(KeeperFault::Failed);
    }
    match row(alloc, sketch) {
        Ok(row) => is_found(keeper, &row),
        Err(NoMemory) => Err(KeeperFault::NoMemory),
    }
}

fn is_found<K: Keeper>(keeper: &mut K, row: &Row) -> Result<bool, KeeperFault> {
    match keeper.find_row(row.id)? {
        Some(found) => Ok(is_same(&found, row)),
        None => Ok(false),
    }
}

/// What a page has: how many rows, and the ids of the first two, or 0.
pub type Found = (u64, u32, u32);

pub fn page<K: Keeper>(
    keeper: &mut K,
    filter: RowFilter,
    after: u32,
    limit: u32,
) -> Result<Found, KeeperFault> {
    let page = keeper.rows_page(&filter, after, limit)?;
    Ok((page.count(), id_of(page.get(0)), id_of(page.get(1))))
}

fn id_of(row: Option<&Row>) -> u32 {
    match row {
        Some(row) => row.id.0,
        None => 0,
    }
}

/// The id of the row that has a word, or 0.
pub fn word_of<K: Keeper>(keeper: &mut K, word: &[u8]) -> Result<u32, KeeperFault> {
    let found = keeper.find_word(word)?;
    Ok(id_of(found.as_ref()))
}

pub fn drop_row<K: Keeper>(keeper: &mut K, id: u32) -> Result<bool, KeeperFault> {
    keeper.drop_row(ItemId(id))
}
