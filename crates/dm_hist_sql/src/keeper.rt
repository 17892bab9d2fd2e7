ghost use Rattle.std.specs.Prelude.{◌≡◌, ◌≤◌, ◌^◌, [], IfSome};
ghost use Rattle.dm_types.specs.Faults.{HasCause};
ghost use Rattle.dm_hist.specs.Faults.{keeper_count, keeper_kind};

use crate::fault::keeper_fault;
use crate::reading::read_row;
use crate::statements::{DROP, FIND, FIND_WORD, PAGE, PUT, TABLE};
use dm_disk_model::one_more;
use dm_hist::{Keeper, KeeperFault, Row, RowFilter, RowList};
use dm_types::{ItemId, Listed};
use sqlite::{Alter, Connection, Error, File, FileStore, MemStore, params};
use std::alloc::Global;

/// A keeper over a SQLite database. It tells nothing of what its rows are, and counts each refusal
/// but want of memory.
#[derive(Drop)]
pub struct SqlKeeper<S: Alter + Drop> {
    conn: Connection<S>,
    failed: u64,
    alloc: Global,
}

impl SqlKeeper<FileStore<File>> {
    /// Opens the database in the file at a path, or makes it.
    pub fn open(alloc: Global, rt: &HostRuntime, path: &str) -> Result<Self, KeeperFault> {
        match Connection::open(rt, path) {
            Ok(conn) => with_table(alloc, conn),
            Err(error) => Err(keeper_fault(error)),
        }
    }
}

impl SqlKeeper<MemStore> {
    /// Makes a database in memory.
    pub fn open_in_memory(alloc: Global) -> Result<Self, KeeperFault> {
        match Connection::open_in_memory(alloc) {
            Ok(conn) => with_table(alloc, conn),
            Err(_) => Err(KeeperFault::NoMemory),
        }
    }
}

/// A keeper over a connection. The table is made where it is missing.
fn with_table<S: Alter + Drop>(
    alloc: Global,
    mut conn: Connection<S>,
) -> Result<SqlKeeper<S>, KeeperFault> {
    match conn.execute(TABLE, &[]) {
        Ok(_) => Ok(SqlKeeper {
            conn,
            failed: 0,
            alloc,
        }),
        Err(error) => Err(keeper_fault(error)),
    }
}

/// The total as SQLite has it.
fn sql_total(total: Option<u64>) -> Option<i64>
    requires { IfSome total (λ total. total ≤ 2 ^ 40) }
{
    match total {
        Some(total) => Some(total as i64),
        None => None,
    }
}

fn sql_digest(digest: &Option<[u8; 32]>) -> Option<&[u8]> {
    match digest {
        Some(digest) => Some(digest.as_slice()),
        None => None,
    }
}

fn put<S: Alter>(conn: &mut Connection<S>, row: &Row) -> Result<(), KeeperFault>
    requires { IfSome row.now.total (λ total. total ≤ 2 ^ 40) }
{
    let at = row.at_ms.to_be_bytes();
    let values = params![
        row.id.0,
        row.word.bytes(),
        row.address.bytes(),
        row.name.bytes(),
        row.complete,
        sql_total(row.total),
        sql_digest(&row.digest),
        at.as_slice(),
    ];
    match conn.execute(PUT, values) {
        Ok(_) => Ok(()),
        Err(error) => Err(keeper_fault(error)),
    }
}

/// The row that a query of one row answers, where there is one.
fn found(answer: Result<sqlite::Row, Error>) -> Result<Option<Row>, KeeperFault> {
    match answer {
        Ok(row) => match read_row(&row) {
            Ok(row) => Ok(Some(row)),
            Err(fault) => Err(fault),
        },
        Err(Error::QueryReturnedNoRows) => Ok(None),
        Err(error) => Err(keeper_fault(error)),
    }
}

fn drop_at<S: Alter>(conn: &mut Connection<S>, id: ItemId) -> Result<bool, KeeperFault> {
    match conn.execute(DROP, params![id.0]) {
        Ok(changed) => Ok(changed > 0),
        Err(error) => Err(keeper_fault(error)),
    }
}

/// Adds a row of the answer to the page where the filter allows it.
fn add(page: &mut RowList, filter: &RowFilter, row: &sqlite::Row) -> Result<(), KeeperFault> {
    let row = read_row(row)?;
    if filter.allows(&row) {
        page.push(row)?;
    }
    Ok(())
}

/// Reads the rows above an id until the page is full.
fn page<S: Alter>(
    alloc: Global,
    conn: &mut Connection<S>,
    filter: &RowFilter,
    after: u32,
    limit: u32,
) -> Result<RowList, KeeperFault> {
    let mut page: RowList = Listed::new(alloc);
    let mut rows = match conn.query(PAGE, params![after]) {
        Ok(rows) => rows,
        Err(error) => return Err(keeper_fault(error)),
    };
    for _ in 0..u32::MAX {
        if page.count() >= u64::from(limit) {
            break;
        }
        match rows.next() {
            Ok(Some(row)) => add(&mut page, filter, row)?,
            Ok(None) => break,
            Err(error) => return Err(keeper_fault(error)),
        }
    }
    Ok(page)
}

impl<S: Alter + Drop> SqlKeeper<S> {
    /// Counts the answer where it is a failure.
    fn told<T>(&mut self, answer: Result<T, KeeperFault>) -> Result<T, KeeperFault>
        ensures same { result ≡ answer }
        ensures cause { HasCause keeper_kind (keeper_count self.old.failed) (keeper_count self.new.failed) result }
    {
        match answer {
            Ok(value) => Ok(value),
            Err(KeeperFault::NoMemory) => Err(KeeperFault::NoMemory),
            Err(KeeperFault::Failed) => {
                self.failed = one_more(self.failed);
                Err(KeeperFault::Failed)
            }
        }
    }
}

impl<S: Alter + Drop> Keeper for SqlKeeper<S> {
    ghost tells = { ⊥ };

    ghost rows = { λ _. [] };

    ghost faults = { λ k. keeper_count k.failed };

    fn rows_rise(&self) {}

    fn put_row(&mut self, row: &Row) -> Result<(), KeeperFault> {
        let answer = put(&mut self.conn, row);
        self.told(answer)
    }

    fn find_row(&mut self, id: ItemId) -> Result<Option<Row>, KeeperFault> {
        let answer = found(self.conn.query_row(FIND, params![id.0]));
        self.told(answer)
    }

    fn find_word(&mut self, word: &[u8]) -> Result<Option<Row>, KeeperFault> {
        let answer = found(self.conn.query_row(FIND_WORD, params![word]));
        self.told(answer)
    }

    fn rows_page(
        &mut self,
        filter: &RowFilter,
        after: u32,
        limit: u32,
    ) -> Result<RowList, KeeperFault> {
        let answer = page(self.alloc, &mut self.conn, filter, after, limit);
        self.told(answer)
    }

    fn drop_row(&mut self, id: ItemId) -> Result<bool, KeeperFault> {
        let answer = drop_at(&mut self.conn, id);
        self.told(answer)
    }
}
