//! A row of the table, read back. One that no call of ours wrote is a failure.
use crate::fault::keeper_fault;
use dm_hist::{KeeperFault, Row};
use dm_types::{ItemId, Text};
use sqlite::types::FromSql;

/// The greatest total of a row.
const MOST_TOTAL: u64 = 1 << 40;

fn column<T: FromSql>(row: &sqlite::Row, at: usize) -> Result<T, KeeperFault> {
    match row.get::<T>(at) {
        Ok(value) => Ok(value),
        Err(error) => Err(keeper_fault(error)),
    }
}

fn read_text(row: &sqlite::Row, at: usize) -> Result<Text, KeeperFault> {
    match column::<Vec<u8>>(row, at) {
        Ok(bytes) => Ok(Text::from_vec(bytes)),
        Err(fault) => Err(fault),
    }
}

fn read_id(row: &sqlite::Row) -> Result<ItemId, KeeperFault> {
    match column::<u32>(row, 0) {
        Ok(0) => Err(KeeperFault::Failed),
        Ok(id) => Ok(ItemId(id)),
        Err(fault) => Err(fault),
    }
}

fn read_complete(row: &sqlite::Row) -> Result<bool, KeeperFault> {
    match column::<i64>(row, 4) {
        Ok(0) => Ok(false),
        Ok(1) => Ok(true),
        Ok(_) => Err(KeeperFault::Failed),
        Err(fault) => Err(fault),
    }
}

fn read_total(row: &sqlite::Row) -> Result<Option<u64>, KeeperFault> {
    match column::<Option<u64>>(row, 5) {
        Ok(None) => Ok(None),
        Ok(Some(total)) if total <= MOST_TOTAL => Ok(Some(total)),
        Ok(Some(_)) => Err(KeeperFault::Failed),
        Err(fault) => Err(fault),
    }
}

fn read_digest(row: &sqlite::Row) -> Result<Option<[u8; 32]>, KeeperFault> {
    let bytes = match column::<Option<Vec<u8>>>(row, 6) {
        Ok(Some(bytes)) => bytes,
        Ok(None) => return Ok(None),
        Err(fault) => return Err(fault),
    };
    match <[u8; 32]>::try_from(bytes.as_slice()) {
        Ok(digest) => Ok(Some(digest)),
        Err(_) => Err(KeeperFault::Failed),
    }
}

fn read_at(row: &sqlite::Row) -> Result<u64, KeeperFault> {
    let bytes = column::<Vec<u8>>(row, 7)?;
    match <[u8; 8]>::try_from(bytes.as_slice()) {
        Ok(at) => Ok(u64::from_be_bytes(at)),
        Err(_) => Err(KeeperFault::Failed),
    }
}

/// The texts of a row: word, address and name.
#[derive(Drop)]
struct Texts {
    word: Text,
    address: Text,
    name: Text,
}

fn read_texts(row: &sqlite::Row) -> Result<Texts, KeeperFault> {
    let word = read_text(row, 1)?;
    let address = read_text(row, 2)?;
    let name = read_text(row, 3)?;
    Ok(Texts {
        word,
        address,
        name,
    })
}

/// The row of the history that this one is.
pub(crate) fn read_row(row: &sqlite::Row) -> Result<Row, KeeperFault> {
    let id = read_id(row)?;
    let texts = read_texts(row)?;
    let complete = read_complete(row)?;
    let total = read_total(row)?;
    let digest = read_digest(row)?;
    let at_ms = read_at(row)?;
    let Texts {
        word,
        address,
        name,
    } = texts;
    Ok(Row {
        id,
        word,
        address,
        name,
        complete,
        total,
        digest,
        at_ms,
    })
}
