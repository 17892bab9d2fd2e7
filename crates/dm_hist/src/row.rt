ghost use Rattle.std.specs.Prelude.{◌≡◌, IfOk, bytes_eq};
ghost use Rattle.dm_hist.specs.Rows.{allows};

use dm_types::{ItemId, Listed, NoMemory, Text};
use std::alloc::Global;

/// What stays of an item that has left the list.
#[derive(Debug, Drop)]
pub struct Row {
    /// The item's number, at least 1.
    pub id: ItemId,
    /// The user's word for it, or empty.
    pub word: Text,
    /// The address that it was added with.
    pub address: Text,
    /// The name of its file, or empty.
    pub name: Text,
    /// It was brought whole. Otherwise it was cancelled.
    pub complete: bool,
    /// The content's length in bytes, where it was known, at most 2^40.
    pub total: Option<u64>,
    /// The SHA-256 of its file, where it has one.
    pub digest: Option<[u8; 32]>,
    /// Milliseconds since 1970: when it was added, or published.
    pub at_ms: u64,
}

/// Rows, by rising id.
pub type RowList = Listed<Row>;

/// Which rows are asked for.
#[derive(Clone, Copy, Debug, PartialEq, Eq)]
pub struct RowFilter {
    /// Only the complete ones, only the others, or all.
    pub complete: Option<bool>,
}

impl Row {
    /// Another value of the same row.
    pub fn copy(&self, alloc: Global) -> Result<Row, NoMemory>
        ensures { IfOk result (λ row. row ≡ self.now) }
    {
        let word = self.word.copy(alloc)?;
        let address = self.address.copy(alloc)?;
        let name = self.name.copy(alloc)?;
        Ok(Row {
            id: self.id,
            word,
            address,
            name,
            complete: self.complete,
            total: self.total,
            digest: self.digest,
            at_ms: self.at_ms,
        })
    }

    /// Whether the row's word is this one.
    pub(crate) fn has_word(&self, word: &[u8]) -> bool
        ensures { result ≡ bytes_eq self.now.word word.now }
    {
        self.word.is(word)
    }
}

impl RowFilter {
    /// Whether a row is one that is asked for.
    pub fn allows(self, row: &Row) -> bool
        ensures { result ≡ allows self row.now }
    {
        match self.complete {
            Some(complete) => complete == row.complete,
            None => true,
        }
    }
}
