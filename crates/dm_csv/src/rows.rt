//! The rows of a file.
ghost use Rattle.std.specs.Prelude.{◌≡◌, ◌++◌, ◌∷◌, [], OnOk, OnErr, length, slice_get};
ghost use Rattle.std.specs.Option.{option_copied};

use crate::ImportRow;
use dm_types::NoMemory;
use std::alloc::Global;
use std::marker::Model;

/// The items that a file tells of, in its order.
#[derive(Debug, Drop)]
pub struct ImportRows {
    items: Vec<ImportRow>,
}

impl Model for ImportRows {
    ghost use Rattle.std.specs.Prelude.{List};
    ghost use Rattle.dm_csv.specs.declared.row.ImportRow.{ImportRow};

    ghost Value = { List ImportRow };

    ghost view = { λ s. s.items.items };
}

impl ImportRows {
    /// No rows. It takes no memory.
    pub fn new(alloc: Global) -> ImportRows
        ensures { result ≡ [] }
    {
        ImportRows {
            items: Vec::new(alloc),
        }
    }

    /// Adds a row at the end. Where memory is wanting the list stays.
    pub fn push(&mut self, row: ImportRow) -> Result<(), NoMemory>
        ensures ok { OnOk result (self.new ≡ self.old ++ row ∷ []) }
        ensures err { OnErr result (self.new ≡ self.old) }
    {
        match self.items.push(row) {
            Ok(()) => Ok(()),
            Err(_) => Err(NoMemory),
        }
    }

    /// How many rows there are.
    pub fn count(&self) -> u64
        ensures { result ≡ length self.now }
    {
        self.items.len() as u64
    }

    /// The row at a place, counted from 0.
    pub fn get(&self, place: u64) -> Option<&ImportRow>
        ensures { option_copied result ≡ slice_get self.now place }
    {
        self.items.get(place as usize)
    }

    /// The rows' vector, with no copy.
    pub fn into_vec(self) -> Vec<ImportRow>
        ensures { result.items ≡ self }
    {
        let ImportRows { items } = self;
        items
    }

    /// All rows.
    pub fn rows(&self) -> &[ImportRow]
        ensures { result.now ≡ self.now }
    {
        &self.items
    }
}
