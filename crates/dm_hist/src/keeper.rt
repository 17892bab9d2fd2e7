ghost use Rattle.std.specs.Prelude.{◌≡◌, ◌≤◌, ◌^◌, ℕ, List, IfOk, IfSome, OnOk, OnErr};
ghost use Rattle.dm_types.specs.Faults.{HasCause};
ghost use Rattle.dm_hist.specs.Rows.{AreRows, allows, page_of, row_of, row_with, with_row, without_row, is_there};
ghost use Rattle.dm_hist.specs.Faults.{keeper_kind};
ghost use Rattle.dm_hist.specs.declared.keeper.KeeperFault.{KeeperFault as Fault};
ghost use Rattle.dm_hist.specs.declared.row.Row.{Row as TheRow};

use crate::{Row, RowFilter, RowList};
use dm_types::{ItemId, NoMemory};
use std::error::Error;
use std::fmt;

/// How a call on a keeper failed.
#[derive(Clone, Copy, Debug, PartialEq, Eq)]
pub enum KeeperFault {
    Failed,
    /// There was no memory for it.
    NoMemory,
}

impl From<NoMemory> for KeeperFault {
    ghost use Rattle.std.specs.Prelude.{◌≡◌};
    ghost use Rattle.dm_hist.specs.declared.keeper.KeeperFault.TheVariants as faults;

    ghost from_gives = { λ _ fault. fault ≡ faults.NoMemory };

    fn from(_: NoMemory) -> KeeperFault {
        KeeperFault::NoMemory
    }
}

impl fmt::Display for KeeperFault {
    fn fmt<W: fmt::Write>(&self, f: &mut fmt::Formatter<W>) -> fmt::Result {
        f.write_str(match self {
            KeeperFault::Failed => "failed",
            KeeperFault::NoMemory => "no memory",
        })
    }
}

impl Error for KeeperFault {}

/// The history: a row for each id, by rising id. A call fails only by a fault that is counted, and
/// one that doesn't answer Ok leaves the rows as they were.
pub trait Keeper {
    /// The keeper tells which rows it has. One over a file doesn't.
    ghost tells: { Type 0 };

    /// Its rows.
    ghost rows: { Self → List TheRow };

    /// How often a call failed.
    ghost faults: { Self → Fault → ℕ };

    /// Does nothing. Its clause says that the ids of the rows rise also before a first call.
    fn rows_rise(&self)
        ensures rising { tells → AreRows (rows self.now) };

    /// Keeps a row, in place of the row of the same id where there is one.
    fn put_row(&mut self, row: &Row) -> Result<(), KeeperFault>
        requires id { 1 ≤ row.now.id.0 }
        requires total { IfSome row.now.total (λ total. total ≤ 2 ^ 40) }
        ensures put { tells → OnOk result (rows self.new ≡ with_row row.now (rows self.old)) }
        ensures same { tells → OnErr result (rows self.new ≡ rows self.old) }
        ensures rising { tells → AreRows (rows self.new) }
        ensures cause { HasCause keeper_kind (faults self.old) (faults self.new) result };

    /// The row of an id, where there is one.
    fn find_row(&mut self, id: ItemId) -> Result<Option<Row>, KeeperFault>
        ensures found { tells → IfOk result (λ found. found ≡ row_of id.0 (rows self.old)) }
        ensures same { tells → rows self.new ≡ rows self.old }
        ensures rising { tells → AreRows (rows self.new) }
        ensures cause { HasCause keeper_kind (faults self.old) (faults self.new) result };

    /// The row of least id that has the word, where one has it.
    fn find_word(&mut self, word: &[u8]) -> Result<Option<Row>, KeeperFault>
        ensures found { tells → IfOk result (λ found. found ≡ row_with word.now (rows self.old)) }
        ensures same { tells → rows self.new ≡ rows self.old }
        ensures rising { tells → AreRows (rows self.new) }
        ensures cause { HasCause keeper_kind (faults self.old) (faults self.new) result };

    /// The first `limit` rows of an id above `after` that the filter allows.
    fn rows_page(
        &mut self,
        filter: &RowFilter,
        after: u32,
        limit: u32,
    ) -> Result<RowList, KeeperFault>
        ensures page { tells → IfOk result (λ page. page ≡ page_of filter.now after limit (rows self.old)) }
        ensures same { tells → rows self.new ≡ rows self.old }
        ensures rising { tells → AreRows (rows self.new) }
        ensures cause { HasCause keeper_kind (faults self.old) (faults self.new) result };

    /// Drops the row of an id, and says whether there was one.
    fn drop_row(&mut self, id: ItemId) -> Result<bool, KeeperFault>
        ensures was { tells → IfOk result (λ was. was ≡ is_there id.0 (rows self.old)) }
        ensures dropped { tells → OnOk result (rows self.new ≡ without_row id.0 (rows self.old)) }
        ensures same { tells → OnErr result (rows self.new ≡ rows self.old) }
        ensures rising { tells → AreRows (rows self.new) }
        ensures cause { HasCause keeper_kind (faults self.old) (faults self.new) result };
}
