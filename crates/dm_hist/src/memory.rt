ghost use Rattle.std.specs.Prelude.{◌≡◌, ◌≤◌, ◌↔◌, ◌^◌, [], false, IfOk, IfSome, IsTrue, OnOk, OnErr};
ghost use Rattle.dm_types.specs.Faults.{HasCause};
ghost use Rattle.dm_hist.specs.Faults.{answer_of, has_failed, keeper_kind, keeper_count};
ghost use Rattle.dm_hist.specs.Memory.{MustFail, counted_by};
ghost use Rattle.dm_hist.specs.Rows.{AreRows, is_there, page_of, row_of, row_with, with_row, without_row};

use crate::calls::Calls;
use crate::rows::{asked_for, copy_found, drop_from, find, find_with, page, put_copy};
use crate::{Keeper, KeeperFault, Row, RowFilter, RowList};
use dm_types::{ItemId, NoMemory};
use std::alloc::Global;
use std::marker::Model;

/// A keeper in memory. The calls that are listed fail, and no other one does.
#[derive(Debug, Drop)]
pub struct MemoryKeeper {
    rows: Vec<Row>,
    calls: Calls,
    alloc: Global,
}

impl Model for MemoryKeeper {
    ghost use Rattle.dm_hist.specs.Memory.{Held, counting_of};
    ghost use Rattle.dm_hist.specs.Rows.{AreRows};

    ghost Value = { Held };

    ghost view = { λ k. record { rows = k.rows.items; calls = counting_of k.calls } };

    ghost invariant = { λ k. AreRows k.rows.items };
}

/// The answer of a call that can only want memory.
fn answered<T>(found: Result<T, NoMemory>) -> Result<T, KeeperFault>
    ensures same { result ≡ answer_of found }
    ensures unfailed { has_failed result ≡ false }
{
    match found {
        Ok(value) => Ok(value),
        Err(NoMemory) => Err(KeeperFault::NoMemory),
    }
}

impl MemoryKeeper {
    /// A keeper without rows, whose calls with these numbers, from 0, fail.
    pub fn new(alloc: Global, failing: &[u64]) -> Result<MemoryKeeper, NoMemory>
        ensures { IfOk result (λ keeper. keeper ≡ record { rows = []; calls = record { failing = failing.now; made = 0; failed = 0 } }) }
    {
        let calls = Calls::new(alloc, failing)?;
        Ok(MemoryKeeper {
            rows: Vec::new(alloc),
            calls,
            alloc,
        })
    }

    /// How many calls failed.
    pub fn failed(&self) -> u64
        ensures { result ≡ self.now.calls.failed }
    {
        self.calls.failed
    }
}

// In memory it is determined which calls fail; of the others only those that want memory aren't answered Ok.
impl Keeper for MemoryKeeper {
    ghost tells = { Unit {0} };

    ghost rows = { λ k. k.rows };

    ghost faults = { λ k. keeper_count k.calls.failed };

    fn rows_rise(&self)
        ensures rising { AreRows self.now.rows }
    {
        let _rows = &self.rows;
    }

    fn put_row(&mut self, row: &Row) -> Result<(), KeeperFault>
        requires id { 1 ≤ row.now.id.0 }
        requires total { IfSome row.now.total (λ total. total ≤ 2 ^ 40) }
        ensures put { OnOk result (self.new.rows ≡ with_row row.now self.old.rows) }
        ensures same { OnErr result (self.new.rows ≡ self.old.rows) }
        ensures rising { AreRows self.new.rows }
        ensures cause { HasCause keeper_kind (keeper_count self.old.calls.failed) (keeper_count self.new.calls.failed) result }
        ensures fails { IsTrue (has_failed result) ↔ MustFail self.old.calls }
        ensures counts { self.new.calls ≡ counted_by (has_failed result) self.old.calls }
    {
        match self.calls.begin() {
            Ok(()) => answered(put_copy(self.alloc, &mut self.rows, row)),
            Err(fault) => Err(fault),
        }
    }

    fn find_row(&mut self, id: ItemId) -> Result<Option<Row>, KeeperFault>
        ensures found { IfOk result (λ found. found ≡ row_of id.0 self.old.rows) }
        ensures same { self.new.rows ≡ self.old.rows }
        ensures rising { AreRows self.new.rows }
        ensures cause { HasCause keeper_kind (keeper_count self.old.calls.failed) (keeper_count self.new.calls.failed) result }
        ensures fails { IsTrue (has_failed result) ↔ MustFail self.old.calls }
        ensures counts { self.new.calls ≡ counted_by (has_failed result) self.old.calls }
    {
        match self.calls.begin() {
            Ok(()) => answered(copy_found(self.alloc, find(&self.rows, id))),
            Err(fault) => Err(fault),
        }
    }

    fn find_word(&mut self, word: &[u8]) -> Result<Option<Row>, KeeperFault>
        ensures found { IfOk result (λ found. found ≡ row_with word.now self.old.rows) }
        ensures same { self.new.rows ≡ self.old.rows }
        ensures rising { AreRows self.new.rows }
        ensures cause { HasCause keeper_kind (keeper_count self.old.calls.failed) (keeper_count self.new.calls.failed) result }
        ensures fails { IsTrue (has_failed result) ↔ MustFail self.old.calls }
        ensures counts { self.new.calls ≡ counted_by (has_failed result) self.old.calls }
    {
        match self.calls.begin() {
            Ok(()) => answered(copy_found(self.alloc, find_with(&self.rows, word))),
            Err(fault) => Err(fault),
        }
    }

    fn rows_page(
        &mut self,
        filter: &RowFilter,
        after: u32,
        limit: u32,
    ) -> Result<RowList, KeeperFault>
        ensures page { IfOk result (λ page. page ≡ page_of filter.now after limit self.old.rows) }
        ensures same { self.new.rows ≡ self.old.rows }
        ensures rising { AreRows self.new.rows }
        ensures cause { HasCause keeper_kind (keeper_count self.old.calls.failed) (keeper_count self.new.calls.failed) result }
        ensures fails { IsTrue (has_failed result) ↔ MustFail self.old.calls }
        ensures counts { self.new.calls ≡ counted_by (has_failed result) self.old.calls }
    {
        match self.calls.begin() {
            Ok(()) => answered(page(self.alloc, &self.rows, asked_for(filter, after, limit))),
            Err(fault) => Err(fault),
        }
    }

    fn drop_row(&mut self, id: ItemId) -> Result<bool, KeeperFault>
        ensures was { IfOk result (λ was. was ≡ is_there id.0 self.old.rows) }
        ensures dropped { OnOk result (self.new.rows ≡ without_row id.0 self.old.rows) }
        ensures same { OnErr result (self.new.rows ≡ self.old.rows) }
        ensures rising { AreRows self.new.rows }
        ensures cause { HasCause keeper_kind (keeper_count self.old.calls.failed) (keeper_count self.new.calls.failed) result }
        ensures fails { IsTrue (has_failed result) ↔ MustFail self.old.calls }
        ensures counts { self.new.calls ≡ counted_by (has_failed result) self.old.calls }
    {
        match self.calls.begin() {
            Ok(()) => Ok(drop_from(&mut self.rows, id)),
            Err(fault) => Err(fault),
        }
    }
}
