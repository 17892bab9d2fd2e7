//! The records of the file are added to the list, one after another.
ghost use Rattle.std.specs.Prelude.{◌≡◌, false, []};
ghost use Rattle.std.specs.List.{AllByRecursion};
ghost use Rattle.dm_types.specs.Faults.{HasCause};
ghost use Rattle.dm_store.specs.Keeps.{IsDesk};
ghost use Rattle.dm_store.specs.Origin.{said_of};
ghost use Rattle.dm_answers.specs.Add.{IsOrder};
ghost use Rattle.dm_hist.specs.Faults.{keeper_kind};
ghost use Rattle.dm_past.specs.ByRows.{FindsFree, RowsRest};
ghost use Rattle.dm_past.specs.Past.{past_of};
ghost use Rattle.dm_past.specs.Working.{TaskGoes};
ghost use Rattle.dm_import.specs.Adding as records;
ghost use Rattle.dm_import.specs.Working.{IsGoodRow, NextTried, RowTried, RowsTried, added_as, refusal_of};

use dm_answers::{DeskFault, Order, Taken};
use dm_csv::{ImportRow, ImportRows};
use dm_disk_model::Disk;
use dm_edge::Origin;
use dm_hist::{Keeper, KeeperFault, Row};
use dm_item::Items;
use dm_items::Desk;
use dm_report::Verdict;
use dm_shown::{Named, add_by_row, find_named};
use dm_types::{Listed, NoMemory};

/// What a record orders.
fn order_of(row: ImportRow) -> Order
    ensures { result ≡ records.order_of row }
{
    let ImportRow {
        word,
        address,
        wish,
        digest,
    } = row;
    Order {
        word,
        address,
        wish,
        digest,
    }
}

/// Why an order is refused.
fn refusal_of(fault: DeskFault) -> Verdict
    ensures { result ≡ refusal_of fault }
{
    match fault {
        DeskFault::WordTaken(id) => Verdict::OtherWord(id),
        DeskFault::ItemsFull(count) => Verdict::ItemsFull(count),
        DeskFault::Journal(kind) => Verdict::DiskFailed(kind),
        _ => Verdict::NoMemory,
    }
}

/// What comes of an order: the item that it is.
fn added_as(answer: Result<Taken, DeskFault>) -> Result<Named, Verdict>
    ensures { result ≡ added_as answer }
{
    match answer {
        Ok(Taken::New(id)) => Ok(Named::Item(id)),
        Ok(Taken::Same(id)) => Ok(Named::Item(id)),
        Err(fault) => Err(refusal_of(fault)),
    }
}

/// What comes of a record whose word a row of the history has.
fn answer_by(row: Row, address: &[u8]) -> Result<Named, Verdict>
    ensures { result ≡ records.answer_by address.now row }
{
    match add_by_row(&row, address) {
        Verdict::Done => Ok(Named::Row(row)),
        verdict => Err(verdict),
    }
}

/// The row of a word that no item has, where there is one.
fn find_free<K: Keeper>(
    items: &Items,
    keeper: &mut K,
    word: &[u8],
) -> Result<Option<Row>, KeeperFault>
    ensures found { FindsFree K.tells word.now (record { items = items.now.items; rows = K.rows keeper.old }) result }
    ensures rest { RowsRest K.tells (past_of K.rows K.faults keeper.old) (past_of K.rows K.faults keeper.new) }
    ensures cause { HasCause keeper_kind (K.faults keeper.old) (K.faults keeper.new) result }
{
    match find_named(items, keeper, word) {
        Ok(Some(Named::Row(row))) => Ok(Some(row)),
        Ok(Some(Named::Item(_))) => Ok(None),
        Ok(None) => Ok(None),
        Err(fault) => Err(fault),
    }
}

/// Adds what a record orders, as `add` does, unless a row of the history answers it.
fn add_order<D: Disk, O: Origin, K: Keeper>(
    desk: &mut Desk<D, O>,
    keeper: &mut K,
    order: Order,
    at: u64,
) -> Result<Named, Verdict>
    requires order { IsOrder order }
    requires whole { desk.old.broken ≡ false }
    requires desk { IsDesk D.tells D.history desk.old }
    ensures kept { IsDesk D.tells D.history desk.new }
    ensures tried { RowTried K.tells D.faults at order desk.old desk.new (past_of K.rows K.faults keeper.old) (past_of K.rows K.faults keeper.new) result }
    ensures goes { TaskGoes D.tells D.history D.faults D.far (λ o. said_of (O.says o)) desk.old desk.new (past_of K.rows K.faults keeper.old) (past_of K.rows K.faults keeper.new) }
    ensures rest { RowsRest K.tells (past_of K.rows K.faults keeper.old) (past_of K.rows K.faults keeper.new) }
{
    match find_free(desk.items(), keeper, order.word.bytes()) {
        Ok(Some(row)) => answer_by(row, order.address.text.bytes()),
        Ok(None) => added_as(desk.add(order, at)),
        Err(KeeperFault::Failed) => Err(Verdict::HistoryFailed),
        Err(KeeperFault::NoMemory) => Err(Verdict::NoMemory),
    }
}

/// Adds one record more, and keeps what is printed for it.
fn add_next<D: Disk, O: Origin, K: Keeper>(
    desk: &mut Desk<D, O>,
    keeper: &mut K,
    order: Order,
    at: u64,
    all: &mut Listed<Named>,
) -> Result<(), Verdict>
    requires order { IsOrder order }
    requires whole { desk.old.broken ≡ false }
    requires desk { IsDesk D.tells D.history desk.old }
    ensures kept { IsDesk D.tells D.history desk.new }
    ensures tried { NextTried K.tells D.faults at order desk.old desk.new (past_of K.rows K.faults keeper.old) (past_of K.rows K.faults keeper.new) all.old all.new result }
    ensures goes { TaskGoes D.tells D.history D.faults D.far (λ o. said_of (O.says o)) desk.old desk.new (past_of K.rows K.faults keeper.old) (past_of K.rows K.faults keeper.new) }
    ensures rest { RowsRest K.tells (past_of K.rows K.faults keeper.old) (past_of K.rows K.faults keeper.new) }
{
    match add_order(desk, keeper, order, at) {
        Ok(named) => match all.push(named) {
            Ok(()) => Ok(()),
            Err(NoMemory) => Err(Verdict::NoMemory),
        },
        Err(verdict) => Err(verdict),
    }
}

/// Adds all records, in their order, up to the first that is refused, and keeps what is printed for each. What
/// was added stays.
pub(crate) fn add_rows<D: Disk, O: Origin, K: Keeper>(
    desk: &mut Desk<D, O>,
    keeper: &mut K,
    rows: ImportRows,
    at: u64,
    all: &mut Listed<Named>,
) -> Verdict
    requires good { AllByRecursion IsGoodRow rows }
    requires none { all.old ≡ [] }
    requires whole { desk.old.broken ≡ false }
    requires desk { IsDesk D.tells D.history desk.old }
    ensures tried { RowsTried K.tells D.faults at rows desk.old desk.new (past_of K.rows K.faults keeper.old) (past_of K.rows K.faults keeper.new) all.new result }
    ensures goes { TaskGoes D.tells D.history D.faults D.far (λ o. said_of (O.says o)) desk.old desk.new (past_of K.rows K.faults keeper.old) (past_of K.rows K.faults keeper.new) }
    ensures rest { RowsRest K.tells (past_of K.rows K.faults keeper.old) (past_of K.rows K.faults keeper.new) }
{
    'rows: for row in rows.into_vec() {
        match add_next(desk, keeper, order_of(row), at, all) {
            Ok(()) => {}
            Err(verdict) => return verdict,
        }
    }
    Verdict::Done
}
