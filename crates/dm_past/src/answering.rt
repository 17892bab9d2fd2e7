//! How the rows of the history answer a command of the list.
ghost use Rattle.std.specs.Prelude.{◌≡◌, false, IsTrue, None};
ghost use Rattle.dm_types.specs.Faults.{HasCause};
ghost use Rattle.dm_hist.specs.Faults.{keeper_kind};
ghost use Rattle.dm_item.specs.Listing.{item_in};
ghost use Rattle.dm_report.specs.Said.{EndsAs};
ghost use Rattle.dm_archive.specs.Doing.{adds_row, gets_row, line_of};
ghost use Rattle.dm_past.specs.ByRows.{FindsFree, IdAnswers, RowAnswers, WordAnswers};
ghost use Rattle.dm_past.specs.Past.{past_of};
ghost use Rattle.dm_past.specs.Saying.{text_of};

use crate::lines::row_line;
use crate::saying::{say_keeper, with_text};
use dm_answers::Order;
use dm_does::Job;
use dm_hist::{Keeper, KeeperFault, Row};
use dm_item::Items;
use dm_report::{Ending, Verdict};
use dm_shown::{Named, add_by_row, find_named, get_by_row};
use dm_types::{ItemId, Text};
use std::alloc::Global;

/// What is said of a row: the verdict, and its line where it has the address.
fn say_row(alloc: Global, row: &Row, address: &[u8], verdict: Verdict) -> Ending
    ensures { EndsAs (record { verdict = verdict; out = text_of (line_of address.now row.now) }) result }
{
    if row.address.is(address) {
        with_text(alloc, verdict, row_line(alloc, row))
    } else {
        with_text(alloc, verdict, Ok(Text::new(alloc)))
    }
}

/// The row of a word that no item has, where there is one.
fn find_free<K: Keeper>(
    items: &Items,
    keeper: &mut K,
    word: &[u8],
) -> Result<Option<Row>, KeeperFault>
    ensures found { FindsFree K.tells word.now (record { items = items.now.items; rows = K.rows keeper.old }) result }
    ensures same { K.tells → K.rows keeper.new ≡ K.rows keeper.old }
    ensures cause { HasCause keeper_kind (K.faults keeper.old) (K.faults keeper.new) result }
{
    match find_named(items, keeper, word) {
        Ok(Some(Named::Row(row))) => Ok(Some(row)),
        Ok(Some(Named::Item(_))) => Ok(None),
        Ok(None) => Ok(None),
        Err(fault) => Err(fault),
    }
}

/// What a row says to a command that brings an item, where no item has its word.
fn answer_get<K: Keeper>(
    alloc: Global,
    items: &Items,
    keeper: &mut K,
    order: &Order,
) -> Option<Ending>
    ensures { WordAnswers K.tells order.now.word (gets_row order.now.address.text) (record { items = items.now.items; rows = K.rows keeper.old }) (past_of K.rows K.faults keeper.old) (past_of K.rows K.faults keeper.new) result }
{
    match find_free(items, keeper, order.word.bytes()) {
        Ok(Some(row)) => {
            let address = order.address.text.bytes();
            let verdict = get_by_row(&row, address);
            Some(say_row(alloc, &row, address, verdict))
        }
        Ok(None) => None,
        Err(fault) => Some(say_keeper(alloc, fault)),
    }
}

/// What a row says to a command that adds an item, where no item has its word.
fn answer_add<K: Keeper>(
    alloc: Global,
    items: &Items,
    keeper: &mut K,
    order: &Order,
) -> Option<Ending>
    ensures { WordAnswers K.tells order.now.word (adds_row order.now.address.text) (record { items = items.now.items; rows = K.rows keeper.old }) (past_of K.rows K.faults keeper.old) (past_of K.rows K.faults keeper.new) result }
{
    match find_free(items, keeper, order.word.bytes()) {
        Ok(Some(row)) => {
            let address = order.address.text.bytes();
            let verdict = add_by_row(&row, address);
            Some(say_row(alloc, &row, address, verdict))
        }
        Ok(None) => None,
        Err(fault) => Some(say_keeper(alloc, fault)),
    }
}

/// Whether an item has the id.
fn is_listed(items: &Items, id: ItemId) -> bool
    ensures some { IsTrue result → item_in id.0 items.now.items ≡ None → ⊥ }
    ensures none { result ≡ false → item_in id.0 items.now.items ≡ None }
{
    match items.get(id) {
        Some(_) => true,
        None => false,
    }
}

/// Drops the row of an id that no item has, where there is one.
fn answer_remove<K: Keeper>(
    alloc: Global,
    items: &Items,
    keeper: &mut K,
    id: ItemId,
) -> Option<Ending>
    ensures { IdAnswers K.tells id (record { items = items.now.items; rows = K.rows keeper.old }) (past_of K.rows K.faults keeper.old) (past_of K.rows K.faults keeper.new) result }
{
    if is_listed(items, id) {
        return None;
    }
    match keeper.drop_row(id) {
        Ok(true) => Some(Ending::fixed(alloc, Verdict::Done)),
        Ok(false) => None,
        Err(fault) => Some(say_keeper(alloc, fault)),
    }
}

/// What the history says to a job that is about to be done on these items: nothing, where no row answers it.
pub(crate) fn answer<K: Keeper>(
    alloc: Global,
    items: &Items,
    keeper: &mut K,
    job: &Job,
) -> Option<Ending>
    ensures { RowAnswers K.tells job.now (record { items = items.now.items; rows = K.rows keeper.old }) (past_of K.rows K.faults keeper.old) (past_of K.rows K.faults keeper.new) result }
{
    match job {
        Job::Get(order, _) => answer_get(alloc, items, keeper, order),
        Job::Add(order) => answer_add(alloc, items, keeper, order),
        Job::Remove(id) => answer_remove(alloc, items, keeper, *id),
        _ => None,
    }
}
