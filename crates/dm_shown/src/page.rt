ghost use Rattle.std.specs.Prelude.{◌≡◌, ◌≤◌, ◌<◌, ◌++◌, IfOk, IfSome, OnOk, false};
ghost use Rattle.std.specs.List.{All};
ghost use Rattle.dm_types.specs.Faults.{HasCause};
ghost use Rattle.dm_hist.specs.Faults.{keeper_kind};
ghost use Rattle.dm_hist.specs.Shown.{is_listed as is_hidden, shown};
ghost use Rattle.dm_shown.specs.Pages.{shown_page};
ghost use Rattle.dm_shown.specs.Paging.{Adds, next_from};

use dm_hist::{Keeper, KeeperFault, RowFilter, RowList, is_listed};
use dm_item::Items;
use dm_types::{Item, Listed, NoMemory};
use std::alloc::Global;

const ALL: RowFilter = RowFilter { complete: None };

/// The first `limit` rows of the history above `after` that are shown, those whose id is no item's. The limit
/// counts the rows that are shown.
pub fn shown_rows<K: Keeper>(
    alloc: Global,
    items: &Items,
    keeper: &mut K,
    after: u32,
    limit: u32,
) -> Result<RowList, KeeperFault>
    ensures page { K.tells → IfOk result (λ page. page ≡ shown_page items.now.items after limit (K.rows keeper.old)) }
    ensures unlisted { IfOk result (λ page. All (λ row. is_hidden row.id.0 items.now.items ≡ false) page) }
    ensures same { K.tells → K.rows keeper.new ≡ K.rows keeper.old }
    ensures cause { HasCause keeper_kind (K.faults keeper.old) (K.faults keeper.new) result }
{
    let mut page: RowList = Listed::new(alloc);
    let mut from = after;
    'pages: while page.count() < u64::from(limit) {
        let wanted = limit - page.count() as u32;
        match add_rows(items.items(), keeper, &mut page, from, wanted) {
            Ok(Some(last)) => from = last,
            Ok(None) => return Ok(page),
            Err(fault) => return Err(fault),
        }
    }
    Ok(page)
}

/// Adds those of the next `wanted` rows that are shown, and says from which id more are to be asked for, if
/// there are more.
fn add_rows<K: Keeper>(
    items: &[Item],
    keeper: &mut K,
    page: &mut RowList,
    from: u32,
    wanted: u32,
) -> Result<Option<u32>, KeeperFault>
    requires some { 1 ≤ wanted }
    ensures adds { K.tells → IfOk result (λ last. Adds items.now (K.rows keeper.old) from wanted page.old page.new last) }
    ensures unlisted { OnOk result (All (λ row. is_hidden row.id.0 items.now ≡ false) page.old → All (λ row. is_hidden row.id.0 items.now ≡ false) page.new) }
    ensures rises { IfOk result (λ last. IfSome last (λ id. from < id)) }
    ensures same { K.tells → K.rows keeper.new ≡ K.rows keeper.old }
    ensures cause { HasCause keeper_kind (K.faults keeper.old) (K.faults keeper.new) result }
{
    match keeper.rows_page(&ALL, from, wanted) {
        Ok(rows) => {
            let next = more_from(&rows, from, wanted);
            match add_shown(items, page, rows) {
                Ok(()) => Ok(next),
                Err(NoMemory) => Err(KeeperFault::NoMemory),
            }
        }
        Err(fault) => Err(fault),
    }
}

/// From which id the next rows are to be asked for, where as many came as were wanted.
fn more_from(rows: &RowList, from: u32, wanted: u32) -> Option<u32>
    requires some { 1 ≤ wanted }
    ensures next { result ≡ next_from rows.now from wanted }
    ensures rises { IfSome result (λ id. from < id) }
{
    let count = rows.count();
    if count < u64::from(wanted) {
        return None;
    }
    match rows.get(count - 1) {
        Some(row) if row.id.0 > from => Some(row.id.0),
        _ => None,
    }
}

/// Adds those of the rows that are shown.
fn add_shown(items: &[Item], page: &mut RowList, rows: RowList) -> Result<(), NoMemory>
    ensures { OnOk result (page.new ≡ page.old ++ shown items.now rows) }
{
    for row in rows.into_vec() {
        if !is_listed(row.id, items) {
            page.push(row)?;
        }
    }
    Ok(())
}
