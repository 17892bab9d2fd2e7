//! What is replied, by how a job goes on.
ghost use Rattle.std.specs.Prelude.{◌≡◌, false, None, IfOk};
ghost use Rattle.std.specs.Option.{option_copied};
ghost use Rattle.dm_service.specs.Replies.{archived_by, archived_data, done_by, items_after, page_by, page_of, removed_data, removed_reply as removed_by, reply_by, report_by, row_by, row_told, rows_by, shown as shown_by, stop_by, stopping_data, told, trouble_by};
ghost use Rattle.serde_json.specs.View.{view};
ghost use Rattle.dm_response.specs.Reply.{reply_of};
ghost use Rattle.dm_response.specs.declared.reply.Media.TheVariants.{Json};

use dm_call::Window;
use dm_does::{Course, Show};
use dm_hist::Row;
use dm_item::Items;
use dm_report::{Verdict, report_text};
use dm_response::{
    ApiReply, Media, Trouble, item_text, items_text, reply_with, row_text, rows_text, text_of,
    trouble_reply,
};
use dm_shown::add_by_row;
use dm_types::{Item, ItemId, NoMemory, Text};
use http::StatusCode;
use serde_json::{Value, json};
use std::alloc::Global;

/// The reply to a job that went on so. `item` is the one that the course shows, as it stands now, and
/// `id` the one that was to be removed.
pub fn reply_to(
    alloc: Global,
    id: ItemId,
    item: Option<&Item>,
    course: Course,
) -> Result<ApiReply, NoMemory>
    ensures { IfOk result (λ reply. reply ≡ reply_by id (option_copied item.entry) course) }
{
    match course {
        Course::Ends(verdict, show) => match trouble_of_verdict(verdict) {
            Some(trouble) => trouble_reply(alloc, trouble),
            None => done(alloc, id, item, show),
        },
        Course::Brings(..) => shown(alloc, item),
    }
}

fn done(alloc: Global, id: ItemId, item: Option<&Item>, show: Show) -> Result<ApiReply, NoMemory>
    ensures { IfOk result (λ reply. reply ≡ done_by id (option_copied item.entry) show) }
{
    match show {
        Show::Nothing => removed_reply(alloc, id),
        _ => shown(alloc, item),
    }
}

fn shown(alloc: Global, item: Option<&Item>) -> Result<ApiReply, NoMemory>
    ensures { IfOk result (λ reply. reply ≡ shown_by (option_copied item.entry)) }
{
    match item {
        Some(item) => {
            let text = item_text(alloc, item)?;
            tell(alloc, &text, false)
        }
        None => trouble_reply(alloc, Trouble::Memory),
    }
}

/// Why a job isn't done, where it isn't.
fn trouble_of_verdict(verdict: Verdict) -> Option<Trouble>
    ensures { result ≡ trouble_by verdict }
{
    match verdict {
        Verdict::Done => None,
        Verdict::NoItem(_) => Some(Trouble::NoItem),
        Verdict::WrongState(phase) => Some(Trouble::WrongState(phase)),
        Verdict::ItemsFull(count) => Some(Trouble::Full(count)),
        Verdict::OtherWord(id) => Some(Trouble::OtherWord(id)),
        Verdict::DiskFailed(_) => Some(Trouble::Disk),
        _ => Some(Trouble::Memory),
    }
}

/// The reply that says which item or row is removed.
pub fn removed_reply(alloc: Global, id: ItemId) -> Result<ApiReply, NoMemory>
    ensures { IfOk result (λ reply. reply ≡ removed_by id) }
{
    let value = removed_value(alloc, id)?;
    let text = text_of(alloc, &value)?;
    tell(alloc, &text, false)
}

fn removed_value(alloc: Global, id: ItemId) -> Result<Value, NoMemory>
    ensures { IfOk result (λ value. view value ≡ removed_data id) }
{
    let value = json!(in alloc; {"removed": id.0})?;
    Ok(value)
}

/// The reply to what ends the service, behind which it ends.
pub fn stop_reply(alloc: Global) -> Result<ApiReply, NoMemory>
    ensures { IfOk result (λ reply. reply ≡ stop_by) }
{
    let value = stopping_value(alloc)?;
    let text = text_of(alloc, &value)?;
    tell(alloc, &text, true)
}

fn stopping_value(alloc: Global) -> Result<Value, NoMemory>
    ensures { IfOk result (λ value. view value ≡ stopping_data) }
{
    let value = json!(in alloc; {"stopping": true})?;
    Ok(value)
}

/// The reply that shows part of a list, which is by rising id.
pub fn page_reply(alloc: Global, items: &[Item], window: Window) -> Result<ApiReply, NoMemory>
    ensures { IfOk result (λ reply. reply ≡ page_by items.now window) }
{
    let text = items_text(alloc, page(items, window))?;
    tell(alloc, &text, false)
}

fn page(items: &[Item], window: Window) -> &[Item]
    ensures { result.now ≡ page_of window items.now }
{
    let rest = items_from(items, window.after);
    let size = rest.len().min(window.limit as usize);
    &rest[..size]
}

/// The items from the first id above this one on.
fn items_from(items: &[Item], after: u32) -> &[Item]
    ensures { result.now ≡ items_after after items.now }
{
    match items {
        [] => items,
        [item, ..] if item.id.0 > after => items,
        [_, rest @ ..] => items_from(rest, after),
    }
}

/// The reply that tells the report on all items, as text.
pub fn report_reply(alloc: Global, items: &Items) -> Result<ApiReply, NoMemory>
    ensures { IfOk result (λ reply. reply ≡ report_by items.now.items) }
{
    let text = report_text(alloc, items)?;
    reply_with(
        alloc,
        StatusCode::OK,
        Media::Plain,
        None,
        text.bytes(),
        false,
    )
}

/// The reply that says how many items were moved to the history.
pub fn archived_reply(alloc: Global, count: u32) -> Result<ApiReply, NoMemory>
    ensures { IfOk result (λ reply. reply ≡ archived_by count) }
{
    let value = archived_value(alloc, count)?;
    let text = text_of(alloc, &value)?;
    tell(alloc, &text, false)
}

fn archived_value(alloc: Global, count: u32) -> Result<Value, NoMemory>
    ensures { IfOk result (λ value. view value ≡ archived_data count) }
{
    let value = json!(in alloc; {"archived": count})?;
    Ok(value)
}

/// The reply that shows part of the history.
pub fn rows_reply(alloc: Global, rows: &[Row]) -> Result<ApiReply, NoMemory>
    ensures { IfOk result (λ reply. reply ≡ rows_by rows.now) }
{
    let text = rows_text(alloc, rows)?;
    tell(alloc, &text, false)
}

/// The reply where a row has the word of an item that is to be added from this address: the row is shown, where it has the
/// address.
pub fn row_reply(alloc: Global, row: &Row, address: &[u8]) -> Result<ApiReply, NoMemory>
    ensures { IfOk result (λ reply. reply ≡ row_by address.now row.now) }
{
    show_by(alloc, row, add_by_row(row, address))
}

/// Shows a row, where this is no trouble.
fn show_by(alloc: Global, row: &Row, verdict: Verdict) -> Result<ApiReply, NoMemory>
    ensures { IfOk result (λ reply. reply ≡ row_told row.now (trouble_by verdict)) }
{
    match trouble_of_verdict(verdict) {
        Some(trouble) => trouble_reply(alloc, trouble),
        None => show_row(alloc, row),
    }
}

fn show_row(alloc: Global, row: &Row) -> Result<ApiReply, NoMemory>
    ensures { IfOk result (λ reply. reply ≡ row_told row.now None) }
{
    let text = row_text(alloc, row)?;
    tell(alloc, &text, false)
}

/// A reply of status 200 with this content.
fn tell(alloc: Global, content: &Text, stop: bool) -> Result<ApiReply, NoMemory>
    ensures { IfOk result (λ reply. reply ≡ reply_of 200 Json None content.now stop) }
{
    reply_with(
        alloc,
        StatusCode::OK,
        Media::Json,
        None,
        content.bytes(),
        stop,
    )
}
