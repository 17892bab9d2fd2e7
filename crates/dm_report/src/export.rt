//! The list as CSV.
ghost use Rattle.std.specs.Prelude.{◌≡◌, ◌∷◌, [], map, codes, IfOk, OnOk};
ghost use Rattle.std.specs.Io.KnownBytes.{Appends};
ghost use Rattle.csv.specs.Writing.{text_written};
ghost use Rattle.dm_report.specs.Csv.{IsReady, code_in, csv_of, csv_row, csv_rows, export_header, fields_of};

use crate::values::{bytes_of, digest_text, number_or, number_text, state_text};
use csv::{Writer, WriterBuilder};
use dm_item::Items;
use dm_types::{Item, NoMemory, Reason, Text};
use std::alloc::Global;
use std::io::Write;

/// The list as CSV: the header `id,word,address,name,state,reason,total,sha256`, and a record for each item by rising
/// id. The state is that of the item's line, the reason is its number, and what isn't there is empty.
pub fn csv_export(alloc: Global, items: &Items) -> Result<Text, NoMemory>
    ensures { IfOk result (λ text. text ≡ csv_of items.now.items) }
{
    let mut writer = WriterBuilder::new().from_writer(Vec::new(alloc));
    write_header(&mut writer)?;
    write_items(alloc, &mut writer, items.items())?;
    match writer.into_inner() {
        Ok(bytes) => Ok(Text::from_vec(bytes)),
        Err(_) => Err(NoMemory),
    }
}

/// Writes the header.
fn write_header<W: Write + Drop>(writer: &mut Writer<W>) -> Result<(), NoMemory>
    requires { IsReady writer.old }
    ensures ready { OnOk result (IsReady writer.new) }
    ensures text { OnOk result (Appends (text_written W.contents writer.old) (text_written W.contents writer.new) (csv_row export_header)) }
{
    let fields: [&[u8]; 8] = [
        b"id", b"word", b"address", b"name", b"state", b"reason", b"total", b"sha256",
    ];
    write_row(writer, &fields)
}

/// Writes a record for each item.
fn write_items<W: Write + Drop>(
    alloc: Global,
    writer: &mut Writer<W>,
    items: &[Item],
) -> Result<(), NoMemory>
    requires { IsReady writer.old }
    ensures { OnOk result (Appends (text_written W.contents writer.old) (text_written W.contents writer.new) (csv_rows items.now)) }
{
    for item in items {
        write_item(alloc, writer, item)?;
    }
    Ok(())
}

/// Writes the record of an item.
fn write_item<W: Write + Drop>(
    alloc: Global,
    writer: &mut Writer<W>,
    item: &Item,
) -> Result<(), NoMemory>
    requires { IsReady writer.old }
    ensures ready { OnOk result (IsReady writer.new) }
    ensures text { OnOk result (Appends (text_written W.contents writer.old) (text_written W.contents writer.new) (csv_row (fields_of item.now))) }
{
    let id = number_text(alloc, u128::from(item.id.0))?;
    let state = state_text(alloc, item.phase)?;
    let reason = reason_text(alloc, item.reason)?;
    let total = number_or(alloc, b"", item.total)?;
    let sha256 = digest_text(alloc, &item.have)?;
    let fields: [&[u8]; 8] = [
        id.bytes(),
        item.word.bytes(),
        item.first_address.bytes(),
        bytes_of(&item.name),
        state.bytes(),
        reason.bytes(),
        total.bytes(),
        sha256.bytes(),
    ];
    write_row(writer, &fields)
}

/// The number of a reason that is there, or nothing.
fn reason_text(alloc: Global, reason: Option<Reason>) -> Result<Text, NoMemory>
    ensures { IfOk result (λ text. text ≡ code_in reason) }
{
    match reason {
        None => Ok(Text::new(alloc)),
        Some(reason) => number_text(alloc, u128::from(reason.code())),
    }
}

/// Writes a record. Records are of one length, so memory alone can be wanting.
fn write_row<W: Write + Drop>(writer: &mut Writer<W>, fields: &[&[u8]]) -> Result<(), NoMemory>
    requires { IsReady writer.old }
    ensures ready { OnOk result (IsReady writer.new) }
    ensures text { OnOk result (Appends (text_written W.contents writer.old) (text_written W.contents writer.new) (csv_row (map (λ f. f.now) fields.now))) }
{
    match writer.write_fields(fields) {
        Ok(()) => Ok(()),
        Err(_) => Err(NoMemory),
    }
}
