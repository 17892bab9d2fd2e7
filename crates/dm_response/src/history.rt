//! Rows of the history as JSON.
ghost use Rattle.std.specs.Prelude.{◌≡◌, IfOk, OnOk};
ghost use Rattle.serde_json.specs.Data.{string};
ghost use Rattle.serde_json.specs.View.{members_view, view};
ghost use Rattle.serde_json.specs.Written.{compact_text};
ghost use Rattle.dm_response.specs.Json.{may_name, row_data, rows_data, with_row_numbers, with_row_state, with_row_texts, word_of_row};

use crate::json::{digest_or_null, number_or_null, text_of, text_value};
use dm_hist::Row;
use dm_types::{NoMemory, Text};
use serde_json::{Map, Value, json, put};
use std::alloc::Global;

/// A row of the history.
pub fn row_text(alloc: Global, row: &Row) -> Result<Text, NoMemory>
    ensures { IfOk result (λ text. text ≡ compact_text (row_data row.now)) }
{
    let value = row_value(alloc, row)?;
    text_of(alloc, &value)
}

/// Part of the history, in its order.
pub fn rows_text(alloc: Global, rows: &[Row]) -> Result<Text, NoMemory>
    ensures { IfOk result (λ text. text ≡ compact_text (rows_data rows.now)) }
{
    let value = rows_value(alloc, rows)?;
    text_of(alloc, &value)
}

fn rows_value(alloc: Global, rows: &[Row]) -> Result<Value, NoMemory>
    ensures { IfOk result (λ value. view value ≡ rows_data rows.now) }
{
    let mut list = Vec::new(alloc);
    for row in rows {
        list.push(row_value(alloc, row)?)?;
    }
    let mut members = Map::new(alloc);
    put(&mut members, alloc, "rows", Value::Array(list))?;
    Ok(Value::Object(members))
}

fn row_value(alloc: Global, row: &Row) -> Result<Value, NoMemory>
    ensures { IfOk result (λ value. view value ≡ row_data row.now) }
{
    let mut members = Map::new(alloc);
    put_texts(alloc, &mut members, row)?;
    put_numbers(alloc, &mut members, row)?;
    put_state(alloc, &mut members, row)?;
    Ok(Value::Object(members))
}

fn put_texts(alloc: Global, members: &mut Map<String, Value>, row: &Row) -> Result<(), NoMemory>
    ensures { OnOk result (members_view members.new.entries ≡ with_row_texts row.now (members_view members.old.entries)) }
{
    put(members, alloc, "word", text_value(alloc, row.word.bytes())?)?;
    put(
        members,
        alloc,
        "address",
        text_value(alloc, row.address.bytes())?,
    )?;
    put(
        members,
        alloc,
        "name",
        name_or_null(alloc, row.name.bytes())?,
    )?;
    Ok(())
}

fn put_numbers(alloc: Global, members: &mut Map<String, Value>, row: &Row) -> Result<(), NoMemory>
    ensures { OnOk result (members_view members.new.entries ≡ with_row_numbers row.now (members_view members.old.entries)) }
{
    put(members, alloc, "id", Value::from(row.id.0))?;
    put(members, alloc, "at", Value::from(row.at_ms))?;
    put(members, alloc, "total", number_or_null(row.total))?;
    Ok(())
}

fn put_state(alloc: Global, members: &mut Map<String, Value>, row: &Row) -> Result<(), NoMemory>
    ensures { OnOk result (members_view members.new.entries ≡ with_row_state row.now (members_view members.old.entries)) }
{
    put(members, alloc, "phase", word_value(alloc, row.complete)?)?;
    put(
        members,
        alloc,
        "sha256",
        digest_or_null(alloc, &row.digest)?,
    )?;
    Ok(())
}

fn name_or_null(alloc: Global, name: &[u8]) -> Result<Value, NoMemory>
    ensures { IfOk result (λ value. view value ≡ may_name name.now) }
{
    match name {
        [] => Ok(Value::Null),
        [_, ..] => text_value(alloc, name),
    }
}

fn word_value(alloc: Global, complete: bool) -> Result<Value, NoMemory>
    ensures { IfOk result (λ value. view value ≡ string (word_of_row complete)) }
{
    let value = json!(in alloc; row_word(complete))?;
    Ok(value)
}

/// The word of a row's state.
fn row_word(complete: bool) -> &'static str
    ensures { result.now ≡ word_of_row complete }
{
    if complete { "complete" } else { "cancelled" }
}
