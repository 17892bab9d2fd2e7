//! Items as JSON.
ghost use Rattle.std.specs.Prelude.{◌≡◌, false, min, ◌-◌, ◌^◌, string_bytes, IfOk, OnOk};
ghost use Rattle.hex.specs.Hex.{encode_lower};
ghost use Rattle.serde_json.specs.Data.{string};
ghost use Rattle.serde_json.specs.View.{members_view, view};
ghost use Rattle.serde_json.specs.Written.{compact_text, has_float};
ghost use Rattle.dm_response.specs.Json.{covered_by, item_data, items_data, may_digest, may_number, may_reason, may_text, text_data, with_numbers, with_state, with_texts, word_of as state_word};

use dm_slice::covered;
use dm_types::{Item, NoMemory, Phase, Reason, Text};
use serde_json::{Map, Value, json, put};
use std::alloc::Global;

/// The text of a value that has no fraction.
pub fn text_of(alloc: Global, value: &Value) -> Result<Text, NoMemory>
    requires { has_float (view value.now) ≡ false }
    ensures { IfOk result (λ text. text ≡ compact_text (view value.now)) }
{
    let text = value.to_string(alloc)?;
    Ok(Text::from_vec(text.into_bytes()))
}

/// An item.
pub fn item_text(alloc: Global, item: &Item) -> Result<Text, NoMemory>
    ensures { IfOk result (λ text. text ≡ compact_text (item_data item.now)) }
{
    let value = item_value(alloc, item)?;
    text_of(alloc, &value)
}

/// Part of the list, in its order.
pub fn items_text(alloc: Global, items: &[Item]) -> Result<Text, NoMemory>
    ensures { IfOk result (λ text. text ≡ compact_text (items_data items.now)) }
{
    let value = items_value(alloc, items)?;
    text_of(alloc, &value)
}

fn items_value(alloc: Global, items: &[Item]) -> Result<Value, NoMemory>
    ensures { IfOk result (λ value. view value ≡ items_data items.now) }
{
    let mut list = Vec::new(alloc);
    for item in items {
        list.push(item_value(alloc, item)?)?;
    }
    let mut members = Map::new(alloc);
    put(&mut members, alloc, "items", Value::Array(list))?;
    Ok(Value::Object(members))
}

fn item_value(alloc: Global, item: &Item) -> Result<Value, NoMemory>
    ensures { IfOk result (λ value. view value ≡ item_data item.now) }
{
    let mut members = Map::new(alloc);
    put_texts(alloc, &mut members, item)?;
    put_numbers(alloc, &mut members, item)?;
    put_state(alloc, &mut members, item)?;
    Ok(Value::Object(members))
}

fn put_texts(alloc: Global, members: &mut Map<String, Value>, item: &Item) -> Result<(), NoMemory>
    ensures { OnOk result (members_view members.new.entries ≡ with_texts item.now (members_view members.old.entries)) }
{
    put(
        members,
        alloc,
        "word",
        text_value(alloc, item.word.bytes())?,
    )?;
    put(
        members,
        alloc,
        "address",
        text_value(alloc, item.first_address.bytes())?,
    )?;
    put(members, alloc, "name", text_or_null(alloc, &item.name)?)?;
    Ok(())
}

fn put_numbers(alloc: Global, members: &mut Map<String, Value>, item: &Item) -> Result<(), NoMemory>
    ensures { OnOk result (members_view members.new.entries ≡ with_numbers item.now (members_view members.old.entries)) }
{
    put(members, alloc, "id", Value::from(item.id.0))?;
    put(members, alloc, "autos", Value::from(item.autos))?;
    put(members, alloc, "covered", Value::from(covered_bytes(item)))?;
    put(members, alloc, "total", number_or_null(item.total))?;
    Ok(())
}

fn put_state(alloc: Global, members: &mut Map<String, Value>, item: &Item) -> Result<(), NoMemory>
    ensures { OnOk result (members_view members.new.entries ≡ with_state item.now (members_view members.old.entries)) }
{
    put(members, alloc, "phase", word_value(alloc, item.phase)?)?;
    put(members, alloc, "reason", reason_or_null(item.reason))?;
    put(members, alloc, "sha256", digest_or_null(alloc, &item.have)?)?;
    Ok(())
}

pub(crate) fn text_value(alloc: Global, bytes: &[u8]) -> Result<Value, NoMemory>
    ensures { IfOk result (λ value. view value ≡ text_data bytes.now) }
{
    let text = String::from_utf8_lossy(alloc, bytes)?;
    Ok(Value::from(text))
}

fn text_or_null(alloc: Global, text: &Option<Text>) -> Result<Value, NoMemory>
    ensures { IfOk result (λ value. view value ≡ may_text text.now) }
{
    match text {
        Some(text) => text_value(alloc, text.bytes()),
        None => Ok(Value::Null),
    }
}

pub(crate) fn number_or_null(number: Option<u64>) -> Value
    ensures { view result ≡ may_number number }
{
    match number {
        Some(number) => Value::from(number),
        None => Value::Null,
    }
}

fn reason_or_null(reason: Option<Reason>) -> Value
    ensures { view result ≡ may_reason reason }
{
    match reason {
        Some(reason) => Value::from(reason.code()),
        None => Value::Null,
    }
}

pub(crate) fn digest_or_null(alloc: Global, digest: &Option<[u8; 32]>) -> Result<Value, NoMemory>
    ensures { IfOk result (λ value. view value ≡ may_digest digest.now) }
{
    match digest {
        Some(digest) => hex_value(alloc, digest),
        None => Ok(Value::Null),
    }
}

fn hex_value(alloc: Global, bytes: &[u8]) -> Result<Value, NoMemory>
    ensures { IfOk result (λ value. view value ≡ string (encode_lower bytes.now)) }
{
    let text = hex::encode(alloc, bytes)?;
    Ok(Value::from(text))
}

fn word_value(alloc: Global, phase: Phase) -> Result<Value, NoMemory>
    ensures { IfOk result (λ value. view value ≡ string (state_word phase)) }
{
    let value = json!(in alloc; word_of(phase))?;
    Ok(value)
}

/// The word of a state.
pub(crate) fn word_of(phase: Phase) -> &'static str
    ensures { result.now ≡ state_word phase }
{
    match phase {
        Phase::Waiting => "waiting",
        Phase::Running => "running",
        Phase::Paused => "paused",
        Phase::Finishing => "finishing",
        Phase::Complete => "complete",
        Phase::Cancelled => "cancelled",
        Phase::Interrupted(_) => "interrupted",
    }
}

fn covered_bytes(item: &Item) -> u64
    ensures { result ≡ covered_by item.now }
{
    covered(item.slices.items()).min(u128::from(u64::MAX)) as u64
}
