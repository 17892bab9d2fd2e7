ghost use Rattle.std.specs.Prelude.{◌≡◌, IfOk};
ghost use Rattle.dm_report.specs.Texts.{content_of, item_line_of, item_text_of, naming_of, progress_of, row_of};

use crate::line::{add_field, add_last, add_line, add_number_field, add_number_line};
use crate::values::{bytes_of, digest_text, number_or, state_text};
use dm_slice::covered;
use dm_types::{Item, ItemId, NoMemory, Phase, Text};
use std::alloc::Global;

/// The line of an item, with its line feed: `<id> <state> <covered> <total or ?> <name or ->`.
/// Covered and total count bytes; an interrupted state has its reason's number, as `interrupted:38`.
pub fn item_line(alloc: Global, item: &Item) -> Result<Text, NoMemory>
    ensures { IfOk result (λ text. text ≡ item_line_of item.now) }
{
    row_line(
        alloc,
        item.id,
        item.phase,
        covered(item.slices.items()),
        item.total,
        bytes_of(&item.name),
    )
}

/// The line of an item of which so much is told, with its line feed.
pub fn row_line(
    alloc: Global,
    id: ItemId,
    phase: Phase,
    covered: u128,
    total: Option<u64>,
    name: &[u8],
) -> Result<Text, NoMemory>
    ensures { IfOk result (λ text. text ≡ row_of id.0 phase covered total name.now) }
{
    let mut text = Text::new(alloc);
    add_number_field(alloc, &mut text, u128::from(id.0))?;
    add_field(&mut text, state_text(alloc, phase)?.bytes())?;
    add_number_field(alloc, &mut text, covered)?;
    add_field(&mut text, number_or(alloc, b"?", total)?.bytes())?;
    add_last(&mut text, name)?;
    Ok(text)
}

/// The lines that show an item whole, each a label, a blank and the value, or a hyphen where there
/// is none or it is empty: `id`, `state`, `word`, `address` (the first one), `last`, `name`,
/// `covered` and `total` in bytes, `epoch`, `attempts` (the number of the last one), `automatic`
/// (attempts by itself since the last one by the user), `modified`, and `sha256` of the published
/// file in lower-case hexadecimal.
pub fn item_text(alloc: Global, item: &Item) -> Result<Text, NoMemory>
    ensures { IfOk result (λ text. text ≡ item_text_of item.now) }
{
    let mut text = naming(alloc, item)?;
    text.push_bytes(progress(alloc, item)?.bytes())?;
    text.push_bytes(content(alloc, item)?.bytes())?;
    Ok(text)
}

/// Which item it is, and how it is called.
fn naming(alloc: Global, item: &Item) -> Result<Text, NoMemory>
    ensures { IfOk result (λ text. text ≡ naming_of item.now) }
{
    let mut text = Text::new(alloc);
    add_number_line(alloc, &mut text, b"id", u128::from(item.id.0))?;
    add_line(&mut text, b"state", state_text(alloc, item.phase)?.bytes())?;
    add_line(&mut text, b"word", item.word.bytes())?;
    add_line(&mut text, b"address", item.first_address.bytes())?;
    add_line(&mut text, b"last", bytes_of(&item.last_address))?;
    add_line(&mut text, b"name", bytes_of(&item.name))?;
    Ok(text)
}

/// How far it has come.
fn progress(alloc: Global, item: &Item) -> Result<Text, NoMemory>
    ensures { IfOk result (λ text. text ≡ progress_of item.now) }
{
    let mut text = Text::new(alloc);
    add_number_line(alloc, &mut text, b"covered", covered(item.slices.items()))?;
    add_line(
        &mut text,
        b"total",
        number_or(alloc, b"", item.total)?.bytes(),
    )?;
    add_number_line(alloc, &mut text, b"epoch", u128::from(item.epoch.0))?;
    add_number_line(alloc, &mut text, b"attempts", u128::from(item.attempt.0))?;
    add_number_line(alloc, &mut text, b"automatic", u128::from(item.autos))?;
    Ok(text)
}

/// What its content is.
fn content(alloc: Global, item: &Item) -> Result<Text, NoMemory>
    ensures { IfOk result (λ text. text ≡ content_of item.now) }
{
    let mut text = Text::new(alloc);
    add_line(&mut text, b"modified", bytes_of(&item.modified))?;
    add_line(
        &mut text,
        b"sha256",
        digest_text(alloc, &item.have)?.bytes(),
    )?;
    Ok(text)
}
