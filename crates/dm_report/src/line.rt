ghost use Rattle.std.specs.Prelude.{◌≡◌, ◌++◌, OnOk};
ghost use Rattle.std.specs.Fmt.{decimal};
ghost use Rattle.dm_report.specs.Texts.{field, labelled, line, or_hyphen};

use crate::values::number_text;
use dm_types::{NoMemory, Text};
use std::alloc::Global;

/// Adds a value and a blank.
pub fn add_field(text: &mut Text, value: &[u8]) -> Result<(), NoMemory>
    ensures { OnOk result (text.new ≡ text.old ++ field value.now) }
{
    text.push_bytes(value)?;
    text.push_bytes(b" ")
}

/// Adds a number and a blank.
pub fn add_number_field(alloc: Global, text: &mut Text, number: u128) -> Result<(), NoMemory>
    ensures { OnOk result (text.new ≡ text.old ++ field (decimal number)) }
{
    let number = number_text(alloc, number)?;
    add_field(text, number.bytes())
}

/// Ends a line with a value, or with a hyphen where it is empty.
pub fn add_last(text: &mut Text, value: &[u8]) -> Result<(), NoMemory>
    ensures { OnOk result (text.new ≡ text.old ++ line (or_hyphen value.now)) }
{
    text.push_bytes(or_hyphen(value))?;
    text.push_bytes(b"\n")
}

/// The value, or a hyphen where it is empty.
fn or_hyphen(value: &[u8]) -> &[u8]
    ensures { result.now ≡ or_hyphen value.now }
{
    match value {
        [] => b"-",
        [_, ..] => value,
    }
}

/// Adds a line: the label, a blank, and the value or a hyphen.
pub fn add_line(text: &mut Text, label: &[u8], value: &[u8]) -> Result<(), NoMemory>
    ensures { OnOk result (text.new ≡ text.old ++ labelled label.now value.now) }
{
    add_field(text, label)?;
    add_last(text, value)
}

/// Adds a line with a number.
pub fn add_number_line(
    alloc: Global,
    text: &mut Text,
    label: &[u8],
    number: u128,
) -> Result<(), NoMemory>
    ensures { OnOk result (text.new ≡ text.old ++ labelled label.now (decimal number)) }
{
    let number = number_text(alloc, number)?;
    add_line(text, label, number.bytes())
}
