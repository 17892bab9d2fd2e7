//! The Content-Disposition field (RFC 6266), read by its whole grammar.
#![tactic(auto)]

ghost use Rattle.std.specs.Prelude.{IfOk, option_copied};
ghost use Rattle.dm_disposition.specs.Grammar.{Field, Spells};
ghost use Rattle.dm_disposition.specs.Read.{Answers, Judges, ToldBy};

mod bytes;
mod extended;
mod names;
mod notes;
mod plain;
mod reader;
mod state;
mod told;

use crate::names::first_repeat;
use crate::reader::read;
use crate::told::{told_extended, told_plain};
use dm_types::Text;
use std::alloc::Global;

/// What a Content-Disposition tells. Names are in UTF-8.
#[derive(Debug, Drop)]
pub struct Disposition {
    /// The type, as it is written.
    pub kind: Text,
    /// The value of `filename`.
    pub plain: Option<Text>,
    /// The value of `filename*`, where it is an ext-value (RFC 8187).
    pub extended: Option<Text>,
}

/// What keeps a value from being a disposition.
#[derive(Clone, Copy, Debug, PartialEq, Eq)]
pub enum DispFault {
    /// It isn't in the grammar. The longest front of it with which some value begins has this length in bytes.
    NotGrammar(usize),
    /// The parameter's name at this place is that of an earlier one, ASCII case ignored.
    Repeated(usize),
    NoMemory,
}

impl From<dm_types::NoMemory> for DispFault {
    ghost use Rattle.std.specs.Prelude.{◌≡◌};
    ghost use Rattle.dm_disposition.specs.declared.DispFault.TheVariants.{NoMemory};

    ghost from_gives = { λ _ e. e ≡ NoMemory };

    fn from(_: dm_types::NoMemory) -> DispFault {
        DispFault::NoMemory
    }
}

/// Reads the value of a Content-Disposition field (RFC 6266, section 4.1). Any type is taken, and unknown parameters are passed over.
pub fn read_disposition(alloc: Global, value: &[u8]) -> Result<Disposition, DispFault>
    // However the value reads as a field, the answer is what that field makes of it.
    ensures answers { (field : Field) → Spells field value.now → Answers field result }

    // It is refused as being outside the grammar where it is, and otherwise some field reads so.
    ensures judges { Judges value.now result }
{
    let notes = match read(alloc, value) {
        Ok(notes) => notes,
        Err(fault) => return Err(fault),
    };
    let parameters = notes.done.as_slice();
    if let Some(place) = first_repeat(parameters) {
        return Err(DispFault::Repeated(place));
    }
    let plain = told_plain(alloc, parameters)?;
    let extended = told_extended(alloc, parameters)?;
    let kind = Text::from_bytes(alloc, notes.kind.as_slice())?;
    Ok(Disposition {
        kind,
        plain,
        extended,
    })
}

/// What a value tells that may be missing: nothing where it is, or where it is refused.
#[tactic(auto, using(crate::proofs::Telling::tells_none))]
pub fn disposition_of(
    alloc: Global,
    value: Option<&[u8]>,
) -> Result<Option<Disposition>, dm_types::NoMemory>
    ensures { IfOk result (ToldBy (option_copied value.entry)) }
{
    let Some(value) = value else {
        return Ok(None);
    };
    match read_disposition(alloc, value) {
        Ok(told) => Ok(Some(told)),
        Err(DispFault::NoMemory) => Err(dm_types::NoMemory),
        Err(DispFault::NotGrammar(_)) => Ok(None),
        Err(DispFault::Repeated(_)) => Ok(None),
    }
}

#[cfg(test)]
mod tests;
#[cfg(test)]
mod yardstick;
