ghost use Rattle.std.specs.Prelude.{◌≡◌, IfOk, map};
ghost use Rattle.std.specs.List.{AllByRecursion};
ghost use Rattle.dm_disposition.specs.Names.{IsSpelled, AreApart};
ghost use Rattle.dm_disposition.specs.Told.{PlainOf, ExtendedOf};
ghost use Rattle.dm_disposition.specs.Views.{named};

use crate::extended::extended_of;
use crate::names::text_of;
use crate::notes::Parameter;
use crate::plain::plain_of;
use dm_types::{NoMemory, Text};
use std::alloc::Global;

/// The value of `filename`.
pub fn told_plain(alloc: Global, parameters: &[Parameter]) -> Result<Option<Text>, NoMemory>
    ensures { IfOk result (λ told. AllByRecursion IsSpelled (map named parameters.now) → PlainOf (map named parameters.now) told) }
{
    match text_of(parameters, b"filename") {
        Some(text) => Ok(Some(plain_of(alloc, text)?)),
        None => Ok(None),
    }
}

/// The value of `filename*`, where it is an ext-value.
pub fn told_extended(alloc: Global, parameters: &[Parameter]) -> Result<Option<Text>, NoMemory>
    ensures { IfOk result (λ told. AreApart (map named parameters.now) → ExtendedOf (map named parameters.now) told) }
{
    match text_of(parameters, b"filename*") {
        Some(text) => extended_of(alloc, text),
        None => Ok(None),
    }
}
