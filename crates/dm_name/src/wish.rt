ghost use Rattle.std.specs.Prelude.{◌≡◌, IfOk, string_bytes};
ghost use Rattle.std.specs.Option.{option_copied};
ghost use Rattle.dm_name.specs.Clean.{cleaned};
ghost use Rattle.dm_name.specs.Wish.{name_in, raw_wish, segment_name, told_name};

use crate::clean::cleaned;
use crate::runs::{after_slashes, path_of};
use dm_disposition::Disposition;
use dm_types::{Address, NoMemory, Text};
use percent_encoding::percent_decode;
use std::alloc::Global;

/// A name's bytes, or none.
fn name_in(name: &Option<Text>) -> &[u8]
    ensures { result.now ≡ name_in name.now }
{
    match name {
        Some(name) => name.bytes(),
        None => b"",
    }
}

/// The first name that was handed in or told and isn't empty, or none.
fn told_name<'a>(handed: &'a [u8], disposition: Option<&'a Disposition>) -> &'a [u8]
    ensures { result.now ≡ told_name handed.now (option_copied disposition.entry) }
{
    if !handed.is_empty() {
        return handed;
    }
    let Some(told) = disposition else {
        return handed;
    };
    let extended = name_in(&told.extended);
    if extended.is_empty() {
        name_in(&told.plain)
    } else {
        extended
    }
}

/// The last segment of the target's path, decoded, with U+FFFD for what isn't UTF-8.
fn segment_name(alloc: Global, target: &[u8]) -> Result<String, NoMemory>
    ensures { IfOk result (λ name. string_bytes name ≡ segment_name target.now) }
{
    let mut bytes = Vec::new(alloc);
    percent_decode(after_slashes(path_of(target))).append_to(&mut bytes)?;
    Ok(String::from_utf8_lossy(alloc, bytes.as_slice())?)
}

/// The cleaned wish for a file's name: that of the first that is there and not empty, of the name handed in, the
/// disposition's extended and plain names, and the last segment of the address's path.
pub fn wish_name(
    alloc: Global,
    handed: &[u8],
    disposition: Option<&Disposition>,
    address: &Address,
) -> Result<Text, NoMemory>
    ensures { IfOk result (λ name. name ≡ cleaned (raw_wish handed.now (option_copied disposition.entry) address.now.target)) }
{
    let told = told_name(handed, disposition);
    if !told.is_empty() {
        return cleaned(alloc, told);
    }
    let segment = segment_name(alloc, address.target.bytes())?;
    cleaned(alloc, segment.as_bytes())
}
