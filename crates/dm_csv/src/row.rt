//! What a record tells of an item.
ghost use Rattle.std.specs.Prelude.{◌≡◌, ◌↔◌, ◌≤◌, length, ◌∷◌, [], List, Option, ℕ, IfSome, IfNone, IfOk, IfErr, IsTrue};
ghost use Rattle.csv.specs.Records.{fields_of};
ghost use Rattle.dm_csv.specs.Rows.{AreGood, IsDigestIn, IsNameIn, IsRow};
ghost use Rattle.dm_csv.specs.Reading.{RefusesRow, RefusesText};
ghost use Rattle.dm_request.specs.Fault.{IsRead};

use crate::fields::{Fields, four_fields};
use csv::ByteRecord;
use dm_request::{Unread, read_address};
use dm_types::{Address, NoMemory, Text};
use dm_words::{digest_of, is_name, is_word};
use std::alloc::Global;

/// An item that a file tells of.
#[derive(Debug, Drop)]
pub struct ImportRow {
    /// The user's word for it.
    pub word: Text,
    /// Where it is brought from.
    pub address: Address,
    /// The name that its file is to have, or empty.
    pub wish: Text,
    /// The SHA-256 that its content is to have, where it is told.
    pub digest: Option<[u8; 32]>,
}

/// Why a record isn't read.
#[derive(Clone, Copy, Debug, PartialEq, Eq)]
pub(crate) enum RowFault {
    Bad,
    NoMemory,
}

/// What a record tells.
pub(crate) fn read_row(alloc: Global, found: &ByteRecord) -> Result<ImportRow, RowFault>
    ensures ok { IfOk result (IsRow (fields_of found.now)) }
    ensures refused { IfErr result (RefusesRow (fields_of found.now)) }
{
    match four_fields(found) {
        Some(fields) => read_fields(alloc, fields),
        None => Err(RowFault::Bad),
    }
}

fn read_fields(alloc: Global, fields: Fields<'_>) -> Result<ImportRow, RowFault>
    ensures ok { IfOk result (IsRow (fields.entry.word.now ∷ fields.entry.address.now ∷ fields.entry.name.now ∷ fields.entry.sha256.now ∷ [])) }
    ensures refused { IfErr result (RefusesRow (fields.entry.word.now ∷ fields.entry.address.now ∷ fields.entry.name.now ∷ fields.entry.sha256.now ∷ [])) }
{
    let digest = match good_digest(fields.word, fields.name, fields.sha256) {
        Some(digest) => digest,
        None => return Err(RowFault::Bad),
    };
    let address = match read_text(alloc, fields.address) {
        Ok(address) => address,
        Err(fault) => return Err(fault),
    };
    match make_row(alloc, fields.word, fields.name, address, digest) {
        Ok(row) => Ok(row),
        Err(NoMemory) => Err(RowFault::NoMemory),
    }
}

/// The digest, where each value keeps its rule.
fn good_digest(word: &[u8], name: &[u8], sum: &[u8]) -> Option<Option<[u8; 32]>>
    ensures some { IfSome result (λ digest. AreGood word.now name.now sum.now digest) }
    ensures none { IfNone result ((digest : Option (List ℕ)) → ¬ AreGood word.now name.now sum.now digest) }
{
    if !is_word(word) || !may_be_name(name) {
        return None;
    }
    match read_digest(sum) {
        Some(digest) => Some(digest),
        None => None,
    }
}

/// Whether it is empty or a name.
fn may_be_name(name: &[u8]) -> bool
    ensures { IsTrue result ↔ IsNameIn name.now }
{
    name.is_empty() || is_name(name)
}

/// The digest of the digits, or none where there are none. `None` where they are no digest's.
fn read_digest(sum: &[u8]) -> Option<Option<[u8; 32]>>
    ensures some { IfSome result (λ digest. IsDigestIn sum.now digest) }
    ensures none { IfNone result ((digest : Option (List ℕ)) → ¬ IsDigestIn sum.now digest) }
{
    match sum {
        [] => Some(None),
        [_, ..] => match digest_of(sum) {
            Some(digest) => Some(Some(digest)),
            None => None,
        },
    }
}

/// The address that a text is.
fn read_text(alloc: Global, text: &[u8]) -> Result<Address, RowFault>
    ensures ok { IfOk result (IsRead text.now) }
    ensures short { IfOk result (λ address. length address.text ≤ 4096) }
    ensures refused { IfErr result (RefusesText text.now) }
{
    match read_address(alloc, text) {
        Ok(address) => Ok(address),
        Err(fault) => match fault.unread() {
            Unread::Refused => Err(RowFault::Bad),
            Unread::NoMemory => Err(RowFault::NoMemory),
        },
    }
}

fn make_row(
    alloc: Global,
    word: &[u8],
    name: &[u8],
    address: Address,
    digest: Option<[u8; 32]>,
) -> Result<ImportRow, NoMemory>
    ensures { IfOk result (λ row. row ≡ record { word = word.now; address = address; wish = name.now; digest = digest }) }
{
    Ok(ImportRow {
        word: Text::from_bytes(alloc, word)?,
        address,
        wish: Text::from_bytes(alloc, name)?,
        digest,
    })
}
