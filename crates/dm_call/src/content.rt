//! The content that adds an item.
ghost use Rattle.std.specs.Prelude.{◌≡◌, ◌≤◌, length, option_map, IfOk, IfErr};
ghost use Rattle.std.specs.Option.{option_copied};
ghost use Rattle.serde_json.specs.Read.{read};
ghost use Rattle.serde_json.specs.View.{view, members_view};
ghost use Rattle.dm_call.specs.Asked.{Refuses};
ghost use Rattle.dm_call.specs.Fitting.{FitsNamed};
ghost use Rattle.dm_call.specs.Content.{are_texts as all_texts, digest_of, is_key as is_known_key, name_of, named_by, named_in as named_of_texts, named_of, text_at as text_in, texts_in, with_name};
ghost use Rattle.dm_call.specs.Held.{texts_told};

use crate::call::{CallFault, Named, Refusal};
use dm_request::{AddressFault, read_address};
use dm_types::{Address, NoMemory, Text};
use dm_words::is_word;
use hex::FromHex;
use serde_json::{Map, Value};
use std::alloc::Global;

/// The most bytes of a name.
const MOST_OF_NAME: usize = 255;

/// What the content adds.
pub fn read_named(alloc: Global, body: &[u8]) -> Result<Named, CallFault>
    ensures ok { IfOk result (λ named. named_of body.now ≡ Ok named) }
    ensures fits { IfOk result FitsNamed }
    ensures err { IfErr result (Refuses (named_of body.now)) }
{
    let text = match str::from_utf8(body) {
        Ok(text) => text,
        Err(_) => return Err(CallFault::Refused(Refusal::Json)),
    };
    match read_value(alloc, text)? {
        Some(value) => named_in(alloc, &value),
        None => Err(CallFault::Refused(Refusal::Json)),
    }
}

/// The value that the text is, where it is JSON.
fn read_value(alloc: Global, text: &str) -> Result<Option<Value>, NoMemory>
    ensures { IfOk result (λ value. option_map view value ≡ read text.now) }
{
    match Value::from_str(alloc, text) {
        Ok(value) => Ok(Some(value)),
        Err(error) if error.is_memory() => Err(NoMemory),
        Err(_) => Ok(None),
    }
}

/// The texts of an object.
#[derive(Clone, Copy)]
struct Told<'a> {
    url: &'a str,
    word: &'a str,
    name: Option<&'a str>,
    sha256: Option<&'a str>,
}

/// What a value adds.
fn named_in(alloc: Global, value: &Value) -> Result<Named, CallFault>
    ensures ok { IfOk result (λ named. named_of_texts (texts_in (view value.now)) ≡ Ok named) }
    ensures fits { IfOk result FitsNamed }
    ensures err { IfErr result (Refuses (named_of_texts (texts_in (view value.now)))) }
{
    match find_texts(value) {
        Some(told) => make_named(alloc, &told),
        None => Err(CallFault::Refused(Refusal::Json)),
    }
}

/// The texts of a value, where it is an object of such texts.
fn find_texts(value: &Value) -> Option<Told<'_>>
    ensures { option_map texts_told result ≡ texts_in (view value.now) }
{
    let members = value.as_object()?;
    if !are_texts(members) {
        return None;
    }
    Some(Told {
        url: text_at(value, "url")?,
        word: text_at(value, "word")?,
        name: text_at(value, "name"),
        sha256: text_at(value, "sha256"),
    })
}

/// Whether each key is known and each value is a text.
fn are_texts(members: &Map<String, Value>) -> bool
    ensures { result ≡ all_texts (members_view members.now.entries) }
{
    for (key, value) in members.iter() {
        if !is_key(key) || !value.is_string() {
            return false;
        }
    }
    true
}

fn is_key(key: &str) -> bool
    ensures { result ≡ is_known_key key.now }
{
    key == "name" || key == "sha256" || key == "url" || key == "word"
}

fn text_at<'a>(value: &'a Value, key: &str) -> Option<&'a str>
    ensures { option_copied result ≡ text_in key.now (view value.now) }
{
    value.get(key)?.as_str()
}

/// What the texts add, where each keeps its rule.
fn make_named(alloc: Global, told: &Told<'_>) -> Result<Named, CallFault>
    ensures ok { IfOk result (λ named. named_by (texts_told told.now) ≡ Ok named) }
    ensures fits { IfOk result FitsNamed }
    ensures err { IfErr result (Refuses (named_by (texts_told told.now))) }
{
    if !is_word(told.word.as_bytes()) {
        return Err(CallFault::Refused(Refusal::Word));
    }
    match read_address(alloc, told.url.as_bytes()) {
        Ok(address) => named_at(alloc, told, address),
        Err(AddressFault::NoMemory) => Err(CallFault::NoMemory),
        Err(_) => Err(CallFault::Refused(Refusal::Url)),
    }
}

/// The same with the address that was read.
fn named_at(alloc: Global, told: &Told<'_>, address: Address) -> Result<Named, CallFault>
    requires word { length (texts_told told.now).word ≤ 64 }
    requires address { length address.text ≤ 4096 }
    ensures ok { IfOk result (λ named. with_name (texts_told told.now) address (name_of (option_copied told.now.name)) ≡ Ok named) }
    ensures fits { IfOk result FitsNamed }
    ensures err { IfErr result (Refuses (with_name (texts_told told.now) address (name_of (option_copied told.now.name)))) }
{
    let name = told.name.unwrap_or("");
    if name.len() > MOST_OF_NAME {
        return Err(CallFault::Refused(Refusal::Name));
    }
    match read_digest(told.sha256) {
        Some(digest) => Ok(Named {
            word: Text::from_bytes(alloc, told.word.as_bytes())?,
            address,
            name: Text::from_bytes(alloc, name.as_bytes())?,
            digest,
        }),
        None => Err(CallFault::Refused(Refusal::Sha256)),
    }
}

/// The digest, where digits are told. `None` where they are none of a digest.
fn read_digest(digits: Option<&str>) -> Option<Option<[u8; 32]>>
    ensures { result ≡ digest_of (option_copied digits.entry) }
{
    match digits {
        Some(digits) => match <[u8; 32] as FromHex>::from_hex(digits) {
            Ok(digest) => Some(Some(digest)),
            Err(_) => None,
        },
        None => Some(None),
    }
}
