ghost use Rattle.std.specs.Prelude.{◌≡◌, ◌≤◌, ◌<◌, ◌+◌, IfOk, OnOk, length};
ghost use Rattle.dm_name.specs.Clean.{begins_character, cleaned, cut_length, ends_as_part, guarded, harmless, harmless_end, is_unsafe, or_download, shortened, stem_length, trimmed, without_dot};

use crate::runs::{after_separators, behind_last_dot, loose_at_end, spaces_in_front};
use dm_types::{NoMemory, Text};
use std::alloc::Global;

/// The most bytes of a cleaned name.
const MOST_BYTES: usize = 200;

/// The most bytes of an extension, behind its dot.
const MOST_EXTENSION: usize = 16;

/// A control character, or a mark that a file system or a shell may take amiss.
fn is_unsafe(byte: u8) -> bool
    ensures { result ≡ is_unsafe byte }
{
    byte < b' ' || byte == 0x7f || b"\"*:<>?|".contains(&byte)
}

fn harmless(byte: u8) -> u8
    ensures { result ≡ harmless byte }
{
    if is_unsafe(byte) { b'_' } else { byte }
}

/// What follows the last separator, with `_` for each unsafe byte.
fn harmless_end(alloc: Global, raw: &[u8]) -> Result<Vec<u8>, NoMemory>
    ensures { IfOk result (λ name. name.items ≡ harmless_end raw.now) }
{
    let name = after_separators(raw);
    Ok(name.iter().map(|byte| harmless(*byte)).collect(alloc)?)
}

/// The name without dots and spaces at its end and spaces in front.
fn trimmed(name: &[u8]) -> &[u8]
    ensures { result.now ≡ trimmed name.now }
{
    let (name, _) = name.split_at(name.len() - loose_at_end(name));
    let (_, name) = name.split_at(spaces_in_front(name));
    name
}

/// `_` for a dot in front.
fn replace_dot(name: &mut Vec<u8>)
    ensures { name.new.items ≡ without_dot name.old.items }
{
    if let Some(first) = name.first_mut() {
        if *first == b'.' {
            *first = b'_';
        }
    }
}

/// `download` for an empty name.
fn fill_empty(name: &mut Vec<u8>) -> Result<(), NoMemory>
    ensures { OnOk result (name.new.items ≡ or_download name.old.items) }
{
    if name.is_empty() {
        name.extend_from_slice(b"download")?;
    }
    Ok(())
}

/// Whether the name ends as a part's does, ASCII case ignored.
fn ends_as_part(name: &[u8]) -> bool
    ensures { result ≡ ends_as_part name.now }
{
    let (_, end) = name.split_at(name.len().saturating_sub(11));
    end.eq_ignore_ascii_case(b".crdownload")
}

/// `_` behind a name that ends as a part's does.
fn guard(name: &mut Vec<u8>) -> Result<(), NoMemory>
    ensures { OnOk result (name.new.items ≡ guarded name.old.items) }
{
    if ends_as_part(name.as_slice()) {
        name.push(b'_')?;
    }
    Ok(())
}

/// How many bytes stand before the extension. It begins at the last dot, where that isn't the first character and
/// 1 to 16 bytes follow it.
pub fn stem_length(name: &[u8]) -> usize
    ensures value { result ≡ stem_length name.now }
    ensures within { result ≤ length name.now }
    ensures extension { length name.now ≤ result + 17 }
{
    let behind = behind_last_dot(name);
    if 1 <= behind && behind <= MOST_EXTENSION && behind + 1 < name.len() {
        name.len() - (behind + 1)
    } else {
        name.len()
    }
}

/// Whether a character may begin at this place.
fn begins_character(text: &[u8], place: usize) -> bool
    requires { place < length text.now }
    ensures { result ≡ begins_character text.now place }
{
    !(0x80..=0xbf).contains(&text[place])
}

/// Where the text is cut so that at most `room` bytes stay and no character is cut in two.
fn cut_length(text: &[u8], room: usize) -> usize
    requires front { 3 ≤ room }
    requires within { room < length text.now }
    ensures value { result ≡ cut_length text.now room }
    ensures most { result ≤ room }
{
    if begins_character(text, room) {
        room
    } else if begins_character(text, room - 1) {
        room - 1
    } else if begins_character(text, room - 2) {
        room - 2
    } else if begins_character(text, room - 3) {
        room - 3
    } else {
        room
    }
}

/// The name in at most 200 bytes: characters are taken from the end of what stands before the extension.
fn shortened(alloc: Global, name: &[u8]) -> Result<Text, NoMemory>
    ensures { IfOk result (λ text. text ≡ shortened name.now) }
{
    if name.len() <= MOST_BYTES {
        return Text::from_bytes(alloc, name);
    }
    let (_, extension) = name.split_at(stem_length(name));
    let (kept, _) = name.split_at(cut_length(name, MOST_BYTES - extension.len()));
    let mut text = Text::from_bytes(alloc, kept)?;
    text.push_bytes(extension)?;
    Ok(text)
}

/// The cleaned name, in seven steps.
pub fn cleaned(alloc: Global, raw: &[u8]) -> Result<Text, NoMemory>
    ensures { IfOk result (λ name. name ≡ cleaned raw.now) }
{
    let whole = harmless_end(alloc, raw)?;
    let mut name = Vec::from_slice(alloc, trimmed(whole.as_slice()))?;
    replace_dot(&mut name);
    fill_empty(&mut name)?;
    guard(&mut name)?;
    shortened(alloc, name.as_slice())
}
