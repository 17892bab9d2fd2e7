ghost use Rattle.std.specs.Prelude.{◌≡◌, ◌↔◌, ◌∷◌, ◌++◌, IfNone, IfSome, IfOk, IsTrue, List, ℕ};
ghost use Rattle.dm_types.specs.Bytes.{Each, Cuts};
ghost use Rattle.dm_disposition.specs.Bytes.{is_token_byte};
ghost use Rattle.dm_disposition.specs.Told.{is_attr_byte, is_no_quote, AreChars, ExtParts, MaybeInCharset, MaybeExtended};
ghost use Rattle.dm_disposition.specs.Machine.{digits_after};

use crate::bytes::is_token_byte;
use crate::plain::latin;
use dm_types::{NoMemory, Text};
use percent_encoding::percent_decode;
use std::alloc::Global;
use std::str::from_utf8;

/// A byte that stands for itself in an ext-value (RFC 8187, section 3.2.1).
fn is_attr_byte(byte: u8) -> bool
    ensures { result ≡ is_attr_byte byte }
{
    byte.is_ascii_alphanumeric() || b"!#$&+-.^_`|~".contains(&byte)
}

/// How many hexadecimal digits are to come behind this byte, where so many were to come. None where it can't stand there.
fn digits_after(digits: u8, byte: u8) -> Option<u8>
    ensures { result ≡ digits_after digits byte }
{
    if digits > 0 {
        return byte.is_ascii_hexdigit().then_some(digits - 1);
    }
    match byte {
        b'%' => Some(2),
        _ if is_attr_byte(byte) => Some(0),
        _ => None,
    }
}

/// Whether the bytes are characters of an ext-value: each stands for itself, or behind `%` as two hexadecimal digits.
fn are_chars(bytes: &[u8]) -> bool
    ensures { IsTrue result ↔ AreChars bytes.now }
{
    let mut digits = 0;
    for byte in bytes {
        match digits_after(digits, *byte) {
            Some(left) => digits = left,
            None => return false,
        }
    }
    digits == 0
}

fn is_no_quote(byte: u8) -> bool
    ensures { result ≡ is_no_quote byte }
{
    byte != b'\''
}

fn are_token_bytes(bytes: &[u8]) -> bool
    ensures { IsTrue result ↔ Each is_token_byte bytes.now }
{
    bytes.iter().all(|byte| is_token_byte(*byte))
}

/// The bytes before the first single quote, and the rest.
fn cut_at_quote(bytes: &[u8]) -> (&[u8], &[u8])
    ensures { Cuts is_no_quote bytes.now result.0.now result.1.now }
{
    let count = bytes.iter().take_while(|byte| is_no_quote(**byte)).count();
    bytes.split_at(count)
}

/// What stands before the first single quote, and behind it.
fn around_quote(bytes: &[u8]) -> Option<(&[u8], &[u8])>
    ensures found { IfSome result (λ parts. (bytes.now ≡ parts.0.now ++ 39 ∷ parts.1.now) × Each is_no_quote parts.0.now) }
    ensures none { IfNone result (Each is_no_quote bytes.now) }
{
    let (front, rest) = cut_at_quote(bytes);
    match rest.split_first() {
        Some((_, behind)) => Some((front, behind)),
        None => None,
    }
}

/// Whether this may be the language, and these the characters.
fn is_tail(language: &[u8], chars: &[u8]) -> bool
    ensures { IsTrue result ↔ Each is_token_byte language.now × AreChars chars.now }
{
    are_token_bytes(language) && are_chars(chars)
}

/// The charset and the characters of an ext-value.
fn parts_of(text: &[u8]) -> Option<(&[u8], &[u8])>
    ensures found { IfSome result (λ parts. ExtParts text.now parts.0.now parts.1.now) }
    ensures none { IfNone result ((charset chars : List ℕ) → ExtParts text.now charset chars → ⊥) }
{
    let (charset, rest) = around_quote(text)?;
    let (language, chars) = around_quote(rest)?;
    if is_tail(language, chars) {
        Some((charset, chars))
    } else {
        None
    }
}

/// What the charset makes of the bytes. None where it is another one, or the bytes aren't in it.
fn in_charset(alloc: Global, charset: &[u8], bytes: Vec<u8>) -> Result<Option<Text>, NoMemory>
    ensures { IfOk result (λ chars. MaybeInCharset charset.now bytes.items chars) }
{
    if charset.eq_ignore_ascii_case(b"utf-8") {
        return match from_utf8(&bytes) {
            Ok(_) => Ok(Some(Text::from_vec(bytes))),
            Err(_) => Ok(None),
        };
    }
    if charset.eq_ignore_ascii_case(b"iso-8859-1") {
        return Ok(Some(latin(alloc, &bytes)?));
    }
    Ok(None)
}

/// The characters that an ext-value's text means. None where it is no ext-value.
pub fn extended_of(alloc: Global, text: &[u8]) -> Result<Option<Text>, NoMemory>
    ensures { IfOk result (λ chars. MaybeExtended text.now chars) }
{
    let Some((charset, encoded)) = parts_of(text) else {
        return Ok(None);
    };
    let mut bytes = Vec::new(alloc);
    percent_decode(encoded).append_to(&mut bytes)?;
    in_charset(alloc, charset, bytes)
}
