ghost use Rattle.std.specs.Prelude.{◌≡◌, ◌∷◌, ◌++◌, [], IfOk, IfSome, IfNone, List, ℕ, false};
ghost use Rattle.std.specs.Str.{encode_utf8_all};
ghost use Rattle.dm_disposition.specs.Grammar.{Value, IsValue, value_text, bytes_of};
ghost use Rattle.dm_disposition.specs.Told.{ReadsAs, IsPlain};
ghost use Rattle.dm_disposition.specs.Machine.{unescaped};

use dm_types::{NoMemory, Text};
use std::alloc::Global;
use std::str::from_utf8;

/// The bytes between double quotes, without the backslashes that quote.
fn unescaped(alloc: Global, inner: &[u8]) -> Result<Vec<u8>, NoMemory>
    ensures { IfOk result (λ bytes. bytes.items ≡ unescaped false inner.now) }
{
    let mut bytes = Vec::new(alloc);
    let mut escaped = false;
    for byte in inner {
        if *byte == b'\\' && !escaped {
            escaped = true;
        } else {
            bytes.push(*byte)?;
            escaped = false;
        }
    }
    Ok(bytes)
}

/// What follows a double quote.
fn behind_quote(text: &[u8]) -> Option<&[u8]>
    ensures found { IfSome result (λ rest. text.now ≡ 34 ∷ rest.now) }
    ensures none { IfNone result ((rest : List ℕ) → text.now ≡ 34 ∷ rest → ⊥) }
{
    let (first, rest) = text.split_first()?;
    (*first == b'"').then_some(rest)
}

/// What stands before a double quote at the end.
fn before_quote(text: &[u8]) -> Option<&[u8]>
    ensures found { IfSome result (λ front. text.now ≡ front.now ++ 34 ∷ []) }
    ensures none { IfNone result ((front : List ℕ) → text.now ≡ front ++ 34 ∷ [] → ⊥) }
{
    let (last, front) = text.split_last()?;
    (*last == b'"').then_some(front)
}

/// What stands between double quotes.
fn quoted(text: &[u8]) -> Option<&[u8]>
    ensures found { IfSome result (λ inner. text.now ≡ 34 ∷ (inner.now ++ 34 ∷ [])) }
    ensures none { IfNone result ((inner : List ℕ) → text.now ≡ 34 ∷ (inner ++ 34 ∷ []) → ⊥) }
{
    before_quote(behind_quote(text)?)
}

/// The bytes that a value's text means.
fn bytes_of(alloc: Global, text: &[u8]) -> Result<Vec<u8>, NoMemory>
    ensures { IfOk result (λ bytes. (value : Value) → IsValue value → text.now ≡ value_text value → bytes.items ≡ bytes_of value) }
{
    match quoted(text) {
        Some(inner) => unescaped(alloc, inner),
        None => Ok(Vec::from_slice(alloc, text)?),
    }
}

/// Bytes as ISO-8859-1 characters, in UTF-8.
pub fn latin(alloc: Global, bytes: &[u8]) -> Result<Text, NoMemory>
    ensures { IfOk result (λ chars. chars ≡ encode_utf8_all bytes.now) }
{
    let mut chars = String::new(alloc);
    for byte in bytes {
        chars.push(char::from(*byte))?;
    }
    Ok(Text::from_vec(chars.into_bytes()))
}

/// Bytes as characters: UTF-8 where they are that, else ISO-8859-1.
fn characters(alloc: Global, bytes: Vec<u8>) -> Result<Text, NoMemory>
    ensures { IfOk result (λ chars. ReadsAs bytes.items chars) }
{
    match from_utf8(&bytes) {
        Ok(_) => Ok(Text::from_vec(bytes)),
        Err(_) => latin(alloc, &bytes),
    }
}

/// The characters that a value's text means.
pub fn plain_of(alloc: Global, text: &[u8]) -> Result<Text, NoMemory>
    ensures { IfOk result (λ chars. (value : Value) → IsValue value → text.now ≡ value_text value → IsPlain text.now chars) }
{
    let bytes = bytes_of(alloc, text)?;
    characters(alloc, bytes)
}
