//! Plain slow readers, straight from the grammars: they try each way in which a value may be cut.

use crate::{ContentRange, read_content_range, read_length, read_tag};
use std::process::Abort;

/// How many texts are tried of each kind: all those of six bytes from five, and their fronts.
const TEXTS: u32 = 15_625;

/// Puts the text of this number into the buffer. Its digits choose from the alphabet.
fn spell(buffer: &mut [u8; 6], alphabet: &[u8; 5], number: u32) {
    let mut left = number;
    for byte in buffer {
        *byte = alphabet[(left % 5) as usize];
        left /= 5;
    }
}

/// Decimal digits, 1 to 19 of them.
fn number(text: &[u8]) -> Option<u64> {
    if text.is_empty() || text.len() > 19 {
        return None;
    }
    let mut value = 0u64;
    for byte in text {
        if !byte.is_ascii_digit() {
            return None;
        }
        value = value.checked_mul(10)?.checked_add(u64::from(*byte - b'0'))?;
    }
    Some(value)
}

fn opaque(text: &[u8]) -> bool {
    match text {
        [b'"', inner @ .., b'"'] => inner
            .iter()
            .all(|b| *b == 0x21 || (*b >= 0x23 && *b <= 0x7e) || *b >= 0x80),
        _ => false,
    }
}

/// Whether the value is a tag, and a weak one.
fn slow_tag(value: &[u8]) -> Option<bool> {
    match value {
        [b'W', b'/', text @ ..] if opaque(text) => Some(true),
        _ if opaque(value) => Some(false),
        _ => None,
    }
}

fn blank(byte: u8) -> bool {
    byte == b' ' || byte == b'\t'
}

/// The number, where the text has blanks round it at most on the sides that are named.
fn number_in(text: &[u8], before: bool, behind: bool) -> Option<u64> {
    for start in 0..=text.len() {
        for end in start..=text.len() {
            let allowed = (start == 0 || before) && (end == text.len() || behind);
            let around = text[..start].iter().all(|b| blank(*b))
                && text[end..].iter().all(|b| blank(*b));
            if allowed && around {
                if let Some(found) = number(&text[start..end]) {
                    return Some(found);
                }
            }
        }
    }
    None
}

/// The one number that stands between the commas.
fn slow_length(value: &[u8]) -> Option<u64> {
    let commas = value.iter().filter(|b| **b == b',').count();
    let mut found = None;
    for (index, piece) in value.split(|b| *b == b',').enumerate() {
        let next = number_in(piece, index > 0, index < commas)?;
        match found {
            Some(first) if first != next => return None,
            _ => found = Some(next),
        }
    }
    found
}

fn slow_part(text: &[u8], dash: usize, slash: usize) -> Option<ContentRange> {
    let first = number(text.get(..dash)?)?;
    let last = number(text.get(dash + 1..slash)?)?;
    let rest = text.get(slash + 1..)?;
    let total = if rest == b"*".as_slice() {
        None
    } else {
        Some(number(rest)?)
    };
    let below = match total {
        Some(total) => last < total,
        None => true,
    };
    if text[dash] == b'-' && text[slash] == b'/' && first <= last && below {
        Some(ContentRange::Part { first, last, total })
    } else {
        None
    }
}

/// What follows `bytes` and a space.
fn slow_range(text: &[u8]) -> Option<ContentRange> {
    if let [b'*', b'/', total @ ..] = text {
        if let Some(total) = number(total) {
            return Some(ContentRange::Unsatisfied { total });
        }
    }
    for slash in 0..text.len() {
        for dash in 0..slash {
            if let Some(part) = slow_part(text, dash, slash) {
                return Some(part);
            }
        }
    }
    None
}

fn check_tag(rt: &impl Abort, value: &[u8]) {
    let read = match read_tag(value) {
        Some(tag) => Some(tag.weak),
        None => None,
    };
    assert_eq!(rt; read, slow_tag(value));
}

fn check_range(rt: &impl Abort, text: &[u8; 6], length: usize) {
    let mut value = *b"bytes ......";
    value[6..].copy_from_slice(text);
    if let Some(front) = value.get(..6 + length.min(6)) {
        assert_eq!(rt; read_content_range(front), slow_range(&front[6..]));
    }
}

#[test]
fn short_values_are_read_as_the_slow_readers_read_them(rt: HostRuntime) {
    let mut text = [0; 6];
    for number in 0..TEXTS {
        for length in 0..=6 {
            spell(&mut text, b"W/\"a ", number);
            check_tag(&rt, &text[..length]);
            spell(&mut text, b"1,2 x", number);
            assert_eq!(rt; read_length(&text[..length]), slow_length(&text[..length]));
            spell(&mut text, b"07-/*", number);
            check_range(&rt, &text, length);
        }
    }
}
