//! A plain slow reader, straight from the grammar: it tries each way in which a value may be cut.

use crate::{DispFault, read_disposition};
use std::process::Abort;

/// The most bytes of a text that is tried, and of what is put behind it.
const MOST: usize = 7;

fn blank(bytes: &[u8]) -> bool {
    bytes.iter().all(|b| *b == b' ' || *b == b'\t')
}

/// 1*tchar, of the bytes that are tried.
fn token(bytes: &[u8]) -> bool {
    !bytes.is_empty() && bytes.iter().all(|b| *b == b'a')
}

/// The bytes between the quotes: none of them is a quote or a backslash, but for quoted pairs.
fn inner(bytes: &[u8]) -> bool {
    let mut paired = false;
    for byte in bytes {
        if paired {
            paired = false;
        } else if *byte == b'\\' {
            paired = true;
        } else if *byte == b'"' {
            return false;
        }
    }
    !paired
}

fn quoted(bytes: &[u8]) -> bool {
    match bytes {
        [b'"', between @ .., b'"'] => inner(between),
        _ => false,
    }
}

/// OWS ( token / quoted )
fn right(bytes: &[u8]) -> bool {
    (0..=bytes.len()).any(|at| blank(&bytes[..at]) && (token(&bytes[at..]) || quoted(&bytes[at..])))
}

/// token OWS
fn left(bytes: &[u8]) -> bool {
    (0..=bytes.len()).any(|at| token(&bytes[..at]) && blank(&bytes[at..]))
}

/// token OWS "=" OWS ( token / quoted )
fn parameter(bytes: &[u8]) -> bool {
    (0..bytes.len()).any(|at| bytes[at] == b'=' && left(&bytes[..at]) && right(&bytes[at + 1..]))
}

/// OWS [ parameter ]
fn piece(bytes: &[u8]) -> bool {
    blank(bytes) || (0..=bytes.len()).any(|at| blank(&bytes[..at]) && parameter(&bytes[at..]))
}

/// OWS ";" piece
fn follows(bytes: &[u8]) -> bool {
    (0..bytes.len()).any(|at| bytes[at] == b';' && blank(&bytes[..at]) && piece(&bytes[at + 1..]))
}

/// Whether the bytes from each place on are *( OWS ";" piece ) OWS.
fn tails(bytes: &[u8]) -> [bool; 8] {
    let mut good = [false; 8];
    for back in 0..=MOST {
        let from = MOST - back;
        if from <= bytes.len() {
            let cut = (from..=bytes.len()).any(|to| to <= MOST
                && good[to]
                && follows(&bytes[from..to]));
            good[from] = cut || blank(&bytes[from..]);
        }
    }
    good
}

/// OWS token *( OWS ";" OWS [ parameter ] ) OWS
fn value(bytes: &[u8]) -> bool {
    let good = tails(bytes);
    (0..=bytes.len()).any(|from| {
        (from..=bytes.len().min(MOST)).any(|to| good[to]
            && blank(&bytes[..from])
            && token(&bytes[from..to]))
    })
}

/// Whether the front and these bytes behind it are a value.
fn value_with(front: &[u8], more: &[u8]) -> bool {
    let mut bytes = [0; MOST];
    let length = front.len() + more.len();
    if length > MOST {
        return false;
    }
    bytes[..front.len()].copy_from_slice(front);
    bytes[front.len()..length].copy_from_slice(more);
    value(&bytes[..length])
}

/// Whether some value begins so. One of these ends whatever may be open at a front.
fn begins(front: &[u8]) -> bool {
    value_with(front, b"")
        || value_with(front, b"a")
        || value_with(front, b"=a")
        || value_with(front, b"\"")
        || value_with(front, b"a\"")
}

/// The length of the longest front with which some value begins.
fn longest(text: &[u8]) -> usize {
    let mut longest = 0;
    for length in 0..=text.len() {
        if begins(&text[..length]) {
            longest = length;
        }
    }
    longest
}

/// Puts the text of this number into the buffer. Its digits choose from the alphabet.
fn spell(buffer: &mut [u8; 5], number: u32) {
    let mut left = number;
    for byte in buffer {
        *byte = b"a ;=\"\\"[(left % 6) as usize];
        left /= 6;
    }
}

/// The length that the reader tells where it refuses the text as outside the grammar.
fn refused(rt: &impl AllocGlobal, text: &[u8]) -> Option<usize> {
    match read_disposition(rt.alloc(), text) {
        Err(DispFault::NotGrammar(length)) => Some(length),
        Err(DispFault::Repeated(_)) => None,
        Err(DispFault::NoMemory) => Some(usize::MAX),
        Ok(_) => None,
    }
}

fn expected(text: &[u8]) -> Option<usize> {
    if value(text) {
        None
    } else {
        Some(longest(text))
    }
}

#[test]
fn short_values_are_judged_as_the_slow_reader_judges_them(rt: HostRuntime) {
    let mut text = [0; 5];
    for number in 0..7776 {
        spell(&mut text, number);
        assert_eq!(rt; refused(&rt, &text), expected(&text));
    }
}
