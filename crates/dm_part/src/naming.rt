ghost use Rattle.std.specs.Prelude.{◌≡◌, ◌≢◌, ℕ, ◌^◌, ◌<◌, List, ◌∷◌, ◌++◌, length, slice_index, codes, IfSome, IfNone, MatchOption, true, false};
ghost use Rattle.std.specs.Fmt.{decimal};
ghost use Rattle.dm_types.specs.Name as part;
ghost use Rattle.dm_types.specs.Name.{IsPart};
ghost use Rattle.dm_part.specs.Naming.{OnePart};

use dm_types::{Epoch, ItemId};

const FRONT: [u8; 12] = *b"Unconfirmed ";

const ENDING: [u8; 11] = *b".crdownload";

fn after_front(name: &[u8]) -> Option<&[u8]>
    ensures { MatchOption result ((rest : List ℕ) → name.now ≢ codes "Unconfirmed " ++ rest) (λ rest. name.now ≡ codes "Unconfirmed " ++ rest.now) }
{
    name.strip_prefix(FRONT.as_slice())
}

fn before_ending(text: &[u8]) -> Option<&[u8]>
    ensures { MatchOption result ((front : List ℕ) → text.now ≢ front ++ codes ".crdownload") (λ front. text.now ≡ front.now ++ codes ".crdownload") }
{
    text.strip_suffix(ENDING.as_slice())
}

/// What stands before and behind the first hyphen.
fn cut(text: &[u8]) -> Option<(&[u8], &[u8])>
    ensures some { IfSome result (λ parts. text.now ≡ parts.0.now ++ 45 ∷ parts.1.now) }
    ensures first { IfSome result (λ parts. (k : ℕ) → k < length parts.0.now → slice_index text.now k ≢ 45) }
    ensures none { IfNone result ((k : ℕ) → k < length text.now → slice_index text.now k ≢ 45) }
{
    for (at, byte) in text.iter().enumerate() {
        if *byte == b'-' {
            return Some((&text[..at], &text[at + 1..]));
        }
    }
    None
}

/// Whether a sign or a needless zero stands first.
fn begins_oddly(digits: &[u8]) -> bool
    ensures odd { result ≡ true → (n : ℕ) → n < 2 ^ 32 → digits.now ≢ decimal n }
    ensures even { result ≡ false → (slice_index digits.now 0 ≢ 43) × (slice_index digits.now 0 ≡ 48 → length digits.now ≡ 1) }
{
    match digits {
        [first, ..] => *first == b'+' || (*first == b'0' && digits.len() > 1),
        [] => false,
    }
}

/// A number as it is printed: decimal digits without a leading zero, below 2^32.
fn read_number(digits: &[u8]) -> Option<u32>
    ensures some { IfSome result (λ n. digits.now ≡ decimal n) }
    ensures none { IfNone result ((n : ℕ) → n < 2 ^ 32 → digits.now ≢ decimal n) }
{
    if begins_oddly(digits) {
        return None;
    }
    match str::from_utf8(digits) {
        Ok(text) => text.parse::<u32>().ok(),
        Err(_) => None,
    }
}

/// Two numbers with a hyphen between.
fn read_numbers(text: &[u8]) -> Option<(u32, u32)>
    ensures some { IfSome result (λ found. text.now ≡ decimal found.0 ++ 45 ∷ decimal found.1) }
    ensures none { IfNone result ((first second : ℕ) → first < 2 ^ 32 → second < 2 ^ 32 → text.now ≢ decimal first ++ 45 ∷ decimal second) }
{
    let (first, second) = match cut(text) {
        Some(parts) => parts,
        None => return None,
    };
    match read_number(first) {
        Some(first) => match read_number(second) {
            Some(second) => Some((first, second)),
            None => None,
        },
        None => None,
    }
}

/// What stands between the front and the ending.
fn numbers_of(name: &[u8]) -> Option<&[u8]>
    ensures { MatchOption result ((numbers : List ℕ) → name.now ≢ codes "Unconfirmed " ++ (numbers ++ codes ".crdownload")) (λ numbers. name.now ≡ codes "Unconfirmed " ++ (numbers.now ++ codes ".crdownload")) }
{
    match after_front(name) {
        Some(text) => before_ending(text),
        None => None,
    }
}

/// The item and the epoch of which the name is the part's: `Unconfirmed <id>-<epoch>.crdownload`, both
/// numbers without a leading zero and below 2^32. `None` where it is no part's.
pub fn read_part_name(name: &[u8]) -> Option<(ItemId, Epoch)>
    ensures some { IfSome result (λ found. name.now ≡ part.part_name found.0.0 found.1.0) }
    ensures none { IfNone result (IsPart name.now → ⊥) }
{
    match numbers_of(name) {
        Some(numbers) => match read_numbers(numbers) {
            Some((id, epoch)) => Some((ItemId(id), Epoch(epoch))),
            None => None,
        },
        None => None,
    }
}

/// Parts of two items, or of two epochs of one, have two names.
pub fn one_part()
    ensures { OnePart }
{}
