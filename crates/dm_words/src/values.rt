//! The rules of what is said with a command.
ghost use Rattle.std.specs.Prelude.{◌≡◌, ◌↔◌, ℕ, List, Option, IfSome, IfNone, IsTrue};
ghost use Rattle.std.specs.List.{list_all};
ghost use Rattle.std.specs.Option.{option_copied};
ghost use Rattle.std.specs.Str.{IsUtf8};
ghost use Rattle.dm_words.specs.Values.{AreDots, IsAfter, IsDigest, IsDigestOf, IsFileName, IsLimit, IsName, IsNumber, IsPort, IsSlices, IsUpTo, IsWord, IsWorkers, is_file_byte, is_word_byte};

use hex::FromHex;

/// The most bytes of a word.
const MOST_OF_WORD: usize = 64;

/// The most bytes of a name.
const MOST_OF_NAME: usize = 255;

/// The most digits of a number.
const MOST_DIGITS: usize = 10;

/// The most slices that may be asked for.
const MOST_SLICES: u32 = 16;

/// The most rows of the history that are shown.
const MOST_ROWS: u32 = 100;

/// The greatest port.
const MOST_OF_PORT: u32 = 65_535;

/// Whether the user may call an item so.
pub fn is_word(word: &[u8]) -> bool
    ensures { IsTrue result ↔ IsWord word.now }
{
    !word.is_empty() && word.len() <= MOST_OF_WORD && has_word_bytes(word)
}

fn has_word_bytes(word: &[u8]) -> bool
    ensures { result ≡ list_all is_word_byte word.now }
{
    word.iter().all(|byte| is_word_byte(*byte))
}

fn is_word_byte(byte: u8) -> bool
    ensures { result ≡ is_word_byte byte }
{
    byte.is_ascii_alphanumeric() || byte == b'.' || byte == b'_' || byte == b'-'
}

/// Whether a file may be wished to have this name. What it is named is made of the wish.
pub fn is_name(name: &[u8]) -> bool
    ensures { IsTrue result ↔ IsName name.now }
{
    !name.is_empty() && name.len() <= MOST_OF_NAME && is_utf8(name)
}

fn is_utf8(text: &[u8]) -> bool
    ensures { IsTrue result ↔ IsUtf8 text.now }
{
    match str::from_utf8(text) {
        Ok(_) => true,
        Err(_) => false,
    }
}

/// Whether it is absent or a word.
pub(crate) fn may_be_word(word: Option<&[u8]>) -> bool
    ensures { IsTrue result ↔ IfSome (option_copied word.entry) IsWord }
{
    match word {
        Some(word) => is_word(word),
        None => true,
    }
}

/// Whether it is absent or a name.
pub(crate) fn may_be_name(name: Option<&[u8]>) -> bool
    ensures { IsTrue result ↔ IfSome (option_copied name.entry) IsName }
{
    match name {
        Some(name) => is_name(name),
        None => true,
    }
}

/// The digest of the digits, where they are there. `None` where they are none of a digest.
pub(crate) fn read_digest(digits: Option<&[u8]>) -> Option<Option<[u8; 32]>>
    ensures some { IfSome result (λ digest. IsDigestOf (option_copied digits.entry) digest) }
    ensures none { IfNone result ((digest : Option (List ℕ)) → ¬ IsDigestOf (option_copied digits.entry) digest) }
{
    match digits {
        Some(digits) => match digest_of(digits) {
            Some(digest) => Some(Some(digest)),
            None => None,
        },
        None => Some(None),
    }
}

/// The 32 bytes of 64 hexadecimal digits.
pub fn digest_of(digits: &[u8]) -> Option<[u8; 32]>
    ensures some { IfSome result (λ digest. IsDigest digits.now digest) }
    ensures none { IfNone result ((digest : List ℕ) → ¬ IsDigest digits.now digest) }
{
    <[u8; 32] as FromHex>::from_hex(digits).ok()
}

/// The number that the digits are.
pub(crate) fn read_number(digits: &[u8]) -> Option<u32>
    ensures some { IfSome result (λ number. IsNumber digits.now number) }
    ensures none { IfNone result ((number : ℕ) → ¬ IsNumber digits.now number) }
{
    // A plus may stand before what `parse` reads.
    if digits.len() > MOST_DIGITS || matches!(digits, [b'+', ..]) {
        return None;
    }
    match str::from_utf8(digits) {
        Ok(text) => text.parse::<u32>().ok(),
        Err(_) => None,
    }
}

/// In how many slices the content is asked for. `None` where the digits are no such number.
pub(crate) fn read_slices(digits: Option<&[u8]>) -> Option<u32>
    ensures some { IfSome result (λ slices. IsSlices (option_copied digits.entry) slices) }
    ensures none { IfNone result ((slices : ℕ) → ¬ IsSlices (option_copied digits.entry) slices) }
{
    match digits {
        Some(digits) => read_up_to(digits, MOST_SLICES),
        None => Some(1),
    }
}

/// The number of 1 to so many that the digits are.
fn read_up_to(digits: &[u8], most: u32) -> Option<u32>
    ensures some { IfSome result (λ number. IsUpTo most digits.now number) }
    ensures none { IfNone result ((number : ℕ) → ¬ IsUpTo most digits.now number) }
{
    match read_number(digits) {
        Some(number) if 1 <= number && number <= most => Some(number),
        _ => None,
    }
}

/// The id behind which rows are shown. `None` where the digits are no number.
pub(crate) fn read_after(digits: Option<&[u8]>) -> Option<u32>
    ensures some { IfSome result (λ after. IsAfter (option_copied digits.entry) after) }
    ensures none { IfNone result ((after : ℕ) → ¬ IsAfter (option_copied digits.entry) after) }
{
    match digits {
        Some(digits) => read_number(digits),
        None => Some(0),
    }
}

/// How many rows are shown at most. `None` where the digits are no such number.
pub(crate) fn read_limit(digits: Option<&[u8]>) -> Option<u32>
    ensures some { IfSome result (λ limit. IsLimit (option_copied digits.entry) limit) }
    ensures none { IfNone result ((limit : ℕ) → ¬ IsLimit (option_copied digits.entry) limit) }
{
    match digits {
        Some(digits) => read_up_to(digits, MOST_ROWS),
        None => Some(50),
    }
}

/// The port of the service. `None` where the digits are none.
pub(crate) fn read_port(digits: Option<&[u8]>) -> Option<u16>
    ensures some { IfSome result (λ port. IsPort (option_copied digits.entry) port) }
    ensures none { IfNone result ((port : ℕ) → ¬ IsPort (option_copied digits.entry) port) }
{
    match digits {
        Some(digits) => port_of(digits),
        None => Some(8765),
    }
}

fn port_of(digits: &[u8]) -> Option<u16>
    ensures some { IfSome result (λ port. IsUpTo 65535 digits.now port) }
    ensures none { IfNone result ((port : ℕ) → ¬ IsUpTo 65535 digits.now port) }
{
    match read_up_to(digits, MOST_OF_PORT) {
        Some(port) => u16::try_from(port).ok(),
        None => None,
    }
}

/// Whether no worker is asked for. None is built yet.
pub(crate) fn asks_no_workers(digits: Option<&[u8]>) -> bool
    ensures { IsTrue result ↔ IsWorkers (option_copied digits.entry) }
{
    match digits {
        Some(digits) => is_zero(digits),
        None => true,
    }
}

fn is_zero(digits: &[u8]) -> bool
    ensures { IsTrue result ↔ IsNumber digits.now 0 }
{
    match read_number(digits) {
        Some(number) => number == 0,
        None => false,
    }
}

/// Whether it is the name of a file in the folder of files.
pub fn is_file_name(name: &[u8]) -> bool
    ensures { IsTrue result ↔ IsFileName name.now }
{
    is_name(name) && has_file_bytes(name) && !is_dots(name)
}

/// Whether it is `.` or `..`, which are folders.
fn is_dots(name: &[u8]) -> bool
    ensures { IsTrue result ↔ AreDots name.now }
{
    matches!(name, [b'.'] | [b'.', b'.'])
}

fn has_file_bytes(name: &[u8]) -> bool
    ensures { result ≡ list_all is_file_byte name.now }
{
    name.iter().all(|byte| is_file_byte(*byte))
}

fn is_file_byte(byte: u8) -> bool
    ensures { result ≡ is_file_byte byte }
{
    !(byte == b'/' || byte == 0)
}
