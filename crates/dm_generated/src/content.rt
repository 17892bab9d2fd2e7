ghost use Rattle.std.specs.Prelude.{◌≡◌, ◌+◌, ◌^◌, ◌<◌, ◌≤◌, ℕ, length, slice_index, IfOk};
ghost use Rattle.dm_edge.specs.Origin.{generated_byte};
ghost use Rattle.dm_generated.specs.Content as words;
ghost use Rattle.dm_generated.specs.Content.{bytes_from};

use dm_types::{NoMemory, Text};
use std::alloc::Global;

/// How the places of a content are spread over 64 bits, and how the contents of the numbers are.
const BY_PLACE: u64 = 6_364_136_223_846_793_005;

const BY_NUMBER: u64 = 1_442_695_040_888_963_407;

/// The least size of a content, and how many sizes there are.
const LEAST_SIZE: u64 = 4_194_304;

const SIZES: u64 = 1_048_576;

/// The byte at a place, from 0: the highest eight of 64 bits.
fn byte_at(number: u64, place: u64) -> u8
    requires { place + 1 < 2 ^ 64 }
    ensures { result ≡ generated_byte number place }
{
    let spread = (place + 1).wrapping_mul(BY_PLACE);
    let bits = spread.wrapping_add(number.wrapping_mul(BY_NUMBER));
    (bits >> 56) as u8
}

/// Puts each of the content's bytes from a place on into the window.
fn fill_each(number: u64, first: u64, window: &mut [u8])
    requires { first + length window.old < 2 ^ 64 }
    ensures { (k : ℕ) → k < length window.old → slice_index window.new k ≡ generated_byte number (first + k) }
{
    for place in 0..window.len() {
        window[place] = byte_at(number, first + place as u64);
    }
}

/// Fills the window with the content's bytes from a place on.
pub fn fill(number: u64, first: u64, window: &mut [u8])
    requires { first + length window.old < 2 ^ 64 }
    ensures { window.new ≡ bytes_from number first (length window.old) }
{
    fill_each(number, first, window);
}

/// How many bytes the content of a number has.
pub fn size_of(number: u64) -> u64
    ensures is { result ≡ words.size_of number }
    ensures most { result < 2 ^ 23 }
{
    LEAST_SIZE + number % SIZES
}

/// The content's entity tag, with its quotes.
pub fn tag_of(alloc: Global, number: u64) -> Result<Text, NoMemory>
    ensures { IfOk result (λ text. text ≡ words.tag_of number) }
{
    let written = format!(in alloc; "\"g{number}\"")?;
    Text::from_bytes(alloc, written.as_bytes())
}

/// The content's address.
pub fn address_of(alloc: Global, number: u64) -> Result<Text, NoMemory>
    ensures { IfOk result (λ text. text ≡ words.address_text number) }
{
    let written = format!(in alloc; "http://rehearse.test/g{number}.bin")?;
    Text::from_bytes(alloc, written.as_bytes())
}
