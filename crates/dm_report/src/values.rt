ghost use Rattle.std.specs.Prelude.{◌≡◌, ◌++◌, codes, IfOk};
ghost use Rattle.hex.specs.Hex.{encode_lower};
ghost use Rattle.std.specs.Fmt.{decimal};
ghost use Rattle.dm_types.specs.Reason.{code_of};
ghost use Rattle.dm_report.specs.Texts.{digest_of, number_or, state_of, text_of};

use dm_types::{NoMemory, Phase, Text};
use std::alloc::Global;

/// A number in decimal.
pub fn number_text(alloc: Global, number: u128) -> Result<Text, NoMemory>
    ensures { IfOk result (λ text. text ≡ decimal number) }
{
    let text = format!(in alloc; "{number}")?;
    Ok(Text::from_vec(text.into_bytes()))
}

/// A number that is known, or the word.
pub fn number_or(alloc: Global, word: &[u8], number: Option<u64>) -> Result<Text, NoMemory>
    ensures { IfOk result (λ text. text ≡ number_or word.now number) }
{
    match number {
        None => Text::from_bytes(alloc, word),
        Some(number) => number_text(alloc, u128::from(number)),
    }
}

/// The word of a state, with the number of its reason where it is interrupted.
pub fn state_text(alloc: Global, phase: Phase) -> Result<Text, NoMemory>
    ensures { IfOk result (λ text. text ≡ state_of phase) }
{
    match phase {
        Phase::Waiting => Text::from_bytes(alloc, b"waiting"),
        Phase::Running => Text::from_bytes(alloc, b"running"),
        Phase::Paused => Text::from_bytes(alloc, b"paused"),
        Phase::Finishing => Text::from_bytes(alloc, b"finishing"),
        Phase::Complete => Text::from_bytes(alloc, b"complete"),
        Phase::Cancelled => Text::from_bytes(alloc, b"cancelled"),
        Phase::Interrupted(reason) => interrupted_text(alloc, reason.code()),
    }
}

/// The state of an item that was interrupted by the reason of this number.
fn interrupted_text(alloc: Global, code: u16) -> Result<Text, NoMemory>
    ensures { IfOk result (λ text. text ≡ codes "interrupted:" ++ decimal code) }
{
    let text = format!(in alloc; "interrupted:{code}")?;
    Ok(Text::from_vec(text.into_bytes()))
}

/// The bytes of a text that is there, or none.
pub fn bytes_of(text: &Option<Text>) -> &[u8]
    ensures { result.now ≡ text_of text.now }
{
    match text {
        None => b"",
        Some(text) => text.bytes(),
    }
}

/// A digest in lower-case hexadecimal, or nothing.
pub fn digest_text(alloc: Global, digest: &Option<[u8; 32]>) -> Result<Text, NoMemory>
    ensures { IfOk result (λ text. text ≡ digest_of digest.now) }
{
    match digest {
        None => Ok(Text::new(alloc)),
        Some(digest) => hex_text(alloc, digest),
    }
}

/// The bytes in lower-case hexadecimal.
fn hex_text(alloc: Global, bytes: &[u8]) -> Result<Text, NoMemory>
    ensures { IfOk result (λ text. text ≡ encode_lower bytes.now) }
{
    let text = hex::encode(alloc, bytes)?;
    Ok(Text::from_vec(text.into_bytes()))
}
