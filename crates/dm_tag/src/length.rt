ghost use Rattle.std.specs.Prelude.{IfSome, IfNone, List, ℕ};
ghost use Rattle.dm_tag.specs.Length.{BeginsRepeat, IsLength};

use crate::number::number_at;
use crate::runs::{after, cut_blanks};

/// What follows a comma, with blanks round it, and this number once more.
fn after_repeat(number: u64, bytes: &[u8]) -> Option<&[u8]>
    ensures found { IfSome result (λ rest. BeginsRepeat number bytes.now rest.now) }
    ensures none { IfNone result ((rest : List ℕ) → BeginsRepeat number bytes.now rest → ⊥) }
{
    let (_, rest) = cut_blanks(bytes);
    let (_, rest) = cut_blanks(after(b',', rest)?);
    let (again, rest) = number_at(rest)?;
    if again == number { Some(rest) } else { None }
}

/// The length in bytes that the value of a Content-Length field tells (RFC 9110, section 8.6): one number, or
/// one that is repeated.
pub fn read_length(value: &[u8]) -> Option<u64>
    ensures found { IfSome result (λ n. IsLength value.now n) }
    ensures none { IfNone result ((n : ℕ) → IsLength value.now n → ⊥) }
{
    let (number, mut rest) = number_at(value)?;
    while !rest.is_empty() {
        rest = after_repeat(number, rest)?;
    }
    Some(number)
}
