ghost use Rattle.std.specs.Prelude.{◌≡◌, ◌≤◌, IfSome, IfNone, List, ℕ, length};
ghost use Rattle.std.specs.Char.{is_ascii_digit};
ghost use Rattle.dm_types.specs.Bytes.{Each};
ghost use Rattle.dm_tag.specs.Number.{decimal, IsNumber, BeginsNumber};

use crate::runs::cut_digits;

/// The most digits of a number. They fit 64 bits.
const MOST_DIGITS: usize = 19;

/// What the digits stand for.
fn decimal(digits: &[u8]) -> u64
    requires each { Each is_ascii_digit digits.now }
    requires most { length digits.now ≤ 19 }
    ensures { result ≡ decimal digits.now }
{
    let mut number = 0u64;
    for digit in digits {
        number = number * 10 + u64::from(*digit - b'0');
    }
    number
}

/// The number at the front, and what follows its digits.
pub fn number_at(bytes: &[u8]) -> Option<(u64, &[u8])>
    ensures found { IfSome result (λ found. BeginsNumber bytes.now found.0 found.1.now) }
    ensures none { IfNone result ((n : ℕ) (rest : List ℕ) → BeginsNumber bytes.now n rest → ⊥) }
{
    let (digits, rest) = cut_digits(bytes);
    if digits.is_empty() || digits.len() > MOST_DIGITS {
        return None;
    }
    Some((decimal(digits), rest))
}

/// The number that the bytes are, all of them.
pub fn whole_number(bytes: &[u8]) -> Option<u64>
    ensures found { IfSome result (λ n. IsNumber bytes.now n) }
    ensures none { IfNone result ((n : ℕ) → IsNumber bytes.now n → ⊥) }
{
    let (number, rest) = number_at(bytes)?;
    if rest.is_empty() { Some(number) } else { None }
}
