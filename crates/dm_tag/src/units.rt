ghost use Rattle.std.specs.Prelude.{◌≡◌, ◌↔◌, IsTrue, IfSome, IfNone, List, ℕ};
ghost use Rattle.dm_tag.specs.Units.{BeginsUnit, IsBytesUnit, NamesBytes};

use crate::runs::{are_blank, cut_blanks};

/// What follows `bytes`, in any case, where the bytes begin so.
pub fn after_unit(bytes: &[u8]) -> Option<&[u8]>
    ensures found { IfSome result (λ rest. BeginsUnit bytes.now rest.now) }
    ensures none { IfNone result ((rest : List ℕ) → BeginsUnit bytes.now rest → ⊥) }
{
    let (unit, rest) = bytes.split_at_checked(5)?;
    if unit.eq_ignore_ascii_case(b"bytes") {
        Some(rest)
    } else {
        None
    }
}

/// Whether the piece is `bytes` in any case, blanks round it aside.
fn is_bytes_unit(piece: &[u8]) -> bool
    ensures { IsTrue result ↔ IsBytesUnit piece.now }
{
    let (_, unit) = cut_blanks(piece);
    match after_unit(unit) {
        Some(after) => are_blank(after),
        None => false,
    }
}

/// Whether the value of an Accept-Ranges field names bytes (RFC 9110, section 14.3).
pub fn takes_ranges(value: &[u8]) -> bool
    ensures { IsTrue result ↔ NamesBytes value.now }
{
    value.split(|byte| *byte == b',').any(is_bytes_unit)
}
