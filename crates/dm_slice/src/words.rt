ghost use Rattle.std.specs.Prelude.{◌≡◌, ◌+◌, ◌<◌, ◌≤◌, ◌↔◌, ◌*◌, IsTrue, MatchOption, length, ◌^◌};
ghost use Rattle.dm_slice.specs.Words.{end_of, HasByte, Holds, Reaches, IsFirstMissing, IsFull, IsGap, IsWithin, IsApart, IsMarked, IsNormal, is_last, covered, cover_end};

use dm_types::Slice;

/// The place behind a slice's last byte. The sum of two `u64` may need one bit more.
fn end(slice: &Slice) -> u128
    ensures { result ≡ end_of slice.now }
{
    u128::from(slice.first) + u128::from(slice.got)
}

/// How many bytes a slice has.
fn size(slice: &Slice) -> u128
    ensures value { result ≡ slice.now.got }
    ensures bound { result < 2 ^ 64 }
{
    u128::from(slice.got)
}

/// Whether some slice has the byte at this place.
pub fn has_byte(slices: &[Slice], place: u64) -> bool
    ensures { IsTrue result ↔ HasByte slices.now place }
{
    match slices {
        [] => false,
        [slice, rest @ ..] => {
            slice.first <= place && u128::from(place) < end(slice) || has_byte(rest, place)
        }
    }
}

/// Whether no slice ends above the bound.
pub fn is_within(slices: &[Slice], bound: u64) -> bool
    ensures { IsTrue result ↔ IsWithin bound slices.now }
{
    match slices {
        [] => true,
        [slice, rest @ ..] => end(slice) <= u128::from(bound) && is_within(rest, bound),
    }
}

/// Whether the list is normal for a total, or as where no total is known.
pub fn is_normal(slices: &[Slice], total: Option<u64>) -> bool
    ensures { IsTrue result ↔ IsNormal total slices.now }
{
    match slices {
        [] => false,
        [slice, rest @ ..] => slice.first == 0
            && is_apart(rest, end(slice))
            && is_marked(slices, total),
    }
}

/// Whether each slice has bytes and begins above the end of the one before.
fn is_apart(slices: &[Slice], after: u128) -> bool
    ensures { IsTrue result ↔ IsApart after slices.now }
{
    match slices {
        [] => true,
        [slice, rest @ ..] => {
            after < u128::from(slice.first) && slice.got > 0 && is_apart(rest, end(slice))
        }
    }
}

/// Whether exactly the slices that end where the content ends are marked.
fn is_marked(slices: &[Slice], total: Option<u64>) -> bool
    ensures { IsTrue result ↔ IsMarked total slices.now }
{
    match slices {
        [] => true,
        [slice, rest @ ..] => slice.finished == ends_content(slice, total)
            && is_marked(rest, total),
    }
}

/// Whether the slice has bytes and ends where the content ends.
pub(crate) fn ends_content(slice: &Slice, total: Option<u64>) -> bool
    ensures { result ≡ is_last total slice.now }
{
    match total {
        None => false,
        Some(total) => slice.got > 0 && end(slice) == u128::from(total),
    }
}

/// Whether the first list has each byte that the second has. Neither need be normal.
pub fn holds(slices: &[Slice], others: &[Slice]) -> bool
    ensures { IsTrue result ↔ Holds slices.now others.now }
{
    match others {
        [] => true,
        [other, rest @ ..] => {
            reaches(slices, u128::from(other.first), end(other)) && holds(slices, rest)
        }
    }
}

/// Whether every byte below the total is there.
pub fn is_full(slices: &[Slice], total: u64) -> bool
    ensures { IsTrue result ↔ IsFull total slices.now }
{
    reaches(slices, 0, u128::from(total))
}

/// How many bytes the slices have. Bytes that two of them have count twice.
pub fn covered(slices: &[Slice]) -> u128
    requires { length slices.now < 2 ^ 63 }
    ensures value { result ≡ covered slices.now }
    ensures bound { result ≤ length slices.now * 2 ^ 64 }
{
    match slices {
        [] => 0,
        [slice, rest @ ..] => size(slice) + covered(rest),
    }
}

/// The place behind the farthest byte, or 0.
pub fn cover_end(slices: &[Slice]) -> u128
    ensures { result ≡ cover_end slices.now }
{
    match slices {
        [] => 0,
        [slice, rest @ ..] => end(slice).max(cover_end(rest)),
    }
}

/// Whether every byte from one place up to another is there.
fn reaches(slices: &[Slice], from: u128, to: u128) -> bool
    ensures { IsTrue result ↔ Reaches slices.now from to }
{
    first_gap(slices, from, to).is_none()
}

/// The first place below the total that isn't there, if there is one.
pub(crate) fn first_missing(slices: &[Slice], total: u64) -> Option<u64>
    ensures { MatchOption result (IsFull total slices.now) (IsFirstMissing total slices.now) }
{
    match first_gap(slices, 0, u128::from(total)) {
        Some(place) => Some(place as u64),
        None => None,
    }
}

/// The first place, from one up to another, that isn't there.
fn first_gap(slices: &[Slice], from: u128, to: u128) -> Option<u128>
    ensures { MatchOption result (Reaches slices.now from to) (IsGap slices.now from to) }
{
    let mut at = from;
    while at < to {
        match end_at(slices, at) {
            Some(end) => at = end,
            None => return Some(at),
        }
    }
    None
}

/// The end of the first slice that has this byte.
fn end_at(slices: &[Slice], place: u128) -> Option<u128>
    ensures { MatchOption result (¬ HasByte slices.now place)
        (λ to. (place < to) × Reaches slices.now place to) }
{
    match slices {
        [] => None,
        [slice, rest @ ..] => {
            if u128::from(slice.first) <= place && place < end(slice) {
                Some(end(slice))
            } else {
                end_at(rest, place)
            }
        }
    }
}
