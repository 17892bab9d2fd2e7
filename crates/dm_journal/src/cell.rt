ghost use Rattle.std.specs.Prelude.{◌≡◌, ◌+◌, ◌*◌};
ghost use Rattle.dm_journal.specs.Cell.{IsAtGate};

/// The most bytes of a body.
pub(crate) const LARGEST_BODY: usize = 16_384;

/// What stands where a gate should stand.
pub(crate) enum AtGate<'a> {
    /// A closed gate.
    Shut,
    /// An open gate with its whole cell: the body, and what stands behind it.
    Cell(&'a [u8], &'a [u8]),
    /// An open gate of which no bytes behind make a whole cell.
    Broken,
    /// No gate, or an open one whose cell isn't whole: more bytes may make it so.
    More,
}

pub(crate) fn at_gate(bytes: &[u8]) -> AtGate<'_>
    ensures { IsAtGate bytes.now result }
{
    match bytes {
        [1, a, b, c, d, after @ ..] => {
            let size = number_of(*a, *b, *c, *d);
            if size == 0 || size > LARGEST_BODY {
                AtGate::Broken
            } else if size > after.len() {
                AtGate::More
            } else {
                AtGate::Cell(&after[..size], &after[size..])
            }
        }
        [] => AtGate::More,
        [1, ..] => AtGate::More,
        [_, ..] => AtGate::Shut,
    }
}

/// The number of four bytes, the highest first.
fn number_of(a: u8, b: u8, c: u8, d: u8) -> usize
    ensures { result ≡ ((a * 256 + b) * 256 + c) * 256 + d }
{
    ((a as usize * 256 + b as usize) * 256 + c as usize) * 256 + d as usize
}
