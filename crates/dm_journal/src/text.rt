// The journal's text, as far as it was read.
ghost use Rattle.std.specs.Prelude.{◌≡◌, ◌+◌, ◌++◌, ◌≤◌, length, MatchOption, IfOk};
ghost use Rattle.dm_journal.specs.Text.{HasNoHeader, header};
ghost use Rattle.dm_journal.specs.Taking.{TakesCells};

use crate::cell::{AtGate, at_gate};
use dm_types::{Listed, NoMemory, Text};
use std::alloc::Global;

/// The bodies of a journal, the oldest first.
pub type Bodies = Listed<Text>;

/// A journal as it was read.
#[derive(Drop)]
pub(crate) struct WholeText {
    pub(crate) bodies: Bodies,
    /// The place of the closed gate, in bytes.
    pub(crate) gate: u64,
}

/// What stands behind the whole cells at the front of some bytes.
#[derive(Clone, Copy)]
pub(crate) enum End {
    /// A closed gate.
    Shut,
    /// An open gate of which no bytes behind make a whole cell.
    Broken,
    /// What only the next bytes tell.
    More,
}

/// How many bytes the whole cells have, and what stands behind them.
#[derive(Clone, Copy)]
pub(crate) struct Taken {
    pub(crate) count: usize,
    pub(crate) end: End,
}

/// The first bytes of a journal.
pub(crate) const HEADER: [u8; 8] = *b"DMJRNL1\n";

/// The header and a closed gate: a journal of no bodies.
pub(crate) const BLANK: [u8; 9] = *b"DMJRNL1\n\0";

/// What stands behind the header.
pub(crate) fn after_header(bytes: &[u8]) -> Option<&[u8]>
    ensures { MatchOption result (HasNoHeader bytes.now) (λ cells. bytes.now ≡ header ++ cells.now) }
{
    bytes.strip_prefix(HEADER.as_slice())
}

/// Adds the bodies of the whole cells at the front of the bytes.
pub(crate) fn take_cells(
    alloc: Global,
    bytes: &[u8],
    bodies: &mut Bodies,
) -> Result<Taken, NoMemory>
    ensures { IfOk result (TakesCells bodies.old bodies.new bytes.now) }
{
    let mut rest = bytes;
    'cells: loop {
        match at_gate(rest) {
            AtGate::Cell(body, after) => {
                bodies.push(Text::from_bytes(alloc, body)?)?;
                rest = after;
            }
            AtGate::Shut => return Ok(up_to(bytes, rest, End::Shut)),
            AtGate::Broken => return Ok(up_to(bytes, rest, End::Broken)),
            AtGate::More => return Ok(up_to(bytes, rest, End::More)),
        }
    }
}

/// The whole cells are all of the bytes but the rest.
fn up_to(bytes: &[u8], rest: &[u8], end: End) -> Taken
    requires { length rest.now ≤ length bytes.now }
    ensures count { result.count + length rest.now ≡ length bytes.now }
    ensures end { result.end ≡ end }
{
    Taken {
        count: bytes.len() - rest.len(),
        end,
    }
}
