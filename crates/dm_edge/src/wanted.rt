ghost use Rattle.std.specs.Prelude.{◌≡◌, IfOk};
ghost use Rattle.dm_edge.specs.Fair.{ask_of};

use dm_request::Ask;
use dm_types::{NoMemory, Text};
use std::alloc::Global;

/// What a request asks for.
#[derive(Debug, Drop)]
pub enum Wanted {
    /// The whole content.
    Whole,
    /// A part of a content that is known by its tag (RFC 9110, sections 13.1.5 and 14.2). Places are
    /// bytes from 0.
    Part {
        first: u64,
        /// The last place, which is asked for too. A reply may end before it.
        last: u64,
        /// The content's strong entity tag, with its quotes.
        tag: Text,
        /// How many bytes the whole content has.
        total: u64,
    },
}

/// The range that a request names for what is wanted. The tag is copied.
pub fn ask_for(alloc: Global, wanted: &Wanted) -> Result<Option<Ask>, NoMemory>
    ensures { IfOk result (λ ask. ask ≡ ask_of wanted.now) }
{
    match wanted {
        Wanted::Whole => Ok(None),
        Wanted::Part {
            first,
            last,
            tag,
            total: _,
        } => Ok(Some(Ask {
            first: *first,
            last: *last,
            tag: tag.copy(alloc)?,
        })),
    }
}
