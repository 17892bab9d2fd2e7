ghost use Rattle.std.specs.Prelude.{◌≡◌, ◌<◌, IfOk};
ghost use Rattle.dm_attempt.specs.Asking.{count_by, range_of, source_by};

use dm_edge::Wanted;
use dm_reply::Head;
use dm_slice::Part;
use dm_types::{Address, Key, NoMemory, Text};
use std::alloc::Global;

/// Of which content parts are asked for by their ranges.
#[derive(Debug, Drop)]
pub struct Source {
    pub address: Address,
    /// The content's strong entity tag, with its quotes.
    pub tag: Text,
    /// How many bytes the whole content has.
    pub total: u64,
}

impl Source {
    /// What the request for a part asks for.
    pub fn wanted(&self, alloc: Global, part: &Part) -> Result<Wanted, NoMemory>
        requires { part.now.first < part.now.end }
        ensures { IfOk result (λ wanted. wanted ≡ range_of self.now part.now) }
    {
        Ok(Wanted::Part {
            first: part.first,
            last: part.end - 1,
            tag: self.tag.copy(alloc)?,
            total: self.total,
        })
    }
}

/// Where ranges may be asked for: under a strong tag, of a content whose total is known.
pub fn source_of(address: Address, key: Key, total: Option<u64>) -> Option<Source>
    ensures { result ≡ source_by address key total }
{
    match key {
        Key::Strong(tag) => match total {
            Some(total) => Some(Source {
                address,
                tag,
                total,
            }),
            None => None,
        },
        Key::Once(_, _) => None,
    }
}

/// How many parts are asked for at once: as many as are wanted where the first reply has a strong tag and a total and
/// gives ranges, and else one.
pub fn parts_wanted(slices: u32, head: &Head) -> u32
    ensures { result ≡ count_by slices head.now.strong head.now.total head.now.ranges }
{
    match (&head.strong, head.total, head.ranges) {
        (Some(_), Some(_), true) => slices,
        (Some(_), Some(_), false) => 1,
        (Some(_), None, _) => 1,
        (None, _, _) => 1,
    }
}
