ghost use Rattle.std.specs.Prelude.{◌≡◌, ◌<◌, ◌+◌, ◌^◌, ◌↔◌, cond, IfSome, IsTrue};
ghost use Rattle.dm_types.specs.Kind.{kind_of};
ghost use Rattle.dm_rehearse.specs.Counting.{AddUp, AreCounted, IsOfKind};

use dm_record::read_entry;
use dm_types::{Entry, Text, let_go};
use std::alloc::Global;

/// How many attempts began, and how many were interrupted.
#[derive(Clone, Copy, Debug, PartialEq, Eq)]
pub struct Counts {
    pub attempts: u64,
    pub broke: u64,
}

impl Counts {
    /// Whether these are the counts of a rehearsal: one to three attempts were interrupted, and one more was whole.
    pub fn add_up(&self) -> bool
        ensures { IsTrue result ↔ AddUp self.now }
    {
        1 <= self.broke && self.broke <= 3 && self.attempts == self.broke + 1
    }
}

/// The kinds of the two entries that are counted, as the journal has them.
const BEGAN: u8 = 2;

const BROKE: u8 = 5;

/// The kind of an entry.
fn kind_in(entry: Entry) -> u8
    ensures { result ≡ kind_of entry }
{
    let kind = entry.kind();
    let_go(entry);
    kind
}

/// The kind of the entry that a body is, where it is exactly one.
fn kind_of_body(alloc: Global, body: &[u8]) -> Option<u8>
    ensures { IfSome result (IsOfKind body.now) }
{
    match read_entry(alloc, body) {
        Ok((entry, count)) => {
            let kind = kind_in(entry);
            if count == body.len() {
                Some(kind)
            } else {
                None
            }
        }
        Err(_) => None,
    }
}

/// One more, where this is one.
fn one_more_if(count: u64, is_one: bool) -> u64
    requires { count + 1 < 2 ^ 64 }
    ensures { result ≡ cond is_one (count + 1) count }
{
    if is_one { count + 1 } else { count }
}

/// Counts what the bodies of a journal record. `None` where one of them isn't an entry, or memory is wanting to
/// read it.
pub fn count(alloc: Global, bodies: &[Text]) -> Option<Counts>
    ensures { IfSome result (AreCounted bodies.now) }
{
    let mut attempts: u64 = 0;
    let mut broke: u64 = 0;
    for body in bodies {
        match kind_of_body(alloc, body.bytes()) {
            Some(kind) => {
                attempts = one_more_if(attempts, kind == BEGAN);
                broke = one_more_if(broke, kind == BROKE);
            }
            None => return None,
        }
    }
    Some(Counts { attempts, broke })
}
