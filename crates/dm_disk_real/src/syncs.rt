ghost use Rattle.std.specs.Prelude.{◌≡◌, ◌↔◌, IsTrue, IsErr};

use std::io;
use std::io::ErrorKind;

/// Whether a sync of a folder failed. The system forgets what such a sync was to make durable, and
/// may answer Ok to the next one: so none answers Ok from then on.
#[derive(Drop)]
pub(crate) struct Syncs {
    has_failed: bool,
}

impl Syncs {
    pub(crate) fn new() -> Syncs
        ensures { ¬ IsTrue result.has_failed }
    {
        Syncs { has_failed: false }
    }

    /// What a sync comes to that the system answered so.
    pub(crate) fn settle(&mut self, answer: io::Result<()>) -> io::Result<()>
        ensures first { ¬ IsTrue self.old.has_failed → result ≡ answer }
        ensures later { IsTrue self.old.has_failed → IsErr result }
        ensures marks { IsTrue self.new.has_failed ↔ IsErr result }
    {
        if self.has_failed {
            return Err(ErrorKind::Other.into());
        }
        self.has_failed = answer.is_err();
        answer
    }
}
