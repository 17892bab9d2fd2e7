ghost use Rattle.std.specs.Prelude.{◌≡◌, ◌↔◌, IsTrue, IfOk, Contains};
ghost use Rattle.dm_hist.specs.Faults.{has_failed};
ghost use Rattle.dm_hist.specs.Memory.{MustFail, counted_by, counting_of};

use crate::KeeperFault;
use dm_disk_model::one_more;
use dm_types::NoMemory;
use std::alloc::Global;

/// Which calls are to fail, and how many were made and failed so far. A count at `u64::MAX` stays there.
#[derive(Debug, Drop)]
pub(crate) struct Calls {
    failing: Vec<u64>,
    made: u64,
    pub failed: u64,
}

/// Whether a number is in the list.
fn is_listed(numbers: &[u64], number: u64) -> bool
    ensures { IsTrue result ↔ Contains numbers.now number }
{
    numbers.contains(&number)
}

impl Calls {
    /// No call was made, and those with these numbers, from 0, are to fail.
    pub fn new(alloc: Global, failing: &[u64]) -> Result<Calls, NoMemory>
        ensures { IfOk result (λ calls. counting_of calls ≡ record { failing = failing.now; made = 0; failed = 0 }) }
    {
        Ok(Calls {
            failing: Vec::from_slice(alloc, failing)?,
            made: 0,
            failed: 0,
        })
    }

    /// Begins a call: counts it, and its failure where it is listed.
    pub fn begin(&mut self) -> Result<(), KeeperFault>
        ensures fails { IsTrue (has_failed result) ↔ MustFail (counting_of self.old) }
        ensures counts { counting_of self.new ≡ counted_by (has_failed result) (counting_of self.old) }
    {
        let listed = is_listed(&self.failing, self.made);
        self.made = one_more(self.made);
        if !listed {
            return Ok(());
        }
        self.failed = one_more(self.failed);
        Err(KeeperFault::Failed)
    }
}
