ghost use Rattle.std.specs.Prelude.{◌≡◌};
ghost use Rattle.dm_types.specs.declared.kinds.DiskKind.TheVariants.{NoSpace};
ghost use Rattle.dm_disk.specs.Meter.{new_meter, stopped, due, answer_of, failed_once, begun, starved_once, refused_once};

use crate::failing::{FailList, listed_kind};
use dm_disk_model::{DiskFault, KindCounts, one_more};
use dm_types::DiskKind;

/// Which calls are to fail, and the counts of the calls and of the faults so far. A count at
/// `u64::MAX` stays there.
#[derive(Debug, Drop)]
pub(crate) struct Meter {
    pub failing: FailList,
    /// From this many calls on every call fails.
    pub stop_after: Option<u64>,
    pub made: u64,
    pub faults: KindCounts,
    /// Writes whose range would have ended at 2^63 or above.
    pub far: u64,
    /// Calls that found no memory.
    pub starved: u64,
}

impl Meter {
    /// No call was made.
    pub fn new(failing: FailList, stop_after: Option<u64>) -> Meter
        ensures { result ≡ new_meter failing stop_after }
    {
        Meter {
            failing,
            stop_after,
            made: 0,
            faults: KindCounts::new(),
            far: 0,
            starved: 0,
        }
    }

    /// Begins a call: counts it, and its fault if it is to fail.
    pub fn begin(&mut self) -> Result<(), DiskFault>
        ensures fault { result ≡ answer_of (due self.old) }
        ensures counts { self.new ≡ begun (due self.old) self.old }
    {
        let due = self.due();
        self.made = one_more(self.made);
        match due {
            None => Ok(()),
            Some(kind) => Err(self.fail(kind)),
        }
    }

    /// A call that has begun found no memory.
    pub fn starve(&mut self) -> DiskFault
        ensures fault { result ≡ record { 0 = NoSpace } }
        ensures counts { self.new ≡ starved_once self.old }
    {
        self.starved = one_more(self.starved);
        self.fail(DiskKind::NoSpace)
    }

    /// A call is refused since its range ends at 2^63 or above.
    pub fn refuse(&mut self) -> DiskFault
        ensures fault { result ≡ record { 0 = NoSpace } }
        ensures counts { self.new ≡ refused_once self.old }
    {
        self.made = one_more(self.made);
        self.far = one_more(self.far);
        self.fail(DiskKind::NoSpace)
    }

    /// The fault of the next call, where it is to fail.
    fn due(&self) -> Option<DiskKind>
        ensures { result ≡ due self.now }
    {
        if self.is_stopped() {
            Some(DiskKind::Failed)
        } else {
            listed_kind(self.failing.items(), self.made)
        }
    }

    fn is_stopped(&self) -> bool
        ensures { result ≡ stopped self.now.stop_after self.now.made }
    {
        match self.stop_after {
            Some(calls) => calls <= self.made,
            None => false,
        }
    }

    fn fail(&mut self, kind: DiskKind) -> DiskFault
        ensures fault { result ≡ record { 0 = kind } }
        ensures counts { self.new ≡ failed_once kind self.old }
    {
        self.faults.fail(kind)
    }
}
