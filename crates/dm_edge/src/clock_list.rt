ghost use Rattle.std.specs.Prelude.{◌≡◌, ◌<◌, ℕ, length, drop, slice_index, IfOk};

use crate::Clock;
use dm_types::NoMemory;
use std::alloc::Global;
use std::marker::Model;

/// A clock that answers a list of moments, and then the last one again and again.
#[derive(Debug, Drop)]
pub struct ClockList {
    moments: Vec<u64>,
    place: usize,
}

impl Model for ClockList {
    ghost use Rattle.std.specs.Prelude.{ℕ, List, ◌<◌, drop, vec_len};

    ghost Value = { List ℕ };

    ghost view = { λ c. drop c.place c.moments.items };

    ghost invariant = { λ c. c.place < vec_len c.moments };
}

impl ClockList {
    /// A clock that answers these moments, in milliseconds since 1970.
    pub fn new(alloc: Global, moments: &[u64]) -> Result<ClockList, NoMemory>
        requires { 0 < length moments.now }
        ensures { IfOk result (λ clock. clock ≡ moments.now) }
    {
        Ok(ClockList {
            moments: Vec::from_slice(alloc, moments)?,
            place: 0,
        })
    }
}

impl Clock for ClockList {
    ghost tells = { Unit {0} };

    ghost next = { λ c. slice_index c 0 };

    fn now(&mut self) -> u64
        ensures next { result ≡ slice_index self.old 0 }
        ensures moves { 1 < length self.old → self.new ≡ drop 1 self.old }
        ensures repeats { length self.old ≡ 1 → self.new ≡ self.old }
    {
        let moment = self.moments[self.place];
        if self.place + 1 < self.moments.len() {
            self.place += 1;
        }
        moment
    }
}
