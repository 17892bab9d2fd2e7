use dm_edge::Clock;
use std::time;

/// The system's clock. It answers 0 where the system has none, or where it stands before 1970.
#[derive(Debug, Drop)]
pub struct SystemClock<R> {
    system: R,
}

impl<R: time::Clock> SystemClock<R> {
    /// The clock of this runtime.
    pub fn new(system: R) -> SystemClock<R> {
        SystemClock { system }
    }
}

impl<R: time::Clock> Clock for SystemClock<R> {
    ghost tells = { ⊥ };

    ghost next = { λ _. 0 };

    fn now(&mut self) -> u64 {
        match self.system.since_1970() {
            Ok(time) => u64::try_from(time.as_millis()).unwrap_or(u64::MAX),
            Err(_) => 0,
        }
    }
}
