ghost use Rattle.std.specs.Prelude.{◌≡◌, ◌≤◌, ◌↔◌, IfOk, IsTrue, Contains};
ghost use Rattle.dm_types.specs.Faults.{Rose};
ghost use Rattle.dm_conns.specs.Memory.{failed_once, made as made_by, none_made};

use dm_types::NoMemory;
use std::alloc::Global;
use std::marker::Model;

/// Which calls of an object fail, by their numbers from 0, and how many were made and failed.
#[derive(Debug, Drop)]
pub(crate) struct Calls {
    failing: Vec<u64>,
    calls: u64,
    failed: u64,
}

impl Model for Calls {
    ghost use Rattle.dm_conns.specs.Memory.{Counting};

    ghost Value = { Counting };

    ghost view = { λ c. record { failing = c.failing.items; calls = c.calls; failed = c.failed } };
}

impl Calls {
    /// No call was made.
    pub(crate) fn new(alloc: Global, failing: &[u64]) -> Result<Calls, NoMemory>
        ensures { IfOk result (λ calls. calls ≡ none_made failing.now) }
    {
        Ok(Calls {
            failing: Vec::from_slice(alloc, failing)?,
            calls: 0,
            failed: 0,
        })
    }

    /// Whether the next call is listed.
    pub(crate) fn is_listed(&self) -> bool
        ensures { IsTrue result ↔ Contains self.now.failing self.now.calls }
    {
        self.failing.contains(&self.calls)
    }

    /// Counts a call that is made.
    pub(crate) fn make(&mut self)
        ensures { self.new ≡ made_by self.old }
    {
        self.calls = self.calls.saturating_add(1);
    }

    /// Counts a call that fails.
    pub(crate) fn fail(&mut self)
        ensures counted { self.new ≡ failed_once self.old }
        ensures later { self.old.failed ≤ self.new.failed }
        ensures rose { Rose self.old.failed self.new.failed }
    {
        self.calls = self.calls.saturating_add(1);
        self.failed = self.failed.saturating_add(1);
    }

    /// As if none was made.
    pub(crate) fn renew(&mut self)
        ensures { self.new ≡ none_made self.old.failing }
    {
        self.calls = 0;
        self.failed = 0;
    }

    /// How many calls failed.
    pub(crate) fn failed(&self) -> u64
        ensures { result ≡ self.now.failed }
    {
        self.failed
    }
}
