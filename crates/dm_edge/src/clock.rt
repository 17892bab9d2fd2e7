ghost use Rattle.std.specs.Prelude.{◌≡◌, ℕ};

/// The time, in milliseconds since 1970. It never fails.
pub trait Clock {
    /// The clock tells which moments it answers.
    ghost tells: { Type 0 };

    /// What the next call answers.
    ghost next: { Self → ℕ };

    fn now(&mut self) -> u64
        ensures { tells → result ≡ next self.old };
}
