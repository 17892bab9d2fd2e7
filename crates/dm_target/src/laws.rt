ghost use Rattle.dm_target.specs.Target.{NoTargetComes};

/// Bytes that can't begin a head, and don't end inside a target, don't with more bytes either.
pub fn no_target_comes()
    ensures { NoTargetComes }
{}
