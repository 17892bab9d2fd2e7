ghost use Rattle.dm_reply.specs.Laws.{OneEnding, WholeAlone};

/// No stream's content ends in two ways, and where it is whole nothing but the wire or want of memory ends its reading.
pub fn one_outcome()
    ensures ending { OneEnding }
    ensures whole { WholeAlone }
{}
