ghost use Rattle.dm_head.specs.Laws.{BrokeAlone, MoreBytes, OneCause, OneFraming, OneHead, OneOutcome};

/// No stream has two heads, nor two outcomes of one.
pub fn one_outcome()
    ensures outcome { OneOutcome }
    ensures head { OneHead }
    ensures framing { OneFraming }
    ensures cause { OneCause }
    ensures alone { BrokeAlone }
{}

/// A head at the front stands there whatever follows.
pub fn more_bytes()
    ensures { MoreBytes }
{}
