ghost use Rattle.std.specs.Prelude.{◌++◌};
ghost use Rattle.dm_item.specs.Lawful.{AtMostFive, DoneOnce, History, IsLawful, StaysOver};

/// Laws of every lawful history, as the contract of a call that does nothing: an id has at most one
/// `Done`; an item that isn't running under an attempt never runs again under it; at most five
/// attempts by itself stand behind one by the user.
pub fn history_laws()
    ensures done_once { (history : History) → IsLawful history → DoneOnce history }
    ensures stays_over { (history more : History) → IsLawful (history ++ more)
        → StaysOver history more }
    ensures at_most_five { (history : History) → IsLawful history → AtMostFive history }
{}
