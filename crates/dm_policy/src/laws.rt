ghost use Rattle.dm_policy.specs.Laws.{CauseRows, StatusRows, ModeRows, ContinueNeeds, ImmediateNeeds, LastIsInvalid, InvalidStays, FiveAsk};

/// The reason of each cause, by its number.
pub fn cause_rows()
    ensures causes { CauseRows }
    ensures statuses { StatusRows }
{}

/// The mode of each reason, and what an item's facts make of it.
pub fn mode_rows()
    ensures rows { ModeRows }
    ensures continue_needs { ContinueNeeds }
    ensures immediate_needs { ImmediateNeeds }
    ensures five { FiveAsk }
    ensures last { LastIsInvalid }
    ensures invalid { InvalidStays }
{}
