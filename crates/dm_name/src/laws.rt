ghost use Rattle.dm_name.specs.Laws.{FormsArePlain, FormsAreShort, FormsAreText, HasBounds, NoPart};

/// A cleaned name has 1 to 200 bytes, and its forms with the numbers up to 100 have at most 206. None of them is a
/// part's name. None has a control character or a slash, or is `.` or `..`; and where the wish is UTF-8 they are.
pub fn name_laws()
    ensures bounds { HasBounds }
    ensures short { FormsAreShort }
    ensures part { NoPart }
    ensures plain { FormsArePlain }
    ensures text { FormsAreText }
{}
