//! What holds of the spellings, apart from any code.

ghost use Rattle.std.specs.Prelude.{◌≡◌, ◌≤◌, ◌<◌, ◌++◌, ◌⊎◌, ℕ, List, length};
ghost use Rattle.dm_types.specs.declared.entry.Entry.{Entry};
ghost use Rattle.dm_record.specs.Spelling.{spelling_of};
ghost use Rattle.dm_record.specs.Limits.{IsBytes, IsEntry, BeginsWithEntry, IsCut, IsBadAt};

/// No spelling begins another, and none is of two entries. So what was written is read again,
/// whatever follows it.
pub fn one_spelling()
    ensures { (a b : Entry) (x y : List ℕ) → IsEntry a → IsEntry b → spelling_of a ++ x ≡ spelling_of b ++ y
        → (a ≡ b) × (x ≡ y) }
{}

/// Bytes begin with an entry, or are cut off inside one, or are wrong at some place.
pub fn three_ways()
    ensures { (bytes : List ℕ) → IsBytes bytes
        → BeginsWithEntry bytes ⊎ (IsCut bytes ⊎ ((place : ℕ) × IsBadAt bytes place)) }
{}

/// How long a spelling is.
pub fn longest_spelling()
    ensures { (entry : Entry) → IsEntry entry → (1 ≤ length (spelling_of entry)) × (length (spelling_of entry) ≤ 11131) }
{}
