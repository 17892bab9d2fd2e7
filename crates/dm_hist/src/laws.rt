//! What follows from the definitions of rows, for every keeper.
ghost use Rattle.std.specs.Prelude.{◌≡◌, ◌≤◌, ℕ, List, Some};
ghost use Rattle.std.specs.List.{All};
ghost use Rattle.dm_hist.specs.Rows.{AreRows, row_with};
ghost use Rattle.dm_hist.specs.declared.row.Row.{Row as TheRow};

/// The row that a word finds is the one of least id among those that have the word.
pub fn a_word_finds_the_least_id()
    ensures { (word : List ℕ) (rows : List TheRow) (row : TheRow) → AreRows rows → row_with word rows ≡ Some row → All (λ other. other.word ≡ word → row.id.0 ≤ other.id.0) rows }
{}
