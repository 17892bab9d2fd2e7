ghost use Rattle.std.specs.Prelude.{◌≡◌, ℕ, List, Option};
ghost use Rattle.dm_item.specs.Lawful.{History};
ghost use Rattle.dm_kept.specs.Damage.{IsDamage};
ghost use Rattle.dm_kept.specs.Room.{IsTaken};
ghost use Rattle.dm_kept.specs.Spelled.{IsJournalOf, Records};

/// One history at most is recorded: a journal's text has one list of bodies, and a body is the
/// spelling of one entry.
pub fn recovery_is_one()
    ensures { (found : Option (List ℕ)) (a b : History) → Records found a → Records found b → a ≡ b }
{}

/// A journal that a desk takes isn't damaged, and the place of the damage is one.
pub fn damage_is_one()
    ensures never_both { (limit place : ℕ) (bytes : List ℕ) (history : History) → IsJournalOf history bytes → IsTaken limit history
        → IsDamage limit bytes place → ⊥ }
    ensures one_place { (limit a b : ℕ) (bytes : List ℕ) → IsDamage limit bytes a → IsDamage limit bytes b → a ≡ b }
{}
