ghost use Rattle.std.specs.Prelude.{◌≡◌, ℕ};
ghost use Rattle.dm_types.specs.declared.address.Address.{Address};
ghost use Rattle.dm_types.specs.declared.item.Key.{Key};
ghost use Rattle.dm_edge.specs.Origin.{generated_byte};

/// Which bytes the outside says an address has. The outside fixes it, and no code asks it.
pub trait Origin: Copy {
    /// Under this address and key, this place of the content has this byte.
    ghost says: { Self → Address → Key → ℕ → ℕ → Type 0 };
}

/// The origin that says every byte, so that a clause over it says nothing of bytes.
#[derive(Clone, Copy, Debug, PartialEq, Eq)]
pub struct EveryByte;

impl Origin for EveryByte {
    ghost says = { λ _ _ _ _ _. Unit {0} };
}

/// The origin of a rehearsal, which says one byte for each place.
#[derive(Clone, Copy, Debug, PartialEq, Eq)]
pub struct Generated {
    pub seed: u64,
}

impl Origin for Generated {
    ghost says = { λ g _ _ place byte. byte ≡ generated_byte g.seed place };
}
