ghost use Rattle.std.specs.Prelude.{◌≡◌, ◌∷◌, ◌++◌, [], IfSome, IfNone, IsTrue, ◌↔◌, List, ℕ};
ghost use Rattle.std.specs.Char.{is_ascii_digit};
ghost use Rattle.dm_types.specs.Bytes.{is_blank, Each, Cuts};

/// A space or a tab.
pub fn is_blank(byte: u8) -> bool
    ensures { result ≡ is_blank byte }
{
    byte == b' ' || byte == b'\t'
}

/// Whether each byte is a blank.
pub fn are_blank(bytes: &[u8]) -> bool
    ensures { IsTrue result ↔ Each is_blank bytes.now }
{
    bytes.iter().all(|byte| is_blank(*byte))
}

/// The digits at the front, and what follows them.
pub fn cut_digits(bytes: &[u8]) -> (&[u8], &[u8])
    ensures { Cuts is_ascii_digit bytes.now result.0.now result.1.now }
{
    let count = bytes
        .iter()
        .take_while(|byte| byte.is_ascii_digit())
        .count();
    bytes.split_at(count)
}

/// The blanks at the front, and what follows them.
pub fn cut_blanks(bytes: &[u8]) -> (&[u8], &[u8])
    ensures { Cuts is_blank bytes.now result.0.now result.1.now }
{
    let count = bytes.iter().take_while(|byte| is_blank(**byte)).count();
    bytes.split_at(count)
}

/// What follows this byte, where it is the first.
pub fn after(byte: u8, bytes: &[u8]) -> Option<&[u8]>
    ensures found { IfSome result (λ rest. bytes.now ≡ byte ∷ rest.now) }
    ensures none { IfNone result ((rest : List ℕ) → bytes.now ≡ byte ∷ rest → ⊥) }
{
    let (first, rest) = bytes.split_first()?;
    (*first == byte).then_some(rest)
}

/// What stands before this byte, where it is the last.
pub fn before(byte: u8, bytes: &[u8]) -> Option<&[u8]>
    ensures found { IfSome result (λ front. bytes.now ≡ front.now ++ byte ∷ []) }
    ensures none { IfNone result ((front : List ℕ) → bytes.now ≡ front ++ byte ∷ [] → ⊥) }
{
    let (last, front) = bytes.split_last()?;
    (*last == byte).then_some(front)
}
