ghost use Rattle.std.specs.Prelude.{◌≡◌, ◌++◌, ◌∷◌, ◌^◌, ◌<◌, ℕ, List, length, None, Some, MatchOption};
ghost use Rattle.std.specs.Char.{is_ascii_digit};
ghost use Rattle.std.specs.Fmt.{decimal};
ghost use Rattle.dm_types.specs.Bytes.{Cuts, Stops};
ghost use Rattle.dm_types.specs.declared.address.Address.{Address};
ghost use Rattle.dm_request.specs.Request.{request_of};
ghost use Rattle.dm_request.specs.declared.request.Ask.{Ask};

/// How far behind the place where the request for the whole content ends, but for its empty line, a range's first place
/// stands: the range is named first.
const NAMED: usize = b"Range: bytes=".len() - b"\r\n".len();

/// The digits at the front, and what follows them.
#[tactic(auto, using(dm_tag::proofs::CutLemmas::cut_is))]
fn cut_digits(bytes: &[u8]) -> (&[u8], &[u8])
    ensures { Cuts is_ascii_digit bytes.now result.0.now result.1.now }
{
    let count = bytes
        .iter()
        .take_while(|byte| byte.is_ascii_digit())
        .count();
    bytes.split_at(count)
}

/// The number at the front, and what follows it.
fn number_at(bytes: &[u8]) -> Option<(u64, &[u8])>
    ensures { (n : ℕ) (rest : List ℕ) → n < 2 ^ 64 → Stops is_ascii_digit rest → bytes.now ≡ decimal n ++ rest
        → MatchOption result ⊥ (λ found. (found.0 ≡ n) × (found.1.now ≡ rest)) }
{
    let (digits, rest) = cut_digits(bytes);
    let Ok(text) = std::str::from_utf8(digits) else {
        return None;
    };
    match text.parse::<u64>() {
        Ok(number) => Some((number, rest)),
        Err(_) => None,
    }
}

/// What follows the dash at the front.
fn after_dash(bytes: &[u8]) -> Option<&[u8]>
    ensures { (rest : List ℕ) → bytes.now ≡ 45 ∷ rest → MatchOption result ⊥ (λ found. found.now ≡ rest) }
{
    match bytes {
        [b'-', rest @ ..] => Some(rest),
        _ => None,
    }
}

/// The two places at the front, with a dash between them.
fn places_at(bytes: &[u8]) -> Option<(u64, u64)>
    ensures { (first last : ℕ) (rest : List ℕ) → first < 2 ^ 64 → last < 2 ^ 64 → bytes.now ≡ decimal first ++ 45 ∷ (decimal last ++ 13 ∷ rest)
        → result ≡ Some (first, last) }
{
    let (first, rest) = number_at(bytes)?;
    let (last, _) = number_at(after_dash(rest)?)?;
    Some((first, last))
}

/// The places that a request for a part names. `plain` is how many bytes the request for the whole content has.
pub(crate) fn range_in(sent: &[u8], plain: usize) -> Option<(u64, u64)>
    ensures { (address : Address) (ask : Ask) → ask.first < 2 ^ 64 → ask.last < 2 ^ 64 → plain ≡ length (request_of address None)
        → sent.now ≡ request_of address (Some ask) → result ≡ Some (ask.first, ask.last) }
{
    if sent.len() <= plain || sent.len() - plain <= NAMED {
        return None;
    }
    places_at(&sent[plain + NAMED..])
}
