ghost use Rattle.std.specs.Prelude.{◌≡◌, ◌↔◌, ◌∷◌, ◌++◌, [], IfSome, IfNone, IsTrue, List, ℕ, Bool, false};
ghost use Rattle.dm_types.specs.Bytes.{Each};
ghost use Rattle.dm_tag.specs.Tag.{is_tag_byte, IsOpaque, IsTag};

use crate::runs::{after, before};

/// An entity tag (RFC 9110, section 8.8.3). The opaque part has its quotes.
#[derive(Clone, Copy, Debug, PartialEq, Eq)]
pub struct Tag<'a> {
    pub weak: bool,
    pub opaque: &'a [u8],
}

fn is_tag_byte(byte: u8) -> bool
    ensures { result ≡ is_tag_byte byte }
{
    byte == 0x21 || (0x23..=0x7e).contains(&byte) || byte >= 0x80
}

/// Whether each byte may stand in a tag.
fn are_tag_bytes(bytes: &[u8]) -> bool
    ensures { IsTrue result ↔ Each is_tag_byte bytes.now }
{
    bytes.iter().all(|byte| is_tag_byte(*byte))
}

/// What stands between double quotes.
fn quoted(bytes: &[u8]) -> Option<&[u8]>
    ensures found { IfSome result (λ inner. bytes.now ≡ 34 ∷ (inner.now ++ 34 ∷ [])) }
    ensures none { IfNone result ((inner : List ℕ) → bytes.now ≡ 34 ∷ (inner ++ 34 ∷ []) → ⊥) }
{
    before(b'"', after(b'"', bytes)?)
}

/// Whether the bytes are an opaque-tag: a double quote, bytes of a tag, a double quote.
fn is_opaque(bytes: &[u8]) -> bool
    ensures { IsTrue result ↔ IsOpaque bytes.now }
{
    match quoted(bytes) {
        Some(inner) => are_tag_bytes(inner),
        None => false,
    }
}

/// What follows `W/`.
fn after_weak(value: &[u8]) -> Option<&[u8]>
    ensures found { IfSome result (λ opaque. value.now ≡ 87 ∷ 47 ∷ opaque.now) }
    ensures none { IfNone result ((opaque : List ℕ) → value.now ≡ 87 ∷ 47 ∷ opaque → ⊥) }
{
    after(b'/', after(b'W', value)?)
}

/// The tag that the value is, if it is one.
pub fn read_tag(value: &[u8]) -> Option<Tag<'_>>
    ensures found { IfSome result (λ tag. IsTag value.now tag.weak tag.opaque.now) }
    ensures none { IfNone result ((weak : Bool) (opaque : List ℕ) → IsTag value.now weak opaque → ⊥) }
{
    let (weak, opaque) = match after_weak(value) {
        Some(opaque) => (true, opaque),
        None => (false, value),
    };
    is_opaque(opaque).then_some(Tag { weak, opaque })
}

/// Strong comparison (RFC 9110, section 8.8.3.2): neither is weak, and the opaque parts are the same bytes.
pub fn strong_equal(a: &Tag<'_>, b: &Tag<'_>) -> bool
    ensures { IsTrue result ↔ (a.now.weak ≡ false) × (b.now.weak ≡ false) × (a.now.opaque.now ≡ b.now.opaque.now) }
{
    !a.weak && !b.weak && a.opaque == b.opaque
}
