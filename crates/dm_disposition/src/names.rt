ghost use Rattle.std.specs.Prelude.{◌≡◌, ◌↔◌, Any, IfNone, IfSome, IsTrue, List, ℕ, map};
ghost use Rattle.std.specs.Char.{to_ascii_lowercase};
ghost use Rattle.dm_disposition.specs.Names.{AreApart, IsFirstRepeat};
ghost use Rattle.dm_disposition.specs.Told.{HasText};
ghost use Rattle.dm_disposition.specs.Views.{named};

use crate::notes::Parameter;

/// Whether a parameter has this name, ASCII case ignored.
fn is_named(parameter: &Parameter, name: &[u8]) -> bool
    ensures { IsTrue result ↔ (map to_ascii_lowercase parameter.now.name.items ≡ map to_ascii_lowercase name.now) }
{
    parameter.name.as_slice().eq_ignore_ascii_case(name)
}

/// Whether one of the parameters has this name.
fn stands_among(parameters: &[Parameter], name: &[u8]) -> bool
    ensures { IsTrue result ↔ Any (λ p. map to_ascii_lowercase p.name.items ≡ map to_ascii_lowercase name.now) parameters.now }
{
    parameters.iter().any(|parameter| is_named(parameter, name))
}

/// The place of the first name that an earlier parameter has. Of n parameters, each is compared with those before it.
pub fn first_repeat(parameters: &[Parameter]) -> Option<usize>
    ensures none { IfNone result (AreApart (map named parameters.now)) }
    ensures some { IfSome result (λ place. IsFirstRepeat (map named parameters.now) place) }
{
    for (index, parameter) in parameters.iter().enumerate() {
        if stands_among(&parameters[..index], parameter.name.as_slice()) {
            return Some(parameter.place);
        }
    }
    None
}

/// The text of the parameter of this name.
pub fn text_of<'a>(parameters: &'a [Parameter], name: &[u8]) -> Option<&'a [u8]>
    ensures some { IfSome result (λ text. HasText (map named parameters.now) name.now text.now) }
    ensures none { IfNone result ((text : List ℕ) → HasText (map named parameters.now) name.now text → ⊥) }
{
    for parameter in parameters {
        if is_named(parameter, name) {
            return Some(parameter.text.as_slice());
        }
    }
    None
}
