ghost use Rattle.std.specs.Prelude.{◌≡◌, ◌↔◌, ◌≤◌, Err, IfOk, IsErrOf, IsTrue};
ghost use Rattle.dm_name.specs.Forms.{form, AreAllTaken, IsFirstFree, IsTaken};

use crate::clean::stem_length;
use dm_disk_model::NameList;
use dm_types::{NoMemory, Text, same_folded};
use std::alloc::Global;

/// What keeps a wish from becoming a name.
#[derive(Clone, Copy, Debug, PartialEq, Eq)]
pub enum NameFault {
    /// The wish and its forms with the numbers 1 to 100 are all taken.
    AllTaken,
    NoMemory,
}

impl From<NoMemory> for NameFault {
    ghost use Rattle.std.specs.Prelude.{◌≡◌};
    ghost use Rattle.dm_name.specs.declared.forms.NameFault.TheVariants.{NoMemory};

    ghost from_gives = { λ _ e. e ≡ NoMemory };

    fn from(_: NoMemory) -> NameFault {
        NameFault::NoMemory
    }
}

/// The name with a number before its extension. The number 0 is the name itself.
fn form(alloc: Global, name: &[u8], number: u8) -> Result<Text, NoMemory>
    ensures { IfOk result (λ text. text ≡ form name.now number) }
{
    if number == 0 {
        return Text::from_bytes(alloc, name);
    }
    let (stem, extension) = name.split_at(stem_length(name));
    let mark = format!(in alloc; " ({number})")?;
    let mut text = Text::from_bytes(alloc, stem)?;
    text.push_bytes(mark.as_bytes())?;
    text.push_bytes(extension)?;
    Ok(text)
}

/// Whether one of the names is this one, ASCII case ignored.
fn is_taken(taken: &NameList, name: &[u8]) -> bool
    ensures { IsTrue result ↔ IsTaken taken.now name.now }
{
    taken
        .items()
        .iter()
        .any(|other| same_folded(other.bytes(), name))
}

/// The first of the wish and its forms `wish (1)` to `wish (100)`, the number before the extension, that equals no
/// taken name, ASCII case ignored.
pub fn unique_name(alloc: Global, wish: &[u8], taken: &NameList) -> Result<Text, NameFault>
    ensures free { IfOk result (λ name. IsFirstFree wish.now taken.now name) }
    ensures all_taken { IsErrOf result NameFault.AllTaken → AreAllTaken wish.now taken.now }
{
    for number in 0..=100 {
        let name = form(alloc, wish, number)?;
        if !is_taken(taken, name.bytes()) {
            return Ok(name);
        }
    }
    Err(NameFault::AllTaken)
}
