//! The words that ask for an import.
ghost use Rattle.std.specs.Prelude.{◌≡◌, ℕ, List, IfSome, IfNone};
ghost use Rattle.std.specs.Option.{option_copied};
ghost use Rattle.dm_words.specs.Asked.{asked};
ghost use Rattle.dm_import.specs.Words.{HasImport, name_in};

use dm_types::Text;
use dm_words::{BadWords, Command, read_command};

/// The name of the file that a command imports.
fn name_in(command: Command<'_>) -> Option<&[u8]>
    ensures { option_copied result ≡ name_in (asked command.entry) }
{
    match command {
        Command::Import(name) => Some(name),
        _ => None,
    }
}

/// The name of the file that words ask to import, where they ask for it.
pub fn read_import(words: &[Text]) -> Option<&[u8]>
    ensures some { IfSome result (λ name. HasImport words.now name.now) }
    ensures none { IfNone result ((name : List ℕ) → HasImport words.now name → ⊥) }
{
    match read_command(words) {
        Ok(command) => name_in(command),
        Err(BadWords) => None,
    }
}
