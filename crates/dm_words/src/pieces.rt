//! What stands after a command's name, in any order: options, each a word `--x` and one value word,
//! and an operand.
ghost use Rattle.std.specs.Prelude.{◌≡◌, ◌↔◌, ◌∷◌, ℕ, List, Option, IfSome, IfNone, IsTrue, slice_get};
ghost use Rattle.std.specs.List.{Any};
ghost use Rattle.std.specs.Option.{option_copied};
ghost use Rattle.dm_words.specs.Asked.{IsTold, Told};
ghost use Rattle.dm_words.specs.Pieces.{IsOperand};
ghost use Rattle.dm_words.specs.Reading.{IsSetting, SaysRest, told_of, word_after};
ghost use Rattle.dm_words.specs.Table.{name_of};

use crate::CommandName;
use dm_types::Text;

/// The value of each option, and the operand, where they are there. It borrows from the words.
#[derive(Clone, Copy, Debug, PartialEq, Eq)]
pub(crate) struct Pieces<'a> {
    pub word: Option<&'a [u8]>,
    pub name: Option<&'a [u8]>,
    pub sha256: Option<&'a [u8]>,
    pub slices: Option<&'a [u8]>,
    pub after: Option<&'a [u8]>,
    pub limit: Option<&'a [u8]>,
    pub port: Option<&'a [u8]>,
    pub workers: Option<&'a [u8]>,
    pub operand: Option<&'a [u8]>,
}

/// Reads what stands after a command's name. There is nothing where an option repeats, is none of
/// the command's or has no value, where a value or an operand is empty or begins with a hyphen, and
/// where there are two operands.
pub(crate) fn read_pieces(name: CommandName, words: &[Text]) -> Option<Pieces<'_>>
    ensures some { IfSome result (λ pieces. IsTold name (name_of name ∷ words.now) (told_of pieces)) }
    ensures none { IfNone result ((told : Told) → ¬ IsTold name (name_of name ∷ words.now) told) }
{
    let operand = match read_rest(name, None, words) {
        Some(operand) => operand,
        None => return None,
    };
    let word = word_after(words, b"--word");
    let wish = word_after(words, b"--name");
    let sha256 = word_after(words, b"--sha256");
    let slices = word_after(words, b"--slices");
    let after = word_after(words, b"--after");
    let limit = word_after(words, b"--limit");
    let port = word_after(words, b"--port");
    let workers = word_after(words, b"--workers");
    Some(Pieces {
        word,
        name: wish,
        sha256,
        slices,
        after,
        limit,
        port,
        workers,
        operand,
    })
}

/// The operand, where there is one, of further pieces, behind one that was met. Each call meets an
/// operand or an option that were not met, so they are few.
fn read_rest<'a>(
    name: CommandName,
    operand: Option<&'a [u8]>,
    words: &'a [Text],
) -> Option<Option<&'a [u8]>>
    ensures some { IfSome result (λ all. SaysRest name (option_copied operand.entry) words.now (option_copied all)) }
    ensures none { IfNone result ((all : Option (List ℕ)) → ¬ SaysRest name (option_copied operand.entry) words.now all) }
{
    match words {
        [] => Some(operand),
        [first, rest @ ..] => {
            let word = first.bytes();
            if is_operand(word) {
                return match operand {
                    None => read_rest(name, Some(word), rest),
                    Some(_) => None,
                };
            }
            match rest {
                [] => None,
                [value, after @ ..] => {
                    if is_setting(name, first, value, after) {
                        read_rest(name, operand, after)
                    } else {
                        None
                    }
                }
            }
        }
    }
}

/// Whether this is an option of the command with a value, which isn't set again in what follows.
fn is_setting(name: CommandName, option: &Text, value: &Text, rest: &[Text]) -> bool
    ensures { IsTrue result ↔ IsSetting name option.now value.now rest.now }
{
    is_operand(value.bytes()) && name.takes(option) && !has_word(rest, option)
}

/// Whether one of the words is this one.
fn has_word(words: &[Text], word: &Text) -> bool
    ensures { IsTrue result ↔ Any (λ other. other ≡ word.now) words.now }
{
    words.iter().any(|other| other.same(word))
}

/// An operand or a value is not empty and begins with no hyphen.
fn is_operand(word: &[u8]) -> bool
    ensures { IsTrue result ↔ IsOperand word.now }
{
    !matches!(word, [] | [b'-', ..])
}

/// The word behind the first that is the option.
fn word_after<'a>(words: &'a [Text], option: &[u8]) -> Option<&'a [u8]>
    ensures { option_copied result ≡ word_after option.now words.now }
{
    let mut rest = words;
    while let [word, after @ ..] = rest {
        if word.is(option) {
            return first_of(after);
        }
        rest = after;
    }
    None
}

fn first_of(words: &[Text]) -> Option<&[u8]>
    ensures { option_copied result ≡ slice_get words.now 0 }
{
    match words {
        [] => None,
        [word, ..] => Some(word.bytes()),
    }
}
