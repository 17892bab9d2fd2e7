ghost use Rattle.std.specs.Prelude.{◌≡◌, ◌≢◌, ◌∷◌, IfOk, OnErr, IfSome, IfNone, None, ℕ};
ghost use Rattle.dm_words.specs.Asked.{Asked, Asks, IsIdOf, IsWish, Serves, WishOf, asked, wish_of};
ghost use Rattle.dm_words.specs.Reading.{IsMade, told_of};
ghost use Rattle.dm_words.specs.Table.{name_of};
ghost use Rattle.dm_words.specs.declared.table.CommandName.TheVariants as names;

use crate::CommandName;
use crate::pieces::{Pieces, read_pieces};
use crate::values::{
    asks_no_workers, is_file_name, may_be_name, may_be_word, read_after, read_digest, read_limit,
    read_number, read_port, read_slices,
};
use dm_types::{ItemId, Text};

/// An item that is wanted. It borrows from the words.
#[derive(Clone, Copy, Debug, PartialEq, Eq)]
pub struct Wish<'a> {
    /// The user's word for it.
    pub word: Option<&'a [u8]>,
    /// The name that its file is to have.
    pub name: Option<&'a [u8]>,
    /// The SHA-256 that its content is to have.
    pub digest: Option<[u8; 32]>,
    /// Where it is brought from. It isn't judged here.
    pub address: &'a [u8],
}

/// What words ask. It borrows from them.
#[derive(Clone, Copy, Debug, PartialEq, Eq)]
pub enum Command<'a> {
    /// Bring the item, in so many slices.
    Get(Wish<'a>, u32),
    /// Take the item on.
    Add(Wish<'a>),
    /// Go on with the item of this id, in so many slices.
    Resume(ItemId, u32),
    Pause(ItemId),
    Cancel(ItemId),
    Remove(ItemId),
    /// Show the item with this id.
    Show(ItemId),
    /// Print a line for each item.
    List,
    /// Print how many items are in each state.
    Report,
    /// Print the list as CSV.
    Export,
    /// Move finished items into the history.
    Archive,
    /// Print the rows of the history behind this id, so many at most.
    History(u32, u32),
    /// Add what the file of this name tells.
    Import(&'a [u8]),
    /// Bring made bytes of this number through losses.
    Rehearse(u32),
    /// Serve the list on this port.
    Serve(u16),
}

/// The words are no command.
#[derive(Clone, Copy, Debug, PartialEq, Eq)]
pub struct BadWords;

/// The command that the words are: its name, and then its options and its operand, in any order. The
/// options and operands of each are those of its row in docs/RULES.md.
pub fn read_command(words: &[Text]) -> Result<Command<'_>, BadWords>
    ensures ok { IfOk result (λ command. Asks words.now (asked command)) }
    ensures err { OnErr result ((other : Asked) → ¬ Asks words.now other) }

    // The words ask nothing else.
    ensures alone { IfOk result (λ command. (other : Asked) → Asks words.now other → other ≡ asked command) }
{
    match words {
        [] => Err(BadWords),
        [first, rest @ ..] => match CommandName::of(first) {
            Some(name) => read_named(name, rest),
            None => Err(BadWords),
        },
    }
}

/// The port of the service that the words ask for.
pub fn read_serve(words: &[Text]) -> Result<u16, BadWords>
    ensures ok { IfOk result (λ port. Asks words.now (Serves port)) }
    ensures err { OnErr result ((port : ℕ) → ¬ Asks words.now (Serves port)) }
{
    match read_command(words) {
        Ok(command) => port_in(command),
        Err(BadWords) => Err(BadWords),
    }
}

/// The port of a service.
fn port_in(command: Command<'_>) -> Result<u16, BadWords>
    ensures ok { IfOk result (λ port. asked command.entry ≡ Serves port) }
    ensures err { OnErr result ((port : ℕ) → asked command.entry ≢ Serves port) }
{
    match command {
        Command::Serve(port) => Ok(port),
        _ => Err(BadWords),
    }
}

/// The command of this name, with what stands after it.
fn read_named(name: CommandName, words: &[Text]) -> Result<Command<'_>, BadWords>
    ensures ok { IfOk result (λ command. Asks (name_of name ∷ words.now) (asked command)) }
    ensures err { OnErr result ((other : Asked) → ¬ Asks (name_of name ∷ words.now) other) }
{
    match read_pieces(name, words) {
        Some(pieces) => make(name, pieces),
        None => Err(BadWords),
    }
}

/// The command of this name that the pieces make.
fn make(name: CommandName, pieces: Pieces<'_>) -> Result<Command<'_>, BadWords>
    ensures ok { IfOk result (λ command. IsMade name (told_of pieces.entry) (asked command)) }
    ensures err { OnErr result ((other : Asked) → ¬ IsMade name (told_of pieces.entry) other) }
{
    match name {
        CommandName::Get => make_get(pieces),
        CommandName::Add => make_add(pieces),
        CommandName::Resume => make_resume(pieces),
        CommandName::Pause => match id_of(pieces) {
            Some(id) => Ok(Command::Pause(id)),
            None => Err(BadWords),
        },
        CommandName::Cancel => match id_of(pieces) {
            Some(id) => Ok(Command::Cancel(id)),
            None => Err(BadWords),
        },
        CommandName::Remove => match id_of(pieces) {
            Some(id) => Ok(Command::Remove(id)),
            None => Err(BadWords),
        },
        CommandName::Show => match id_of(pieces) {
            Some(id) => Ok(Command::Show(id)),
            None => Err(BadWords),
        },
        CommandName::List => alone(pieces, Command::List),
        CommandName::Report => alone(pieces, Command::Report),
        CommandName::Export => alone(pieces, Command::Export),
        CommandName::Archive => alone(pieces, Command::Archive),
        CommandName::History => make_history(pieces),
        CommandName::Import => make_import(pieces),
        CommandName::Rehearse => match number_of(pieces) {
            Some(number) => Ok(Command::Rehearse(number)),
            None => Err(BadWords),
        },
        CommandName::Serve => make_serve(pieces),
    }
}

/// A command that has no operand.
fn alone<'a>(pieces: Pieces<'a>, command: Command<'a>) -> Result<Command<'a>, BadWords>
    ensures ok { IfOk result (λ made. (made ≡ command.entry) × (told_of pieces.entry).operand ≡ None) }
    ensures err { OnErr result ((told_of pieces.entry).operand ≢ None) }
{
    match pieces.operand {
        None => Ok(command),
        Some(_) => Err(BadWords),
    }
}

fn make_history(pieces: Pieces<'_>) -> Result<Command<'_>, BadWords>
    ensures ok { IfOk result (λ command. IsMade names.History (told_of pieces.entry) (asked command)) }
    ensures err { OnErr result ((other : Asked) → ¬ IsMade names.History (told_of pieces.entry) other) }
{
    let after = match read_after(pieces.after) {
        Some(after) => after,
        None => return Err(BadWords),
    };
    let limit = match read_limit(pieces.limit) {
        Some(limit) => limit,
        None => return Err(BadWords),
    };
    match pieces.operand {
        None => Ok(Command::History(after, limit)),
        Some(_) => Err(BadWords),
    }
}

fn make_import(pieces: Pieces<'_>) -> Result<Command<'_>, BadWords>
    ensures ok { IfOk result (λ command. IsMade names.Import (told_of pieces.entry) (asked command)) }
    ensures err { OnErr result ((other : Asked) → ¬ IsMade names.Import (told_of pieces.entry) other) }
{
    match pieces.operand {
        Some(name) if is_file_name(name) => Ok(Command::Import(name)),
        _ => Err(BadWords),
    }
}

fn make_serve(pieces: Pieces<'_>) -> Result<Command<'_>, BadWords>
    ensures ok { IfOk result (λ command. IsMade names.Serve (told_of pieces.entry) (asked command)) }
    ensures err { OnErr result ((other : Asked) → ¬ IsMade names.Serve (told_of pieces.entry) other) }
{
    if !asks_no_workers(pieces.workers) {
        return Err(BadWords);
    }
    let port = match read_port(pieces.port) {
        Some(port) => port,
        None => return Err(BadWords),
    };
    match pieces.operand {
        None => Ok(Command::Serve(port)),
        Some(_) => Err(BadWords),
    }
}

fn make_get(pieces: Pieces<'_>) -> Result<Command<'_>, BadWords>
    ensures ok { IfOk result (λ command. IsMade names.Get (told_of pieces.entry) (asked command)) }
    ensures err { OnErr result ((other : Asked) → ¬ IsMade names.Get (told_of pieces.entry) other) }
{
    let slices = match read_slices(pieces.slices) {
        Some(slices) => slices,
        None => return Err(BadWords),
    };
    match wish_of(pieces) {
        Some(wish) => Ok(Command::Get(wish, slices)),
        None => Err(BadWords),
    }
}

fn make_add(pieces: Pieces<'_>) -> Result<Command<'_>, BadWords>
    ensures ok { IfOk result (λ command. IsMade names.Add (told_of pieces.entry) (asked command)) }
    ensures err { OnErr result ((other : Asked) → ¬ IsMade names.Add (told_of pieces.entry) other) }
{
    match wish_of(pieces) {
        Some(wish) => Ok(Command::Add(wish)),
        None => Err(BadWords),
    }
}

fn make_resume(pieces: Pieces<'_>) -> Result<Command<'_>, BadWords>
    ensures ok { IfOk result (λ command. IsMade names.Resume (told_of pieces.entry) (asked command)) }
    ensures err { OnErr result ((other : Asked) → ¬ IsMade names.Resume (told_of pieces.entry) other) }
{
    let slices = match read_slices(pieces.slices) {
        Some(slices) => slices,
        None => return Err(BadWords),
    };
    match id_of(pieces) {
        Some(id) => Ok(Command::Resume(id, slices)),
        None => Err(BadWords),
    }
}

/// The item that is wanted, where the operand is there and each value keeps its rule.
fn wish_of(pieces: Pieces<'_>) -> Option<Wish<'_>>
    ensures some { IfSome result (λ wish. IsWish (told_of pieces.entry) (wish_of wish)) }
    ensures none { IfNone result ((wish : WishOf) → ¬ IsWish (told_of pieces.entry) wish) }
{
    let address = match pieces.operand {
        Some(address) => address,
        None => return None,
    };
    if !may_be_word(pieces.word) || !may_be_name(pieces.name) {
        return None;
    }
    match read_digest(pieces.sha256) {
        Some(digest) => Some(Wish {
            word: pieces.word,
            name: pieces.name,
            digest,
            address,
        }),
        None => None,
    }
}

/// The id that the operand is.
fn id_of(pieces: Pieces<'_>) -> Option<ItemId>
    ensures some { IfSome result (λ id. IsIdOf (told_of pieces.entry) id.0) }
    ensures none { IfNone result ((id : ℕ) → ¬ IsIdOf (told_of pieces.entry) id) }
{
    match number_of(pieces) {
        Some(id) => Some(ItemId(id)),
        None => None,
    }
}

/// The number that the operand is.
fn number_of(pieces: Pieces<'_>) -> Option<u32>
    ensures some { IfSome result (λ number. IsIdOf (told_of pieces.entry) number) }
    ensures none { IfNone result ((number : ℕ) → ¬ IsIdOf (told_of pieces.entry) number) }
{
    match pieces.operand {
        Some(digits) => read_number(digits),
        None => None,
    }
}
