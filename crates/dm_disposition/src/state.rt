ghost use Rattle.std.specs.Prelude.{◌≡◌, if◌then◌else◌, Some};
ghost use Rattle.dm_disposition.specs.Machine.{next, between, equals, is_end};
ghost use Rattle.dm_disposition.specs.Bytes.{is_token_byte};

use crate::bytes::{is_blank, is_escapable, is_quoted_text, is_token_byte};

/// Where a reader stands between two bytes of a value.
#[derive(Clone, Copy, Debug, PartialEq, Eq)]
pub enum State {
    /// Before the kind.
    Start,
    /// In the kind.
    Kind,
    /// In blanks behind the kind or a value.
    Between,
    /// Behind a semicolon.
    Semicolon,
    /// In a parameter's name.
    Name,
    /// In blanks behind a name.
    AfterName,
    /// Behind an equals sign.
    Equals,
    /// In a value that is a token.
    Token,
    /// Between double quotes.
    Quoted,
    /// Behind a backslash.
    Escaped,
    /// Behind the double quote that closes.
    Closed,
}

/// Behind a kind or a value: a blank, or the next piece.
fn between(byte: u8) -> Option<State>
    ensures { result ≡ between byte }
{
    if is_blank(byte) {
        Some(State::Between)
    } else if byte == b';' {
        Some(State::Semicolon)
    } else {
        None
    }
}

/// Behind a name: a blank, or the equals sign.
fn equals(byte: u8) -> Option<State>
    ensures { result ≡ equals byte }
{
    if is_blank(byte) {
        Some(State::AfterName)
    } else if byte == b'=' {
        Some(State::Equals)
    } else {
        None
    }
}

fn at_start(byte: u8) -> Option<State>
    ensures { result ≡ next State.Start byte }
{
    if is_blank(byte) {
        Some(State::Start)
    } else if is_token_byte(byte) {
        Some(State::Kind)
    } else {
        None
    }
}

fn at_semicolon(byte: u8) -> Option<State>
    ensures { result ≡ next State.Semicolon byte }
{
    if is_blank(byte) || byte == b';' {
        Some(State::Semicolon)
    } else if is_token_byte(byte) {
        Some(State::Name)
    } else {
        None
    }
}

fn at_equals(byte: u8) -> Option<State>
    ensures { result ≡ next State.Equals byte }
{
    if is_blank(byte) {
        Some(State::Equals)
    } else if byte == b'"' {
        Some(State::Quoted)
    } else if is_token_byte(byte) {
        Some(State::Token)
    } else {
        None
    }
}

fn at_quoted(byte: u8) -> Option<State>
    ensures { result ≡ next State.Quoted byte }
{
    match byte {
        b'"' => Some(State::Closed),
        b'\\' => Some(State::Escaped),
        _ if is_quoted_text(byte) => Some(State::Quoted),
        _ => None,
    }
}

/// The state if the run of token bytes goes on, else what may stand behind it.
fn token_or(byte: u8, state: State, behind: Option<State>) -> Option<State>
    ensures { result ≡ (if is_token_byte byte then Some state else behind) }
{
    if is_token_byte(byte) {
        Some(state)
    } else {
        behind
    }
}

impl State {
    /// Where the reader stands after one byte more. None where no value goes on so.
    pub fn after(self, byte: u8) -> Option<State>
        ensures { result ≡ next self byte }
    {
        match self {
            State::Start => at_start(byte),
            State::Kind => token_or(byte, State::Kind, between(byte)),
            State::Between | State::Closed => between(byte),
            State::Semicolon => at_semicolon(byte),
            State::Name => token_or(byte, State::Name, equals(byte)),
            State::AfterName => equals(byte),
            State::Equals => at_equals(byte),
            State::Token => token_or(byte, State::Token, between(byte)),
            State::Quoted => at_quoted(byte),
            State::Escaped => is_escapable(byte).then_some(State::Quoted),
        }
    }

    /// Whether a value may end here.
    pub fn is_end(self) -> bool
        ensures { result ≡ is_end self }
    {
        matches!(
            self,
            State::Kind | State::Between | State::Semicolon | State::Token | State::Closed
        )
    }
}
