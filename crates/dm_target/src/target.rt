//! Whether bytes end inside a request target.
ghost use Rattle.std.specs.Prelude.{◌≡◌, ◌<◌, ◌++◌, ◌==◌, ℕ, List, true, false, codes, length, IfNone, IfSome};
ghost use Rattle.std.specs.List.{list_all, list_any};
ghost use Rattle.httparse.specs.Grammar.{EndsInTarget, is_token as token, is_token_byte as byte_of_token, is_uri_byte as byte_of_target};
ghost use Rattle.dm_target.specs.Target.{BeginsEnd, BeginsLine, Skips, is_front};

/// Whether the bytes are the front of a request line up to some byte of its target, with the empty
/// lines before it. Whether a target is UTF-8 is looked at where it ends.
pub fn ends_in_target(front: &[u8]) -> bool
    ensures yes { result ≡ true → EndsInTarget front.now }
    ensures no { result ≡ false → EndsInTarget front.now → ⊥ }
{
    is_line_front(skip_blank(front))
}

/// What stands behind the empty lines.
fn skip_blank(front: &[u8]) -> &[u8]
    ensures { Skips front.now result.now }
{
    let mut line = front;
    while let Some(rest) = after_end(line) {
        line = rest;
    }
    line
}

/// What stands behind a line's end, where one stands at the front.
fn after_end(line: &[u8]) -> Option<&[u8]>
    ensures some { IfSome result (λ rest. BeginsEnd line.now rest.now) }
    ensures none { IfNone result (BeginsLine line.now) }
    ensures shorter { IfSome result (λ rest. length rest.now < length line.now) }
{
    match strip(line, b"\n") {
        Some(rest) => Some(rest),
        None => strip(line, b"\r\n"),
    }
}

/// What stands behind the text, where it stands at the front.
fn strip<'a>(line: &'a [u8], text: &[u8]) -> Option<&'a [u8]>
    ensures some { IfSome result (λ rest. line.now ≡ text.now ++ rest.now) }
    ensures none { IfNone result ((more : List ℕ) → line.now ≡ text.now ++ more → ⊥) }
{
    line.strip_prefix(text)
}

/// A method, a space, and the front of a target.
fn is_line_front(line: &[u8]) -> bool
    ensures { result ≡ is_front line.now }
{
    match line.iter().position(|&byte| byte == b' ') {
        Some(at) => is_token(&line[..at]) && is_target(&line[at + 1..]),
        None => false,
    }
}

fn is_token(text: &[u8]) -> bool
    ensures { result ≡ token text.now }
{
    !text.is_empty() && are_token_bytes(text)
}

fn are_token_bytes(text: &[u8]) -> bool
    ensures { result ≡ list_all byte_of_token text.now }
{
    text.iter().all(|byte| is_token_byte(*byte))
}

fn is_token_byte(byte: u8) -> bool
    ensures { result ≡ byte_of_token byte }
{
    byte.is_ascii_alphanumeric() || is_mark(byte)
}

fn is_mark(byte: u8) -> bool
    ensures { result ≡ list_any (λ c. c == byte) (codes "!#$%&'*+-.^_`|~") }
{
    b"!#$%&'*+-.^_`|~".iter().any(|mark| *mark == byte)
}

fn is_target(text: &[u8]) -> bool
    ensures { result ≡ list_all byte_of_target text.now }
{
    text.iter().all(|byte| *byte > b' ' && *byte != 127)
}
