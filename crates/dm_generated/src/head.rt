ghost use Rattle.std.specs.Prelude.{◌≡◌, IfOk, true};
ghost use Rattle.dm_generated.specs.Replies.{head_of, is_reply};

use crate::Reply;
use crate::content::size_of;
use dm_types::{NoMemory, Text};
use std::alloc::Global;

/// The head of a reply.
pub fn head_text(alloc: Global, number: u64, reply: Reply) -> Result<Text, NoMemory>
    requires { is_reply number reply ≡ true }
    ensures { IfOk result (λ text. text ≡ head_of number reply) }
{
    match reply {
        Reply::Nothing => Ok(Text::new(alloc)),
        Reply::Whole => whole_text(alloc, number),
        Reply::Part { first, last } => part_text(alloc, number, first, last),
    }
}

fn whole_text(alloc: Global, number: u64) -> Result<Text, NoMemory>
    ensures { IfOk result (λ text. text ≡ head_of number Reply.Whole) }
{
    let size = size_of(number);
    let written = format!(in alloc;
        "HTTP/1.1 200 OK\r\nETag: \"g{number}\"\r\nAccept-Ranges: bytes\r\nContent-Length: {size}\r\n\r\n"
    )?;
    let text = Text::from_bytes(alloc, written.as_bytes())?;
    Ok(text)
}

fn part_text(alloc: Global, number: u64, first: u64, last: u64) -> Result<Text, NoMemory>
    requires { is_reply number (Reply.Part first last) ≡ true }
    ensures { IfOk result (λ text. text ≡ head_of number (Reply.Part first last)) }
{
    let size = size_of(number);
    let count = last - first + 1;
    let written = format!(in alloc;
        "HTTP/1.1 206 Partial Content\r\nETag: \"g{number}\"\r\nContent-Range: bytes {first}-{last}/{size}\r\nContent-Length: {count}\r\n\r\n"
    )?;
    let text = Text::from_bytes(alloc, written.as_bytes())?;
    Ok(text)
}
