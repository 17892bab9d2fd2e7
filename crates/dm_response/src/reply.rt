//! The bytes of a reply.
ghost use Rattle.std.specs.Prelude.{◌≡◌, ◌++◌, codes, IfOk, OnOk};
ghost use Rattle.std.specs.Fmt.{decimal};
ghost use Rattle.http.specs.StatusCode.{status_text};
ghost use Rattle.dm_response.specs.Reply.{allow_field, allowed, crlf, field, head_of, media_text, reply_of, trouble_of};
ghost use Rattle.dm_response.specs.declared.trouble.Trouble.TheVariants.{Memory};

use dm_call::Target;
use dm_types::{NoMemory, Text};
use http::StatusCode;
use std::alloc::Global;

/// A whole reply of the service.
#[derive(Debug, Drop)]
pub struct ApiReply {
    /// Its status code, which its bytes tell too.
    pub status: u16,
    pub bytes: Text,
    /// The service ends behind it.
    pub stop: bool,
}

/// What a reply's content is.
#[derive(Clone, Copy, Debug, PartialEq, Eq)]
pub enum Media {
    Json,
    /// Text in UTF-8.
    Plain,
}

/// The reply with this content. The methods of `target` are told, where there is one.
pub fn reply_with(
    alloc: Global,
    status: StatusCode,
    media: Media,
    target: Option<Target>,
    content: &[u8],
    stop: bool,
) -> Result<ApiReply, NoMemory>
    ensures { IfOk result (λ reply. reply ≡ reply_of status media target content.now stop) }
{
    let mut bytes = head(alloc, status, media, target, content.len())?;
    bytes.push_bytes(content)?;
    Ok(ApiReply {
        status: status.as_u16(),
        bytes,
        stop,
    })
}

fn head(
    alloc: Global,
    status: StatusCode,
    media: Media,
    target: Option<Target>,
    size: usize,
) -> Result<Text, NoMemory>
    ensures { IfOk result (λ text. text ≡ head_of status media target size) }
{
    let mut text = first_line(alloc, status)?;
    add_field(&mut text, b"Content-Type", media_bytes(media))?;
    add_field(&mut text, b"Content-Length", digits(alloc, size)?.bytes())?;
    add_field(&mut text, b"Connection", b"close")?;
    add_allowed(&mut text, target)?;
    text.push_bytes(b"\r\n")?;
    Ok(text)
}

fn first_line(alloc: Global, status: StatusCode) -> Result<Text, NoMemory>
    ensures { IfOk result (λ text. text ≡ codes "HTTP/1.1 " ++ status_text status ++ crlf) }
{
    let text = format!(in alloc; "HTTP/1.1 {status}\r\n")?;
    Ok(Text::from_vec(text.into_bytes()))
}

fn digits(alloc: Global, number: usize) -> Result<Text, NoMemory>
    ensures { IfOk result (λ text. text ≡ decimal number) }
{
    let text = format!(in alloc; "{number}")?;
    Ok(Text::from_vec(text.into_bytes()))
}

fn add_field(text: &mut Text, name: &[u8], value: &[u8]) -> Result<(), NoMemory>
    ensures { OnOk result (text.new ≡ text.old ++ field name.now value.now) }
{
    text.push_bytes(name)?;
    text.push_bytes(b": ")?;
    text.push_bytes(value)?;
    text.push_bytes(b"\r\n")
}

fn media_bytes(media: Media) -> &'static [u8]
    ensures { result.now ≡ media_text media }
{
    match media {
        Media::Json => b"application/json",
        Media::Plain => b"text/plain; charset=utf-8",
    }
}

fn add_allowed(text: &mut Text, target: Option<Target>) -> Result<(), NoMemory>
    ensures { OnOk result (text.new ≡ text.old ++ allow_field target) }
{
    match target {
        Some(target) => add_field(text, b"Allow", methods(target)),
        None => Ok(()),
    }
}

/// The methods of a target.
fn methods(target: Target) -> &'static [u8]
    ensures { result.now ≡ allowed target }
{
    match target {
        Target::Items => b"GET, POST",
        Target::Item(_) => b"GET, DELETE",
        Target::Pause(_) | Target::Resume(_) | Target::Cancel(_) => b"POST",
        Target::Archive | Target::Stop => b"POST",
        Target::History | Target::Report => b"GET",
    }
}

/// The bytes of the reply for want of memory, which take none.
pub fn fixed_memory_reply() -> &'static [u8]
    ensures { result.now ≡ (trouble_of Memory).bytes }
{
    b"HTTP/1.1 500 Internal Server Error\r\nContent-Type: application/json\r\nContent-Length: 18\r\nConnection: close\r\n\r\n{\"error\":\"memory\"}"
}
