ghost use Rattle.std.specs.Prelude.{◌≡◌, ◌≤◌, ◌++◌, IfOk, IfSome, OnOk, option_copied};
ghost use Rattle.dm_request.specs.Address.{port_part};
ghost use Rattle.dm_request.specs.Request.{request_of, range_lines};

use dm_types::{Address, NoMemory, Text};
use std::alloc::Global;

/// A range of a content, and the content that it is a range of.
#[derive(Debug, Drop)]
pub struct Ask {
    /// The place of the first byte, from 0.
    pub first: u64,
    /// The place of the last byte, which is asked for too.
    pub last: u64,
    /// The content's strong entity tag, with its quotes.
    pub tag: Text,
}

/// The request for the content of an address, by HTTP/1.1: for all of it, or for a range where the
/// content still has its tag (RFC 9110, sections 14.2 and 13.1.5). The connection is closed after
/// the reply.
pub fn request_text(alloc: Global, address: &Address, ask: Option<&Ask>) -> Result<Text, NoMemory>
    requires { IfSome ask (λ range. range.now.first ≤ range.now.last) }
    ensures { IfOk result (λ text. text ≡ request_of address.now (option_copied ask.entry)) }
{
    let mut text = Text::from_bytes(alloc, b"GET ")?;
    text.push_bytes(address.target.bytes())?;
    text.push_bytes(b" HTTP/1.1\r\nHost: ")?;
    text.push_bytes(address.host.bytes())?;
    push_port(alloc, &mut text, address.port)?;
    text.push_bytes(
        b"\r\nUser-Agent: dm/1\r\nAccept: */*\r\nAccept-Encoding: identity\r\nConnection: close\r\n",
    )?;
    push_range(alloc, &mut text, ask)?;
    text.push_bytes(b"\r\n")?;
    Ok(text)
}

/// Adds `:` and the port where it isn't 80.
fn push_port(alloc: Global, text: &mut Text, port: u16) -> Result<(), NoMemory>
    ensures { OnOk result (text.new ≡ text.old ++ port_part port) }
{
    if port == 80 {
        return Ok(());
    }
    let written = format!(in alloc; ":{port}")?;
    text.push_bytes(written.as_bytes())
}

/// Adds the lines that ask for a range, where one is asked for.
fn push_range(alloc: Global, text: &mut Text, ask: Option<&Ask>) -> Result<(), NoMemory>
    ensures { OnOk result (text.new ≡ text.old ++ range_lines (option_copied ask.entry)) }
{
    match ask {
        Some(ask) => push_range_lines(alloc, text, ask),
        None => Ok(()),
    }
}

fn push_range_lines(alloc: Global, text: &mut Text, ask: &Ask) -> Result<(), NoMemory>
    ensures { OnOk result (text.new ≡ text.old ++ range_lines (Some ask.now)) }
{
    let Ask { first, last, tag } = ask;
    let written = format!(in alloc; "Range: bytes={first}-{last}\r\nIf-Range: ")?;
    text.push_bytes(written.as_bytes())?;
    text.push_bytes(tag.bytes())?;
    text.push_bytes(b"\r\n")?;
    Ok(())
}
