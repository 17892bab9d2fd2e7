// What a connection asks, and what is written to it.
use dm_conns::{ConnMem, ConnMems, ConnsMem};
use dm_types::{Listed, NoMemory};
use std::alloc::Global;

/// The first lines of a reply.
#[derive(Clone, Copy)]
pub(crate) enum Head {
    Ok,
    /// The report's.
    Text,
    BadRequest,
    NotFound,
    /// The methods that are allowed.
    NotAllowed(&'static str),
    Conflict,
    TooLarge,
    NoMemory,
    Unavailable,
}

/// What is written to a connection.
#[derive(Clone, Copy)]
pub(crate) enum Told {
    /// A reply with this head and this content.
    Reply(Head, &'static str),
    /// Just these bytes.
    Bytes(&'static [u8]),
    /// Nothing, since its stream is cut.
    Cut,
    /// Nothing, since its first read fails.
    Unread,
    /// Nothing, since its first write fails.
    Unwritten,
}

/// What comes over a connection, and what is written to it.
pub(crate) type Turn = (&'static [u8], Told);

/// As much as a reply of the tests has at most.
const ROOM: u64 = 4096;

impl Head {
    pub(crate) fn status(self) -> u16 {
        match self {
            Head::Ok | Head::Text => 200,
            Head::BadRequest => 400,
            Head::NotFound => 404,
            Head::NotAllowed(_) => 405,
            Head::Conflict => 409,
            Head::TooLarge => 413,
            Head::NoMemory => 500,
            Head::Unavailable => 503,
        }
    }

    fn phrase(self) -> &'static str {
        match self {
            Head::Ok | Head::Text => "OK",
            Head::BadRequest => "Bad Request",
            Head::NotFound => "Not Found",
            Head::NotAllowed(_) => "Method Not Allowed",
            Head::Conflict => "Conflict",
            Head::TooLarge => "Payload Too Large",
            Head::NoMemory => "Internal Server Error",
            Head::Unavailable => "Service Unavailable",
        }
    }

    fn media(self) -> &'static str {
        match self {
            Head::Text => "text/plain; charset=utf-8",
            _ => "application/json",
        }
    }
}

/// The bytes of a reply.
fn reply(alloc: Global, head: Head, content: &str) -> Result<String, NoMemory> {
    let (status, phrase, media) = (head.status(), head.phrase(), head.media());
    let size = content.len();
    let text = match head {
        Head::NotAllowed(methods) => format!(in alloc;
            "HTTP/1.1 {status} {phrase}\r\nContent-Type: {media}\r\nContent-Length: {size}\r\nConnection: close\r\nAllow: {methods}\r\n\r\n{content}"
        ),
        _ => format!(in alloc;
            "HTTP/1.1 {status} {phrase}\r\nContent-Type: {media}\r\nContent-Length: {size}\r\nConnection: close\r\n\r\n{content}"
        ),
    };
    Ok(text?)
}

/// Whether these are the bytes of a reply.
pub(crate) fn is_reply(alloc: Global, written: &[u8], head: Head, content: &str) -> bool {
    match reply(alloc, head, content) {
        Ok(text) => written == text.as_bytes(),
        Err(NoMemory) => false,
    }
}

/// Whether this is written.
pub(crate) fn is_told(alloc: Global, written: &[u8], told: Told) -> bool {
    match told {
        Told::Reply(head, content) => is_reply(alloc, written, head, content),
        Told::Bytes(bytes) => written == bytes,
        Told::Cut | Told::Unread | Told::Unwritten => written.is_empty(),
    }
}

/// A connection of a turn. Its whole stream is read by its first call.
pub(crate) fn conn(alloc: Global, turn: &Turn) -> Result<ConnMem, NoMemory> {
    match turn.1 {
        Told::Unread => ConnMem::new(alloc, turn.0, ROOM, &[0]),
        Told::Unwritten => ConnMem::new(alloc, turn.0, ROOM, &[1]),
        Told::Reply(..) | Told::Bytes(_) | Told::Cut => ConnMem::new(alloc, turn.0, ROOM, &[]),
    }
}

/// The connections of turns, in order.
pub(crate) fn conns(alloc: Global, turns: &[Turn]) -> Result<ConnMems, NoMemory> {
    let mut list = Listed::new(alloc);
    for turn in turns {
        list.push(conn(alloc, turn)?)?;
    }
    Ok(list)
}

/// Whether the connection at a place was handed back, and this is written to it.
pub(crate) fn was_told(alloc: Global, conns: &ConnsMem, place: usize, told: Told) -> bool {
    match conns.over(place as u64) {
        Some(over) => is_told(alloc, over.written.as_slice(), told),
        None => false,
    }
}

/// The first of these turns that went otherwise.
pub(crate) fn first_other(alloc: Global, conns: &ConnsMem, turns: &[Turn]) -> Option<usize> {
    for (place, turn) in turns.iter().enumerate() {
        if !was_told(alloc, conns, place, turn.1) {
            return Some(place);
        }
    }
    None
}
