use crate::*;
use dm_edge::{Framing, Wanted};
use dm_policy::Cause;
use httparse::spans::Span;
use std::alloc::Global;
use std::test::Fail;

const NO_METADATA: Metadata = Metadata {
    strong: None,
    ranges: false,
    disposition: None,
    modified: Span { start: 0, end: 0 },
};

/// The bytes of a whole content.
fn whole_of(framing: Framing) -> Extent {
    let total = match framing {
        Framing::Counted(count) => Some(count),
        Framing::Chunked => None,
        Framing::ToEnd => None,
    };
    Extent {
        first: 0,
        last: None,
        total,
    }
}

/// Whether each cut of the bytes is the front of a head, and all of them are this.
fn is_found(head: &[u8], look: Look) -> bool {
    if head.len() > 65_536 {
        return false;
    }
    for length in 0..head.len() {
        if look_at(&head[..length], &Wanted::Whole) != Look::Open {
            return false;
        }
    }
    look_at(head, &Wanted::Whole) == look
}

fn is_refused(head: &[u8], cause: Cause) -> bool {
    is_found(head, Look::Refused(cause))
}

fn is_content(head: &[u8], framing: Framing) -> bool {
    is_found(
        head,
        Look::Content {
            start: head.len(),
            framing,
            extent: whole_of(framing),
            metadata: NO_METADATA,
        },
    )
}

fn is_redirect(head: &[u8], location: &[u8]) -> bool {
    if head.len() > 65_536 {
        return false;
    }
    match look_at(head, &Wanted::Whole) {
        Look::Redirect {
            location: found,
            ..
        } => found.of(head) == location,
        Look::Interim { .. } => false,
        Look::Content { .. } => false,
        Look::Refused(_) => false,
        Look::Open => false,
    }
}

/// What a head of this status with a Location is.
fn of_status(status: &[u8; 3]) -> Look {
    let mut head = *b"HTTP/1.1 000 \r\nLocation: /a\r\n\r\n";
    for k in 0..3 {
        head[9 + k] = status[k];
    }
    look_at(&head, &Wanted::Whole)
}

#[test]
fn statuses_that_are_refused(rt: HostRuntime) {
    let rows = [
        (b"101", 101),
        (b"201", 201),
        (b"204", 204),
        (b"206", 206),
        (b"300", 300),
        (b"304", 304),
        (b"305", 305),
        (b"309", 309),
        (b"401", 401),
        (b"403", 403),
        (b"404", 404),
        (b"410", 410),
        (b"416", 416),
        (b"503", 503),
        (b"099", 99),
        (b"999", 999),
    ];
    for (digits, status) in rows {
        assert_eq!(rt; of_status(digits), Look::Refused(Cause::Status(status)));
    }
}

#[test]
fn statuses_of_interim_heads(rt: HostRuntime) {
    for (digits, status) in [(b"100", 100), (b"102", 102), (b"103", 103), (b"199", 199)] {
        assert_eq!(rt; of_status(digits), Look::Interim { size: 31, status });
    }
}

#[test]
fn statuses_of_redirects(rt: HostRuntime) {
    let rows = [
        (b"301", 301),
        (b"302", 302),
        (b"303", 303),
        (b"307", 307),
        (b"308", 308),
    ];
    for (digits, status) in rows {
        let redirect = Look::Redirect {
            status,
            location: Span { start: 25, end: 27 },
            metadata: NO_METADATA,
        };
        assert_eq!(rt; of_status(digits), redirect);
    }
}

const FRAMED: [(&[u8], Framing); 14] = [
    (b"HTTP/1.1 200 OK\r\n\r\n", Framing::ToEnd),
    (b"HTTP/1.0 200\n\n", Framing::ToEnd),
    (
        b"HTTP/1.1 200 OK\r\nTransfer-Encoding: chunked\r\n\r\n",
        Framing::Chunked,
    ),
    (
        b"HTTP/1.1 200 OK\r\ntransfer-encoding:CHUNKed \r\n\r\n",
        Framing::Chunked,
    ),
    (
        b"HTTP/1.1 200 OK\r\nContent-Length: x\r\nTransfer-Encoding: chunked\r\n\r\n",
        Framing::Chunked,
    ),
    (
        b"HTTP/1.1 200 OK\r\nContent-Length: 11\r\n\r\n",
        Framing::Counted(11),
    ),
    (
        b"HTTP/1.0 200 OK\r\nCONTENT-LENGTH: 0\r\n\r\n",
        Framing::Counted(0),
    ),
    (
        b"HTTP/1.1 200 OK\r\nContent-Length: 11, 11\r\n\r\n",
        Framing::Counted(11),
    ),
    (
        b"HTTP/1.1 200 OK\r\nContent-Length: 11\r\nA: b\r\nContent-Length: 011,11\r\n\r\n",
        Framing::Counted(11),
    ),
    (
        b"HTTP/1.1 200 OK\r\nContent-Length: 1099511627776\r\n\r\n",
        Framing::Counted(1_099_511_627_776),
    ),
    (
        b"HTTP/1.1 200 OK\r\nContent-Encoding: identity\r\n\r\n",
        Framing::ToEnd,
    ),
    (
        b"HTTP/1.1 200 OK\r\nContent-Encoding: Identity\r\ncontent-encoding: IDENTITY\r\n\r\n",
        Framing::ToEnd,
    ),
    (
        b"HTTP/1.1 200 OK\r\nLast-Modified: a\r\nLast-Modified: a\r\n\r\n",
        Framing::ToEnd,
    ),
    (
        b"\r\n\nHTTP/1.1 200 OK\r\nLast-Modified:\r\n\r\n",
        Framing::ToEnd,
    ),
];

#[test]
fn content_is_framed(rt: HostRuntime) {
    for (head, framing) in FRAMED {
        if framing != Framing::ToEnd {
            assert!(rt; is_content(head, framing));
        }
    }
}

#[test]
fn content_goes_on_to_the_end(rt: HostRuntime) {
    for (head, framing) in FRAMED {
        if framing == Framing::ToEnd {
            match look_at(head, &Wanted::Whole) {
                Look::Content { start, framing, .. } => {
                    assert_eq!(rt; (start, framing), (head.len(), Framing::ToEnd))
                }
                _ => assert!(rt; false),
            }
        }
    }
}

const REFUSED: [(&[u8], Cause); 22] = [
    (
        b"HTTP/1.1 200 OK\r\nTransfer-Encoding: gzip, chunked\r\n\r\n",
        Cause::BadFraming,
    ),
    (
        b"HTTP/1.0 200 OK\r\nTransfer-Encoding: chunked\r\n\r\n",
        Cause::BadFraming,
    ),
    (
        b"HTTP/1.1 200 OK\r\nTransfer-Encoding: chunked\r\nTransfer-Encoding: chunked\r\n\r\n",
        Cause::BadFraming,
    ),
    (
        b"HTTP/1.1 200 OK\r\nTransfer-Encoding:\r\nContent-Length: 11\r\n\r\n",
        Cause::BadFraming,
    ),
    (
        b"HTTP/1.1 200 OK\r\nContent-Length: 11,12\r\n\r\n",
        Cause::BadFraming,
    ),
    (
        b"HTTP/1.1 200 OK\r\nContent-Length: 11\r\nContent-Length: 12\r\n\r\n",
        Cause::BadFraming,
    ),
    (
        b"HTTP/1.1 200 OK\r\nContent-Length: 11\r\nContent-Length:\r\n\r\n",
        Cause::BadFraming,
    ),
    (
        b"HTTP/1.1 200 OK\r\nContent-Length: x\r\nContent-Length: 11\r\n\r\n",
        Cause::BadFraming,
    ),
    (
        b"HTTP/1.1 200 OK\r\nContent-Length: 00000000000000000011\r\n\r\n",
        Cause::BadFraming,
    ),
    (
        b"HTTP/1.1 200 OK\r\nContent-Length: 1099511627777\r\n\r\n",
        Cause::TooLarge(1_099_511_627_777),
    ),
    (
        b"HTTP/1.1 200 OK\r\nContent-Length: 9999999999999999999\r\n\r\n",
        Cause::TooLarge(9_999_999_999_999_999_999),
    ),
    (
        b"HTTP/1.1 200 OK\r\nContent-Encoding: gzip\r\n\r\n",
        Cause::Encoded,
    ),
    (
        b"HTTP/1.1 200 OK\r\nContent-Encoding: identity\r\nContent-Encoding: gzip\r\n\r\n",
        Cause::Encoded,
    ),
    (
        b"HTTP/1.1 200 OK\r\nContent-Encoding:\r\n\r\n",
        Cause::Encoded,
    ),
    (
        b"HTTP/1.1 200 OK\r\nContent-Encoding: identity, identity\r\n\r\n",
        Cause::Encoded,
    ),
    (
        b"HTTP/1.1 200 OK\r\nContent-Length: x\r\nContent-Encoding: gzip\r\n\r\n",
        Cause::Encoded,
    ),
    (
        b"HTTP/1.1 404 No\r\nContent-Length: x\r\nContent-Encoding: gzip\r\n\r\n",
        Cause::Status(404),
    ),
    (
        b"HTTP/1.1 302 Found\r\nContent-Encoding: gzip\r\n\r\n",
        Cause::BadHead,
    ),
    (
        b"HTTP/1.1 302 Found\r\nLocation: /a\r\nLocation: /a\r\n\r\n",
        Cause::BadHead,
    ),
    (
        b"HTTP/1.1 302 Found\r\nLocation: /a\r\nContent-Encoding: gzip\r\n\r\n",
        Cause::Encoded,
    ),
    (
        b"HTTP/1.1 302 Found\r\nLocation: /a\r\nContent-Length: x\r\n\r\n",
        Cause::BadFraming,
    ),
    (
        b"HTTP/1.0 302 Found\r\nTransfer-Encoding: chunked\r\nLocation: /a\r\n\r\n",
        Cause::BadFraming,
    ),
];

#[test]
fn heads_are_refused(rt: HostRuntime) {
    for (head, cause) in REFUSED {
        assert!(rt; is_refused(head, cause));
    }
}

#[test]
fn a_redirect_of_any_length_is_followed(rt: HostRuntime) {
    let head = b"HTTP/1.1 302 Found\r\nlocation: /a b\t\r\nContent-Length: 1099511627777\r\n\r\nx";
    assert!(rt; is_redirect(head, b"/a b"));
    assert!(rt; is_redirect(b"HTTP/1.1 308 P\r\nLocation:\r\n\r\n", b""));
}

/// Whether the bytes can begin no head from so many on.
fn is_bad_from(bytes: &[u8], first: usize) -> bool {
    if bytes.len() > 65_536 {
        return false;
    }
    for length in 0..=bytes.len() {
        let look = if length < first {
            Look::Open
        } else {
            Look::Refused(Cause::BadHead)
        };
        if look_at(&bytes[..length], &Wanted::Whole) != look {
            return false;
        }
    }
    true
}

#[test]
fn bytes_that_begin_no_head(rt: HostRuntime) {
    assert!(rt; is_bad_from(b"SSH-2.0-OpenSSH_9.6\r\n", 1));
    assert!(rt; is_bad_from(b"HTTP/2.0 200 OK\r\n", 6));
    assert!(rt; is_bad_from(b"HTTP/1.1 2x0 OK\r\n", 11));
    assert!(rt; is_bad_from(b"HTTP/1.1 200 OK\r\nA b: c\r\n", 19));
}

/// What a head with so many fields is, up to its last one or with one more byte.
fn with_fields(alloc: Global, count: usize, end: &[u8]) -> Result<Look, Fail> {
    let mut head = Vec::new(alloc);
    head.extend_from_slice(b"HTTP/1.1 200 OK\r\n")?;
    for _ in 0..count {
        head.extend_from_slice(b"A: b\r\n")?;
    }
    head.extend_from_slice(end)?;
    if head.len() > 65_536 {
        return Ok(Look::Open);
    }
    Ok(look_at(head.as_slice(), &Wanted::Whole))
}

#[test]
fn a_hundred_fields_are_taken(rt: HostRuntime) -> Result<(), Fail> {
    let whole = Look::Content {
        start: 619,
        framing: Framing::ToEnd,
        extent: whole_of(Framing::ToEnd),
        metadata: NO_METADATA,
    };
    assert_eq!(rt; with_fields(rt.alloc(), 100, b"")?, Look::Open);
    assert_eq!(rt; with_fields(rt.alloc(), 100, b"\r\n")?, whole);
    Ok(())
}

#[test]
fn one_more_field_is_refused(rt: HostRuntime) -> Result<(), Fail> {
    let refused = Look::Refused(Cause::BadHead);
    assert_eq!(rt; with_fields(rt.alloc(), 100, b"A")?, refused);
    assert_eq!(rt; with_fields(rt.alloc(), 101, b"\r\n")?, refused);
    Ok(())
}

/// How many bytes of a Last-Modified of this length are kept.
fn kept(alloc: Global, length: usize) -> Result<usize, Fail> {
    let mut head = Vec::new(alloc);
    head.extend_from_slice(b"HTTP/1.1 200 OK\r\nlast-modified: ")?;
    for _ in 0..length {
        head.push(b'm')?;
    }
    head.extend_from_slice(b"\r\n\r\n")?;
    if head.len() > 65_536 {
        return Ok(0);
    }
    match look_at(head.as_slice(), &Wanted::Whole) {
        Look::Content { metadata, .. } => Ok(
            metadata
                .modified
                .end
                .saturating_sub(metadata.modified.start),
        ),
        _ => Ok(0),
    }
}

#[test]
fn a_long_last_modified_is_dropped(rt: HostRuntime) -> Result<(), Fail> {
    assert_eq!(rt; kept(rt.alloc(), 29)?, 29);
    assert_eq!(rt; kept(rt.alloc(), 128)?, 128);
    assert_eq!(rt; kept(rt.alloc(), 129)?, 0);
    Ok(())
}
