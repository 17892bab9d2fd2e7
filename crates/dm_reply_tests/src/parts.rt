use crate::collecting::collected;
use crate::wires::wire_of;
use dm_policy::Cause;
use dm_reply::{Got, Head, HeadFault, ReplyReader, Wanted};
use dm_types::{NoMemory, Text};
use std::alloc::Global;
use std::test::Fail;

/// The second half of `hello world`, under the tag `"a"`.
fn asked(alloc: Global) -> Result<Wanted, NoMemory> {
    Ok(Wanted::Part {
        first: 5,
        last: 10,
        tag: Text::from_bytes(alloc, b"\"a\"")?,
        total: 11,
    })
}

/// The reply's content, read in pieces of a size at most, or why there is none.
fn read_part(alloc: Global, stream: &[u8], size: usize) -> Result<Vec<u8>, HeadFault> {
    match asked(alloc) {
        Ok(wanted) => collected(alloc, &mut wire_of(stream, size, None), wanted),
        Err(_) => Err(HeadFault::NoMemory),
    }
}

fn gives(alloc: Global, stream: &[u8], size: usize, content: &[u8]) -> bool {
    match read_part(alloc, stream, size) {
        Ok(found) => found.as_slice() == content,
        Err(_) => false,
    }
}

fn breaks(alloc: Global, stream: &[u8], size: usize, cause: Cause) -> bool {
    match read_part(alloc, stream, size) {
        Ok(_) => false,
        Err(fault) => fault == HeadFault::Broke(cause),
    }
}

/// In pieces of one to four bytes and in one the content is this.
fn is_whole(alloc: Global, stream: &[u8], content: &[u8]) -> bool {
    for size in 1..=4 {
        if !gives(alloc, stream, size, content) {
            return false;
        }
    }
    gives(alloc, stream, 65_536, content)
}

/// In pieces of one to four bytes and in one the reading ends so.
fn is_broken(alloc: Global, stream: &[u8], cause: Cause) -> bool {
    for size in 1..=4 {
        if !breaks(alloc, stream, size, cause) {
            return false;
        }
    }
    breaks(alloc, stream, 65_536, cause)
}

const PARTIAL: &[u8] =
    b"HTTP/1.1 206 Partial Content\r\nETag: \"a\"\r\nContent-Range: bytes 5-10/11\r\nContent-Length: 6\r\n\r\n world";

/// Where the content of `PARTIAL` begins.
const PARTIAL_HEAD: usize = 92;

fn short(have: u64) -> Cause {
    Cause::ContentShort {
        have,
        wanted: Some(6),
    }
}

fn partial_cut(alloc: Global, cut: usize) -> bool {
    if cut > PARTIAL.len() {
        return false;
    }
    let stream = &PARTIAL[..cut];
    if cut < PARTIAL_HEAD {
        return is_broken(alloc, stream, Cause::HeadCut);
    }
    if cut == PARTIAL.len() {
        return is_whole(alloc, stream, b" world");
    }
    is_broken(alloc, stream, short((cut - PARTIAL_HEAD) as u64))
}

#[test]
fn a_part_at_every_cut(rt: HostRuntime) {
    for cut in 0..=PARTIAL.len() {
        assert!(rt; partial_cut(rt.alloc(), cut), "cut {cut}");
    }
}

/// Parts, and the content of each.
const WHOLE: [(&[u8], &[u8]); 6] = [
    (
        b"HTTP/1.1 206 P\r\nETag: \"a\"\r\nContent-Range: bytes 5-10/*\r\nContent-Length: 6\r\n\r\n world and more",
        b" world",
    ),
    (
        b"HTTP/1.1 206 P\r\nETag: \"a\"\r\nContent-Range: bytes 5-7/11\r\nContent-Length: 3\r\n\r\n wo",
        b" wo",
    ),
    (
        b"HTTP/1.1 206 P\r\nETag: \"a\"\r\nContent-Range: BYTES 5-10/11\r\nTransfer-Encoding: chunked\r\n\r\n3\r\n wo\r\n3\r\nrld\r\n0\r\n\r\n",
        b" world",
    ),
    (
        b"HTTP/1.1 206 P\r\nETag: \"a\"\r\nContent-Range: bytes 5-10/11\r\nTransfer-Encoding: chunked\r\n\r\nff\r\n world and more",
        b" world",
    ),
    (
        b"HTTP/1.1 206 P\r\nETag: \"a\"\r\nContent-Range: bytes 5-10/11\r\n\r\n world and more",
        b" world",
    ),
    (
        b"HTTP/1.1 103 E\r\n\r\nHTTP/1.0 206 P\r\nContent-Range: bytes 05-010/011\r\nETag:\"a\"\r\n\r\n world",
        b" world",
    ),
];

#[test]
fn parts_are_given(rt: HostRuntime) {
    for (stream, content) in WHOLE {
        assert!(rt; is_whole(rt.alloc(), stream, content));
    }
}

/// Replies to a request for a part that bring none, or less, and why.
const BROKEN: [(&[u8], Cause); 26] = [
    (
        b"HTTP/1.1 200 OK\r\nETag: \"b\"\r\n\r\nHELLO WORLD",
        Cause::RangeRefused(200),
    ),
    (
        b"HTTP/1.1 416 R\r\nContent-Range: bytes */11\r\n\r\n",
        Cause::RangeRefused(416),
    ),
    (
        b"HTTP/1.1 302 F\r\nLocation: /b\r\n\r\n",
        Cause::RangeRefused(302),
    ),
    (
        b"HTTP/1.1 308 F\r\nContent-Encoding: gzip\r\n\r\n",
        Cause::RangeRefused(308),
    ),
    (b"HTTP/1.1 304 N\r\n\r\n", Cause::Status(304)),
    (b"HTTP/1.1 404 N\r\n\r\n", Cause::Status(404)),
    (b"HTTP/1.1 101 S\r\n\r\n", Cause::Status(101)),
    (
        b"HTTP/1.1 206 P\r\nETag: \"a\"\r\nContent-Range: bytes 4-10/11\r\nContent-Length: 7\r\n\r\no world",
        Cause::RangeRefused(206),
    ),
    (
        b"HTTP/1.1 206 P\r\nETag: \"a\"\r\nContent-Range: bytes 5-11/12\r\n\r\n world!",
        Cause::RangeRefused(206),
    ),
    (
        b"HTTP/1.1 206 P\r\nETag: \"a\"\r\nContent-Range: bytes 5-10/12\r\n\r\n world",
        Cause::RangeRefused(206),
    ),
    (
        b"HTTP/1.1 206 P\r\nETag: \"a\"\r\nContent-Range: bytes */11\r\n\r\n world",
        Cause::RangeRefused(206),
    ),
    (
        b"HTTP/1.1 206 P\r\nETag: \"a\"\r\nContent-Range: bytes 5-4/11\r\n\r\n world",
        Cause::RangeRefused(206),
    ),
    (
        b"HTTP/1.1 206 P\r\nETag: \"a\"\r\n\r\n world",
        Cause::RangeRefused(206),
    ),
    (
        b"HTTP/1.1 206 P\r\nETag: \"a\"\r\nContent-Range: bytes 5-10/11\r\nContent-Range: bytes 5-10/11\r\n\r\n world",
        Cause::RangeRefused(206),
    ),
    (
        b"HTTP/1.1 206 P\r\nContent-Range: bytes 5-10/11\r\n\r\n world",
        Cause::RangeRefused(206),
    ),
    (
        b"HTTP/1.1 206 P\r\nETag: W/\"a\"\r\nContent-Range: bytes 5-10/11\r\n\r\n world",
        Cause::RangeRefused(206),
    ),
    (
        b"HTTP/1.1 206 P\r\nETag: \"b\"\r\nContent-Range: bytes 5-10/11\r\n\r\n world",
        Cause::RangeRefused(206),
    ),
    (
        b"HTTP/1.1 206 P\r\nETag: \"a\"\r\nETag: \"a\"\r\nContent-Range: bytes 5-10/11\r\n\r\n world",
        Cause::RangeRefused(206),
    ),
    (
        b"HTTP/1.1 206 P\r\nETag: \"a\"\r\nContent-Range: bytes 5-10/11\r\nContent-Length: 5\r\n\r\n world",
        Cause::BadFraming,
    ),
    (
        b"HTTP/1.1 206 P\r\nETag: \"b\"\r\nContent-Range: bytes 5-10/11\r\nContent-Length: 5\r\n\r\n world",
        Cause::RangeRefused(206),
    ),
    (
        b"HTTP/1.1 206 P\r\nETag: \"b\"\r\nContent-Length: x\r\n\r\n",
        Cause::BadFraming,
    ),
    (
        b"HTTP/1.1 206 P\r\nETag: \"b\"\r\nContent-Length: x\r\nContent-Encoding: gzip\r\n\r\n",
        Cause::Encoded,
    ),
    (
        b"HTTP/1.1 206 P\r\nETag: \"a\"\r\nContent-Range: bytes 5-10/11\r\n\r\n wo",
        Cause::ContentShort {
            have: 3,
            wanted: Some(6),
        },
    ),
    (
        b"HTTP/1.1 206 P\r\nETag: \"a\"\r\nContent-Range: bytes 5-10/11\r\nTransfer-Encoding: chunked\r\n\r\n3\r\n wo\r\n0\r\n\r\n",
        Cause::ContentShort {
            have: 3,
            wanted: Some(6),
        },
    ),
    (
        b"HTTP/1.1 206 P\r\nETag: \"a\"\r\nContent-Range: bytes 5-10/11\r\nTransfer-Encoding: chunked\r\n\r\n3\r\n wo\r\n3",
        Cause::ContentShort {
            have: 3,
            wanted: Some(6),
        },
    ),
    (
        b"HTTP/1.1 206 P\r\nETag: \"a\"\r\nContent-Range: bytes 5-10/11\r\nTransfer-Encoding: chunked\r\n\r\n3\r\n wox",
        Cause::BadFraming,
    ),
];

#[test]
fn other_replies_are_refused(rt: HostRuntime) {
    for (stream, cause) in BROKEN {
        assert!(rt; is_broken(rt.alloc(), stream, cause), "{cause:?}");
    }
}

/// The head of a reply to a request for the part.
fn head_of(alloc: Global, stream: &[u8]) -> Result<Head, HeadFault> {
    let mut wire = wire_of(stream, 7, None);
    let wanted = match asked(alloc) {
        Ok(wanted) => wanted,
        Err(_) => return Err(HeadFault::NoMemory),
    };
    let mut reader = match ReplyReader::new(alloc, wanted) {
        Ok(reader) => reader,
        Err(_) => return Err(HeadFault::NoMemory),
    };
    reader.head(alloc, &mut wire)
}

const TOLD: &[u8] =
    b"HTTP/1.1 206 P\r\nETag: \"a\"\r\nContent-Range: bytes 5-7/11\r\nAccept-Ranges: none, Bytes\r\nContent-Disposition: inline\r\n\r\n";

/// Whether the head of `TOLD` has what its fields say.
fn is_told(head: &Head) -> bool {
    let places = head.first == 5 && head.last == Some(7) && head.total == Some(11);
    let tag = match &head.strong {
        Some(tag) => tag.is(b"\"a\""),
        None => false,
    };
    let disposition = match &head.disposition {
        Some(value) => value.is(b"inline"),
        None => false,
    };
    places && tag && disposition && head.ranges && head.status == 206
}

#[test]
fn a_head_has_its_fields(rt: HostRuntime) {
    match head_of(rt.alloc(), TOLD) {
        Ok(head) => assert!(rt; is_told(&head)),
        Err(_) => assert!(rt; false),
    }
}

/// The answers behind the end of a part are the end.
#[test]
fn a_part_ends_again(rt: HostRuntime) -> Result<(), Fail> {
    let mut wire = wire_of(PARTIAL, 100, None);
    let mut reader = ReplyReader::new(rt.alloc(), asked(rt.alloc())?)?;
    let mut piece = [0; 100];
    assert!(rt; reader.head(rt.alloc(), &mut wire).is_ok());
    assert_eq!(rt; reader.content(&mut wire, &mut piece), Ok(Got::Bytes(6)));
    assert_eq!(rt; reader.content(&mut wire, &mut piece), Ok(Got::End));
    assert_eq!(rt; reader.content(&mut wire, &mut piece), Ok(Got::End));
    Ok(())
}
