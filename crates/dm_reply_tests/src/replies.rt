use crate::collecting::collected;
use crate::wires::wire_of;
use dm_edge::WireFault;
use dm_policy::Cause;
use dm_reply::{HeadFault, Kind, ReplyReader, Wanted};
use std::alloc::Global;
use std::test::Fail;

/// The whole content is this.
fn gives(alloc: Global, stream: &[u8], size: usize, content: &[u8]) -> bool {
    match collected(alloc, &mut wire_of(stream, size, None), Wanted::Whole) {
        Ok(found) => found.as_slice() == content,
        Err(_) => false,
    }
}

/// The cause that ends the reading is this.
fn breaks(alloc: Global, stream: &[u8], size: usize, cause: Cause) -> bool {
    match collected(alloc, &mut wire_of(stream, size, None), Wanted::Whole) {
        Ok(_) => false,
        Err(fault) => fault == HeadFault::Broke(cause),
    }
}

/// At every cut the content is short by what it lacks, in pieces of one to four bytes and in one.
fn is_short(alloc: Global, stream: &[u8], cause: Cause) -> bool {
    for size in 1..=4 {
        if !breaks(alloc, stream, size, cause) {
            return false;
        }
    }
    breaks(alloc, stream, 65_536, cause)
}

fn is_whole(alloc: Global, stream: &[u8], content: &[u8]) -> bool {
    for size in 1..=4 {
        if !gives(alloc, stream, size, content) {
            return false;
        }
    }
    gives(alloc, stream, 65_536, content)
}

const COUNTED: &[u8] = b"HTTP/1.1 200 OK\r\nETag: \"a\"\r\nContent-Length: 11\r\n\r\nhello world";

/// Where the content of `COUNTED` begins.
const COUNTED_HEAD: usize = 50;

fn counted_cut(alloc: Global, cut: usize) -> bool {
    if cut > COUNTED.len() {
        return false;
    }
    let stream = &COUNTED[..cut];
    if cut < COUNTED_HEAD {
        return is_short(alloc, stream, Cause::HeadCut);
    }
    if cut == COUNTED.len() {
        return is_whole(alloc, stream, b"hello world");
    }
    let have = (cut - COUNTED_HEAD) as u64;
    is_short(
        alloc,
        stream,
        Cause::ContentShort {
            have,
            wanted: Some(11),
        },
    )
}

#[test]
fn counted_content_at_every_cut(rt: HostRuntime) {
    for cut in 0..=COUNTED.len() {
        assert!(rt; counted_cut(rt.alloc(), cut), "cut {cut}");
    }
}

const CHUNKED: &[u8] =
    b"HTTP/1.1 200 OK\r\nTransfer-Encoding: chunked\r\n\r\n5\r\nhello\r\n6\r\n world\r\n0\r\n\r\n";

/// Where the chunks of `CHUNKED` begin.
const CHUNKED_HEAD: usize = 47;

fn chunked_cut(alloc: Global, cut: usize) -> bool {
    if cut > CHUNKED.len() {
        return false;
    }
    let stream = &CHUNKED[..cut];
    if cut < CHUNKED_HEAD {
        return is_short(alloc, stream, Cause::HeadCut);
    }
    if cut == CHUNKED.len() {
        return is_whole(alloc, stream, b"hello world");
    }
    // The data stands at 3 to 7 and at 13 to 18 behind the head.
    let behind = (cut - CHUNKED_HEAD) as u64;
    let have = behind.saturating_sub(3).min(5) + behind.saturating_sub(13).min(6);
    is_short(alloc, stream, Cause::ContentShort { have, wanted: None })
}

#[test]
fn chunked_content_at_every_cut(rt: HostRuntime) {
    for cut in 0..=CHUNKED.len() {
        assert!(rt; chunked_cut(rt.alloc(), cut), "cut {cut}");
    }
}

const TO_END: &[u8] = b"HTTP/1.1 200 OK\r\nServer: a\r\n\r\nhello";

/// Where the content of `TO_END` begins.
const TO_END_HEAD: usize = 30;

fn to_end_cut(alloc: Global, cut: usize) -> bool {
    if cut > TO_END.len() {
        return false;
    }
    let stream = &TO_END[..cut];
    if cut < TO_END_HEAD {
        return is_short(alloc, stream, Cause::HeadCut);
    }
    is_whole(alloc, stream, &TO_END[TO_END_HEAD..cut])
}

#[test]
fn content_to_the_end_at_every_cut(rt: HostRuntime) {
    for cut in 0..=TO_END.len() {
        assert!(rt; to_end_cut(rt.alloc(), cut), "cut {cut}");
    }
}

/// Replies without content, and why.
const REFUSED: [(&[u8], Cause); 9] = [
    (
        b"HTTP/1.1 503 Service Unavailable\r\nContent-Length: 0\r\n\r\n",
        Cause::Status(503),
    ),
    (b"HTTP/1.1 401 Unauthorized\r\n\r\n", Cause::Status(401)),
    (b"HTTP/1.1 206 Partial Content\r\n\r\n", Cause::Status(206)),
    (
        b"HTTP/1.1 200 OK\r\nContent-Encoding: gzip\r\n\r\n",
        Cause::Encoded,
    ),
    (
        b"HTTP/1.1 200 OK\r\nTransfer-Encoding: gzip, chunked\r\n\r\n",
        Cause::BadFraming,
    ),
    (
        b"HTTP/1.1 200 OK\r\nContent-Length: 1099511627777\r\n\r\n",
        Cause::TooLarge(1_099_511_627_777),
    ),
    (
        b"HTTP/1.1 200 OK\r\nTransfer-Encoding: chunked\r\n\r\n5\r\nhello!\n",
        Cause::BadFraming,
    ),
    (
        b"HTTP/1.1 302 Found\r\nLocation: /b\r\n\r\n",
        Cause::TooManyRedirects,
    ),
    (b"SSH-2.0-OpenSSH_9.6\r\n", Cause::BadHead),
];

#[test]
fn other_replies_are_refused(rt: HostRuntime) {
    for (stream, cause) in REFUSED {
        assert!(rt; is_short(rt.alloc(), stream, cause), "{cause:?}");
    }
}

#[test]
fn no_content_at_all(rt: HostRuntime) {
    assert!(rt;
        is_whole(
            rt.alloc(),
            b"HTTP/1.1 200 OK\r\nContent-Length: 0\r\n\r\nmore",
            b""
        )
    );
}

/// A reply behind so many interim heads, each with a field of so many bytes.
fn behind_interim(alloc: Global, count: usize, field: usize) -> Result<Vec<u8>, Fail> {
    let mut stream = Vec::new(alloc);
    for _ in 0..count {
        stream.extend_from_slice(b"HTTP/1.1 103 Early Hints\r\nLink: ")?;
        for _ in 0..field {
            stream.push(b'a')?;
        }
        stream.extend_from_slice(b"\r\n\r\n")?;
    }
    stream.extend_from_slice(COUNTED)?;
    Ok(stream)
}

#[test]
fn eight_interim_heads_pass(rt: HostRuntime) -> Result<(), Fail> {
    let stream = behind_interim(rt.alloc(), 8, 3)?;
    assert!(rt; gives(rt.alloc(), &stream, 7, b"hello world"));
    Ok(())
}

#[test]
fn a_ninth_interim_head_is_a_status(rt: HostRuntime) -> Result<(), Fail> {
    let stream = behind_interim(rt.alloc(), 9, 3)?;
    assert!(rt; breaks(rt.alloc(), &stream, 7, Cause::Status(103)));
    Ok(())
}

/// Each head has its own 65,536 bytes.
#[test]
fn a_long_interim_head_takes_no_room(rt: HostRuntime) -> Result<(), Fail> {
    let stream = behind_interim(rt.alloc(), 2, 65_000)?;
    assert!(rt; gives(rt.alloc(), &stream, 65_536, b"hello world"));
    Ok(())
}

/// A head of so many bytes, with its empty line, and two bytes of content.
fn of_length(alloc: Global, length: usize) -> Result<Vec<u8>, Fail> {
    let mut stream = Vec::new(alloc);
    stream.extend_from_slice(b"HTTP/1.1 200 OK\r\nContent-Length: 2\r\nA: ")?;
    for _ in stream.len()..length.saturating_sub(4) {
        stream.push(b'b')?;
    }
    stream.extend_from_slice(b"\r\n\r\nok")?;
    Ok(stream)
}

#[test]
fn a_head_has_65536_bytes(rt: HostRuntime) -> Result<(), Fail> {
    let most = of_length(rt.alloc(), 65_536)?;
    assert!(rt; gives(rt.alloc(), &most, 10_000, b"ok"));
    let more = of_length(rt.alloc(), 65_537)?;
    assert!(rt; breaks(rt.alloc(), &more, 10_000, Cause::BadHead));
    Ok(())
}

/// Nine heads of 65,500 bytes come byte by byte. Were they looked at for each byte, this would take minutes.
#[test]
fn heads_that_come_byte_by_byte(rt: HostRuntime) -> Result<(), Fail> {
    let mut stream = behind_interim(rt.alloc(), 8, 65_460)?;
    stream.truncate(stream.len().saturating_sub(COUNTED.len()));
    stream.extend_from_slice(of_length(rt.alloc(), 65_500)?.as_slice())?;
    assert!(rt; gives(rt.alloc(), &stream, 1, b"ok"));
    Ok(())
}

/// How many bytes were received, one by one, when the head was answered.
fn received(alloc: Global, stream: &[u8]) -> Option<u64> {
    let mut wire = wire_of(stream, 1, None);
    let mut reader = match ReplyReader::new(alloc, Wanted::Whole) {
        Ok(reader) => reader,
        Err(_) => return None,
    };
    match reader.head(alloc, &mut wire) {
        Ok(_) => Some(wire.receives),
        Err(_) => None,
    }
}

/// Heads, each with a byte of content, in all forms of line ends that are taken.
const ANSWERED: [&[u8]; 5] = [
    b"HTTP/1.1 200 OK\r\nServer: a\r\n\r\nc",
    b"HTTP/1.1 200 OK\nServer: a\n\nc",
    b"\r\n\r\nHTTP/1.1 200 OK\r\nServer: a\n\r\nc",
    b"HTTP/1.0 200\r\n\r\nc",
    b"HTTP/1.1 100 C\r\n\r\n\r\nHTTP/1.1 200 OK\r\n\nc",
];

#[test]
fn a_head_is_answered_at_its_last_byte(rt: HostRuntime) {
    for stream in ANSWERED {
        assert_eq!(rt; received(rt.alloc(), stream), Some(stream.len() as u64 - 1));
    }
}

/// The answer where the wire fails behind these bytes.
fn failing(alloc: Global, stream: &[u8], fault: WireFault) -> Option<HeadFault> {
    collected(alloc, &mut wire_of(stream, 3, Some(fault)), Wanted::Whole).err()
}

#[test]
fn a_fault_in_the_content_is_its_cause(rt: HostRuntime) {
    let found = failing(rt.alloc(), &COUNTED[..56], WireFault::Timeout);
    assert_eq!(rt; found, Some(HeadFault::Broke(Cause::NetTimeout)));
}

#[test]
fn a_fault_in_the_head_is_its_cause(rt: HostRuntime) {
    let found = failing(rt.alloc(), &COUNTED[..20], WireFault::Failed);
    assert_eq!(rt; found, Some(HeadFault::Broke(Cause::NetFailed)));
}

#[test]
fn want_of_memory_is_no_cause_of_a_head(rt: HostRuntime) {
    let found = failing(rt.alloc(), &COUNTED[..20], WireFault::NoMemory);
    assert_eq!(rt; found, Some(HeadFault::NoMemory));
}

/// Whether a cause is answered again.
fn repeats(alloc: Global, stream: &[u8], cause: Cause) -> bool {
    let mut wire = wire_of(stream, 100, Some(WireFault::Failed));
    let mut reader = match ReplyReader::new(alloc, Wanted::Whole) {
        Ok(reader) => reader,
        Err(_) => return false,
    };
    if reader.head(alloc, &mut wire).is_err() {
        return false;
    }
    let mut piece = [0; 100];
    let first = reader.content(&mut wire, &mut piece);
    let second = reader.content(&mut wire, &mut piece);
    let third = reader.content(&mut wire, &mut piece);
    first.is_ok() && second == Err(cause) && third == Err(cause)
}

#[test]
fn a_cause_is_answered_again(rt: HostRuntime) {
    assert!(rt; repeats(rt.alloc(), &COUNTED[..56], Cause::NetFailed));
}

const MOVED: &[u8] =
    b"HTTP/1.1 301 Moved Permanently\r\nLocation:  /a b \r\nLast-Modified: then\r\n\r\n";

/// Whether the head is a redirect to this address, as it stands, with this date.
fn leads(alloc: Global, stream: &[u8], location: &[u8], modified: &[u8]) -> bool {
    let mut wire = wire_of(stream, 5, None);
    let mut reader = match ReplyReader::new(alloc, Wanted::Whole) {
        Ok(reader) => reader,
        Err(_) => return false,
    };
    match reader.head(alloc, &mut wire) {
        Ok(head) => {
            let led = match &head.kind {
                Kind::Redirect(found) => found.is(location),
                Kind::Content => false,
            };
            led && head.modified.is(modified)
        }
        Err(_) => false,
    }
}

#[test]
fn a_redirect_leads_to_its_location(rt: HostRuntime) {
    assert!(rt; leads(rt.alloc(), MOVED, b"/a b", b"then"));
}
