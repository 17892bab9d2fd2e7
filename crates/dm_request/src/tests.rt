ghost use Rattle.std.specs.Prelude.{◌≤◌, IfSome};

use crate::*;
use dm_types::{Address, Text};
use std::alloc::Global;
use std::test::Fail;

/// Whether a text is read as an address of these fields.
fn reads(alloc: Global, text: &[u8], kept: &[u8], host: &[u8], port: u16, target: &[u8]) -> bool {
    match read_address(alloc, text) {
        Ok(address) => has(&address, kept, host, port, target),
        Err(_) => false,
    }
}

fn has(address: &Address, kept: &[u8], host: &[u8], port: u16, target: &[u8]) -> bool {
    address.text.is(kept)
        && address.host.is(host)
        && address.port == port
        && address.target.is(target)
}

/// A text that is kept as it stands.
fn stays(alloc: Global, text: &[u8], host: &[u8], port: u16, target: &[u8]) -> bool {
    reads(alloc, text, text, host, port, target)
}

#[test]
fn plain_addresses(rt: HostRuntime) {
    let alloc = rt.alloc();
    assert!(rt; stays(alloc, b"http://127.0.0.1:65535/", b"127.0.0.1", 65535, b"/"));
    assert!(rt;
        stays(
            alloc,
            b"http://127.0.0.1:8080/hello.txt",
            b"127.0.0.1",
            8080,
            b"/hello.txt"
        )
    );
    assert!(rt;
        stays(
            alloc,
            b"http://files.example/a/hello.txt",
            b"files.example",
            80,
            b"/a/hello.txt"
        )
    );
    assert!(rt; stays(alloc, b"http://h/a//b_C-1.txt", b"h", 80, b"/a//b_C-1.txt"));
    assert!(rt; stays(alloc, b"http://h/...", b"h", 80, b"/..."));
    assert!(rt; stays(alloc, b"http://h/.a/b..", b"h", 80, b"/.a/b.."));
    assert!(rt; stays(alloc, b"http://1.2.3.a/", b"1.2.3.a", 80, b"/"));
    assert!(rt; stays(alloc, b"http://a1.b2:1/", b"a1.b2", 1, b"/"));
}

#[test]
fn rewritten_addresses(rt: HostRuntime) {
    let alloc = rt.alloc();
    assert!(rt; reads(alloc, b"http://h", b"http://h/", b"h", 80, b"/"));
    assert!(rt;
        reads(
            alloc,
            b"HTTP://Files.Example/A",
            b"http://files.example/A",
            b"files.example",
            80,
            b"/A"
        )
    );
    assert!(rt; reads(alloc, b"http://h:80/a", b"http://h/a", b"h", 80, b"/a"));
    assert!(rt; reads(alloc, b"http://h/a#b", b"http://h/a", b"h", 80, b"/a"));
    assert!(rt;
        reads(
            alloc,
            b"http://h/a?b#c?d",
            b"http://h/a?b",
            b"h",
            80,
            b"/a?b"
        )
    );
    assert!(rt; stays(alloc, b"http://h/?", b"h", 80, b"/?"));
    assert!(rt; reads(alloc, b"http://h?q", b"http://h/?q", b"h", 80, b"/?q"));
    assert!(rt; reads(alloc, b"http://@h/", b"http://h/", b"h", 80, b"/"));
    assert!(rt;
        reads(
            alloc,
            b"http://[2001:DB8:0::1]:81/a",
            b"http://[2001:db8::1]:81/a",
            b"[2001:db8::1]",
            81,
            b"/a"
        )
    );
    assert!(rt;
        reads(
            alloc,
            b"http://0x7f.1/",
            b"http://127.0.0.1/",
            b"127.0.0.1",
            80,
            b"/"
        )
    );
    assert!(rt;
        reads(
            alloc,
            "http://bücher.example/ü".as_bytes(),
            b"http://xn--bcher-kva.example/%C3%BC",
            b"xn--bcher-kva.example",
            80,
            b"/%C3%BC"
        )
    );
    assert!(rt;
        reads(
            alloc,
            b" http://h/a/../b c\n",
            b"http://h/b%20c",
            b"h",
            80,
            b"/b%20c"
        )
    );
}

fn fault(alloc: Global, text: &[u8]) -> Option<AddressFault> {
    read_address(alloc, text).err()
}

#[test]
fn refused_addresses(rt: HostRuntime) {
    let none: &[&[u8]] = &[
        b"",
        b"x",
        b"/a",
        b"http://",
        b"http:///",
        b"http://h:x/",
        b"http://h:65536/",
        b"http://h:1:2/",
        b"http://a b/",
        b"http://1.2.3.256/",
        b"http://[::1/",
        b"http://h/\xFF",
    ];
    for text in none {
        assert_eq!(rt; fault(rt.alloc(), text), Some(AddressFault::NotUrl));
    }
    let other: &[&[u8]] = &[
        b"ftp://x/a",
        b"https://h/a",
        b"http://u@h/",
        b"http://u:p@h/",
        b"http://:p@h/",
        b"file:///a",
        b"mailto:a@b",
    ];
    for text in other {
        assert_eq!(rt; fault(rt.alloc(), text), Some(AddressFault::NotHttp));
    }
}

/// A text with so many times this byte after it.
fn long(alloc: Global, front: &[u8], byte: u8, count: usize) -> Result<Vec<u8>, Fail> {
    let mut text = front.to_vec(alloc)?;
    for _ in 0..count {
        text.push(byte)?;
    }
    Ok(text)
}

/// How `http://h/` with so many times this byte after it is refused.
fn long_fault(alloc: Global, byte: u8, count: usize) -> Result<Option<AddressFault>, Fail> {
    Ok(fault(alloc, &long(alloc, b"http://h/", byte, count)?))
}

#[test]
fn the_length_of_an_address(rt: HostRuntime) -> Result<(), Fail> {
    let too_long = Some(AddressFault::TooLong(4097));
    assert_eq!(rt; long_fault(rt.alloc(), b'a', 4087)?, None);
    assert_eq!(rt; long_fault(rt.alloc(), b'a', 4088)?, too_long);
    assert_eq!(rt; long_fault(rt.alloc(), 0xFF, 4088)?, too_long);
    // A quote is written with three bytes.
    assert_eq!(rt; long_fault(rt.alloc(), b'"', 1362)?, None);
    assert_eq!(rt;
        long_fault(rt.alloc(), b'"', 1363)?,
        Some(AddressFault::TooLong(4098))
    );
    Ok(())
}

/// What a Location leads to from `http://h:81/a/b?c`.
fn next(alloc: Global, location: &[u8]) -> Result<Address, AddressFault> {
    let base = match read_address(alloc, b"http://h:81/a/b?c") {
        Ok(base) => base,
        Err(fault) => return Err(fault),
    };
    next_address(alloc, &base, location)
}

fn leads(
    alloc: Global,
    location: &[u8],
    kept: &[u8],
    host: &[u8],
    port: u16,
    target: &[u8],
) -> bool {
    match next(alloc, location) {
        Ok(address) => has(&address, kept, host, port, target),
        Err(_) => false,
    }
}

#[test]
fn locations(rt: HostRuntime) {
    let alloc = rt.alloc();
    assert!(rt; leads(alloc, b"d", b"http://h:81/a/d", b"h", 81, b"/a/d"));
    assert!(rt; leads(alloc, b"../d", b"http://h:81/d", b"h", 81, b"/d"));
    assert!(rt; leads(alloc, b"/d?e", b"http://h:81/d?e", b"h", 81, b"/d?e"));
    assert!(rt; leads(alloc, b"//other/x", b"http://other/x", b"other", 80, b"/x"));
    assert!(rt; leads(alloc, b"?q", b"http://h:81/a/b?q", b"h", 81, b"/a/b?q"));
    assert!(rt; leads(alloc, b"", b"http://h:81/a/b?c", b"h", 81, b"/a/b?c"));
    assert!(rt; leads(alloc, b"#f", b"http://h:81/a/b?c", b"h", 81, b"/a/b?c"));
    assert!(rt; leads(alloc, b"http://o:80/", b"http://o/", b"o", 80, b"/"));
    assert_eq!(rt;
        next(alloc, b"https://x/").err(),
        Some(AddressFault::NotHttp)
    );
    assert_eq!(rt; next(alloc, b"//u@x/").err(), Some(AddressFault::NotHttp));
    assert_eq!(rt; next(alloc, b"//x:y/").err(), Some(AddressFault::NotUrl));
    assert_eq!(rt; next(alloc, b"\xFF").err(), Some(AddressFault::NotUrl));
}

/// How a Location of so many bytes is refused.
fn long_next(alloc: Global, count: usize) -> Result<Option<AddressFault>, Fail> {
    Ok(next(alloc, &long(alloc, b"", b'a', count)?).err())
}

#[test]
fn the_length_of_a_location(rt: HostRuntime) -> Result<(), Fail> {
    // The base gives `http://h:81/a/`, 14 bytes.
    assert_eq!(rt; long_next(rt.alloc(), 4082)?, None);
    assert_eq!(rt;
        long_next(rt.alloc(), 4083)?,
        Some(AddressFault::TooLong(4097))
    );
    assert_eq!(rt;
        long_next(rt.alloc(), 4098)?,
        Some(AddressFault::TooLong(4098))
    );
    Ok(())
}

/// Whether the base is refused as an address of this text is.
fn same_fault(alloc: Global, text: &[u8]) -> Result<bool, Fail> {
    let base = Address {
        text: Text::from_bytes(alloc, text)?,
        host: Text::new(alloc),
        port: 80,
        target: Text::new(alloc),
    };
    Ok(next_address(alloc, &base, b"http://h/").err() == fault(alloc, text))
}

#[test]
fn bases_that_are_no_address(rt: HostRuntime) -> Result<(), Fail> {
    assert!(rt; same_fault(rt.alloc(), b"/a")?);
    assert!(rt; same_fault(rt.alloc(), b"https://h/")?);
    Ok(())
}

/// Whether this is the request for an address.
fn requests(alloc: Global, text: &[u8], ask: Option<&Ask>, expected: &[u8]) -> Result<bool, Fail>
    requires { IfSome ask (λ range. range.now.first ≤ range.now.last) }
{
    let address = match read_address(alloc, text) {
        Ok(address) => address,
        Err(_) => return Ok(false),
    };
    Ok(request_text(alloc, &address, ask)?.is(expected))
}

#[test]
fn whole_requests(rt: HostRuntime) -> Result<(), Fail> {
    let whole =
        b"GET /a/hello.txt HTTP/1.1\r\nHost: files.example\r\nUser-Agent: dm/1\r\nAccept: */*\r\nAccept-Encoding: identity\r\nConnection: close\r\n\r\n";
    assert!(rt; requests(rt.alloc(), b"http://files.example/a/hello.txt", None, whole)?);
    let six =
        b"GET /a?b HTTP/1.1\r\nHost: [::1]:8080\r\nUser-Agent: dm/1\r\nAccept: */*\r\nAccept-Encoding: identity\r\nConnection: close\r\n\r\n";
    assert!(rt; requests(rt.alloc(), b"http://[::1]:8080/a?b", None, six)?);
    Ok(())
}

#[test]
fn requests_for_a_range(rt: HostRuntime) -> Result<(), Fail> {
    let ask = Ask {
        first: 5,
        last: 10,
        tag: Text::from_bytes(rt.alloc(), b"\"a\"")?,
    };
    let part =
        b"GET /a/hello.txt HTTP/1.1\r\nHost: files.example\r\nUser-Agent: dm/1\r\nAccept: */*\r\nAccept-Encoding: identity\r\nConnection: close\r\nRange: bytes=5-10\r\nIf-Range: \"a\"\r\n\r\n";
    assert!(rt;
        requests(
            rt.alloc(),
            b"http://files.example/a/hello.txt",
            Some(&ask),
            part
        )?
    );
    Ok(())
}
