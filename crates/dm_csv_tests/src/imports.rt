use dm_csv::{ImportFault, ImportRows, csv_import};
use std::alloc::Global;
use std::test::Fail;

// The SHA-256 of the empty text, as digits.
const DIGITS: &[u8] = b"E3B0C44298FC1C149AFBF4C8996FB92427AE41E4649B934CA495991B7852B855";

/// What an import of the bytes comes to: how many rows, or the number that is told.
fn came(alloc: Global, bytes: &[u8]) -> Result<u64, u32> {
    if bytes.len() > 1_048_576 {
        return Err(0);
    }
    match csv_import(alloc, bytes) {
        Ok(rows) => Ok(rows.count()),
        Err(ImportFault::Bad(number)) => Err(number),
        Err(ImportFault::NoMemory) => Err(4_294_967_295),
    }
}

#[test]
fn files_that_are_refused(rt: HostRuntime) {
    let alloc = rt.alloc();
    let refused: &[(&[u8], u32)] = &[
        (b"", 0),
        (b"word,address,name\n", 0),
        (b"word,address,name,sha256,x\n", 0),
        (b"Word,address,name,sha256\n", 0),
        (b"address,word,name,sha256\n", 0),
        (b"a,http://h/a,,\n", 0),
        (b"word,address,name,sha256\n,http://h/a,,\n", 1),
        (
            b"word,address,name,sha256\nw1,http://h/a,,\n,http://h/b,,\n",
            2,
        ),
        (b"word,address,name,sha256\nw1,,,\n", 1),
        (b"word,address,name,sha256\nw1,ftp://h/a,,\n", 1),
        (b"word,address,name,sha256\nw 1,http://h/a,,\n", 1),
        (b"word,address,name,sha256\nw1,http://h/a,,x\n", 1),
        (b"word,address,name,sha256\nw1,http://h/a,\xff,\n", 1),
        (b"word,address,name,sha256\nw1,http://h/a\n", 1),
        (b"word,address,name,sha256\nw1,http://h/a,,,\n", 1),
        (
            b"word,address,name,sha256\nw1,http://h/a,,\nw2,x,,\n,,,\n",
            2,
        ),
    ];
    for (bytes, number) in refused {
        assert!(rt; came(alloc, bytes) == Err(*number));
    }
}

#[test]
fn files_that_are_read(rt: HostRuntime) {
    let alloc = rt.alloc();
    let read: &[(&[u8], u64)] = &[
        (b"word,address,name,sha256\n", 0),
        (b"word,address,name,sha256\nw1,http://h/a,,\n", 1),
        (b"word,address,name,sha256\r\n-w,http://h/a,,\r\n", 1),
        (
            b"\xef\xbb\xbfword,address,name,sha256\nw1,http://h/a,,\n\nw1,http://h/a,,",
            2,
        ),
        (b"\"word\",address,name,sha256\nw1,\"http://h/a\",-n,\n", 1),
    ];
    for (bytes, count) in read {
        assert!(rt; came(alloc, bytes) == Ok(*count));
    }
}

fn rows_of(alloc: Global, bytes: &[u8]) -> Option<ImportRows> {
    if bytes.len() > 1_048_576 {
        return None;
    }
    csv_import(alloc, bytes).ok()
}

#[test]
fn what_a_record_tells(rt: HostRuntime) -> Result<(), Fail> {
    let mut bytes = Vec::new(rt.alloc());
    bytes.extend_from_slice(b"word,address,name,sha256\nw1,HTTP://H:80/a,\"a \"\"b\"\", c\nd\",")?;
    bytes.extend_from_slice(DIGITS)?;
    let Some(rows) = rows_of(rt.alloc(), &bytes) else {
        assert!(rt; false);
        return Ok(());
    };
    match rows.get(0) {
        Some(row) => {
            assert_eq!(rt; row.word.bytes(), b"w1".as_slice());
            assert_eq!(rt; row.address.text.bytes(), b"http://h/a".as_slice());
            assert_eq!(rt; row.wish.bytes(), b"a \"b\", c\nd".as_slice());
            let digest = row.digest.unwrap_or([0; 32]);
            assert_eq!(rt; digest[0], 0xe3);
            assert_eq!(rt; digest[1], 0xb0);
        }
        None => assert!(rt; false),
    }
    assert!(rt; rows.get(1).is_none());
    Ok(())
}
