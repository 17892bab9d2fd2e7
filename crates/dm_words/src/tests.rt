use crate::*;
use dm_types::{ItemId, Text};
use std::alloc::Global;
use std::test::Fail;

// The SHA-256 of the empty text, as digits and as bytes.
const H: &[u8] = b"e3b0c44298fc1c149afbf4c8996fb92427ae41e4649b934ca495991b7852b855";

const EMPTY: [u8; 32] = [
    0xe3, 0xb0, 0xc4, 0x42, 0x98, 0xfc, 0x1c, 0x14, 0x9a, 0xfb, 0xf4, 0xc8, 0x99, 0x6f, 0xb9, 0x24,
    0x27, 0xae, 0x41, 0xe4, 0x64, 0x9b, 0x93, 0x4c, 0xa4, 0x95, 0x99, 0x1b, 0x78, 0x52, 0xb8, 0x55,
];

/// An address alone.
const BARE: Wish<'static> = Wish {
    word: None,
    name: None,
    digest: None,
    address: b"http://h/b",
};

fn texts(alloc: Global, words: &[&[u8]]) -> Result<Vec<Text>, Fail> {
    let mut list = Vec::new(alloc);
    for word in words {
        list.push(Text::from_bytes(alloc, word)?)?;
    }
    Ok(list)
}

#[test]
fn what_each_command_asks(rt: HostRuntime) -> Result<(), Fail> {
    let rows: &[(&[&[u8]], Command<'static>)] = &[
        (&[b"get", b"http://h/b"], Command::Get(BARE, 1)),
        (
            &[b"get", b"--slices", b"016", b"http://h/b"],
            Command::Get(BARE, 16),
        ),
        (&[b"add", b"http://h/b"], Command::Add(BARE)),
        (
            &[b"add", b"--word", b"A.z_9-", b"http://h/b"],
            Command::Add(Wish {
                word: Some(b"A.z_9-"),
                ..BARE
            }),
        ),
        (
            &[b"get", b"http://h/b", b"--name", b"\xc3\xa4 /b"],
            Command::Get(
                Wish {
                    name: Some(b"\xc3\xa4 /b"),
                    ..BARE
                },
                1,
            ),
        ),
        (
            &[b"add", b"--sha256", H, b"http://h/b"],
            Command::Add(Wish {
                digest: Some(EMPTY),
                ..BARE
            }),
        ),
        (&[b"resume", b"7"], Command::Resume(ItemId(7), 1)),
        (
            &[b"resume", b"7", b"--slices", b"2"],
            Command::Resume(ItemId(7), 2),
        ),
        (&[b"pause", b"0"], Command::Pause(ItemId(0))),
        (&[b"cancel", b"0000000001"], Command::Cancel(ItemId(1))),
        (
            &[b"remove", b"4294967295"],
            Command::Remove(ItemId(4_294_967_295)),
        ),
        (&[b"show", b"007"], Command::Show(ItemId(7))),
        (&[b"list"], Command::List),
        (&[b"report"], Command::Report),
        (&[b"export"], Command::Export),
        (&[b"archive"], Command::Archive),
        (&[b"history"], Command::History(0, 50)),
        (
            &[b"history", b"--limit", b"100", b"--after", b"7"],
            Command::History(7, 100),
        ),
        (&[b"import", b"a.csv"], Command::Import(b"a.csv")),
        (&[b"rehearse", b"0"], Command::Rehearse(0)),
        (&[b"serve"], Command::Serve(8765)),
        (
            &[b"serve", b"--port", b"65535", b"--workers", b"0"],
            Command::Serve(65535),
        ),
    ];
    for (words, command) in rows {
        let words = texts(rt.alloc(), words)?;
        assert!(rt; read_command(&words) == Ok(*command));
    }
    Ok(())
}

fn piece(number: u8) -> &'static [&'static [u8]] {
    match number {
        1 => &[b"--word", b"w1"],
        2 => &[b"--name", b"a.txt"],
        3 => &[b"--sha256", H],
        4 => &[b"--slices", b"16"],
        _ => &[b"http://h/b"],
    }
}

fn in_order(alloc: Global, order: &[u8; 5]) -> Result<Vec<Text>, Fail> {
    let mut words = texts(alloc, &[b"get"])?;
    for number in order {
        for word in piece(*number) {
            words.push(Text::from_bytes(alloc, word)?)?;
        }
    }
    Ok(words)
}

#[test]
fn orders_say_the_same(rt: HostRuntime) -> Result<(), Fail> {
    let wish = Wish {
        word: Some(b"w1"),
        name: Some(b"a.txt"),
        digest: Some(EMPTY),
        address: b"http://h/b",
    };
    let orders: &[[u8; 5]] = &[
        [1, 2, 3, 4, 5],
        [5, 4, 3, 2, 1],
        [2, 5, 1, 3, 4],
        [3, 4, 5, 1, 2],
        [4, 1, 2, 5, 3],
        [1, 5, 4, 2, 3],
    ];
    for order in orders {
        let words = in_order(rt.alloc(), order)?;
        assert!(rt; read_command(&words) == Ok(Command::Get(wish, 16)));
    }
    Ok(())
}

#[test]
fn words_that_are_no_command(rt: HostRuntime) -> Result<(), Fail> {
    let refused: &[&[&[u8]]] = &[
        &[],
        &[b""],
        &[b"help"],
        &[b"--help"],
        &[b"--version"],
        &[b"GET", b"http://h/a"],
        &[b"wide", b"http://h/a"],
        &[b"--word", b"w1", b"get", b"http://h/a"],
        &[b"get"],
        &[b"get", b""],
        &[b"get", b"-"],
        &[b"get", b"--"],
        &[b"get", b"--name"],
        &[b"get", b"--name", b"a"],
        &[b"get", b"http://h/a", b"--name"],
        &[b"get", b"--name", b"", b"http://h/a"],
        &[b"get", b"--name", b"-a", b"http://h/a"],
        &[b"get", b"--name", b"\xff", b"http://h/a"],
        &[b"get", b"--name=a", b"http://h/a"],
        &[b"get", b"--Name", b"a", b"http://h/a"],
        &[b"get", b"--", b"a", b"http://h/a"],
        &[b"get", b"-n", b"a", b"http://h/a"],
        &[b"get", b"http://h/a", b"http://h/b"],
        &[b"get", b"--name", b"a", b"--name", b"a", b"http://h/a"],
        &[b"get", b"--word", b"a", b"http://h/a", b"--word", b"b"],
        &[b"get", b"--word", b"a b", b"http://h/a"],
        &[b"get", b"--word", b"\xc3\xa9", b"http://h/a"],
        &[b"get", b"--word", b"--name", b"a", b"http://h/a"],
        &[b"get", b"--slices", b"0", b"http://h/a"],
        &[b"get", b"--slices", b"17", b"http://h/a"],
        &[b"get", b"--slices", b"+1", b"http://h/a"],
        &[b"get", b"--limit", b"1", b"http://h/a"],
        &[b"add", b"--slices", b"1", b"http://h/a"],
        &[b"add", b"--sha256", b"", b"http://h/a"],
        &[b"resume", b"--word", b"w1", b"1"],
        &[b"pause", b"--slices", b"1", b"1"],
        &[b"cancel"],
        &[b"remove", b"1", b"2"],
        &[b"list", b"1"],
        &[b"list", b"--word", b"a"],
        &[b"show", b"x"],
        &[b"show", b"1x"],
        &[b"show", b"+1"],
        &[b"show", b"-1"],
        &[b"show", b"4294967296"],
        &[b"show", b"00000000001"],
        &[b"report", b"1"],
        &[b"export", b"--limit", b"1"],
        &[b"archive", b"1"],
        &[b"history", b"1"],
        &[b"history", b"--limit", b"0"],
        &[b"history", b"--limit", b"101"],
        &[b"history", b"--after", b"x"],
        &[b"import"],
        &[b"import", b"a/b"],
        &[b"import", b"a\0b"],
        &[b"import", b"."],
        &[b"import", b".."],
        &[b"import", b"\xff"],
        &[b"rehearse"],
        &[b"rehearse", b"4294967296"],
        &[b"serve", b"1"],
        &[b"serve", b"--port", b"0"],
        &[b"serve", b"--port", b"65536"],
        &[b"serve", b"--workers", b"1"],
    ];
    for words in refused {
        let words = texts(rt.alloc(), words)?;
        assert!(rt; read_command(&words) == Err(BadWords));
    }
    Ok(())
}

#[test]
fn how_long_a_word_and_a_name_may_be(rt: HostRuntime) {
    assert!(rt; is_word(&[b'w'; 64]));
    assert!(rt; is_word(b"-w"));
    assert!(rt; !is_word(&[b'w'; 65]));
    assert!(rt; !is_word(b""));
    assert!(rt; is_name(&[b'a'; 255]));
    assert!(rt; !is_name(&[b'a'; 256]));
    assert!(rt; !is_name(b""));
    assert!(rt; !is_name(b"\xc3"));
}

fn digest_is_read(alloc: Global, digits: &[u8]) -> Result<bool, Fail> {
    let words = texts(alloc, &[b"add", b"--sha256", digits, b"http://h/b"])?;
    Ok(read_command(&words).is_ok())
}

#[test]
fn digits_of_a_digest(rt: HostRuntime) -> Result<(), Fail> {
    let alloc = rt.alloc();
    assert!(rt; digest_is_read(alloc, &[b'0'; 64])?);
    assert!(rt; digest_is_read(alloc, &[b'F'; 64])?);
    assert!(rt; !digest_is_read(alloc, &[b'0'; 62])?);
    assert!(rt; !digest_is_read(alloc, &[b'0'; 63])?);
    assert!(rt; !digest_is_read(alloc, &[b'0'; 65])?);
    assert!(rt; !digest_is_read(alloc, &[b'0'; 66])?);
    assert!(rt; !digest_is_read(alloc, &[b'g'; 64])?);
    Ok(())
}
