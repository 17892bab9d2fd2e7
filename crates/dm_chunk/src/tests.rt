use crate::*;
use std::alloc::{AllocError, Global};
use std::test::Fail;

const WORLD: &[u8] = b"5\r\nhello\r\n6\r\n world\r\n0\r\n\r\n";

/// Feeds one piece of a text, of which at most four bytes of data are asked for at once.
fn feed(chunks: &mut Chunks, piece: &[u8], content: &mut Vec<u8>) -> Result<Step, AllocError> {
    let mut rest = piece;
    loop {
        match chunks.step(rest, 4) {
            Step::Data { from, count } => {
                let behind = &rest[from..];
                content.extend_from_slice(&behind[..count])?;
                rest = &behind[count..];
            }
            other => return Ok(other),
        }
    }
}

/// The last answer to a text in two pieces, where it tells this content.
fn answer(
    alloc: Global,
    first: &[u8],
    second: &[u8],
    content: &[u8],
) -> Result<Option<Step>, AllocError> {
    let mut chunks = Chunks::new();
    let mut told = Vec::new(alloc);
    feed(&mut chunks, first, &mut told)?;
    let last = feed(&mut chunks, second, &mut told)?;
    Ok((told.as_slice() == content).then_some(last))
}

/// The last answer to a text that has so many fillers in its midst.
fn filled(alloc: Global, front: &[u8], count: usize, behind: &[u8]) -> Result<Step, AllocError> {
    let mut chunks = Chunks::new();
    let mut told = Vec::new(alloc);
    let fillers = vec![in alloc; b'x'; count]?;
    feed(&mut chunks, front, &mut told)?;
    feed(&mut chunks, fillers.as_slice(), &mut told)?;
    feed(&mut chunks, behind, &mut told)
}

#[test]
fn two_chunks_are_read_for_every_cutting(rt: HostRuntime) -> Result<(), Fail> {
    for cut in 0..WORLD.len() {
        let (first, second) = WORLD.split_at(cut);
        let last = answer(rt.alloc(), first, second, b"hello world")?;
        // The end has 7 bytes behind the data.
        assert_eq!(rt; last, Some(Step::End(second.len().min(7))));
    }
    Ok(())
}

#[test]
fn a_front_of_it_wants_more(rt: HostRuntime) -> Result<(), Fail> {
    assert_eq!(rt;
        answer(rt.alloc(), b"5\r\nhel", b"lo\r", b"hello")?,
        Some(Step::More)
    );
    assert_eq!(rt;
        answer(rt.alloc(), WORLD, b"", b"hello world")?,
        Some(Step::End(0))
    );
    assert_eq!(rt;
        answer(rt.alloc(), WORLD, b"HTTP", b"hello world")?,
        Some(Step::End(0))
    );
    Ok(())
}

#[test]
fn two_chunks_are_read_byte_by_byte(rt: HostRuntime) -> Result<(), Fail> {
    let mut chunks = Chunks::new();
    let mut told = Vec::new(rt.alloc());
    let mut last = Step::More;
    for byte in WORLD {
        last = feed(&mut chunks, &[*byte], &mut told)?;
    }
    assert_eq!(rt; last, Step::End(1));
    assert!(rt; told.as_slice() == b"hello world".as_slice());
    Ok(())
}

#[test]
fn lines_are_read(rt: HostRuntime) -> Result<(), Fail> {
    let lines: [&[u8]; 6] = [
        b"A\r\n",
        b"a;a=b\r\n",
        b"0a \t\r\n",
        b"A \t;\r\n",
        b"00000000000000A\r\n",
        b"0000000000000a ; a=\"\t\"\r\n",
    ];
    for line in lines {
        let last = answer(rt.alloc(), line, b"0123456789\r\n0\r\n\r\n", b"0123456789")?;
        assert_eq!(rt; last, Some(Step::End(7)));
    }
    Ok(())
}

#[test]
fn other_lines_are_refused(rt: HostRuntime) -> Result<(), Fail> {
    let lines: [&[u8]; 9] = [
        b"000000000000000A\r\n",
        b"A\n",
        b"A\r\r\n",
        b"A;a\n",
        b"A 0\r\n",
        b" A\r\n",
        b"\r\n",
        b"g\r\n",
        b"-1\r\n",
    ];
    for line in lines {
        let last = answer(rt.alloc(), line, b"0123456789\r\n0\r\n\r\n", b"")?;
        assert_eq!(rt; last, Some(Step::Broken));
    }
    let end = answer(rt.alloc(), b"5\r\nhello", b"\n0\r\n\r\n", b"hello")?;
    assert_eq!(rt; end, Some(Step::Broken));
    Ok(())
}

#[test]
fn trailers_are_passed_over(rt: HostRuntime) -> Result<(), Fail> {
    let ends: [&[u8]; 5] = [
        b"0\r\nA: b\r\nC: d\r\n\r\n",
        b"0;a\r\nA: b\nC\rD\r\n\r\n",
        b"0\r\n\r\r\n\r\n",
        b"0\r\n\rA\r\r\n\r\n",
        b"0\r\n\n\r\n\r\n",
    ];
    for end in ends {
        let last = answer(rt.alloc(), b"1\r\na\r\n", end, b"a")?;
        assert_eq!(rt; last, Some(Step::End(end.len())));
    }
    Ok(())
}

#[test]
fn a_line_has_its_limit(rt: HostRuntime) -> Result<(), Fail> {
    let behind = b"\r\na\r\n0\r\n\r\n";
    // 1 and a semicolon before, CR LF behind: 16,384 bytes.
    assert_eq!(rt; filled(rt.alloc(), b"1;", 16_380, behind)?, Step::End(7));
    assert_eq!(rt; filled(rt.alloc(), b"1;", 16_381, behind)?, Step::Broken);
    Ok(())
}

#[test]
fn a_trailer_section_has_its_limit(rt: HostRuntime) -> Result<(), Fail> {
    let behind = b"\r\n\r\n";
    assert_eq!(rt; filled(rt.alloc(), b"0\r\n", 16_380, behind)?, Step::End(4));
    assert_eq!(rt; filled(rt.alloc(), b"0\r\n", 16_381, behind)?, Step::Broken);
    assert_eq!(rt;
        filled(rt.alloc(), b"0\r\n\r", 16_379, behind)?,
        Step::End(4)
    );
    assert_eq!(rt;
        filled(rt.alloc(), b"0\r\n\r", 16_380, behind)?,
        Step::Broken
    );
    Ok(())
}
