use crate::*;
use std::process::Abort;
use std::test::Fail;

fn is(text: &Option<Text>, bytes: &[u8]) -> bool {
    match text {
        Some(text) => text.is(bytes),
        None => false,
    }
}

#[test]
fn both_names_are_read(rt: HostRuntime) -> Result<(), Fail> {
    let value = b"attachment; filename=\"a.txt\"; filename*=UTF-8''%e2%82%ac.txt";
    let told = read_disposition(rt.alloc(), value)?;
    assert!(rt; told.kind.is(b"attachment"));
    assert!(rt; is(&told.plain, b"a.txt"));
    assert!(rt; is(&told.extended, b"\xe2\x82\xac.txt"));
    Ok(())
}

#[test]
fn a_plain_name_loses_its_quoting(rt: HostRuntime) -> Result<(), Fail> {
    let empty_parts = read_disposition(rt.alloc(), b"attachment;;filename=a;")?;
    assert!(rt; is(&empty_parts.plain, b"a"));
    assert!(rt; empty_parts.extended.is_none());
    let quoted = read_disposition(rt.alloc(), b"x; filename=\"..\\..\\x\"")?;
    assert!(rt; quoted.kind.is(b"x"));
    assert!(rt; is(&quoted.plain, b"....x"));
    let latin = read_disposition(rt.alloc(), b"x; filename=\"\xe9\"")?;
    assert!(rt; is(&latin.plain, b"\xc3\xa9"));
    let utf8 = read_disposition(rt.alloc(), b"x; filename=\"\xc3\xa9\"")?;
    assert!(rt; is(&utf8.plain, b"\xc3\xa9"));
    Ok(())
}

#[test]
fn an_extended_name_is_in_one_of_two_charsets(rt: HostRuntime) -> Result<(), Fail> {
    let latin = read_disposition(rt.alloc(), b"x; filename*=iso-8859-1'en'%e9.txt")?;
    assert!(rt; is(&latin.extended, b"\xc3\xa9.txt"));
    let broken = read_disposition(rt.alloc(), b"x; filename*=utf-8''%ff")?;
    assert!(rt; broken.extended.is_none());
    let other = read_disposition(rt.alloc(), b"x; filename*=koi8-r''x")?;
    assert!(rt; other.extended.is_none());
    let cut = read_disposition(rt.alloc(), b"x; filename*=utf-8''%e")?;
    assert!(rt; cut.extended.is_none());
    let quoted = read_disposition(rt.alloc(), b"x; filename*=\"utf-8''x\"")?;
    assert!(rt; quoted.extended.is_none());
    Ok(())
}

/// Reads each front of the text. Those of the given lengths, from and to, are in the grammar, and of those that
/// aren't values begin as they do up to `stuck`.
fn check_fronts(
    rt: &(impl Abort + AllocGlobal),
    text: &[u8],
    whole: &[(usize, usize)],
    stuck: usize,
) {
    for length in 0..=text.len() {
        let inside = whole
            .iter()
            .any(|(from, to)| *from <= length && length <= *to);
        match read_disposition(rt.alloc(), &text[..length]) {
            Ok(_) | Err(DispFault::Repeated(_)) => assert!(rt; inside),
            Err(fault) => {
                assert!(rt; !inside);
                assert_eq!(rt; fault, DispFault::NotGrammar(length.min(stuck)));
            }
        }
    }
}

#[test]
fn a_value_is_judged_however_it_is_cut(rt: HostRuntime) {
    check_fronts(
        &rt,
        b"attachment; filename=\"a.txt\"; filename*=UTF-8''%e2%82%ac.txt",
        &[(1, 12), (28, 30), (41, 60)],
        60,
    );
    check_fronts(
        &rt,
        b"attachment; filename=a; FILENAME=b",
        &[(1, 12), (22, 24), (34, 34)],
        34,
    );
    check_fronts(&rt, b"attachment; filename=\"a", &[(1, 12)], 23);
    check_fronts(&rt, b"attachment filename=a", &[(1, 11)], 11);
    check_fronts(&rt, b"; filename=a", &[], 0);
    check_fronts(&rt, b"attachment;;filename=a;", &[(1, 12), (22, 23)], 23);
    check_fronts(&rt, b"x; a = \"\\\"\" ;", &[(1, 3), (11, 13)], 13);
    check_fronts(&rt, b"x; a=\"\x7f\"", &[(1, 3)], 6);
}

#[test]
fn a_name_that_comes_again_is_told_by_its_place(rt: HostRuntime) {
    let value = b"attachment; filename=a; FILENAME=b";
    match read_disposition(rt.alloc(), value) {
        Err(fault) => assert_eq!(rt; fault, DispFault::Repeated(24)),
        Ok(_) => assert!(rt; false),
    }
}
