use crate::*;
use std::process::Abort;

/// What a prefix of this length reads as. Every other prefix of the text reads as nothing.
fn at<T: Copy>(found: &[(usize, T)], length: usize) -> Option<T> {
    for (at, value) in found {
        if *at == length {
            return Some(*value);
        }
    }
    None
}

fn check_tag(rt: &impl Abort, text: &[u8], found: &[(usize, bool)]) {
    for length in 0..=text.len() {
        let value = &text[..length];
        match (read_tag(value), at(found, length)) {
            (Some(tag), Some(weak)) => {
                assert_eq!(rt; tag.weak, weak);
                let opaque = if weak { b"W/".as_slice() } else { b"" };
                assert_eq!(rt; value.strip_prefix(opaque), Some(tag.opaque));
            }
            (None, None) => {}
            _ => assert!(rt; false, "a tag is read wrongly"),
        }
    }
}

#[test]
fn a_tag_is_read_however_it_is_cut(rt: HostRuntime) {
    check_tag(&rt, b"\"a\"", &[(3, false)]);
    check_tag(&rt, b"\"\"", &[(2, false)]);
    check_tag(&rt, b"W/\"a\"", &[(5, true)]);
    check_tag(&rt, b"w/\"a\"", &[]);
    check_tag(&rt, b"\"a b\"", &[]);
    check_tag(&rt, b"\"a\"b\"", &[(3, false)]);
    check_tag(&rt, b"\"\x21\x23\x7e\x80\xff\"", &[(7, false)]);
    check_tag(&rt, b"\"\x7f\"", &[]);
}

fn check_range(rt: &impl Abort, text: &[u8], found: &[(usize, ContentRange)]) {
    for length in 0..=text.len() {
        assert_eq!(rt; read_content_range(&text[..length]), at(found, length));
    }
}

fn part(first: u64, last: u64, total: Option<u64>) -> ContentRange {
    ContentRange::Part { first, last, total }
}

#[test]
fn a_content_range_is_read_however_it_is_cut(rt: HostRuntime) {
    check_range(&rt, b"bytes 5-4/11", &[]);
    check_range(&rt, b"bytes 5-10/10", &[]);
    check_range(&rt, b"bytes=5-10/11", &[]);
    check_range(&rt, b"bytes  5-10/11", &[]);
    check_range(
        &rt,
        b"bytes 0-1/10000000000000000000",
        &[
            (12, part(0, 1, Some(10))),
            (13, part(0, 1, Some(100))),
            (14, part(0, 1, Some(1_000))),
            (15, part(0, 1, Some(10_000))),
            (16, part(0, 1, Some(100_000))),
            (17, part(0, 1, Some(1_000_000))),
            (18, part(0, 1, Some(10_000_000))),
            (19, part(0, 1, Some(100_000_000))),
            (20, part(0, 1, Some(1_000_000_000))),
            (21, part(0, 1, Some(10_000_000_000))),
            (22, part(0, 1, Some(100_000_000_000))),
            (23, part(0, 1, Some(1_000_000_000_000))),
            (24, part(0, 1, Some(10_000_000_000_000))),
            (25, part(0, 1, Some(100_000_000_000_000))),
            (26, part(0, 1, Some(1_000_000_000_000_000))),
            (27, part(0, 1, Some(10_000_000_000_000_000))),
            (28, part(0, 1, Some(100_000_000_000_000_000))),
            (29, part(0, 1, Some(1_000_000_000_000_000_000))),
        ],
    );
    check_range(&rt, b"BYTES 5-10/11", &[(13, part(5, 10, Some(11)))]);
    check_range(&rt, b"bytes 5-10/*", &[(12, part(5, 10, None))]);
    check_range(
        &rt,
        b"bytes */11",
        &[
            (9, ContentRange::Unsatisfied { total: 1 }),
            (10, ContentRange::Unsatisfied { total: 11 }),
        ],
    );
}

fn check_length(rt: &impl Abort, text: &[u8], found: &[(usize, u64)]) {
    for length in 0..=text.len() {
        assert_eq!(rt; read_length(&text[..length]), at(found, length));
    }
}

#[test]
fn a_length_is_read_however_it_is_cut(rt: HostRuntime) {
    check_length(&rt, b"5, 5", &[(1, 5), (4, 5)]);
    check_length(&rt, b"5\t,05,5", &[(1, 5), (5, 5), (7, 5)]);
    check_length(&rt, b"5, 6", &[(1, 5)]);
    check_length(&rt, b"5,,5", &[(1, 5)]);
    check_length(&rt, b"+5", &[]);
    check_length(&rt, b" 5", &[]);
    check_length(&rt, b"5 ", &[(1, 5)]);
    assert_eq!(rt;
        read_length(b"9999999999999999999"),
        Some(9_999_999_999_999_999_999)
    );
    assert_eq!(rt; read_length(b"00000000000000000001"), None);
}

#[test]
fn accept_ranges_names_bytes_in_one_element(rt: HostRuntime) {
    assert!(rt; takes_ranges(b"bytes"));
    assert!(rt; takes_ranges(b"none, \tBytes ,x"));
    assert!(rt; !takes_ranges(b"none"));
    assert!(rt; !takes_ranges(b"bytes=x"));
    assert!(rt; !takes_ranges(b"by, tes"));
    assert!(rt; !takes_ranges(b""));
}

#[test]
fn tags_are_compared_strongly(rt: HostRuntime) {
    let strong = Tag {
        weak: false,
        opaque: b"\"1\"",
    };
    let weak = Tag {
        weak: true,
        opaque: b"\"1\"",
    };
    let other = Tag {
        weak: false,
        opaque: b"\"2\"",
    };
    assert!(rt; strong_equal(&strong, &strong));
    assert!(rt; !strong_equal(&strong, &other));
    assert!(rt; !strong_equal(&weak, &strong));
    assert!(rt; !strong_equal(&weak, &weak));
}
