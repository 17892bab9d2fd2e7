// Worked rows of attempts.
use crate::bench::{Row, Step, first_other_step};
use dm_attempt::Ended;
use dm_items_bench::{Call, Said};
use dm_types::{By, Phase, Reason};

/// `hello world` at once, with no tag.
const WHOLE: &[u8] = b"HTTP/1.1 200 OK\r\nContent-Length: 11\r\n\r\nhello world";

/// The same under the tag `"a"`, where ranges are given and the stream ends behind `hello`.
const CUT: &[u8] =
    b"HTTP/1.1 200 OK\r\nETag: \"a\"\r\nAccept-Ranges: bytes\r\nContent-Length: 11\r\n\r\nhello";

/// The rest of it.
const REST: &[u8] =
    b"HTTP/1.1 206 Partial Content\r\nETag: \"a\"\r\nContent-Range: bytes 5-10/11\r\nContent-Length: 6\r\n\r\n world";

/// Twelve bytes of which the first reply has all.
const TWELVE: &[u8] =
    b"HTTP/1.1 200 OK\r\nETag: \"a\"\r\nAccept-Ranges: bytes\r\nContent-Length: 12\r\n\r\nhello, world";

/// Their second half, of which three bytes come.
const HALF_CUT: &[u8] =
    b"HTTP/1.1 206 Partial Content\r\nETag: \"a\"\r\nContent-Range: bytes 6-11/12\r\nContent-Length: 6\r\n\r\n wo";

/// Their first half, and their last three bytes.
const FIRST_HALF: &[u8] =
    b"HTTP/1.1 206 Partial Content\r\nETag: \"a\"\r\nContent-Range: bytes 0-5/12\r\nContent-Length: 6\r\n\r\nhello,";

const LAST_BYTES: &[u8] =
    b"HTTP/1.1 206 Partial Content\r\nETag: \"a\"\r\nContent-Range: bytes 9-11/12\r\nContent-Length: 3\r\n\r\nrld";

// What is asked for next, behind the tag.
const BEHIND_FIVE: &[u8] = b"Range: bytes=5-10\r\nIf-Range: \"a\"\r\n\r\n";

const SECOND_HALF: &[u8] = b"Range: bytes=6-11\r\nIf-Range: \"a\"\r\n\r\n";

const BEHIND_NINE: &[u8] = b"Range: bytes=9-11\r\nIf-Range: \"a\"\r\n\r\n";

const WHOLE_HALF: &[u8] = b"Range: bytes=0-5\r\nIf-Range: \"a\"\r\n\r\n";

const SHORT: Ended = Ended::Stopped(Reason::ServerContentLengthMismatch);

/// A content at once, the rest of one that was cut by its range, and no server at all.
const AT_ONCE: [Row; 3] = [
    Row {
        streams: &[WHOLE],
        slices: 1,
        turns: &[],
        steps: &[
            Step::Fetch(Ended::Complete),
            Step::Looks(Call::View(1), Said::Is(Phase::Complete, 11)),
        ],
    },
    Row {
        streams: &[CUT, REST],
        slices: 1,
        turns: &[],
        steps: &[Step::Fetch(Ended::Complete), Step::Sent(1, BEHIND_FIVE)],
    },
    Row {
        streams: &[],
        slices: 1,
        turns: &[],
        steps: &[Step::FailsToFetch],
    },
];

/// The second half breaks off behind the first one, or before it; and other orders of reading.
const HALVES: [Row; 4] = [
    Row {
        streams: &[TWELVE, HALF_CUT, LAST_BYTES],
        slices: 2,
        turns: &[0],
        steps: &[
            Step::Attempt(By::User, SHORT),
            Step::Sent(1, SECOND_HALF),
            Step::Saved(9, 1),
            Step::Attempt(By::Itself, Ended::Complete),
            Step::Sent(2, BEHIND_NINE),
        ],
    },
    Row {
        streams: &[TWELVE, HALF_CUT, FIRST_HALF, LAST_BYTES],
        slices: 2,
        turns: &[1],
        steps: &[
            Step::Attempt(By::User, SHORT),
            Step::Sent(1, SECOND_HALF),
            Step::Saved(0, 2),
            Step::Attempt(By::Itself, Ended::Complete),
            Step::Sent(2, BEHIND_NINE),
            Step::Sent(3, WHOLE_HALF),
        ],
    },
    Row {
        streams: &[TWELVE, HALF_CUT, LAST_BYTES],
        slices: 2,
        turns: &[],
        steps: &[Step::Fetch(Ended::Complete), Step::Sent(2, BEHIND_NINE)],
    },
    Row {
        streams: &[TWELVE, HALF_CUT, LAST_BYTES],
        slices: 2,
        turns: &[1, 0, 0],
        steps: &[Step::Fetch(Ended::Complete), Step::Sent(2, BEHIND_NINE)],
    },
];

#[test]
fn contents_come_at_once_or_by_their_rest(rt: HostRuntime) {
    for (place, row) in AT_ONCE.iter().enumerate() {
        assert_eq!(rt; first_other_step(rt.alloc(), row), None, "in {place}");
    }
}

#[test]
fn halves_break_in_each_order(rt: HostRuntime) {
    for (place, row) in HALVES.iter().enumerate() {
        assert_eq!(rt; first_other_step(rt.alloc(), row), None, "in {place}");
    }
}
