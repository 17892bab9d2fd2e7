// Each refusal by one request through the whole service, behind which nothing has changed.
use crate::asks::{A_LISTED, A_WAITS, ADD_A, LIST, NO_ITEM};
use crate::bench::{Run, Step, played};
use crate::rows::A_ALONE;
use crate::told::{Head, Told, Turn};
use dm_run_bench::Left;

const PATH: Told = Told::Reply(Head::NotFound, "{\"error\":\"path\"}");

const GONE: Told = Told::Reply(Head::NotFound, NO_ITEM);

const QUERY: Told = Told::Reply(Head::BadRequest, "{\"error\":\"query\"}");

const METHOD: &str = "{\"error\":\"method\"}";

/// What the bytes and the target alone decide.
const TARGETS: &[Turn] = &[
    (ADD_A, Told::Reply(Head::Ok, A_WAITS)),
    (
        b"GET /items HTTP/2.0\r\n\r\n",
        Told::Reply(Head::BadRequest, "{\"error\":\"head\"}"),
    ),
    (
        b"POST /items HTTP/1.1\r\nTransfer-Encoding: chunked\r\n\r\n0\r\n\r\n",
        Told::Reply(Head::BadRequest, "{\"error\":\"length\"}"),
    ),
    (
        b"POST /items HTTP/1.1\r\nContent-Length: 16384\r\n\r\n",
        Told::Reply(Head::TooLarge, "{\"error\":\"size\"}"),
    ),
    (b"PUT / HTTP/1.1\r\n\r\n", PATH),
    (b"GET /items/one HTTP/1.1\r\n\r\n", PATH),
    (
        b"PUT /items HTTP/1.1\r\n\r\n",
        Told::Reply(Head::NotAllowed("GET, POST"), METHOD),
    ),
    (
        b"POST /items/1 HTTP/1.1\r\n\r\n",
        Told::Reply(Head::NotAllowed("GET, DELETE"), METHOD),
    ),
    (
        b"GET /items/1/pause HTTP/1.1\r\n\r\n",
        Told::Reply(Head::NotAllowed("POST"), METHOD),
    ),
    (
        b"GET /items/1/resume HTTP/1.1\r\n\r\n",
        Told::Reply(Head::NotAllowed("POST"), METHOD),
    ),
    (
        b"DELETE /items/1/cancel HTTP/1.1\r\n\r\n",
        Told::Reply(Head::NotAllowed("POST"), METHOD),
    ),
    (
        b"GET /archive HTTP/1.1\r\n\r\n",
        Told::Reply(Head::NotAllowed("POST"), METHOD),
    ),
    (
        b"POST /history HTTP/1.1\r\n\r\n",
        Told::Reply(Head::NotAllowed("GET"), METHOD),
    ),
    (
        b"POST /report HTTP/1.1\r\n\r\n",
        Told::Reply(Head::NotAllowed("GET"), METHOD),
    ),
    (
        b"GET /stop HTTP/1.1\r\n\r\n",
        Told::Reply(Head::NotAllowed("POST"), METHOD),
    ),
    (b"GET /items?limit=101 HTTP/1.1\r\n\r\n", QUERY),
    (b"GET /history?after=x HTTP/1.1\r\n\r\n", QUERY),
    (b"GET /items/9 HTTP/1.1\r\n\r\n", GONE),
    (b"DELETE /items/9 HTTP/1.1\r\n\r\n", GONE),
    (b"POST /items/9/pause HTTP/1.1\r\n\r\n", GONE),
    (b"POST /items/9/resume HTTP/1.1\r\n\r\n", GONE),
    (b"POST /items/9/cancel HTTP/1.1\r\n\r\n", GONE),
    (LIST, Told::Reply(Head::Ok, A_LISTED)),
];

/// What the content decides.
const CONTENTS: &[Turn] = &[
    (ADD_A, Told::Reply(Head::Ok, A_WAITS)),
    (
        b"POST /items HTTP/1.1\r\n\r\n",
        Told::Reply(Head::BadRequest, "{\"error\":\"json\"}"),
    ),
    (
        b"POST /items HTTP/1.1\r\nHost: a\r\nContent-Length: 41\r\n\r\n{\"url\":\"http://h/b\",\"word\":\"w2\",\"at\":\"1\"}",
        Told::Reply(Head::BadRequest, "{\"error\":\"json\"}"),
    ),
    (
        b"POST /items HTTP/1.1\r\nHost: a\r\nContent-Length: 30\r\n\r\n{\"url\":\"http://h/b\",\"word\":\"\"}",
        Told::Reply(Head::BadRequest, "{\"error\":\"word\"}"),
    ),
    (
        b"POST /items HTTP/1.1\r\nHost: a\r\nContent-Length: 33\r\n\r\n{\"url\":\"https://h/b\",\"word\":\"w2\"}",
        Told::Reply(Head::BadRequest, "{\"error\":\"url\"}"),
    ),
    (
        b"POST /items HTTP/1.1\r\nHost: a\r\nContent-Length: 298\r\n\r\n{\"url\":\"http://h/b\",\"word\":\"w2\",\"name\":\"nnnnnnnnnnnnnnnnnnnnnnnnnnnnnnnnnnnnnnnnnnnnnnnnnnnnnnnnnnnnnnnnnnnnnnnnnnnnnnnnnnnnnnnnnnnnnnnnnnnnnnnnnnnnnnnnnnnnnnnnnnnnnnnnnnnnnnnnnnnnnnnnnnnnnnnnnnnnnnnnnnnnnnnnnnnnnnnnnnnnnnnnnnnnnnnnnnnnnnnnnnnnnnnnnnnnnnnnnnnnnnnnnnnnnnnnnnnnnnnnnnnnnnnnnnnnnnnn\"}",
        Told::Reply(Head::BadRequest, "{\"error\":\"name\"}"),
    ),
    (
        b"POST /items HTTP/1.1\r\nHost: a\r\nContent-Length: 46\r\n\r\n{\"url\":\"http://h/b\",\"word\":\"w2\",\"sha256\":\"00\"}",
        Told::Reply(Head::BadRequest, "{\"error\":\"sha256\"}"),
    ),
    (LIST, Told::Reply(Head::Ok, A_LISTED)),
];

#[test]
fn each_refusal_is_told(rt: HostRuntime) {
    for turns in [TARGETS, CONTENTS] {
        let steps = [
            Step::Serves(Run {
                turns,
                ..Run::SERVE
            }),
            Step::Left(Left::Journal(A_ALONE)),
        ];
        assert_eq!(rt; played(rt.alloc(), None, &[], &steps), None);
    }
}
