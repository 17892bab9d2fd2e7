use dm_call::{Call, CallFault, read_call};
use dm_conns::SourceMem;
use dm_hear::{ApiFault, Rule, read_api};
use dm_response::Trouble;
use dm_types::{NoMemory, Text};
use std::alloc::Global;
use std::test::Fail;

/// What a stream asks, in a word, or why it isn't done.
enum Asked {
    Call(&'static str),
    Trouble(Trouble),
    Dropped,
}

fn word_of(call: &Call) -> &'static str {
    match call {
        Call::Page(_) => "page",
        Call::Add(_) => "add",
        Call::Show(_) => "show",
        Call::Remove(_) => "remove",
        Call::Pause(_) => "pause",
        Call::Resume(_) => "resume",
        Call::Cancel(_) => "cancel",
        Call::Archive => "archive",
        Call::History(_) => "history",
        Call::Report => "report",
        Call::Stop => "stop",
    }
}

fn read_asked(alloc: Global, stream: &[u8]) -> Result<Asked, NoMemory> {
    let mut source = SourceMem::new(alloc, stream, &[])?;
    let request = match read_api(alloc, &mut source) {
        Ok(request) => request,
        Err(ApiFault::Rule(Rule::Head)) => return Ok(Asked::Trouble(Trouble::Head)),
        Err(ApiFault::Rule(Rule::Length)) => return Ok(Asked::Trouble(Trouble::Length)),
        Err(ApiFault::TooLarge) => return Ok(Asked::Trouble(Trouble::Size)),
        Err(ApiFault::Cut) | Err(ApiFault::Source) => return Ok(Asked::Dropped),
        Err(ApiFault::NoMemory) => return Err(NoMemory),
    };
    match read_call(alloc, &request) {
        Ok(call) => Ok(Asked::Call(word_of(&call))),
        Err(CallFault::Refused(refusal)) => Ok(Asked::Trouble(Trouble::Refused(refusal))),
        Err(CallFault::NoMemory) => Err(NoMemory),
    }
}

/// The word of what is asked, or the word of the refusal with its status.
fn told(alloc: Global, stream: &[u8]) -> Result<(u16, Text), NoMemory> {
    match read_asked(alloc, stream)? {
        Asked::Call(word) => Ok((200, Text::from_bytes(alloc, word.as_bytes())?)),
        Asked::Dropped => Ok((0, Text::new(alloc))),
        Asked::Trouble(trouble) => {
            let reply = dm_response::trouble_reply(alloc, trouble)?;
            Ok((reply.status, reply.bytes))
        }
    }
}

const CASES: [(&[u8], u16, &[u8]); 45] = [
    (b"GET /items HTTP/1.1\r\n\r\n", 200, b"page"),
    (
        b"GET /items?after=0&limit=1 HTTP/1.1\r\nHost: a\r\n\r\n",
        200,
        b"page",
    ),
    (b"GET /items?after=%31&limit=007 HTTP/1.1\n\n", 200, b"page"),
    (
        b"GET /items?limit=100&&after=4294967295 HTTP/1.0\r\n\r\n",
        200,
        b"page",
    ),
    (
        b"GET /items?limit=101 HTTP/1.1\r\n\r\n",
        400,
        b"{\"error\":\"query\"}",
    ),
    (
        b"GET /items?limit=0 HTTP/1.1\r\n\r\n",
        400,
        b"{\"error\":\"query\"}",
    ),
    (
        b"GET /items?limit=1&limit=1 HTTP/1.1\r\n\r\n",
        400,
        b"{\"error\":\"query\"}",
    ),
    (
        b"GET /items?after=1&after=2 HTTP/1.1\r\n\r\n",
        400,
        b"{\"error\":\"query\"}",
    ),
    (
        b"GET /items?after=-1 HTTP/1.1\r\n\r\n",
        400,
        b"{\"error\":\"query\"}",
    ),
    (
        b"GET /items?after=+1 HTTP/1.1\r\n\r\n",
        400,
        b"{\"error\":\"query\"}",
    ),
    (
        b"GET /items?after=4294967296 HTTP/1.1\r\n\r\n",
        400,
        b"{\"error\":\"query\"}",
    ),
    (
        b"GET /history?x=1 HTTP/1.1\r\n\r\n",
        400,
        b"{\"error\":\"query\"}",
    ),
    (b"GET /history?limit=5 HTTP/1.1\r\n\r\n", 200, b"history"),
    (b"GET /items/1?limit=x HTTP/1.1\r\n\r\n", 200, b"show"),
    (b"DELETE /items/1 HTTP/1.1\r\n\r\n", 200, b"remove"),
    (b"POST /items/1/pause HTTP/1.1\r\n\r\n", 200, b"pause"),
    (b"POST /items/1/resume HTTP/1.1\r\n\r\n", 200, b"resume"),
    (b"POST /items/1/cancel HTTP/1.1\r\n\r\n", 200, b"cancel"),
    (b"POST /archive HTTP/1.1\r\n\r\n", 200, b"archive"),
    (b"POST /stop HTTP/1.1\r\n\r\n", 200, b"stop"),
    (b"GET / HTTP/1.1\r\n\r\n", 404, b"{\"error\":\"path\"}"),
    (b"GET /report HTTP/1.1\r\n\r\n", 200, b"report"),
    (b"GET /report?x=1 HTTP/1.1\r\n\r\n", 200, b"report"),
    (
        b"POST /report HTTP/1.1\r\n\r\n",
        405,
        b"Allow: GET\r\n\r\n{\"error\":\"method\"}",
    ),
    (
        b"HEAD /report HTTP/1.1\r\n\r\n",
        405,
        b"Allow: GET\r\n\r\n{\"error\":\"method\"}",
    ),
    (
        b"GET /report/ HTTP/1.1\r\n\r\n",
        404,
        b"{\"error\":\"path\"}",
    ),
    (
        b"GET /Report HTTP/1.1\r\n\r\n",
        404,
        b"{\"error\":\"path\"}",
    ),
    (b"PUT /item HTTP/1.1\r\n\r\n", 404, b"{\"error\":\"path\"}"),
    (
        b"GET /items/ HTTP/1.1\r\n\r\n",
        404,
        b"{\"error\":\"path\"}",
    ),
    (
        b"GET /items/x HTTP/1.1\r\n\r\n",
        404,
        b"{\"error\":\"path\"}",
    ),
    (
        b"GET /items/%31 HTTP/1.1\r\n\r\n",
        404,
        b"{\"error\":\"path\"}",
    ),
    (
        b"GET /items/4294967296 HTTP/1.1\r\n\r\n",
        404,
        b"{\"error\":\"path\"}",
    ),
    (
        b"PUT /items HTTP/1.1\r\n\r\n",
        405,
        b"{\"error\":\"method\"}",
    ),
    (
        b"get /items HTTP/1.1\r\n\r\n",
        405,
        b"{\"error\":\"method\"}",
    ),
    (
        b"GET /stop HTTP/1.1\r\n\r\n",
        405,
        b"{\"error\":\"method\"}",
    ),
    (b"GET /items HTTP/2.0\r\n\r\n", 400, b"{\"error\":\"head\"}"),
    (
        b"GET /items HTTP/1.1\r\nA B: c\r\n\r\n",
        400,
        b"{\"error\":\"head\"}",
    ),
    (
        b"POST /items HTTP/1.1\r\nTransfer-Encoding: chunked\r\n\r\n",
        400,
        b"{\"error\":\"length\"}",
    ),
    (
        b"POST /items HTTP/1.1\r\nContent-Length: x\r\n\r\n",
        400,
        b"{\"error\":\"length\"}",
    ),
    (
        b"POST /items HTTP/1.1\r\nContent-Length: 1\r\nContent-Length: 2\r\n\r\n",
        400,
        b"{\"error\":\"length\"}",
    ),
    (
        b"POST /items HTTP/1.1\r\nContent-Length: 16384\r\n\r\n",
        413,
        b"{\"error\":\"size\"}",
    ),
    (
        b"POST /items HTTP/1.1\r\n\r\n",
        400,
        b"{\"error\":\"json\"}",
    ),
    (
        b"POST /items HTTP/1.1\r\nContent-Length: 2\r\n\r\n[]",
        400,
        b"{\"error\":\"json\"}",
    ),
    (
        b"POST /items HTTP/1.1\r\nContent-Length: 5\r\n\r\n{}x",
        0,
        b"",
    ),
    (b"", 0, b""),
];

#[test]
fn requests_ask(rt: HostRuntime) -> Result<(), Fail> {
    for (stream, status, expected) in &CASES {
        let (code, text) = told(rt.alloc(), stream)?;
        assert_eq!(rt; code, *status);
        assert!(rt; text.bytes().ends_with(expected));
    }
    Ok(())
}

const CONTENTS: [(&[u8], u16, &[u8]); 14] = [
    (b"{\"url\":\"http://h/a\",\"word\":\"w1\"}", 200, b"add"),
    (
        b" { \"word\" : \"w1\", \"url\" : \"http://h/a\", \"name\" : \"\", \"sha256\" : \"0000000000000000000000000000000000000000000000000000000000000000\" } ",
        200,
        b"add",
    ),
    (
        b"{\"url\":\"http://h/a\",\"url\":\"http://h/b\",\"word\":\"w1\"}",
        200,
        b"add",
    ),
    (b"{\"url\":\"http://h/a\"}", 400, b"{\"error\":\"json\"}"),
    (
        b"{\"url\":\"http://h/a\",\"word\":\"w1\",\"x\":\"\"}",
        400,
        b"{\"error\":\"json\"}",
    ),
    (
        b"{\"url\":\"http://h/a\",\"word\":1}",
        400,
        b"{\"error\":\"json\"}",
    ),
    (
        b"{\"url\":\"http://h/a\",\"word\":\"w1\",\"name\":null}",
        400,
        b"{\"error\":\"json\"}",
    ),
    (
        b"{\"url\":\"http://h/a\",\"word\":\"\xff\"}",
        400,
        b"{\"error\":\"json\"}",
    ),
    (
        b"{\"url\":\"http://h/a\",\"word\":\"w1\"} x",
        400,
        b"{\"error\":\"json\"}",
    ),
    (
        b"{\"url\":\"\",\"word\":\"\"}",
        400,
        b"{\"error\":\"word\"}",
    ),
    (
        b"{\"url\":\"http://h/a\",\"word\":\"a b\"}",
        400,
        b"{\"error\":\"word\"}",
    ),
    (
        b"{\"url\":\"ftp://h/a\",\"word\":\"w1\",\"sha256\":\"0\"}",
        400,
        b"{\"error\":\"url\"}",
    ),
    (
        b"{\"url\":\"http://h/a\",\"word\":\"w1\",\"sha256\":\"0\"}",
        400,
        b"{\"error\":\"sha256\"}",
    ),
    (
        b"{\"url\":\"http://h/a\",\"word\":\"w\\u0031\"}",
        200,
        b"add",
    ),
];

/// A request that adds what the content says.
fn with_content(alloc: Global, content: &[u8]) -> Result<Text, NoMemory> {
    let size = content.len();
    let head = format!(in alloc;
        "POST /items HTTP/1.1\r\nHost: a\r\nContent-Length: {size}\r\n\r\n"
    )?;
    let mut stream = Text::from_vec(head.into_bytes());
    stream.push_bytes(content)?;
    Ok(stream)
}

#[test]
fn contents_add(rt: HostRuntime) -> Result<(), Fail> {
    for (content, status, expected) in &CONTENTS {
        let stream = with_content(rt.alloc(), content)?;
        let (code, text) = told(rt.alloc(), stream.bytes())?;
        assert_eq!(rt; code, *status);
        assert!(rt; text.bytes().ends_with(expected));
    }
    Ok(())
}

/// A content with a name of so many bytes.
fn named(alloc: Global, size: usize) -> Result<Text, NoMemory> {
    let mut content = Text::from_bytes(
        alloc,
        b"{\"url\":\"http://h/a\",\"word\":\"w1\",\"name\":\"",
    )?;
    for _ in 0..size {
        content.push_bytes(b"n")?;
    }
    content.push_bytes(b"\"}")?;
    Ok(content)
}

#[test]
fn a_name_has_at_most_255_bytes(rt: HostRuntime) -> Result<(), Fail> {
    let stream = with_content(rt.alloc(), named(rt.alloc(), 255)?.bytes())?;
    assert_eq!(rt; told(rt.alloc(), stream.bytes())?.0, 200);
    let stream = with_content(rt.alloc(), named(rt.alloc(), 256)?.bytes())?;
    let (code, text) = told(rt.alloc(), stream.bytes())?;
    assert_eq!(rt; code, 400);
    assert!(rt; text.bytes().ends_with(b"{\"error\":\"name\"}"));
    Ok(())
}

#[test]
fn a_request_is_cut_after_every_byte(rt: HostRuntime) -> Result<(), Fail> {
    let stream = with_content(rt.alloc(), b"{\"url\":\"http://h/a\",\"word\":\"w1\"}")?;
    for size in 0..stream.len() {
        let (code, _) = told(rt.alloc(), &stream.bytes()[..size])?;
        assert_eq!(rt; code, 0);
    }
    assert_eq!(rt; told(rt.alloc(), stream.bytes())?.0, 200);
    Ok(())
}

/// A request of so many bytes, most of them in one field.
fn of_size(alloc: Global, size: usize) -> Result<Text, NoMemory> {
    let mut stream = Text::from_bytes(alloc, b"GET /items HTTP/1.1\r\nA: ")?;
    for _ in 0..size.saturating_sub(28) {
        stream.push_bytes(b"a")?;
    }
    stream.push_bytes(b"\r\n\r\n")?;
    Ok(stream)
}

#[test]
fn a_request_has_at_most_16_384_bytes(rt: HostRuntime) -> Result<(), Fail> {
    assert_eq!(rt;
        told(rt.alloc(), of_size(rt.alloc(), 16_384)?.bytes())?.0,
        200
    );
    assert_eq!(rt;
        told(rt.alloc(), of_size(rt.alloc(), 16_385)?.bytes())?.0,
        413
    );
    Ok(())
}

/// A request with so many fields.
fn with_fields(alloc: Global, count: usize, end: &[u8]) -> Result<Text, NoMemory> {
    let mut stream = Text::from_bytes(alloc, b"GET /items HTTP/1.1\r\n")?;
    for _ in 0..count {
        stream.push_bytes(b"A: b\r\n")?;
    }
    stream.push_bytes(end)?;
    Ok(stream)
}

#[test]
fn a_head_has_at_most_100_fields(rt: HostRuntime) -> Result<(), Fail> {
    assert_eq!(rt;
        told(rt.alloc(), with_fields(rt.alloc(), 100, b"\r\n")?.bytes())?.0,
        200
    );
    assert_eq!(rt;
        told(rt.alloc(), with_fields(rt.alloc(), 100, b"A")?.bytes())?.0,
        400
    );
    assert_eq!(rt;
        told(rt.alloc(), with_fields(rt.alloc(), 101, b"\r\n")?.bytes())?.0,
        400
    );
    Ok(())
}
