//! Inputs with what a reader says of them: whole, in halves and byte by byte, alone and with a request behind them.
ghost use Rattle.std.specs.Prelude.{◌≡◌, ◌<◌, false};

use crate::{Next, Reader};
use std::alloc::AllocError;
use unit_types::{Addr, Bytes, Request};

/// The name of a row, its input, and what a reader says of it.
type Row = (&'static str, &'static [u8], &'static [u8]);

const GOOD: &[u8] = b"GET / HTTP/1.1\r\nHost: a\r\n\r\n";

const GOOD_ANSWER: &[u8] = b"GET / ? a {host:a} \n";

const CLIENT: Addr = Addr {
    ip: 0x7f00_0001,
    port: 40000,
};

const SERVER: Addr = Addr {
    ip: 0x7f00_0001,
    port: 8080,
};

// what is refused: heads, targets and chunks
const FAULTY: [Row; 15] = [
    (
        "two hosts",
        b"GET / HTTP/1.1\r\nHost: a\r\nHost: b\r\n\r\n",
        b"400\n",
    ),
    ("no host", b"GET / HTTP/1.1\r\n\r\n", b"400\n"),
    (
        "length beside coding",
        b"POST / HTTP/1.1\r\nHost: a\r\nContent-Length: 5\r\nTransfer-Encoding: chunked\r\n\r\n",
        b"400\n",
    ),
    (
        "another coding",
        b"POST / HTTP/1.1\r\nHost: a\r\nTransfer-Encoding: gzip\r\n\r\n",
        b"501\n",
    ),
    (
        "a list of codings",
        b"POST / HTTP/1.1\r\nHost: a\r\nTransfer-Encoding: gzip, chunked\r\n\r\n",
        b"501\n",
    ),
    (
        "a signed length",
        b"POST / HTTP/1.1\r\nHost: a\r\nContent-Length: +5\r\n\r\n",
        b"400\n",
    ),
    (
        "chunks in 1.0",
        b"POST / HTTP/1.0\r\nTransfer-Encoding: chunked\r\n\r\n",
        b"400\n",
    ),
    (
        "a length above the limit",
        b"POST / HTTP/1.1\r\nHost: a\r\nContent-Length: 101\r\n\r\n",
        b"413\n",
    ),
    (
        "a folded line",
        b"GET / HTTP/1.1\r\nHost: a\r\n b\r\n\r\n",
        b"400\n",
    ),
    (
        "a broken escape",
        b"GET /%zz HTTP/1.1\r\nHost: a\r\n\r\n",
        b"400\n",
    ),
    (
        "a hidden NUL",
        b"GET /%00 HTTP/1.1\r\nHost: a\r\n\r\n",
        b"400\n",
    ),
    (
        "asterisk-form",
        b"OPTIONS * HTTP/1.1\r\nHost: a\r\n\r\n",
        b"400\n",
    ),
    (
        "no size",
        b"POST / HTTP/1.1\r\nHost: a\r\nTransfer-Encoding: chunked\r\n\r\ng\r\n",
        b"400\n",
    ),
    (
        "a size above the limit",
        b"POST / HTTP/1.1\r\nHost: a\r\nTransfer-Encoding: chunked\r\n\r\n65\r\n",
        b"413\n",
    ),
    (
        "an LF behind the data",
        b"POST / HTTP/1.1\r\nHost: a\r\nTransfer-Encoding: chunked\r\n\r\n1\r\nx\n0\r\n\r\n",
        b"400\n",
    ),
];

// requests that are read
const REQUESTS: [Row; 6] = [
    (
        "a length",
        b"POST /x HTTP/1.1\r\nHost: a\r\nContent-Length: 5\r\n\r\nhello",
        b"POST /x ? a {host:a}{content-length:5} hello\n",
    ),
    (
        "an empty content",
        b"POST /x HTTP/1.1\r\nHost: a\r\nContent-Length: 0\r\n\r\n",
        b"POST /x ? a {host:a}{content-length:0} \n",
    ),
    (
        "chunks",
        b"POST / HTTP/1.1\r\nHost: a\r\nTransfer-Encoding: Chunked\r\n\r\n5;x=y\r\nhello\r\n1 \r\n!\r\n0\r\nX: y\r\n\r\n",
        b"POST / ? a {host:a}{transfer-encoding:Chunked} hello!\n",
    ),
    (
        "an expectation",
        b"POST / HTTP/1.1\r\nHost: a\r\nExpect: 100-Continue\r\nContent-Length: 2\r\n\r\nok",
        b"continue\nPOST / ? a {host:a}{expect:100-Continue}{content-length:2} ok\n",
    ),
    (
        "a path with dots",
        b"\r\nGET /a//b/%2e%2e/c?d=/../e#f HTTP/1.1\r\nHost: A.:80\r\n\r\n",
        b"GET /a/c ?d=/../e a {host:A.:80} \n",
    ),
    (
        "absolute-form",
        b"GET HTTP://Example.com:8080?q HTTP/1.1\r\nHost: \t b \r\n\r\n",
        b"GET / ?q example.com {host:b} \n",
    ),
];

// a request on one line but for its LF
fn put_request(out: &mut Bytes, request: &Request) -> Result<(), AllocError> {
    out.append(request.method.as_slice())?;
    out.append(b" ")?;
    out.append(request.path.as_slice())?;
    out.append(b" ?")?;
    out.append(request.query.as_slice())?;
    out.append(b" ")?;
    out.append(request.host.as_slice())?;
    out.append(b" ")?;
    for field in request.fields.as_slice() {
        out.append(b"{")?;
        out.append(field.name.as_slice())?;
        out.append(b":")?;
        out.append(field.value.as_slice())?;
        out.append(b"}")?;
    }
    if request.from != CLIENT || request.to != SERVER {
        out.append(b" elsewhere")?;
    }
    out.append(b" ")?;
    out.append(request.body.as_slice())
}

// one line for each answer
fn put_answer(out: &mut Bytes, answer: &Next) -> Result<(), AllocError> {
    match answer {
        Next::Continue => out.append(b"continue\n"),
        Next::Request(request) => {
            put_request(out, request)?;
            out.append(b"\n")
        }
        Next::NeedMore => Ok(()),
        Next::Bad(400) => out.append(b"400\n"),
        Next::Bad(413) => out.append(b"413\n"),
        Next::Bad(431) => out.append(b"431\n"),
        Next::Bad(501) => out.append(b"501\n"),
        Next::Bad(_) => out.append(b"other\n"),
        Next::End => out.append(b"end\n"),
        Next::Cut => out.append(b"cut\n"),
    }
}

// puts what the reader says until it needs more, and tells whether it may say more; no input here has nine answers in a piece
fn put_answers(rt: &HostRuntime, reader: &mut Reader, out: &mut Bytes) -> Result<bool, AllocError>
    ensures { reader.new.ended ≡ reader.old.ended }
{
    for _ in 0..9 {
        let answer = reader.next(rt.alloc(), 100)?;
        put_answer(out, &answer)?;
        match answer {
            Next::Continue | Next::Request(_) => {}
            Next::NeedMore => return Ok(true),
            Next::Bad(_) | Next::End | Next::Cut => return Ok(false),
        }
    }
    Ok(false)
}

// what a reader says of the input in pieces of that size, up to the first answer that repeats
fn told(rt: &HostRuntime, input: &[u8], size: usize) -> Result<Bytes, AllocError>
    requires { 0 < size }
{
    let mut reader = Reader::open(rt.alloc(), CLIENT, SERVER)?;
    let mut out = Bytes::copy_of(rt.alloc(), b"")?;
    for piece in input.chunks(size) {
        reader.feed(rt.alloc(), piece)?;
        if !put_answers(rt, &mut reader, &mut out)? {
            return Ok(out);
        }
    }
    reader.end();
    put_answers(rt, &mut reader, &mut out)?;
    Ok(out)
}

fn joined(rt: &HostRuntime, first: &[u8], second: &[u8]) -> Result<Bytes, AllocError> {
    let mut bytes = Bytes::copy_of(rt.alloc(), first)?;
    bytes.append(second)?;
    Ok(bytes)
}

fn is_told(rt: &HostRuntime, input: &[u8], size: usize, wanted: &[u8]) -> Result<bool, AllocError>
    requires { 0 < size }
{
    Ok(told(rt, input, size)?.as_slice() == wanted)
}

// whether the input is told so whole, in halves and byte by byte
fn is_told_so(rt: &HostRuntime, input: &[u8], wanted: &[u8]) -> Result<bool, AllocError> {
    let half = input.len() / 2 + 1;
    Ok(
        is_told(rt, input, 100_000, wanted)?
            && is_told(rt, input, half, wanted)?
            && is_told(rt, input, 1, wanted)?,
    )
}

// whether the input is refused with that line, in any pieces, and nothing behind it is read
fn refuses(rt: &HostRuntime, input: &[u8], wanted: &[u8]) -> Result<bool, AllocError> {
    let longer = joined(rt, input, GOOD)?;
    Ok(is_told_so(rt, input, wanted)? && is_told_so(rt, longer.as_slice(), wanted)?)
}

// whether the input is read as that, in any pieces, and a good request behind it as one more
fn reads(rt: &HostRuntime, input: &[u8], wanted: &[u8]) -> Result<bool, AllocError> {
    let longer = joined(rt, input, GOOD)?;
    let ended = joined(rt, wanted, b"end\n")?;
    let more = joined(rt, joined(rt, wanted, GOOD_ANSWER)?.as_slice(), b"end\n")?;
    Ok(
        is_told_so(rt, input, ended.as_slice())?
            && is_told_so(rt, longer.as_slice(), more.as_slice())?,
    )
}

#[test]
fn refuses_heads_and_chunks(rt: HostRuntime) {
    for (name, input, wanted) in FAULTY {
        assert!(rt; refuses(&rt, input, wanted).expect(&rt, "told"), "{name}");
    }
}

#[test]
fn reads_requests(rt: HostRuntime) {
    for (name, input, wanted) in REQUESTS {
        assert!(rt; reads(&rt, input, wanted).expect(&rt, "told"), "{name}");
    }
}

#[test]
fn refuses_a_long_head(rt: HostRuntime) {
    assert!(rt; is_told(&rt, &[b'a'; 16384], 1000, b"431\n").expect(&rt, "told"));
}

// a head with so many fields
fn fielded(rt: &HostRuntime, count: usize) -> Result<Bytes, AllocError> {
    let mut head = Bytes::copy_of(rt.alloc(), b"GET / HTTP/1.1\r\nHost: a\r\n")?;
    for _ in 1..count {
        head.append(b"x: y\r\n")?;
    }
    head.append(b"\r\n")?;
    Ok(head)
}

#[test]
fn takes_a_hundred_fields(rt: HostRuntime) {
    let most = fielded(&rt, 100).expect(&rt, "made");
    let mut reader = Reader::over(most, CLIENT, SERVER);
    match reader.next(rt.alloc(), 0).expect(&rt, "read") {
        Next::Request(request) => assert!(rt; request.fields.as_slice().len() == 100),
        _ => assert!(rt; false, "a hundred fields are refused"),
    }
    let more = fielded(&rt, 101).expect(&rt, "made");
    assert!(rt; is_told_so(&rt, more.as_slice(), b"431\n").expect(&rt, "told"));
}

#[test]
fn ends_and_cuts(rt: HostRuntime) {
    assert!(rt; is_told_so(&rt, b"\r\n\n", b"end\n").expect(&rt, "told"));
    assert!(rt; is_told_so(&rt, b"GET / HT", b"cut\n").expect(&rt, "told"));
    let cut = b"POST / HTTP/1.1\r\nHost: a\r\nExpect: 100-continue\r\nContent-Length: 2\r\n\r\no";
    assert!(rt; is_told_so(&rt, cut, b"continue\ncut\n").expect(&rt, "told"));
}

const CHUNKED_HEAD: &[u8] = b"POST / HTTP/1.1\r\nHost: a\r\nTransfer-Encoding: chunked\r\n\r\n";

// what a reader says of the head of a content in chunks at the first limit, and of that line behind it at the second one
fn says_of_chunk(
    rt: &HostRuntime,
    first: u64,
    second: u64,
    line: &[u8],
) -> Result<Next, AllocError> {
    let mut reader = Reader::open(rt.alloc(), CLIENT, SERVER)?;
    reader.feed(rt.alloc(), CHUNKED_HEAD)?;
    reader.next(rt.alloc(), first)?;
    reader.feed(rt.alloc(), line)?;
    reader.next(rt.alloc(), second)
}

#[test]
fn keeps_the_limit_of_the_head(rt: HostRuntime) {
    let answer = says_of_chunk(&rt, 4, 5, b"5\r\n").expect(&rt, "read");
    assert!(rt; matches!(answer, Next::Bad(413)));
    let usual = 8_388_608;
    let answer = says_of_chunk(&rt, usual, usual, b"800001\r\n").expect(&rt, "read");
    assert!(rt; matches!(answer, Next::Bad(413)));
    let answer = says_of_chunk(&rt, usual, usual, b"800000\r\n").expect(&rt, "read");
    assert!(rt; matches!(answer, Next::NeedMore));
}

// so many pieces of empty lines, a CR at the end of each
fn feed_empty_lines(rt: &HostRuntime, reader: &mut Reader, pieces: u32) -> Result<bool, AllocError>
    requires { reader.old.ended ≡ false }
    ensures { reader.new.ended ≡ reader.old.ended }
{
    for _ in 0..pieces {
        reader.feed(rt.alloc(), b"\n\r\n\n\r\n\r")?;
        if !matches!(reader.next(rt.alloc(), 0)?, Next::NeedMore) {
            return Ok(false);
        }
    }
    Ok(true)
}

#[test]
fn lets_empty_lines_go(rt: HostRuntime) {
    let mut reader = Reader::open(rt.alloc(), CLIENT, SERVER).expect(&rt, "opened");
    assert!(rt; feed_empty_lines(&rt, &mut reader, 1000).expect(&rt, "fed"));
    assert!(rt; reader.kept_len() <= 20);
    assert!(rt; !reader.has_begun());
}

#[test]
fn goes_back(rt: HostRuntime) {
    let mut reader = Reader::open(rt.alloc(), CLIENT, SERVER).expect(&rt, "opened");
    reader
        .feed(rt.alloc(), b"GET / HTTP/1.1\r\n")
        .expect(&rt, "fed");
    assert!(rt; is_next(&rt, &mut reader, false).expect(&rt, "read"));
    reader
        .feed(rt.alloc(), b"Host: a\r\n\r\n")
        .expect(&rt, "fed");
    assert!(rt; is_next(&rt, &mut reader, true).expect(&rt, "read"));
    reader.go_back();
    assert!(rt; is_next(&rt, &mut reader, false).expect(&rt, "read"));
    reader.mark();
    reader.end_marked();
    reader.go_back();
    reader
        .feed(rt.alloc(), b"Host: a\r\n\r\n")
        .expect(&rt, "fed");
    assert!(rt; is_next(&rt, &mut reader, true).expect(&rt, "read"));
}

// whether a whole request comes next, or more bytes are needed
fn is_next(rt: &HostRuntime, reader: &mut Reader, whole: bool) -> Result<bool, AllocError>
    ensures { reader.new.ended ≡ reader.old.ended }
{
    Ok(match reader.next(rt.alloc(), 100)? {
        Next::Request(_) => whole,
        Next::NeedMore => !whole,
        _ => false,
    })
}

// so many chunks of one byte behind a long line, in pieces that end inside a line
fn feed_small_chunks(rt: &HostRuntime, reader: &mut Reader, pieces: u32) -> Result<bool, AllocError>
    requires { reader.old.ended ≡ false }
    ensures { reader.new.ended ≡ reader.old.ended }
{
    for _ in 0..pieces {
        reader.feed(rt.alloc(), b"xxxxxxxxxxxxxxxxxxxxxxxxxxxxxx\r\nx\r\n1;x=xx")?;
        if !matches!(reader.next(rt.alloc(), 1000)?, Next::NeedMore) {
            return Ok(false);
        }
    }
    Ok(true)
}

#[test]
fn lets_framing_go(rt: HostRuntime) {
    let mut reader = Reader::open(rt.alloc(), CLIENT, SERVER).expect(&rt, "opened");
    reader.feed(rt.alloc(), CHUNKED_HEAD).expect(&rt, "fed");
    reader.feed(rt.alloc(), b"1;").expect(&rt, "fed");
    assert!(rt; feed_small_chunks(&rt, &mut reader, 1000).expect(&rt, "fed"));
    assert!(rt; reader.kept_len() <= 1000 + 100);
    reader.feed(rt.alloc(), b"\r\n!\r\n").expect(&rt, "fed");
    let answer = reader.next(rt.alloc(), 1000).expect(&rt, "read");
    assert!(rt; matches!(answer, Next::Bad(413)));
}

// a content in chunks or with a length, its head and a part of it, the rest of it, and the whole content
const PARTS: [(&[u8], &[u8], &[u8]); 3] = [
    (
        b"POST / HTTP/1.1\r\nHost: a\r\nTransfer-Encoding: chunked\r\n\r\n2\r\nab\r\n3\r",
        b"\ncde\r\n0\r\n\r\n",
        b"abcde",
    ),
    (
        b"POST / HTTP/1.1\r\nHost: a\r\nTransfer-Encoding: chunked\r\n\r\n5\r\nab",
        b"cde\r\n0\r\n\r\n",
        b"abcde",
    ),
    (
        b"POST / HTTP/1.1\r\nHost: a\r\nContent-Length: 5\r\n\r\nab",
        b"cde",
        b"abcde",
    ),
];

// whether a request with that content is next, the second time like the first once the reader went back
fn has_content_again(
    rt: &HostRuntime,
    reader: &mut Reader,
    rest: &[u8],
    wanted: &[u8],
) -> Result<bool, AllocError>
    requires { reader.old.ended ≡ false }
{
    reader.feed(rt.alloc(), rest)?;
    let first = has_content(reader.next(rt.alloc(), 100)?, wanted);
    reader.go_back();
    let waits = matches!(reader.next(rt.alloc(), 100)?, Next::NeedMore);
    reader.mark();
    reader.go_back();
    reader.feed(rt.alloc(), rest)?;
    let second = has_content(reader.next(rt.alloc(), 100)?, wanted);
    Ok(first && waits && second)
}

fn has_content(answer: Next, wanted: &[u8]) -> bool {
    match answer {
        Next::Request(request) => request.body.as_slice() == wanted,
        _ => false,
    }
}

#[test]
fn goes_back_into_a_content(rt: HostRuntime) {
    for (front, rest, wanted) in PARTS {
        let mut reader = Reader::open(rt.alloc(), CLIENT, SERVER).expect(&rt, "opened");
        reader.feed(rt.alloc(), front).expect(&rt, "fed");
        assert!(rt; is_next(&rt, &mut reader, false).expect(&rt, "read"));
        assert!(rt; has_content_again(&rt, &mut reader, rest, wanted).expect(&rt, "read"));
    }
}
