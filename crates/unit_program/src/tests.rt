//! Worked rows: what each command writes for its input, and with which status it ends.

mod check;
mod exchange;
mod load;
mod trace;

use crate::handlers::ProgramHandlers;
use std::alloc::AllocError;
use unit_io::{MemSink, MemSource};
use unit_top::unit_top;
use unit_types::Bytes;

const GET: &[u8] = b"GET / HTTP/1.1\r\nHost: a\r\n\r\n";

const GREETED: &[u8] =
    b"HTTP/1.1 200 OK\r\nContent-Type: text/plain\r\nContent-Length: 14\r\n\r\nHello, world!\n";

// The calls that fail, by their numbers.
#[derive(Clone, Copy, Drop)]
struct Faults<'a> {
    reads: &'a [u64],
    writes: &'a [u64],
    errors: &'a [u64],
}

const NO_FAULTS: Faults<'static> = Faults {
    reads: &[],
    writes: &[],
    errors: &[],
};

#[derive(Drop)]
struct Outcome {
    status: u8,
    out: Bytes,
    err: Bytes,
}

impl Outcome {
    fn is(&self, status: u8, out: &[u8], err: &[u8]) -> bool {
        self.status == status && self.out.as_slice() == out && self.err.as_slice() == err
    }
}

fn run(
    rt: &HostRuntime,
    words: &[&str],
    input: &[u8],
    faults: Faults<'_>,
) -> Result<Outcome, AllocError> {
    let alloc = rt.alloc();
    let mut owned = Vec::new(alloc);
    for word in words {
        owned.push(String::from_str(alloc, word)?)?;
    }
    let handlers = ProgramHandlers::open(alloc)?;
    let mut src = MemSource::open(
        Bytes::copy_of(alloc, input)?,
        Vec::new(alloc),
        Vec::from_slice(alloc, faults.reads)?,
    );
    let mut out = MemSink::open(alloc, Vec::from_slice(alloc, faults.writes)?);
    let mut err = MemSink::open(alloc, Vec::from_slice(alloc, faults.errors)?);
    let status = unit_top(
        alloc,
        owned.as_slice(),
        &mut src,
        &mut out,
        &mut err,
        &handlers,
    );
    Ok(Outcome {
        status,
        out: Bytes::copy_of(alloc, out.written())?,
        err: Bytes::copy_of(alloc, err.written())?,
    })
}

fn once(rt: &HostRuntime, input: &[u8]) -> Result<Outcome, AllocError> {
    run(rt, &["once", "hello"], input, NO_FAULTS)
}

// Whether `once HANDLER` writes those bytes for that input.
fn answers(
    rt: &HostRuntime,
    handler: &str,
    input: &[u8],
    wanted: &[u8],
) -> Result<bool, AllocError> {
    let outcome = run(rt, &["once", handler], input, NO_FAULTS)?;
    Ok(outcome.is(0, wanted, b""))
}

#[test]
fn one_get(rt: HostRuntime) {
    let outcome = once(&rt, GET).expect(&rt, "memory");
    assert!(rt; outcome.is(0, GREETED, b""));
}

#[test]
fn no_whole_request(rt: HostRuntime) {
    for input in [b"".as_slice(), b"GET / HT".as_slice(), b"\r\n\n".as_slice()] {
        let outcome = once(&rt, input).expect(&rt, "memory");
        assert!(rt; outcome.is(0, b"", b""));
    }
}

#[test]
fn no_host(rt: HostRuntime) {
    let input = b"GET / HTTP/1.1\r\n\r\nGET / HTTP/1.1\r\nHost: a\r\n\r\n";
    let wanted =
        b"HTTP/1.1 400 Bad Request\r\nContent-Type: text/plain\r\nContent-Length: 12\r\nConnection: close\r\n\r\nError 400.\r\n";
    let outcome = once(&rt, input).expect(&rt, "memory");
    assert!(rt; outcome.is(0, wanted, b""));
}

#[test]
fn pipelined_pair(rt: HostRuntime) {
    let input = b"GET / HTTP/1.1\r\nHost: a\r\n\r\nGET / HTTP/1.1\r\nHost: a\r\n\r\n";
    let outcome = once(&rt, input).expect(&rt, "memory");
    assert!(rt; outcome.status == 0);
    assert!(rt; outcome.out.as_slice().len() == 158);
    assert!(rt; outcome.out.as_slice().starts_with(GREETED));
    assert!(rt; outcome.out.as_slice().ends_with(GREETED));
}

// The bytes so many times, behind those that are there.
fn put_times(out: &mut Bytes, piece: &[u8], times: usize) -> Result<(), AllocError> {
    for _ in 0..times {
        out.append(piece)?;
    }
    Ok(())
}

#[test]
fn a_thousand_and_one_requests(rt: HostRuntime) {
    let closing =
        b"HTTP/1.1 200 OK\r\nContent-Type: text/plain\r\nContent-Length: 14\r\nConnection: close\r\n\r\nHello, world!\n";
    let mut input = Bytes::copy_of(rt.alloc(), b"").expect(&rt, "memory");
    put_times(&mut input, GET, 1001).expect(&rt, "memory");
    let mut wanted = Bytes::copy_of(rt.alloc(), b"").expect(&rt, "memory");
    put_times(&mut wanted, GREETED, 999).expect(&rt, "memory");
    wanted.append(closing).expect(&rt, "memory");
    let outcome = once(&rt, input.as_slice()).expect(&rt, "memory");
    assert!(rt; outcome.out.as_slice().len() == 79_019);
    assert!(rt; outcome.is(0, wanted.as_slice(), b""));
}

#[test]
fn the_largest_content(rt: HostRuntime) {
    let head = b"POST / HTTP/1.1\r\nHost: a\r\nContent-Length: 8388608\r\n\r\n";
    let wanted =
        b"HTTP/1.1 200 OK\r\nContent-Type: text/plain\r\nContent-Length: 8\r\n\r\n8388608\n";
    let mut input = Bytes::copy_of(rt.alloc(), head).expect(&rt, "memory");
    put_times(&mut input, b"sixteen letters!", 524_288).expect(&rt, "memory");
    assert!(rt; answers(&rt, "count", input.as_slice(), wanted).expect(&rt, "memory"));
}

#[test]
fn chunked_content_with_a_trailer(rt: HostRuntime) {
    let input =
        b"POST / HTTP/1.1\r\nHost: a\r\nExpect: 100-continue\r\nTransfer-Encoding: chunked\r\n\r\n5\r\nhello\r\n0\r\nX: y\r\n\r\n";
    let wanted =
        b"HTTP/1.1 100 Continue\r\n\r\nHTTP/1.1 200 OK\r\nContent-Type: application/octet-stream\r\nContent-Length: 5\r\n\r\nhello";
    assert!(rt; answers(&rt, "echo", input, wanted).expect(&rt, "memory"));
}

#[test]
fn counts_a_content(rt: HostRuntime) {
    let input = b"POST / HTTP/1.1\r\nHost: a\r\nContent-Length: 12\r\n\r\nHello, world";
    let wanted = b"HTTP/1.1 200 OK\r\nContent-Type: text/plain\r\nContent-Length: 3\r\n\r\n12\n";
    assert!(rt; answers(&rt, "count", input, wanted).expect(&rt, "memory"));
}

#[test]
fn too_long_content(rt: HostRuntime) {
    let input = b"POST / HTTP/1.1\r\nHost: a\r\nContent-Length: 8388609\r\n\r\n";
    let wanted =
        b"HTTP/1.1 413 Content Too Large\r\nContent-Type: text/plain\r\nContent-Length: 12\r\nConnection: close\r\n\r\nError 413.\r\n";
    assert!(rt; answers(&rt, "count", input, wanted).expect(&rt, "memory"));
}

#[test]
fn closes_after_http_1_0(rt: HostRuntime) {
    let input = b"GET / HTTP/1.0\r\n\r\nGET / HTTP/1.1\r\nHost: a\r\n\r\n";
    let wanted =
        b"HTTP/1.1 200 OK\r\nContent-Type: text/plain\r\nContent-Length: 14\r\nConnection: close\r\n\r\nHello, world!\n";
    assert!(rt; answers(&rt, "hello", input, wanted).expect(&rt, "memory"));
}

#[test]
fn faulty_words(rt: HostRuntime) {
    let forms: [&[&str]; 7] = [
        &[],
        &["once"],
        &["once", "nobody"],
        &["once", "hello", "hello"],
        &["twice", "hello"],
        &["check", "hello"],
        &["Check"],
    ];
    for words in forms {
        let outcome = run(&rt, words, GET, NO_FAULTS).expect(&rt, "memory");
        assert!(rt; outcome.is(2, b"", b"unit: usage\n"));
    }
}

#[test]
fn failing_source(rt: HostRuntime) {
    let faults = Faults {
        reads: &[0],
        ..NO_FAULTS
    };
    let outcome = run(&rt, &["once", "hello"], GET, faults).expect(&rt, "memory");
    assert!(rt; outcome.is(3, b"", b"unit: read\n"));
}

#[test]
fn failing_sink(rt: HostRuntime) {
    let faults = Faults {
        writes: &[1],
        ..NO_FAULTS
    };
    let outcome = run(&rt, &["once", "hello"], GET, faults).expect(&rt, "memory");
    assert!(rt; outcome.is(4, &GREETED[..64], b"unit: write\n"));
}

#[test]
fn failing_err_changes_no_status(rt: HostRuntime) {
    let faults = Faults {
        errors: &[0],
        ..NO_FAULTS
    };
    let outcome = run(&rt, &["once"], GET, faults).expect(&rt, "memory");
    assert!(rt; outcome.is(2, b"", b""));
}
