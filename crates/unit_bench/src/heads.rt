//! Requests read from a connection's bytes: a head against its parse alone, requests in one piece, a head and chunks in
//! pieces of one byte.
ghost use Rattle.std.specs.Prelude.{◌≡◌, false, IfOk};

use http_front::{Next, Reader};
use httparse::Status;
use httparse::spans::{EMPTY_HEADER_SPAN, parse_request};
use std::alloc::{AllocError, Global};
use std::io;
use std::time::Instant;
use timed_sides::{Side, Timed, least_times, repeated, report};
use unit_types::Addr;

const RUNS: u32 = 50;

const REQUESTS: u64 = 1000;

pub const LIMIT: u64 = 8_388_608;

const CHUNKS: u64 = 2000;

// a head of eight fields, as a browser sends it
fn browser_head() -> &'static [u8] {
    b"GET /products/42?colour=green HTTP/1.1\r\nHost: www.example.org\r\nUser-Agent: Mozilla/5.0 (X11; Linux x86_64; rv:128.0) Gecko/20100101 Firefox/128.0\r\nAccept: text/html,application/xhtml+xml,application/xml;q=0.9,image/avif,image/webp,*/*;q=0.8\r\nAccept-Language: en-GB,en;q=0.5\r\nAccept-Encoding: gzip, deflate, br\r\nReferer: https://www.example.org/products\r\nCookie: session=5f2b8c1d9e; theme=dark\r\nConnection: keep-alive\r\n\r\n"
}

fn short_head() -> &'static [u8] {
    b"GET / HTTP/1.1\r\nHost: a\r\n\r\n"
}

pub fn chunked_head() -> &'static [u8] {
    b"POST / HTTP/1.1\r\nHost: a\r\nTransfer-Encoding: chunked\r\n\r\n"
}

fn local(port: u16) -> Addr {
    Addr {
        ip: 0x7f00_0001,
        port,
    }
}

pub fn reader(alloc: Global) -> Result<Reader, AllocError>
    ensures { IfOk result (λ r. r.ended ≡ false) }
{
    Reader::open(alloc, local(40000), local(8080))
}

// whether a request is next
fn has_request(alloc: Global, reader: &mut Reader) -> Result<bool, AllocError>
    ensures { reader.new.ended ≡ reader.old.ended }
{
    Ok(matches!(reader.next(alloc, LIMIT)?, Next::Request(_)))
}

/// `next` on a browser's head, less what the clock takes: at most six times as long as its parse alone.
pub fn head_ratio(rt: &HostRuntime) -> io::Result<()> {
    let input = &repeated(rt.alloc(), browser_head(), REQUESTS)?;
    let clock = least_times(rt, RUNS, &ReadClock {}, &Parse {})?.measured;
    let mut times = least_times(rt, RUNS, &ReadHeads { input }, &Parse {})?;
    times.measured = times.measured.saturating_sub(clock);
    report(rt, "next", 600, times)
}

/// Parses of the head, as many as there are requests.
#[derive(Drop)]
struct Parse {}

impl Side for Parse {
    fn run(&self, rt: &HostRuntime) -> io::Result<Timed> {
        let start = Instant::now(rt)?;
        let parsed = count_parses();
        Timed::since(rt, &start, parsed == REQUESTS)
    }
}

fn count_parses() -> u64 {
    let mut headers = [EMPTY_HEADER_SPAN; 100];
    let mut parsed = 0u64;
    for _ in 0..REQUESTS {
        if let Ok(Status::Complete(_)) = parse_request(browser_head(), &mut headers) {
            parsed = parsed.saturating_add(1);
        }
    }
    parsed
}

/// What the clock itself takes, as often as there are requests.
#[derive(Drop)]
struct ReadClock {}

impl Side for ReadClock {
    fn run(&self, rt: &HostRuntime) -> io::Result<Timed> {
        let mut nanos = 0u64;
        for _ in 0..REQUESTS {
            let start = Instant::now(rt)?;
            nanos = nanos.saturating_add(Timed::since(rt, &start, true)?.nanos);
        }
        Ok(Timed {
            nanos,
            is_whole: true,
        })
    }
}

/// `next` for all requests of the input, without letting each request go.
#[derive(Drop)]
struct ReadHeads<'a> {
    input: &'a [u8],
}

impl Side for ReadHeads<'_> {
    fn run(&self, rt: &HostRuntime) -> io::Result<Timed> {
        let mut reader = reader(rt.alloc())?;
        reader.feed(rt.alloc(), self.input)?;
        let mut nanos = 0u64;
        let mut is_whole = true;
        for _ in 0..REQUESTS {
            let run = next_run(rt, &mut reader)?;
            nanos = nanos.saturating_add(run.nanos);
            is_whole = is_whole && run.is_whole;
        }
        Ok(Timed { nanos, is_whole })
    }
}

// one `next`, which is to find a request
fn next_run(rt: &HostRuntime, reader: &mut Reader) -> io::Result<Timed> {
    let start = Instant::now(rt)?;
    let next = reader.next(rt.alloc(), LIMIT)?;
    let run = Timed::since(rt, &start, matches!(next, Next::Request(_)));
    drop(next);
    run
}

/// Requests in one piece: each at most one and a half times as long as one alone.
pub fn pipelined(rt: &HostRuntime) -> io::Result<()> {
    let input = &repeated(rt.alloc(), short_head(), REQUESTS)?;
    let together = Pieces {
        input,
        size: input.len(),
    };
    let alone = Pieces {
        input,
        size: short_head().len(),
    };
    let times = least_times(rt, RUNS, &together, &alone)?;
    report(rt, "requests in one piece", 150, times)
}

/// All requests of the input in pieces of a size, with all that each piece has.
#[derive(Drop)]
struct Pieces<'a> {
    input: &'a [u8],
    size: usize,
}

impl Side for Pieces<'_> {
    fn run(&self, rt: &HostRuntime) -> io::Result<Timed> {
        let start = Instant::now(rt)?;
        let found = count_in_pieces(rt.alloc(), self.input, self.size)?;
        Timed::since(rt, &start, found > 0)
    }
}

fn count_in_pieces(alloc: Global, input: &[u8], size: usize) -> Result<u64, AllocError> {
    let mut reader = reader(alloc)?;
    let mut found = 0u64;
    for piece in input.chunks(size.max(1)) {
        reader.feed(alloc, piece)?;
        found = found.saturating_add(drain(alloc, &mut reader)?);
    }
    Ok(found)
}

// how many requests the reader has
fn drain(alloc: Global, reader: &mut Reader) -> Result<u64, AllocError>
    ensures { reader.new.ended ≡ reader.old.ended }
{
    for found in 0..REQUESTS {
        if !has_request(alloc, reader)? {
            return Ok(found);
        }
    }
    Ok(REQUESTS)
}

/// A head of 16,000 bytes byte by byte: at most twenty times as long as in one piece.
pub fn head_bytes(rt: &HostRuntime) -> io::Result<()> {
    let head = &long_head(rt.alloc())?;
    let single = Pieces {
        input: head,
        size: 1,
    };
    let whole = Pieces {
        input: head,
        size: head.len(),
    };
    let times = least_times(rt, RUNS, &single, &whole)?;
    report(rt, "a head byte by byte", 2000, times)
}

// a field of 161 bytes with its line end
fn long_field() -> &'static [u8] {
    b"X-Filler: xxxxxxxxxxxxxxxxxxxxxxxxxxxxxxxxxxxxxxxxxxxxxxxxxxxxxxxxxxxxxxxxxxxxxxxxxxxxxxxxxxxxxxxxxxxxxxxxxxxxxxxxxxxxxxxxxxxxxxxxxxxxxxxxxxxxxxxxxxxxxxxxx\r\n"
}

// a head with a hundred fields of that size but for the first
fn long_head(alloc: Global) -> Result<Vec<u8>, AllocError> {
    let mut head = repeated(alloc, long_field(), 99)?;
    head.extend_from_slice(b"Host: a\r\n\r\n")?;
    let mut text = Vec::from_slice(alloc, b"GET / HTTP/1.1\r\n")?;
    text.extend_from_slice(&head)?;
    Ok(text)
}

/// A content of one-byte chunks byte by byte: twice as many take at most three times as long, told by the chunk.
pub fn chunk_bytes(rt: &HostRuntime) -> io::Result<()> {
    let few = &chunked(rt.alloc(), CHUNKS)?;
    let many = &chunked(rt.alloc(), 2 * CHUNKS)?;
    let double = Pieces {
        input: many,
        size: 1,
    };
    let single = Pieces {
        input: few,
        size: 1,
    };
    let mut times = least_times(rt, RUNS, &double, &single)?;
    times.measured /= 2;
    report(rt, "one-byte chunks", 150, times)
}

fn chunked(alloc: Global, chunks: u64) -> Result<Vec<u8>, AllocError> {
    let mut text = Vec::from_slice(alloc, chunked_head())?;
    for _ in 0..chunks {
        text.extend_from_slice(b"1\r\nx\r\n")?;
    }
    text.extend_from_slice(b"0\r\n\r\n")?;
    Ok(text)
}
