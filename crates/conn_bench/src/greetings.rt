//! Pipelined requests to a handler that greets: through machine and handler beside the reader alone, and with a log of the
//! requests beside none.

use crate::connections::{Serving, configuration, local};
use http_front::{Next, Reader};
use std::alloc::{AllocError, Global};
use std::io;
use std::time::Instant;
use timed_sides::{Side, Timed, least_times, repeated, report};

const RUNS: u32 = 50;

const REQUESTS: u64 = 1000;

fn plain() -> &'static [u8] {
    br#"{"applications":{"hello":{"type":"external","executable":"hello"}},"listeners":{"*:8080":{"pass":"applications/hello"}}}"#
}

fn logged() -> &'static [u8] {
    br#"{"access_log":{},"applications":{"hello":{"type":"external","executable":"hello"}},"listeners":{"*:8080":{"pass":"applications/hello"}}}"#
}

fn head() -> &'static [u8] {
    b"GET / HTTP/1.1\r\nHost: a\r\n\r\n"
}

/// Requests through machine and handler: at most twice as long as through the reader alone.
pub fn measure(rt: &HostRuntime) -> io::Result<()> {
    let input = &repeated(rt.alloc(), head(), REQUESTS)?;
    let conf = &configuration(rt.alloc(), plain())?;
    let served = Serving {
        conf,
        input,
        requests: 1000,
    };
    let read = Read {
        input,
        limit: conf.conf.max_body(),
    };
    let times = least_times(rt, RUNS, &served, &read)?;
    report(rt, "requests to hello", 200, times)
}

/// The same with an access log: at most one and a half times as long as without.
pub fn measure_log(rt: &HostRuntime) -> io::Result<()> {
    let input = &repeated(rt.alloc(), head(), REQUESTS)?;
    let with_log = &configuration(rt.alloc(), logged())?;
    let without = &configuration(rt.alloc(), plain())?;
    let times = least_times(
        rt,
        RUNS,
        &Serving {
            conf: with_log,
            input,
            requests: 1000,
        },
        &Serving {
            conf: without,
            input,
            requests: 1000,
        },
    )?;
    report(rt, "requests with a log", 150, times)
}

/// The requests of the input, read.
#[derive(Drop)]
struct Read<'a> {
    input: &'a [u8],
    limit: u64,
}

impl Side for Read<'_> {
    fn run(&self, rt: &HostRuntime) -> io::Result<Timed> {
        let start = Instant::now(rt)?;
        let found = read_all(rt.alloc(), self.input, self.limit)?;
        Timed::since(rt, &start, found == REQUESTS)
    }
}

// How many requests the input has.
fn read_all(alloc: Global, input: &[u8], limit: u64) -> Result<u64, AllocError> {
    let mut reader = Reader::open(alloc, local(40000), local(8080))?;
    reader.feed(alloc, input)?;
    for found in 0..REQUESTS {
        if !matches!(reader.next(alloc, limit)?, Next::Request(_)) {
            return Ok(found);
        }
    }
    Ok(REQUESTS)
}
