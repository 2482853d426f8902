//! Requests to the control interface for a configuration of a megabyte, beside writing it and reading it.

use crate::documents::{ReadTree, configuration, handlers};
use crate::trees::WriteTree;
use conf_book::Book;
use control_api::control;
use std::alloc::{AllocError, Global};
use std::io;
use std::time::Instant;
use timed_sides::{Side, Timed, least_times, report};

const RUNS: u32 = 20;

/// GET of the configuration: at most twice as long as `write_tree` on it.
pub fn measure_get(rt: &HostRuntime) -> io::Result<()> {
    let text = &configuration(rt.alloc())?;
    let get = Control {
        text,
        request: b"GET /config HTTP/1.1\r\nHost: u\r\n\r\n",
    };
    let times = least_times(rt, RUNS, &get, &WriteTree { text })?;
    report(rt, "control, GET", 200, times)
}

/// PUT of the whole configuration: at most three times as long as `read_tree` on it.
pub fn measure_put(rt: &HostRuntime) -> io::Result<()> {
    let text = &configuration(rt.alloc())?;
    let request = &put_request(rt.alloc(), text)?;
    let times = least_times(rt, RUNS, &Control { text, request }, &ReadTree { text })?;
    report(rt, "control, PUT", 300, times)
}

/// A change of one member of it: at most four times as long as `read_tree` on the configuration.
pub fn measure_change(rt: &HostRuntime) -> io::Result<()> {
    let text = &configuration(rt.alloc())?;
    let change = Control {
        text,
        request: b"PUT /config/routes/r1/0/action/pass HTTP/1.1\r\nHost: u\r\nContent-Length: 17\r\n\r\n\"applications/a2\"",
    };
    let times = least_times(rt, RUNS, &change, &ReadTree { text })?;
    report(rt, "control, a change", 400, times)
}

// The request to publish a configuration.
fn put_request(alloc: Global, text: &[u8]) -> Result<Vec<u8>, AllocError> {
    let length = text.len();
    let head = format!(in alloc;
        "PUT /config HTTP/1.1\r\nHost: u\r\nContent-Length: {length}\r\n\r\n"
    )?;
    let mut request = Vec::from_slice(alloc, head.as_bytes())?;
    request.extend_from_slice(text)?;
    Ok(request)
}

/// Answers a request over a book whose newest configuration is that of a text; only the answer is timed.
#[derive(Drop)]
struct Control<'a> {
    text: &'a [u8],
    request: &'a [u8],
}

impl Side for Control<'_> {
    fn run(&self, rt: &HostRuntime) -> io::Result<Timed> {
        let mut book = Book::open(rt.alloc(), &handlers(rt.alloc())?)?;
        control(rt.alloc(), &mut book, &put_request(rt.alloc(), self.text)?)?;
        let start = Instant::now(rt)?;
        let reply = control(rt.alloc(), &mut book, self.request)?;
        let run = Timed::since(rt, &start, reply.as_slice().starts_with(b"HTTP/1.1 200 "));
        drop(reply);
        run
    }
}
