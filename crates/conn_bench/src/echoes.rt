//! A large content that is given back, beside a copy of as many bytes.

use crate::connections::{Serving, configuration};
use std::alloc::{AllocError, Global};
use std::io;
use timed_sides::{CopyBytes, least_times, report};

const RUNS: u32 = 30;

/// How many bytes the content has.
const SIZE: usize = 10_000_000;

fn document() -> &'static [u8] {
    br#"{"applications":{"echo":{"type":"external","executable":"echo"}},"listeners":{"*:8080":{"pass":"applications/echo"}},"settings":{"http":{"max_body_size":10000000}}}"#
}

/// A content in and given back, with the handler's copy: at most six times as long as a copy.
pub fn measure(rt: &HostRuntime) -> io::Result<()> {
    let content = &vec![in rt.alloc(); b'x'; SIZE]?;
    let input = &posted(rt.alloc(), content)?;
    let conf = &configuration(rt.alloc(), document())?;
    let served = Serving {
        conf,
        input,
        requests: 1,
    };
    let times = least_times(rt, RUNS, &served, &CopyBytes { bytes: content })?;
    report(rt, "a content given back", 600, times)
}

// The request that posts a content.
fn posted(alloc: Global, content: &[u8]) -> Result<Vec<u8>, AllocError> {
    let length = content.len();
    let head = format!(in alloc; "POST / HTTP/1.1\r\nHost: a\r\nContent-Length: {length}\r\n\r\n")?;
    let mut request = Vec::from_slice(alloc, head.as_bytes())?;
    request.extend_from_slice(content)?;
    Ok(request)
}
