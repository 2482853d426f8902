//! What several measurements are run on: a request, a text of one part again and again, and a copy of bytes.

use crate::timing::{Side, Timed};
use std::alloc::{AllocError, Global};
use std::hint::black_box;
use std::io;
use std::time::Instant;
use unit_types::{Addr, Bytes, Fields, Request};

/// A request for this path at this host, with all else empty.
pub fn request(alloc: Global, host: &[u8], path: &[u8]) -> Result<Request, AllocError> {
    let host = Bytes::copy_of(alloc, host)?;
    let path = Bytes::copy_of(alloc, path)?;
    Ok(bare_request(alloc, host, path))
}

fn bare_request(alloc: Global, host: Bytes, path: Bytes) -> Request {
    let address = Addr { ip: 0, port: 80 };
    Request {
        method: Bytes::of(Vec::new(alloc)),
        target: Bytes::of(Vec::new(alloc)),
        path,
        query: Bytes::of(Vec::new(alloc)),
        host,
        minor: 1,
        fields: Fields::of(Vec::new(alloc)),
        from: address,
        to: address,
        body: Bytes::of(Vec::new(alloc)),
    }
}

/// The part so many times.
pub fn repeated(alloc: Global, part: &[u8], times: u64) -> Result<Vec<u8>, AllocError> {
    let mut text = Vec::new(alloc);
    for _ in 0..times {
        text.extend_from_slice(part)?;
    }
    Ok(text)
}

/// Copies the bytes.
#[derive(Drop)]
pub struct CopyBytes<'a> {
    pub bytes: &'a [u8],
}

impl Side for CopyBytes<'_> {
    fn run(&self, rt: &HostRuntime) -> io::Result<Timed> {
        let start = Instant::now(rt)?;
        let copy = black_box(Vec::from_slice(rt.alloc(), self.bytes)?);
        let run = Timed::since(rt, &start, true);
        drop(copy);
        run
    }
}
