//! Long inputs that say little, whose reader is to stay small: `bench/memory.py` runs them, and looks at the memory.
ghost use Rattle.std.specs.Prelude.{◌≡◌, ◌<◌, false};

use crate::heads::{LIMIT, chunked_head, reader};
use http_front::{Next, Reader};
use std::alloc::{AllocError, Global};
use std::io;
use timed_sides::repeated;

/// How many bytes come at once.
const PIECE: usize = 65_536;

/// A chunk of one byte behind a line of 1,024 bytes, the most that it may have.
const CHUNK_LEN: usize = 1_027;

/// 1 GiB of empty lines: how many bytes were fed.
pub fn empty_lines(rt: &HostRuntime) -> io::Result<()> {
    let piece = &repeated(rt.alloc(), b"\r\n", PIECE as u64 / 2)?;
    let mut reader = reader(rt.alloc())?;
    let fed = feed_pieces(rt.alloc(), &mut reader, piece, 2, 16_384)?;
    println!(rt; "empty lines: {fed} bytes fed")
}

/// 8 MiB of content in chunks of one byte, with 8.6 GB of lines: how many bytes were fed, and how many the content has.
pub fn small_chunks(rt: &HostRuntime) -> io::Result<()> {
    let chunks = &repeated(rt.alloc(), chunk(rt.alloc())?.as_slice(), 65)?;
    let mut reader = reader(rt.alloc())?;
    reader.feed(rt.alloc(), chunked_head())?;
    let fed = feed_pieces(rt.alloc(), &mut reader, chunks, CHUNK_LEN, 131_456)?;
    reader.feed(rt.alloc(), b"0\r\n\r\n")?;
    let content = match reader.next(rt.alloc(), LIMIT)? {
        Next::Request(request) => request.body.as_slice().len(),
        _ => 0,
    };
    println!(rt; "small chunks: {fed} bytes fed, {content} bytes of content")
}

fn chunk(alloc: Global) -> Result<Vec<u8>, AllocError> {
    let mut chunk = Vec::from_slice(alloc, b"1;")?;
    chunk.extend_from_slice(&repeated(alloc, b"x", 1_020)?)?;
    chunk.extend_from_slice(b"\r\nx\r\n")?;
    Ok(chunk)
}

// feeds so many pieces of an input that repeats after `period` bytes and has a piece more than that, while the reader needs
// more: how many bytes were fed
fn feed_pieces(
    alloc: Global,
    reader: &mut Reader,
    input: &[u8],
    period: usize,
    pieces: u32,
) -> Result<u64, AllocError>
    requires going { reader.old.ended ≡ false }
    requires period { 0 < period }
    ensures { reader.new.ended ≡ reader.old.ended }
{
    let mut fed = 0u64;
    let mut at = 0usize;
    for _ in 0..pieces {
        let end = at.saturating_add(PIECE);
        if end > input.len() || at > end {
            return Ok(fed);
        }
        reader.feed(alloc, &input[at..end])?;
        if !matches!(reader.next(alloc, LIMIT)?, Next::NeedMore) {
            return Ok(fed);
        }
        fed = fed.saturating_add(PIECE as u64);
        at = end % period;
    }
    Ok(fed)
}
