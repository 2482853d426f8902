//! The chunks of chunked coding (RFC 9112, section 7.1).
ghost use Rattle.std.specs.Prelude.{◌≡◌, ◌+◌, ◌<◌, ◌≤◌, ◌^◌, length, take, drop};
ghost use Rattle.http_front.specs.Chunks as spec;
ghost use Rattle.http_front.specs.Front.{front_of};
ghost use Rattle.unit_types.specs.Limits.{head_limit};
ghost use Rattle.http_front.specs.ChunkLine.{chunk_size_of};

use crate::lines::{block_len, line_len};
use crate::slices::first_bytes;
use httparse::{Status, parse_chunk_size};
use unit_types::HEAD_LIMIT;

/// The most bytes of a line with a chunk's size.
const LINE_LIMIT: usize = 1024;

/// What stands at the front of chunked coding.
#[derive(Clone, Copy, Debug, PartialEq, Eq, Drop)]
pub(crate) enum Chunk {
    /// A line of so many bytes, and then data of so many.
    Data(usize, usize),
    /// The end of the content, in so many bytes.
    Last(usize),
    /// The bytes are refused with that status.
    Refused(u16),
    /// More bytes are needed.
    Open,
}

/// The chunk at the front, where `room` bytes of content may still come.
pub(crate) fn first_chunk(room: u64, bytes: &[u8]) -> Chunk
    ensures { result ≡ spec.first_chunk room bytes.now }
{
    match line_len(first_bytes(bytes, LINE_LIMIT)) {
        Some(len) => line_chunk(room, len + 1, bytes),
        None if bytes.len() >= LINE_LIMIT => Chunk::Refused(400),
        None => Chunk::Open,
    }
}

// the chunk behind a line of that many bytes
fn line_chunk(room: u64, line: usize, bytes: &[u8]) -> Chunk
    requires { line ≤ length bytes.now }
    ensures { result
        ≡ spec.line_chunk room line (drop line bytes.now) (chunk_size_of (take line bytes.now)) }
{
    match chunk_size(&bytes[..line]) {
        Some(size) => sized_chunk(room, line, size, &bytes[line..]),
        None => Chunk::Refused(400),
    }
}

// the size that a line says, its LF included
fn chunk_size(line: &[u8]) -> Option<u64>
    ensures { result ≡ chunk_size_of line.now }
{
    match parse_chunk_size(line) {
        Ok(Status::Complete((len, size))) => { if len == line.len() { Some(size) } else { None } }
        Ok(Status::Partial) => None,
        Err(_) => None,
    }
}

fn sized_chunk(room: u64, line: usize, size: u64, rest: &[u8]) -> Chunk
    requires { line + length rest.now < 2 ^ 64 }
    ensures { result ≡ spec.sized_chunk room line size rest.now }
{
    if size > room {
        Chunk::Refused(413)
    } else if size == 0 {
        last_chunk(line, rest)
    } else {
        data_chunk(line, size, rest)
    }
}

fn last_chunk(line: usize, rest: &[u8]) -> Chunk
    requires { line + length rest.now < 2 ^ 64 }
    ensures { result ≡ spec.last_chunk line (front_of head_limit rest.now) }
{
    match block_len(first_bytes(rest, HEAD_LIMIT)) {
        Some(len) => Chunk::Last(line + len),
        None if rest.len() >= HEAD_LIMIT => Chunk::Refused(431),
        None => Chunk::Open,
    }
}

fn data_chunk(line: usize, size: u64, rest: &[u8]) -> Chunk
    ensures { result ≡ spec.data_chunk line size rest.now }
{
    if size <= rest.len() as u64 {
        return_chunk(line, size as usize, &rest[size as usize..])
    } else {
        Chunk::Open
    }
}

fn return_chunk(line: usize, size: usize, rest: &[u8]) -> Chunk
    ensures { result ≡ spec.return_chunk line size rest.now }
{
    match rest {
        [] => Chunk::Open,
        [b'\r', tail @ ..] => line_feed_chunk(line, size, tail),
        _ => Chunk::Refused(400),
    }
}

fn line_feed_chunk(line: usize, size: usize, rest: &[u8]) -> Chunk
    ensures { result ≡ spec.line_feed_chunk line size rest.now }
{
    match rest {
        [] => Chunk::Open,
        [b'\n', ..] => Chunk::Data(line, size),
        _ => Chunk::Refused(400),
    }
}
