//! The standard streams as a source and as sinks. What they give and take is the system's, and nothing is told of it.
ghost use Rattle.std.specs.Prelude.{◌≡◌, ◌≤◌, ◌<◌, length, take, drop, None, IfOk, OnErr};
ghost use Rattle.unit_io.specs.Causes.{HasCause};
ghost use Rattle.unit_io.specs.Told.{Adds, Takes, IsAtEnd};

use std::alloc::{AllocError, Global};
use std::io::{ErrorKind, Read, Write};
use unit_io::{Failed, Sink, Source};

/// How many bytes a read asks the system for, at most.
const PIECE: usize = 65_536;

// Reads into the front of `piece`, and again where the system was interrupted.
fn read_again<R: Read>(reader: &mut R, piece: &mut [u8]) -> Result<usize, Failed>
    ensures size { length piece.new ≡ length piece.old }
    ensures bound { IfOk result (λ n. n ≤ length piece.new) }
{
    for _ in 0..u64::MAX {
        match reader.read(piece) {
            Ok(n) => return Ok(n),
            Err(error) if error.kind() == ErrorKind::Interrupted => {}
            Err(_) => return Err(Failed),
        }
    }
    Err(Failed)
}

// Reads at most so many bytes into the front of `piece`.
fn read_front<R: Read>(reader: &mut R, piece: &mut [u8], most: usize) -> Result<usize, Failed>
    requires { most ≤ length piece.old }
    ensures size { length piece.new ≡ length piece.old }
    ensures bound { IfOk result (λ n. n ≤ most) }
{
    read_again(reader, &mut piece[..most])
}

// Puts the first n bytes of `piece` at the front of `buf`.
pub(crate) fn copy_front(piece: &[u8], n: usize, buf: &mut [u8])
    requires there { n ≤ length piece.now }
    requires fits { n ≤ length buf.old }
    ensures front { take n buf.new ≡ take n piece.now }
    ensures behind { drop n buf.new ≡ drop n buf.old }
    ensures size { length buf.new ≡ length buf.old }
{
    buf[..n].copy_from_slice(&piece[..n]);
}

/// A source over a reader of the system, as standard input.
///
/// It reads into a piece of its own, since a reader of the system may write anywhere in what it is given.
#[derive(Drop)]
pub struct StdSource<R: Read + Drop> {
    reader: R,
    piece: Vec<u8>,
    faults: u64,
}

impl<R: Read + Drop> StdSource<R> {
    /// A source that has met no fault yet.
    ///
    /// Fails for want of memory alone.
    pub fn open(alloc: Global, reader: R) -> Result<StdSource<R>, AllocError> {
        let piece = vec![in alloc; 0u8; PIECE]?;
        Ok(StdSource {
            reader,
            piece,
            faults: 0,
        })
    }
}

impl<R: Read + Drop> Source for StdSource<R> {
    ghost left = { λ _. None };

    ghost faults = { λ s. s.faults };

    fn read(&mut self, buf: &mut [u8]) -> Result<usize, Failed> {
        let most = buf.len().min(self.piece.len());
        match read_front(&mut self.reader, self.piece.as_mut_slice(), most) {
            Ok(n) => {
                copy_front(self.piece.as_slice(), n, buf);
                Ok(n)
            }
            Err(Failed) => {
                self.faults = self.faults.saturating_add(1);
                Err(Failed)
            }
        }
    }
}

// Writes a front of `bytes`, and again where the system was interrupted. A writer that takes nothing of a piece that isn't
// empty counts as a fault, since it would never take the rest.
fn write_again<W: Write>(writer: &mut W, bytes: &[u8]) -> Result<usize, Failed>
    ensures bound { IfOk result (λ n. n ≤ length bytes.now) }
    ensures some { IfOk result (λ n. 0 < length bytes.now → 0 < n) }
{
    for _ in 0..u64::MAX {
        match writer.write(bytes) {
            Ok(n) if n > 0 || bytes.is_empty() => return Ok(n),
            Err(error) if error.kind() == ErrorKind::Interrupted => {}
            _ => return Err(Failed),
        }
    }
    Err(Failed)
}

/// A sink over a writer of the system, as standard output.
#[derive(Drop)]
pub struct StdSink<W: Write + Drop> {
    writer: W,
    faults: u64,
}

impl<W: Write + Drop> StdSink<W> {
    /// A sink that has met no fault yet.
    pub fn open(writer: W) -> StdSink<W> {
        StdSink { writer, faults: 0 }
    }
}

impl<W: Write + Drop> Sink for StdSink<W> {
    ghost written = { λ _. None };

    ghost faults = { λ s. s.faults };

    fn write(&mut self, bytes: &[u8]) -> Result<usize, Failed> {
        match write_again(&mut self.writer, bytes) {
            Ok(n) => Ok(n),
            Err(Failed) => {
                self.faults = self.faults.saturating_add(1);
                Err(Failed)
            }
        }
    }
}
