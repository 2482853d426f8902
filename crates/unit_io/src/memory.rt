//! A source and a sink over memory, which tell all that they hold.
ghost use Rattle.std.specs.Prelude.{◌≡◌, ◌+◌, ◌-◌, ◌^◌, ◌≤◌, ◌<◌, ◌↔◌, Some, [], length, take, drop, min, slice_index_or, All, Contains, IsErr, IfOk, OnErr};

use crate::stream::{Failed, Sink, Source};
use std::alloc::Global;
use std::marker::Model;
use unit_types::Bytes;

/// How many bytes a `MemSink` takes at a write, so that a longer piece needs several.
pub const WRITE_LIMIT: usize = 64;

/// The count one higher; at `u64::MAX` it stands still.
pub(crate) fn one_more(count: u64) -> u64
    ensures { result ≡ min (count + 1) (2 ^ 64 - 1) }
{
    count.saturating_add(1)
}

/// Moves n bytes of `content` from the place `at` on into the front of `buf`.
pub(crate) fn hand_out(content: &[u8], at: usize, buf: &mut [u8], n: usize)
    requires there { at + n ≤ length content.now }
    requires fits { n ≤ length buf.old }
    ensures front { take n buf.new ≡ take n (drop at content.now) }
    ensures behind { drop n buf.new ≡ drop n buf.old }
{
    buf[..n].copy_from_slice(&content[at..at + n]);
}

// The most that this read hands out; behind the last piece it is all that is left.
fn piece_at(pieces: &[usize], call: u64, left: usize) -> usize
    requires { All (λ n. 0 < n) pieces.now }
    ensures value { result ≡ slice_index_or pieces.now call left }
    ensures some { result ≡ 0 → left ≡ 0 }
{
    match pieces.get(call as usize) {
        Some(most) => *most,
        None => left,
    }
}

/// A source over memory.
///
/// The k-th read hands out at most `pieces[k]` bytes, a later one as many as fit. The reads numbered in `fail_at`, from
/// 0, fail.
#[derive(Debug, Drop)]
pub struct MemSource {
    content: Bytes,
    at: usize,
    pieces: Vec<usize>,
    fail_at: Vec<u64>,
    calls: u64,
    faults: u64,
}

impl Model for MemSource {
    ghost use Rattle.std.specs.Prelude.{drop, length, All, ◌≤◌, ◌<◌};
    ghost use Rattle.unit_io.specs.Memory.{Script};

    ghost Value = { Script };

    ghost view = { λ s. record {
      left = drop s.at s.content;
      pieces = s.pieces.items;
      fail_at = s.fail_at.items;
      calls = s.calls;
      faults = s.faults;
    } };

    ghost invariant = { λ s. (s.at ≤ length s.content) × All (λ n. 0 < n) s.pieces.items };
}

impl MemSource {
    ghost use Rattle.unit_io.specs.Memory.{unread};

    /// A source of `content`.
    pub fn open(content: Bytes, pieces: Vec<usize>, fail_at: Vec<u64>) -> MemSource
        requires { All (λ n. 0 < n) pieces.items }
        ensures { result ≡ unread content pieces.items fail_at.items }
    {
        MemSource {
            content,
            at: 0,
            pieces,
            fail_at,
            calls: 0,
            faults: 0,
        }
    }
}

impl Source for MemSource {
    ghost use Rattle.std.specs.Prelude.{take, drop, List, ℕ};
    ghost use Rattle.unit_io.specs.Causes.{HasCause};
    ghost use Rattle.unit_io.specs.Memory.{handed_out, after_read, after_failed_read};
    ghost use Rattle.unit_io.specs.Told.{Takes, IsAtEnd};

    ghost left = { λ s. Some s.left };

    ghost faults = { λ s. s.faults };

    fn read(&mut self, buf: &mut [u8]) -> Result<usize, Failed>
        ensures fails { IsErr result ↔ Contains self.old.fail_at self.old.calls }
        ensures given { IfOk result (λ n. n ≡ handed_out self.old (length buf.old)) }
        ensures after { IfOk result (λ n. self.new ≡ after_read self.old n) }
        ensures failed { OnErr result (self.new ≡ after_failed_read self.old) }
        ensures bound { IfOk result (λ n. n ≤ length buf.new) }
        ensures size { length buf.new ≡ length buf.old }
        ensures bytes { IfOk result
            (λ n. Takes (Some self.old.left) (Some self.new.left) (take n buf.new)) }
        ensures end { IfOk result (λ n. n ≡ 0 → 0 < length buf.old → IsAtEnd (Some self.old.left)) }
        ensures behind { IfOk result (λ n. drop n buf.new ≡ drop n buf.old) }
        ensures untouched { OnErr result (buf.new ≡ buf.old) }
        ensures same { OnErr result (Some self.new.left ≡ Some self.old.left) }
        ensures cause { HasCause self.old.faults self.new.faults result }
    {
        let call = self.calls;
        self.calls = one_more(call);
        if self.fail_at.as_slice().contains(&call) {
            self.faults = one_more(self.faults);
            return Err(Failed);
        }
        let content = self.content.as_slice();
        let left = content.len() - self.at;
        let piece = piece_at(self.pieces.as_slice(), call, left);
        let n = buf.len().min(piece.min(left));
        hand_out(content, self.at, buf, n);
        self.at += n;
        Ok(n)
    }
}

/// A sink over memory.
///
/// It takes at most `WRITE_LIMIT` bytes at a write. The writes numbered in `fail_at`, from 0, fail, and beside them those
/// alone that find no memory, which are counted.
#[derive(Debug, Drop)]
pub struct MemSink {
    written: Bytes,
    fail_at: Vec<u64>,
    calls: u64,
    faults: u64,
    unkept: u64,
}

impl Model for MemSink {
    ghost use Rattle.unit_io.specs.Memory.{Tape};

    ghost Value = { Tape };

    ghost view = { λ s. record {
      written = s.written;
      fail_at = s.fail_at.items;
      calls = s.calls;
      faults = s.faults;
      unkept = s.unkept;
    } };
}

impl MemSink {
    ghost use Rattle.unit_io.specs.Memory.{unwritten};

    /// A sink to which nothing was written yet.
    pub fn open(alloc: Global, fail_at: Vec<u64>) -> MemSink
        ensures { result ≡ unwritten fail_at.items }
    {
        MemSink {
            written: Bytes::of(Vec::new(alloc)),
            fail_at,
            calls: 0,
            faults: 0,
            unkept: 0,
        }
    }

    /// What was written so far.
    pub fn written(&self) -> &[u8]
        ensures { result.now ≡ self.now.written }
    {
        self.written.as_slice()
    }
}

impl Sink for MemSink {
    ghost use Rattle.std.specs.Prelude.{take};
    ghost use Rattle.unit_io.specs.Causes.{HasCause};
    ghost use Rattle.unit_io.specs.Memory.{after_write, after_failed_write, after_unkept_write};
    ghost use Rattle.unit_io.specs.Told.{Adds};

    ghost written = { λ s. Some s.written };

    ghost faults = { λ s. s.faults };

    fn write(&mut self, bytes: &[u8]) -> Result<usize, Failed>
        ensures fails { Contains self.old.fail_at self.old.calls
            → IsErr result × (self.new ≡ after_failed_write self.old) }
        ensures taken { IfOk result (λ n. n ≡ min 64 (length bytes.now)) }
        ensures after { IfOk result (λ n. self.new ≡ after_write self.old (take n bytes.now)) }
        ensures unkept { OnErr result ((Contains self.old.fail_at self.old.calls → ⊥)
            → self.new ≡ after_unkept_write self.old) }
        ensures bound { IfOk result (λ n. n ≤ length bytes.now) }
        ensures some { IfOk result (λ n. 0 < length bytes.now → 0 < n) }
        ensures bytes { IfOk result
            (λ n. Adds (Some self.old.written) (Some self.new.written) (take n bytes.now)) }
        ensures same { OnErr result (Some self.new.written ≡ Some self.old.written) }
        ensures cause { HasCause self.old.faults self.new.faults result }
    {
        let call = self.calls;
        self.calls = one_more(call);
        if self.fail_at.as_slice().contains(&call) {
            self.faults = one_more(self.faults);
            return Err(Failed);
        }
        let n = bytes.len().min(WRITE_LIMIT);
        if self.written.append(&bytes[..n]).is_err() {
            self.faults = one_more(self.faults);
            self.unkept = one_more(self.unkept);
            return Err(Failed);
        }
        Ok(n)
    }
}

#[cfg(test)]
mod tests {
    use super::*;
    use crate::trial::{copied, room};
    use std::process::Abort;

    #[test]
    fn source_hands_out_pieces(rt: HostRuntime) {
        let mut pieces = room(&rt, 1);
        pieces.push(2).expect(&rt, "pushed");
        let mut fail_at = room(&rt, 1);
        fail_at.push(1).expect(&rt, "pushed");
        let mut source = MemSource::open(copied(&rt, b"abcdef"), pieces, fail_at);
        let mut buf = [0u8; 3];
        assert!(rt; matches!(source.read(&mut buf), Ok(2)));
        assert!(rt; source.read(&mut buf).is_err());
        assert!(rt; matches!(source.read(&mut buf), Ok(3)));
        assert!(rt; buf.as_slice() == b"cde".as_slice());
        assert!(rt; matches!(source.read(&mut buf), Ok(1)));
        assert!(rt; matches!(source.read(&mut buf), Ok(0)));
    }

    // A write that wasn't told to fail. One that finds no memory counts a fault and writes nothing, and the next one writes the
    // same bytes.
    fn written_at_last(rt: &impl Abort, sink: &mut MemSink, bytes: &[u8]) -> Result<usize, Failed> {
        let before = sink.written().len();
        let faults = sink.faults;
        let first = sink.write(bytes);
        if first.is_ok() {
            return first;
        }
        assert_eq!(rt; sink.written().len(), before);
        assert_eq!(rt; sink.faults, one_more(faults));
        sink.write(bytes)
    }

    #[test]
    fn sink_takes_64_bytes_a_write(rt: HostRuntime) {
        let mut fail_at = room(&rt, 1);
        fail_at.push(0).expect(&rt, "pushed");
        let mut sink = MemSink::open(rt.alloc(), fail_at);
        let text = [7u8; 79];
        assert!(rt; sink.write(&text).is_err());
        assert!(rt; matches!(written_at_last(&rt, &mut sink, &text), Ok(64)));
        assert!(rt; matches!(written_at_last(&rt, &mut sink, &text[64..]), Ok(15)));
        assert!(rt; sink.written() == text.as_slice());
    }
}
