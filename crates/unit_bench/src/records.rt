//! Writing and reading a record with 10,000,000 bytes of content, against a copy of as many bytes.
ghost use Rattle.std.specs.Prelude.{IfOk};
ghost use Rattle.request_context.specs.Record.{IsRecordable};

use request_context::{Asked, read_record, write_record};
use std::alloc::{AllocError, Global};
use std::hint::black_box;
use std::io;
use std::time::Instant;
use timed_sides::{CopyBytes, Side, Timed, least_times, report};

const CONTENT: usize = 10_000_000;

const RUNS: u32 = 15;

// What stands before the content in the record of an HTTP/1.0 request with empty texts and no fields.
fn before_content() -> &'static [u8] {
    &[
        0, 0, 0, 0, 0, 0, 0, 1, 0, 0, 0, 0, 0, 0, 0, 0, 0, 0, 0, 0, 0, 0, 0, 0, 0, 0, 0, 0, 0, 0,
        0, 0, 0, 127, 0, 0, 1, 156, 64, 127, 0, 0, 1, 31, 144, 0, 0, 0, 0, 0, 152, 150, 128,
    ]
}

fn record(alloc: Global) -> Result<Vec<u8>, AllocError> {
    let mut bytes = Vec::from_slice(alloc, before_content())?;
    let len = bytes.len();
    bytes.resize(len.saturating_add(CONTENT), b'x')?;
    Ok(bytes)
}

fn asked_of(alloc: Global, bytes: &[u8]) -> io::Result<Asked>
    ensures { IfOk result IsRecordable }
{
    match read_record(alloc, bytes)? {
        Some(asked) => Ok(asked),
        None => Err(io::Error::from(io::ErrorKind::InvalidData)),
    }
}

#[derive(Drop)]
struct WriteRecord<'a> {
    asked: &'a Asked,
    ghost recordable: { IsRecordable asked.now },
}

impl Side for WriteRecord<'_> {
    fn run(&self, rt: &HostRuntime) -> io::Result<Timed> {
        let start = Instant::now(rt)?;
        let written = black_box(write_record(rt.alloc(), self.asked)?);
        let run = Timed::since(rt, &start, true);
        drop(written);
        run
    }
}

#[derive(Drop)]
struct ReadRecord<'a> {
    bytes: &'a [u8],
}

impl Side for ReadRecord<'_> {
    fn run(&self, rt: &HostRuntime) -> io::Result<Timed> {
        let start = Instant::now(rt)?;
        let read = black_box(read_record(rt.alloc(), self.bytes)?);
        let run = Timed::since(rt, &start, true);
        drop(read);
        run
    }
}

/// Writing the record: at most twice a copy.
pub fn write_record_ratio(rt: &HostRuntime) -> io::Result<()> {
    let bytes = &record(rt.alloc())?;
    let asked = &asked_of(rt.alloc(), bytes)?;
    let times = least_times(rt, RUNS, &WriteRecord { asked }, &CopyBytes { bytes })?;
    report(rt, "write_record", 200, times)
}

/// Reading the record: at most twice a copy.
pub fn read_record_ratio(rt: &HostRuntime) -> io::Result<()> {
    let bytes = &record(rt.alloc())?;
    let times = least_times(rt, RUNS, &ReadRecord { bytes }, &CopyBytes { bytes })?;
    report(rt, "read_record", 200, times)
}
