//! Replies that are cut into parts and collected, against a copy of as many bytes, and at twice the size.
ghost use Rattle.std.specs.Prelude.{◌≡◌, IfOk};
ghost use Rattle.std.specs.Arc.{arc_value};
ghost use Rattle.timed_sides.specs.Letters.{letters_reply};

use request_context::{Asked, Collector, Part, Parts, parts};
use std::alloc::{AllocError, Global};
use std::io;
use std::sync::Arc;
use std::time::Instant;
use timed_sides::{CopyBytes, Letters, Side, Timed, least_times, report, request};
use unit_types::{Bytes, Handlers, Reply};

const RUNS: u32 = 30;

// How many millions of bytes a reply has.
const SIZE: usize = 10;

/// Parts of a reply of 10,000,000 bytes made and collected: at most five times as long as a copy of as many bytes.
pub fn measure(rt: &HostRuntime) -> io::Result<()> {
    let sent = send(rt.alloc(), SIZE)?;
    let bytes = sent.reply.body.as_slice();
    let times = least_times(rt, RUNS, &Collect { sent: &sent }, &CopyBytes { bytes })?;
    report(rt, "a reply in parts", 500, times)
}

/// The same against half as many bytes: at most 2.2 times as long.
pub fn measure_double(rt: &HostRuntime) -> io::Result<()> {
    grow_heap(rt.alloc())?;
    let double = &send(rt.alloc(), SIZE)?;
    let single = &send(rt.alloc(), SIZE / 2)?;
    let times = least_times(
        rt,
        RUNS,
        &Collect { sent: double },
        &Collect { sent: single },
    )?;
    report(rt, "a reply in parts, twice the size", 220, times)
}

// Takes more memory than a run does and gives it back, so that the allocator keeps what runs of either size need, and
// neither asks the system for pages anew.
fn grow_heap(alloc: Global) -> Result<(), AllocError> {
    let memory = vec![in alloc; 0u8; 32_000_000]?;
    drop(memory);
    Ok(())
}

// What was asked under a stream, and the reply to it.
#[derive(Drop)]
struct Sent {
    stream: u64,
    asked: Arc<Asked>,
    reply: Reply,
    ghost under: { (arc_value asked).stream ≡ stream },
    ghost replied: { reply ≡ letters_reply (arc_value asked).name (arc_value asked).request },
}

// A request for so many million bytes, with the reply.
fn send(alloc: Global, millions: usize) -> Result<Sent, AllocError> {
    let mut request = request(alloc, b"a", b"/")?;
    request.body = Bytes::of(vec![in alloc; b'x'; millions]?);
    let name = Bytes::copy_of(alloc, b"letters")?;
    let reply = Letters.reply(alloc, name.as_slice(), &request)?;
    let asked = Asked {
        stream: 1,
        name,
        request,
    };
    Ok(Sent {
        stream: 1,
        asked: Arc::new(alloc, asked)?,
        reply,
    })
}

/// Makes the parts of the reply, and collects them.
#[derive(Drop)]
struct Collect<'a> {
    sent: &'a Sent,
}

impl Side for Collect<'_> {
    fn run(&self, rt: &HostRuntime) -> io::Result<Timed> {
        let start = Instant::now(rt)?;
        let reply = collected(rt.alloc(), self.sent)?;
        let run = Timed::since(rt, &start, is_equally_long(&reply, &self.sent.reply));
        drop(reply);
        run
    }
}

fn is_equally_long(reply: &Option<Reply>, other: &Reply) -> bool {
    match reply {
        Some(reply) => reply.body.as_slice().len() == other.body.as_slice().len(),
        None => false,
    }
}

// The reply as it comes out of its parts.
fn collected(alloc: Global, sent: &Sent) -> Result<Option<Reply>, AllocError> {
    let stream = sent.stream;
    let mut parts: Parts<Letters> = parts(alloc, &sent.asked, &sent.reply)?;
    let mut collector = Collector::open(alloc, &sent.asked)?;
    for _ in 0..u32::MAX {
        let Some((number, last, mut pieces)) = parts.next() else {
            return Ok(None);
        };
        let answer = collector.accept(alloc, stream, number, last, &mut pieces)?;
        if let Part::Whole(reply) = answer {
            return Ok(Some(reply));
        }
    }
    Ok(None)
}
