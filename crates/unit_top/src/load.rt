//! A made load: a configuration is put, then requests come, each on a connection of its own. What comes of it is counted.
ghost use Rattle.std.specs.Prelude.{◌≡◌, ◌≢◌, ◌+◌, ◌≤◌, ◌<◌, ◌^◌, [], ◌∷◌, false, length, map, codes, string_bytes, IfOk, OnOk};
ghost use Rattle.conf_book.specs.Books.{documents_of};
ghost use Rattle.script_frames.specs.Frames.{Connection};
ghost use Rattle.script_frames.specs.Left.{said};
ghost use Rattle.script_frames.specs.Spelling.{counted, frame_text};
ghost use Rattle.unit_io.specs.Causes.{Rose};
ghost use Rattle.unit_io.specs.Status.{status_in};
ghost use Rattle.unit_top.specs.Counting.{IsSmall, counted_with};
ghost use Rattle.unit_top.specs.Ends.{EndsAs};
ghost use Rattle.unit_top.specs.Exchange.{frame_outcome};
ghost use Rattle.unit_top.specs.Load.{load_of, requests_from, summary_of, summary_text};
ghost use Rattle.unit_top.specs.Outcome.{Written};
ghost use Rattle.unit_top.specs.Posting.{IsBehind};
ghost use Rattle.unit_top.specs.Trace.{frame_posts};

use crate::draws::Draws;
use crate::fabric::{Output, open_fabric};
use crate::frame::frame_reply;
use conf_book::Book;
use itoa::Buffer;
use plain_fabric::Plain;
use script_frames::{Frame, frames_are_read_back};
use std::alloc::{AllocError, Global};
use unit_io::{Sink, Stop, write_all};
use unit_types::Handlers;

/// The request that puts the configuration: each of three paths goes to the handler of its name.
const PUT: &[u8] =
    b"PUT /config HTTP/1.1\r\nHost: u\r\nContent-Length: 411\r\n\r\n{\"applications\":{\"count\":{\"executable\":\"count\",\"type\":\"external\"},\"echo\":{\"executable\":\"echo\",\"type\":\"external\"},\"hello\":{\"executable\":\"hello\",\"type\":\"external\"}},\"listeners\":{\"*:8080\":{\"pass\":\"routes\"}},\"routes\":[{\"action\":{\"pass\":\"applications/hello\"},\"match\":{\"uri\":\"/hello\"}},{\"action\":{\"pass\":\"applications/echo\"},\"match\":{\"uri\":\"/echo\"}},{\"action\":{\"pass\":\"applications/count\"},\"match\":{\"uri\":\"/count\"}}]}";

/// The listener to which the requests come.
const LISTENER: &[u8] = b"*:8080";

/// What a load sums up. Replies are as long as memory allows, so that the bytes of many of them need more than 64 bits.
#[derive(Clone, Copy, Debug, Drop)]
pub struct Summary {
    /// The frames of the script.
    pub frames: u32,
    /// The bytes of the script.
    pub input: u128,
    /// The bytes that are written for it.
    pub output: u128,
    /// The steps that its requests make.
    pub steps: u128,
}

// How long the text is that tells how many bytes there are, LF, and the bytes.
fn counted_len(bytes: &[u8]) -> u128
    ensures value { result ≡ length (counted bytes.now) }
    ensures small { result < 2 ^ 65 }
{
    let mut buffer = Buffer::new();
    buffer.format(bytes.len()).len() as u128 + 1 + bytes.len() as u128
}

// How long the text of a frame is.
fn frame_len(frame: Frame<'_>) -> u128
    ensures value { result ≡ length (frame_text (said frame.entry)) }
    ensures small { result < 2 ^ 66 }
{
    match frame {
        Frame::Control(bytes) => 2 + counted_len(bytes),
        Frame::Connection { listener, bytes } | Frame::HungUp { listener, bytes } => {
            3 + listener.len() as u128 + counted_len(bytes)
        }
    }
}

/// Runs a frame, and counts it and what comes of it. No step is kept behind it.
///
/// Fails for want of memory alone.
fn count_frame<H: Handlers>(
    alloc: Global,
    handlers: &H,
    book: &mut Book,
    plain: &mut Plain<H>,
    frame: Frame<'_>,
    summary: &mut Summary,
) -> Result<(), AllocError>
    requires whole { plain.old.failed ≡ false }
    requires early { plain.old.drawn + 1000 < 2 ^ 48 }
    requires bare { plain.old.trace ≡ [] }
    requires few { summary.old.frames < 2 ^ 20 }
    requires small { IsSmall summary.old }
    ensures counted { OnOk result (summary.new ≡ counted_with H.reply_of book.old.names
        (documents_of book.old) plain.old (said frame.entry ∷ []) summary.old) }
    ensures documents { OnOk result (documents_of book.new ≡ (frame_outcome H.reply_of
        book.old.names (documents_of book.old) (said frame.entry)).documents) }
    ensures names { book.new.names ≡ book.old.names }
    ensures behind { OnOk result (IsBehind H.reply_of (frame_posts H.reply_of
        (documents_of book.old) (said frame.entry)) plain.old plain.new) }
    ensures whole { OnOk result (plain.new.failed ≡ false) }
    ensures bare { OnOk result (plain.new.trace ≡ []) }
    ensures drawn { OnOk result (plain.new.drawn ≤ plain.old.drawn + 1000) }
    ensures small { OnOk result (IsSmall summary.new) }
{
    let reply = frame_reply(alloc, handlers, book, plain, Output::Steps, frame)?;
    *summary = Summary {
        frames: summary.frames + 1,
        input: summary.input + frame_len(frame),
        output: summary.output + counted_len(reply.as_slice()),
        steps: summary.steps + plain.trace().len() as u128,
    };
    plain.forget_trace();
    Ok(())
}

/// Runs so many requests by draws from a seed, one at a time, and counts them.
///
/// Fails for want of memory alone.
fn count_requests<H: Handlers>(
    alloc: Global,
    handlers: &H,
    book: &mut Book,
    plain: &mut Plain<H>,
    requests: u16,
    seed: u64,
    mut summary: Summary,
) -> Result<Summary, AllocError>
    requires whole { plain.old.failed ≡ false }
    requires early { plain.old.drawn ≤ 1000 }
    requires bare { plain.old.trace ≡ [] }
    requires few { summary.frames ≤ 1 }
    requires small { IsSmall summary }
    ensures { IfOk result (λ all. all ≡ counted_with H.reply_of book.old.names
        (documents_of book.old) plain.old
        (map (Connection (codes "*:8080")) (requests_from requests seed)) summary) }
{
    let mut draws = Draws::of(seed);
    for _ in 0..requests {
        let request = draws.request(alloc)?;
        let frame = Frame::Connection {
            listener: LISTENER,
            bytes: request.as_slice(),
        };
        count_frame(alloc, handlers, book, plain, frame, &mut summary)?;
    }
    Ok(summary)
}

/// Runs a load of so many requests, and sums it up.
///
/// Fails for want of memory alone.
fn summed<H: Handlers>(
    alloc: Global,
    handlers: &H,
    requests: u16,
    seed: u64,
) -> Result<Summary, AllocError>
    ensures { IfOk result (λ summary. summary
        ≡ summary_of H.reply_of (H.listed handlers.now) requests seed) }
{
    // What its frames spell is a script of these frames.
    frames_are_read_back();
    let mut book = Book::open(alloc, handlers.names())?;
    let mut plain = open_fabric(alloc)?;
    let mut first = Summary {
        frames: 0,
        input: 0,
        output: 0,
        steps: 0,
    };
    let put = Frame::Control(PUT);
    count_frame(alloc, handlers, &mut book, &mut plain, put, &mut first)?;
    count_requests(
        alloc, handlers, &mut book, &mut plain, requests, seed, first,
    )
}

// The lines of a summary.
fn summary_text(alloc: Global, summary: Summary) -> Result<String, AllocError>
    ensures { IfOk result (λ text. string_bytes text ≡ summary_text summary) }
{
    let Summary {
        frames,
        input,
        output,
        steps,
    } = summary;
    format!(in alloc; "frames {frames}\nin {input}\nout {output}\nsteps {steps}\n")
}

/// What a load of so many requests comes to, in lines.
///
/// Fails for want of memory alone.
fn load_text<H: Handlers>(
    alloc: Global,
    handlers: &H,
    requests: u16,
    seed: u64,
) -> Result<String, AllocError>
    ensures { IfOk result (λ text. string_bytes text
        ≡ load_of H.reply_of (H.listed handlers.now) requests seed) }
{
    summary_text(alloc, summed(alloc, handlers, requests, seed)?)
}

/// Runs a made load of so many requests by draws from a seed, and writes what it sums up.
pub fn run_load<K: Sink, H: Handlers>(
    alloc: Global,
    requests: u16,
    seed: u64,
    out: &mut K,
    handlers: &H,
) -> Result<(), Stop>
    ensures outcome { EndsAs (Written (load_of H.reply_of (H.listed handlers.now) requests seed) 0)
        (status_in result) (K.written out.old) (K.written out.new) }
    ensures used { (status_in result ≢ 2) × (status_in result ≢ 3) × (status_in result ≢ 8)
        × (status_in result ≢ 6) }
    ensures failed { status_in result ≡ 4 → Rose (K.faults out.old) (K.faults out.new) }
    ensures kept { status_in result ≢ 4 → K.faults out.new ≡ K.faults out.old }
{
    let Ok(text) = load_text(alloc, handlers, requests, seed) else {
        return Err(Stop::Memory);
    };
    match write_all(out, text.as_bytes()) {
        Ok(()) => Ok(()),
        Err(_) => Err(Stop::Write),
    }
}
