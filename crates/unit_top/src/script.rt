//! A script of control requests and connections: what each of its frames gets, or the steps that its requests make.
ghost use Rattle.std.specs.Prelude.{◌≡◌, ◌≢◌, ◌⊎◌, ◌+◌, ◌*◌, ◌<◌, ◌≤◌, ◌^◌, ℕ, List, [], Some, false, length, IfErr, IfOk, OnOk};
ghost use Rattle.conf_book.specs.Books.{documents_of};
ghost use Rattle.plain_fabric.specs.Laws.{AllCanPass};
ghost use Rattle.script_frames.specs.Frames.{broken_at, frames_of};
ghost use Rattle.script_frames.specs.Left.{said};
ghost use Rattle.script_frames.specs.Spelling.{counted};
ghost use Rattle.trace_check.specs.Traces as lines;
ghost use Rattle.unit_io.specs.Causes.{HasCause, Rose};
ghost use Rattle.unit_io.specs.Status.{input_limit, place_in, status_in};
ghost use Rattle.unit_io.specs.Told.{Adds, AddsFront};
ghost use Rattle.unit_io.specs.declared.stop.Stop.TheVariants.{Memory, Write};
ghost use Rattle.unit_top.specs.Ends.{EndsAs, HasCauses, IsSilent};
ghost use Rattle.unit_top.specs.Exchange.{frame_outcome};
ghost use Rattle.unit_top.specs.Laws.{IsLegalAtRest};
ghost use Rattle.unit_top.specs.Outcome.{Refused, frames_outcome};
ghost use Rattle.unit_top.specs.Posting.{IsBehind, passed_in};
ghost use Rattle.unit_top.specs.Scripts.{frame_text, frames_text, script_text, text_outcome, told_text};
ghost use Rattle.unit_top.specs.Trace.{frame_posts, posts_from, script_steps, script_trace};

use crate::fabric::{Output, open_fabric};
use crate::frame::frame_reply;
use crate::laws::traces_are_legal;
use conf_book::Book;
use itoa::Buffer;
use plain_fabric::Plain;
use script_frames::{Frame, broken_at, frames_in};
use std::alloc::{AllocError, Global};
use unit_io::{Failed, Sink, Source, Stop, read_all, write_all, write_both};
use unit_model::{Step, step_line};
use unit_types::{Bytes, Handlers};

/// Writes how many bytes there are, LF, and the bytes, or a front of that before a fault.
fn write_counted<K: Sink>(out: &mut K, bytes: &[u8]) -> Result<(), Failed>
    ensures all { OnOk result (Adds (K.written out.old) (K.written out.new) (counted bytes.now)) }
    ensures front { AddsFront (K.written out.old) (K.written out.new) (counted bytes.now) }
    ensures cause { HasCause (K.faults out.old) (K.faults out.new) result }
{
    let mut buffer = Buffer::new();
    let digits = buffer.format(bytes.len()).as_bytes();
    match write_both(out, digits, b"\n") {
        Ok(()) => write_all(out, bytes),
        Err(failed) => Err(failed),
    }
}

// The lines of the steps, one after another.
fn lines_of(alloc: Global, steps: &[Step]) -> Result<Bytes, AllocError>
    ensures { IfOk result (λ text. text ≡ lines.trace_of steps.now) }
{
    let mut text = Bytes::of(Vec::new(alloc));
    for step in steps {
        step_line(alloc, step, &mut text)?;
    }
    Ok(text)
}

/// Writes the reply behind its length, or the lines of the steps that the fabric keeps, or a front of that.
fn write_told<K: Sink, H: Handlers>(
    alloc: Global,
    plain: &Plain<H>,
    output: Output,
    reply: &[u8],
    out: &mut K,
) -> Result<(), Stop>
    ensures all { OnOk result (Adds (K.written out.old) (K.written out.new) (told_text output
        reply.now plain.now.trace)) }
    ensures front { AddsFront (K.written out.old) (K.written out.new) (told_text output reply.now
        plain.now.trace) }
    ensures stops { IfErr result (λ stop. (stop ≡ Memory) ⊎ (stop ≡ Write)) }
    ensures failed { status_in result ≡ 4 → Rose (K.faults out.old) (K.faults out.new) }
    ensures kept { status_in result ≢ 4 → K.faults out.new ≡ K.faults out.old }
{
    let written = match output {
        Output::Replies => write_counted(out, reply),
        Output::Steps => match lines_of(alloc, plain.trace()) {
            Ok(text) => write_all(out, text.as_slice()),
            Err(_) => return Err(Stop::Memory),
        },
    };
    match written {
        Ok(()) => Ok(()),
        Err(_) => Err(Stop::Write),
    }
}

/// Writes what a frame gets, or the lines of its steps, or a front of that. No step is kept behind it.
fn write_frame<K: Sink, H: Handlers>(
    alloc: Global,
    handlers: &H,
    book: &mut Book,
    plain: &mut Plain<H>,
    output: Output,
    frame: Frame<'_>,
    out: &mut K,
) -> Result<(), Stop>
    requires whole { plain.old.failed ≡ false }
    requires early { plain.old.drawn + 1000 < 2 ^ 48 }
    requires bare { plain.old.trace ≡ [] }
    ensures all { OnOk result (Adds (K.written out.old) (K.written out.new) (frame_text output
        H.reply_of book.old.names (documents_of book.old) plain.old (said frame.entry))) }
    ensures front { AddsFront (K.written out.old) (K.written out.new) (frame_text output
        H.reply_of book.old.names (documents_of book.old) plain.old (said frame.entry)) }
    ensures documents { OnOk result (documents_of book.new ≡ (frame_outcome H.reply_of
        book.old.names (documents_of book.old) (said frame.entry)).documents) }
    ensures names { book.new.names ≡ book.old.names }
    ensures behind { OnOk result (IsBehind H.reply_of (frame_posts H.reply_of
        (documents_of book.old) (said frame.entry)) plain.old plain.new) }
    ensures passes { OnOk result (AllCanPass (passed_in H.reply_of plain.old (frame_posts
        H.reply_of (documents_of book.old) (said frame.entry)))) }
    ensures whole { OnOk result (plain.new.failed ≡ false) }
    ensures bare { OnOk result (plain.new.trace ≡ []) }
    ensures few { OnOk result (plain.new.drawn ≤ plain.old.drawn + 1000) }
    ensures stops { IfErr result (λ stop. (stop ≡ Memory) ⊎ (stop ≡ Write)) }
    ensures failed { status_in result ≡ 4 → Rose (K.faults out.old) (K.faults out.new) }
    ensures kept { status_in result ≢ 4 → K.faults out.new ≡ K.faults out.old }
{
    let Ok(reply) = frame_reply(alloc, handlers, book, plain, output, frame) else {
        return Err(Stop::Memory);
    };
    match write_told(alloc, plain, output, reply.as_slice(), out) {
        Ok(()) => {
            plain.forget_trace();
            Ok(())
        }
        Err(stop) => Err(stop),
    }
}

/// Writes of each frame what it gets, or the lines of its steps, frame by frame, so that no memory is needed for what
/// was written.
fn write_frames<K: Sink, H: Handlers>(
    alloc: Global,
    handlers: &H,
    book: &mut Book,
    plain: &mut Plain<H>,
    output: Output,
    input: &[u8],
    out: &mut K,
) -> Result<(), Stop>
    requires whole { plain.old.failed ≡ false }
    requires early { plain.old.drawn + 1000 * length (frames_of input.now) < 2 ^ 48 }
    requires bare { plain.old.trace ≡ [] }
    ensures all { OnOk result (Adds (K.written out.old) (K.written out.new) (frames_text output
        H.reply_of book.old.names (documents_of book.old) plain.old (frames_of input.now))) }
    ensures front { AddsFront (K.written out.old) (K.written out.new) (frames_text output
        H.reply_of book.old.names (documents_of book.old) plain.old (frames_of input.now)) }
    ensures passes { OnOk result (AllCanPass (passed_in H.reply_of plain.old (posts_from H.reply_of
        book.old.names (documents_of book.old) (frames_of input.now)))) }
    ensures few { OnOk result (length (posts_from H.reply_of book.old.names (documents_of book.old)
        (frames_of input.now)) ≤ 2 ^ 48) }
    ensures stops { IfErr result (λ stop. (stop ≡ Memory) ⊎ (stop ≡ Write)) }
    ensures failed { status_in result ≡ 4 → Rose (K.faults out.old) (K.faults out.new) }
    ensures kept { status_in result ≢ 4 → K.faults out.new ≡ K.faults out.old }
{
    for frame in frames_in(input) {
        if let Err(stop) = write_frame(alloc, handlers, book, plain, output, frame, out) {
            return Err(stop);
        }
    }
    Ok(())
}

/// Writes what a script that is there gets, or its trace.
fn script<K: Sink, H: Handlers>(
    alloc: Global,
    handlers: &H,
    output: Output,
    input: &[u8],
    out: &mut K,
) -> Result<(), Stop>
    requires { length input.now ≤ input_limit }
    ensures used { (status_in result ≢ 2) × (status_in result ≢ 3) × (status_in result ≢ 8) }
    ensures outcome { EndsAs (frames_outcome (script_text output H.reply_of
        (H.listed handlers.now) input.now) (broken_at input.now)) (status_in result)
        (K.written out.old) (K.written out.new) }
    ensures place { status_in result ≡ 6 → frames_outcome (script_text output H.reply_of
        (H.listed handlers.now) input.now) (broken_at input.now) ≡ Refused (place_in result) }
    ensures legal { status_in result ≡ 0 → IsLegalAtRest (script_trace H.reply_of
        (H.listed handlers.now) input.now) (length (script_steps H.reply_of (H.listed handlers.now)
        input.now)) }
    ensures silent { status_in result ≡ 6 → K.written out.new ≡ K.written out.old }
    ensures failed { status_in result ≡ 4 → Rose (K.faults out.old) (K.faults out.new) }
    ensures kept { status_in result ≢ 4 → K.faults out.new ≡ K.faults out.old }
{
    // Each request could pass, so the steps are a legal run.
    traces_are_legal();
    if let Some(place) = broken_at(input) {
        return Err(Stop::Input(place as u64));
    }
    let Ok(mut book) = Book::open(alloc, handlers.names()) else {
        return Err(Stop::Memory);
    };
    let Ok(mut plain) = open_fabric(alloc) else {
        return Err(Stop::Memory);
    };
    write_frames(alloc, handlers, &mut book, &mut plain, output, input, out)
}

/// Reads the script on the source, and writes to the sink what each of its frames gets, or the lines of the steps that
/// its requests make.
pub fn run_script<S: Source, K: Sink, H: Handlers>(
    alloc: Global,
    src: &mut S,
    out: &mut K,
    handlers: &H,
    output: Output,
) -> Result<(), Stop>
    ensures used { (status_in result ≢ 2) × (status_in result ≢ 8) }
    ensures ended { status_in result ≡ 0 → (input : List ℕ) → S.left src.old ≡ Some input
        → S.left src.new ≡ Some [] }
    ensures outcome { (input : List ℕ) → S.left src.old ≡ Some input
        → EndsAs (text_outcome output H.reply_of (H.listed handlers.now) input) (status_in result)
        (K.written out.old) (K.written out.new) }
    ensures place { status_in result ≡ 6 → (input : List ℕ) → S.left src.old ≡ Some input
        → text_outcome output H.reply_of (H.listed handlers.now) input ≡ Refused (place_in result) }
    ensures legal { status_in result ≡ 0 → (input : List ℕ) → S.left src.old ≡ Some input
        → IsLegalAtRest (script_trace H.reply_of (H.listed handlers.now) input)
        (length (script_steps H.reply_of (H.listed handlers.now) input)) }
    ensures silent { IsSilent (status_in result) → K.written out.new ≡ K.written out.old }
    ensures causes { HasCauses (status_in result) (S.faults src.old) (S.faults src.new)
        (K.faults out.old) (K.faults out.new) }
{
    match read_all(alloc, src) {
        Ok(input) => script(alloc, handlers, output, input.as_slice(), out),
        Err(stop) => Err(stop),
    }
}
