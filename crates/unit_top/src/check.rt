//! The check of a trace, read in pieces.
ghost use Rattle.std.specs.Prelude.{◌≡◌, ◌≢◌, ◌⊎◌, ◌≤◌, ℕ, List, [], ◌∷◌, length, codes, Some, IfOk, IfErr, OnOk, string_bytes};
ghost use Rattle.trace_check.specs.declared.verdict.Verdict.TheVariants.{Broken};
ghost use Rattle.unit_io.specs.Causes.{Rose};
ghost use Rattle.unit_io.specs.Status.{input_limit, place_in, status_in, IsReadStop};
ghost use Rattle.unit_io.specs.Told.{Adds, AddsFront};
ghost use Rattle.unit_io.specs.declared.stop.Stop.TheVariants.{Memory, Write};
ghost use Rattle.unit_model.specs.Lines.{line};
ghost use Rattle.unit_top.specs.Check.{IsCheckRead, check_outcome, judged_status, verdict_outcome, verdict_status, verdict_text};
ghost use Rattle.unit_top.specs.Ends.{EndsAs, HasCauses, IsSilent};
ghost use Rattle.unit_top.specs.Outcome.{Refused};

use std::alloc::{AllocError, Global};
use trace_check::{Checker, Verdict};
use unit_io::{INPUT_LIMIT, Sink, Source, Stop, write_all};

/// How many bytes a read asks for.
const PIECE: usize = 65_536;

// A buffer for one read. The clause gives its length alone: its bytes don't matter.
fn room(alloc: Global) -> Result<Vec<u8>, AllocError>
    ensures { IfOk result (λ buffer. length buffer.items ≡ 65536) }
{
    vec![in alloc; 0u8; PIECE]
}

/// The verdict of the trace on the source. It is read in pieces, no further once a line decided.
///
/// Ends with `Stop::Read` where the source failed before a line decided, with
/// `Stop::Input(INPUT_LIMIT)` where the first that many bytes of a longer trace decide nothing, and
/// else with `Stop::Memory`.
fn judge<S: Source>(alloc: Global, src: &mut S) -> Result<Verdict, Stop>
    ensures verdict { IfOk result (λ verdict. (trace : List ℕ) → S.left src.old ≡ Some trace
        → check_outcome trace ≡ verdict_outcome verdict) }
    ensures stops { IfErr result (λ stop. IsReadStop stop) }
    ensures too_long { status_in result ≡ 6 → (trace : List ℕ) → S.left src.old ≡ Some trace
        → check_outcome trace ≡ Refused input_limit }
    ensures read { (trace : List ℕ) → S.left src.old ≡ Some trace
        → IsCheckRead (judged_status result) trace (S.left src.new) }
    ensures failed { status_in result ≡ 3 → Rose (S.faults src.old) (S.faults src.new) }
    ensures kept { status_in result ≢ 3 → S.faults src.new ≡ S.faults src.old }
{
    let Ok(mut buffer) = room(alloc) else {
        return Err(Stop::Memory);
    };
    let Ok(mut checker) = Checker::open(alloc) else {
        return Err(Stop::Memory);
    };
    let mut left = INPUT_LIMIT;
    loop {
        let Ok(n) = src.read(buffer.as_mut_slice()) else {
            return Err(Stop::Read);
        };
        if n == 0 {
            return Ok(checker.finish());
        }
        let piece = &buffer.as_slice()[..n.min(left)];
        if checker.feed(alloc, piece).is_err() {
            return Err(Stop::Memory);
        }
        if checker.decided() {
            return Ok(checker.finish());
        }
        if n > left {
            return Err(Stop::Input(INPUT_LIMIT as u64));
        }
        left -= n;
    }
}

// The first line of a legal trace.
fn steps_line(alloc: Global, steps: u64) -> Result<String, AllocError>
    ensures { IfOk result (λ text. string_bytes text ≡ line (codes "legal") (steps ∷ [])) }
{
    format!(in alloc; "legal {steps}\n")
}

// The second line of a legal trace.
fn chunks_line(alloc: Global, free: u64, chunks: u64) -> Result<String, AllocError>
    ensures { IfOk result (λ text. string_bytes text ≡ line (codes "chunks") (free ∷ chunks ∷ [])) }
{
    format!(in alloc; "chunks {free} {chunks}\n")
}

// The last line of a legal trace.
fn streams_line(
    alloc: Global,
    drawn: u64,
    accepted: u64,
    cancelled: u64,
    abandoned: u64,
    refused: u64,
    left_open: u64,
) -> Result<String, AllocError>
    ensures { IfOk result (λ text. string_bytes text ≡ line (codes "streams")
        (drawn ∷ accepted ∷ cancelled ∷ abandoned ∷ refused ∷ left_open ∷ [])) }
{
    format!(in alloc; "streams {drawn} {accepted} {cancelled} {abandoned} {refused} {left_open}\n")
}

// The lines that tell the verdict; none of a broken trace.
fn text_of(alloc: Global, verdict: Verdict) -> Result<String, AllocError>
    ensures { IfOk result (λ text. string_bytes text ≡ verdict_text verdict) }
{
    match verdict {
        Verdict::Broken(_) => Ok(String::new(alloc)),
        Verdict::Illegal {
            line,
            rule,
            want,
            found,
        } => format!(in alloc; "illegal {line} {rule} {want} {found}\n"),
        Verdict::Legal {
            steps,
            free,
            chunks,
            drawn,
            accepted,
            cancelled,
            abandoned,
            refused,
            left_open,
        } => {
            let mut text = steps_line(alloc, steps)?;
            text.push_str(&chunks_line(alloc, free, chunks)?)?;
            text.push_str(&streams_line(
                alloc, drawn, accepted, cancelled, abandoned, refused, left_open,
            )?)?;
            Ok(text)
        }
    }
}

// Writes the lines that tell the verdict.
fn write_text<K: Sink>(alloc: Global, verdict: Verdict, out: &mut K) -> Result<(), Stop>
    ensures all { OnOk result (Adds (K.written out.old) (K.written out.new)
        (verdict_text verdict)) }
    ensures front { AddsFront (K.written out.old) (K.written out.new) (verdict_text verdict) }
    ensures stops { IfErr result (λ stop. (stop ≡ Memory) ⊎ (stop ≡ Write)) }
    ensures failed { status_in result ≡ 4 → Rose (K.faults out.old) (K.faults out.new) }
    ensures kept { status_in result ≢ 4 → K.faults out.new ≡ K.faults out.old }
{
    let Ok(text) = text_of(alloc, verdict) else {
        return Err(Stop::Memory);
    };
    match write_all(out, text.as_bytes()) {
        Ok(()) => Ok(()),
        Err(_) => Err(Stop::Write),
    }
}

// Writes the verdict, and ends as it says.
fn tell_verdict<K: Sink>(alloc: Global, verdict: Verdict, out: &mut K) -> Result<(), Stop>
    ensures status { (status_in result ≡ verdict_status verdict)
        ⊎ ((status_in result ≡ 4) ⊎ (status_in result ≡ 5)) }
    ensures outcome { EndsAs (verdict_outcome verdict) (status_in result) (K.written out.old)
        (K.written out.new) }
    ensures place { status_in result ≡ 6 → verdict ≡ Broken (place_in result) }
    ensures silent { status_in result ≡ 6 → K.written out.new ≡ K.written out.old }
    ensures failed { status_in result ≡ 4 → Rose (K.faults out.old) (K.faults out.new) }
    ensures kept { status_in result ≢ 4 → K.faults out.new ≡ K.faults out.old }
{
    match verdict {
        Verdict::Broken(place) => Err(Stop::Input(place)),
        Verdict::Illegal { .. } => match write_text(alloc, verdict, out) {
            Ok(()) => Err(Stop::Illegal),
            Err(stop) => Err(stop),
        },
        Verdict::Legal { .. } => write_text(alloc, verdict, out),
    }
}

/// Checks the trace on the source, and writes its verdict to the sink.
pub fn run_check<S: Source, K: Sink>(alloc: Global, src: &mut S, out: &mut K) -> Result<(), Stop>
    ensures used { status_in result ≢ 2 }
    ensures outcome { (trace : List ℕ) → S.left src.old ≡ Some trace
        → EndsAs (check_outcome trace) (status_in result) (K.written out.old) (K.written out.new) }
    ensures place { status_in result ≡ 6 → (trace : List ℕ) → S.left src.old ≡ Some trace
        → check_outcome trace ≡ Refused (place_in result) }
    ensures read { (trace : List ℕ) → S.left src.old ≡ Some trace
        → IsCheckRead (status_in result) trace (S.left src.new) }
    ensures silent { IsSilent (status_in result) → K.written out.new ≡ K.written out.old }
    ensures causes { HasCauses (status_in result) (S.faults src.old) (S.faults src.new)
        (K.faults out.old) (K.faults out.new) }
{
    match judge(alloc, src) {
        Ok(verdict) => tell_verdict(alloc, verdict, out),
        Err(stop) => Err(stop),
    }
}
