//! The top call: words and an input in, an output and a status out.
ghost use Rattle.std.specs.Prelude.{◌≡◌, ◌≢◌, ◌⊎◌, ◌↔◌, true, length, map, string_bytes, ℕ, List, [], Some, None, Option};
ghost use Rattle.unit_io.specs.Causes.{Rose};
ghost use Rattle.unit_io.specs.Status.{input_limit, place_in, status_in};
ghost use Rattle.unit_io.specs.Told.{Adds, AddsFront};
ghost use Rattle.unit_top.specs.Check.{IsCheckRead};
ghost use Rattle.unit_top.specs.Command as words_asked;
ghost use Rattle.unit_top.specs.Command.{Check, Load, Trace, command_of, is_listed, is_reading};
ghost use Rattle.unit_top.specs.Ends.{EndsAs, HasCauses, IsInput, IsPlace, IsSilent, IsStatus, line_of_status, outcome_of};
ghost use Rattle.unit_top.specs.Laws.{IsLegalAtRest};
ghost use Rattle.unit_top.specs.Outcome.{once_outcome};
ghost use Rattle.unit_top.specs.Trace.{script_steps, script_trace};

use crate::check::run_check;
use crate::command::{Command, command_of};
use crate::fabric::Output;
use crate::load::run_load;
use crate::once::once;
use crate::script::run_script;
use std::alloc::Global;
use unit_io::{Sink, Source, Stop, read_all, write_all, write_line};
use unit_types::Handlers;

// One connection on the source, answered on the sink.
fn run_once<S: Source, K: Sink, H: Handlers>(
    alloc: Global,
    handler: &str,
    src: &mut S,
    out: &mut K,
    handlers: &H,
) -> Result<(), Stop>
    requires { is_listed (H.listed handlers.now) handler.now ≡ true }
    ensures used { (status_in result ≢ 2) × (status_in result ≢ 8) }
    ensures ended { status_in result ≡ 0 → (input : List ℕ) → S.left src.old ≡ Some input
        → S.left src.new ≡ Some [] }
    ensures outcome { (input : List ℕ) → S.left src.old ≡ Some input
        → EndsAs (once_outcome H.reply_of handler.now input) (status_in result)
        (K.written out.old) (K.written out.new) }
    ensures place { status_in result ≡ 6 → place_in result ≡ input_limit }
    ensures silent { IsSilent (status_in result) → K.written out.new ≡ K.written out.old }
    ensures causes { HasCauses (status_in result) (S.faults src.old) (S.faults src.new)
        (K.faults out.old) (K.faults out.new) }
{
    let input = match read_all(alloc, src) {
        Ok(input) => input,
        Err(stop) => return Err(stop),
    };
    let Ok(answer) = once(alloc, handlers, handler, input) else {
        return Err(Stop::Memory);
    };
    match write_all(out, answer.as_slice()) {
        Ok(()) => Ok(()),
        Err(_) => Err(Stop::Write),
    }
}

// Tells why the command ended, as far as `err` takes it, and gives the status.
fn end<E: Sink>(err: &mut E, ended: Result<(), Stop>) -> u8
    ensures status { result ≡ status_in ended }
    ensures line { (Rose (E.faults err.old) (E.faults err.new) → ⊥)
        → Adds (E.written err.old) (E.written err.new)
        (line_of_status (status_in ended) (place_in ended)) }
    ensures front { AddsFront (E.written err.old) (E.written err.new)
        (line_of_status (status_in ended) (place_in ended)) }
{
    match ended {
        Ok(()) => 0,
        Err(stop) => {
            let _ = write_line(err, stop);
            stop.status()
        }
    }
}

/// Runs the command that the words ask for, and gives its exit status.
///
/// The words are those behind the program's name. `once HANDLER` reads `src` to its end as the bytes of one connection,
/// sends each request to the handler of that name, and writes what the client gets to `out`. `exchange` and `trace` read
/// `src` to its end as a script: one writes what each of its frames gets, the other the lines of the steps that its requests
/// make on one thread. `check` reads `src` as a trace, until a line is broken or its step not enabled, and writes its verdict.
/// `load N SEED` reads nothing: it makes a script of N requests by draws from SEED, and writes how many frames and bytes that has,
/// how many bytes `exchange` writes for it, and how many lines `trace` does.
///
/// | Status | Line on `err` | Comes |
/// |---|---|---|
/// | 0 | none | all is done, and the trace of `check` legal |
/// | 2 | `unit: usage` | exactly where the words are no form, or HANDLER is no name; N is 1 to 10,000, SEED below 2^64 |
/// | 3 | `unit: read` | only where the faults of `src` rose, and before a line of a trace decided; nothing was written |
/// | 4 | `unit: write` | only where the faults of `out` rose; a front of the output was written |
/// | 5 | `unit: memory` | for want of memory; a front of the output was written |
/// | 6 | `unit: input N` | exactly where the input is refused at N; nothing was written |
/// | 8 | `unit: illegal` | exactly where the first line of the trace that decides is a step that isn't enabled; all was written |
///
/// An input of more than 268,435,456 bytes is refused at this limit, a trace only where its first that many bytes decide
/// nothing. Else a script is refused at the byte where its first broken frame begins, and a trace where the first line that
/// decides begins, if that line is broken.
///
/// 6 yields to 3 and 5, and 8 to 3, 4 and 5; `load` never ends with 3 or 6. Of the input and of what was written the clauses speak where `src` and `out`
/// tell it. An `err` that fails changes no status.
pub fn unit_top<S: Source, K: Sink, E: Sink, H: Handlers>(
    alloc: Global,
    words: &[String],
    src: &mut S,
    out: &mut K,
    err: &mut E,
    handlers: &H,
) -> u8
    ensures status { IsStatus result }
    ensures usage { (result ≡ 2) ↔
        (command_of (H.listed handlers.now) (map string_bytes words.now) ≡ None) }
    ensures unread { result ≡ 2
        → (S.left src.new ≡ S.left src.old) × (S.faults src.new ≡ S.faults src.old) }
    ensures ended { result ≡ 0
        → is_reading (command_of (H.listed handlers.now) (map string_bytes words.now)) ≡ true
        → (input : List ℕ) → S.left src.old ≡ Some input → S.left src.new ≡ Some [] }
    ensures outcome { (command : words_asked.Command) → command_of (H.listed handlers.now)
        (map string_bytes words.now) ≡ Some command → (input : List ℕ)
        → IsInput command (S.left src.old) input
        → EndsAs (outcome_of H.reply_of (H.listed handlers.now) command input) result (K.written out.old)
        (K.written out.new) }
    ensures check { command_of (H.listed handlers.now) (map string_bytes words.now) ≡ Some Check
        → (trace : List ℕ) → S.left src.old ≡ Some trace
        → IsCheckRead result trace (S.left src.new) }
    ensures trace { result ≡ 0 → command_of (H.listed handlers.now) (map string_bytes words.now)
        ≡ Some Trace → (input : List ℕ) → S.left src.old ≡ Some input
        → IsLegalAtRest (script_trace H.reply_of (H.listed handlers.now) input)
        (length (script_steps H.reply_of (H.listed handlers.now) input)) }
    ensures load { (requests seed : ℕ) → command_of (H.listed handlers.now)
        (map string_bytes words.now) ≡ Some (Load requests seed)
        → (S.left src.new ≡ S.left src.old) × (S.faults src.new ≡ S.faults src.old) }
    ensures silent { IsSilent result → K.written out.new ≡ K.written out.old }
    ensures causes { HasCauses result (S.faults src.old) (S.faults src.new) (K.faults out.old)
        (K.faults out.new) }
    ensures line { (place : ℕ)
        × ((Rose (E.faults err.old) (E.faults err.new) → ⊥)
        → Adds (E.written err.old) (E.written err.new) (line_of_status result place))
        × AddsFront (E.written err.old) (E.written err.new) (line_of_status result place)
        × (result ≡ 6 → (command : words_asked.Command) → command_of (H.listed handlers.now)
        (map string_bytes words.now) ≡ Some command
        → IsPlace H.reply_of (H.listed handlers.now) command (S.left src.old) place) }
{
    match command_of(handlers.names(), words) {
        Some(Command::Once(handler)) => end(err, run_once(alloc, handler, src, out, handlers)),
        Some(Command::Exchange) => {
            end(err, run_script(alloc, src, out, handlers, Output::Replies))
        }
        Some(Command::Trace) => end(err, run_script(alloc, src, out, handlers, Output::Steps)),
        Some(Command::Check) => end(err, run_check(alloc, src, out)),
        Some(Command::Load { requests, seed }) => {
            end(err, run_load(alloc, requests, seed, out, handlers))
        }
        None => end(err, Err(Stop::Usage)),
    }
}
