//! The lines of a trace, taken byte by byte.
ghost use Rattle.std.specs.Prelude.{◌≡◌, ◌+◌, ◌<◌, ◌≤◌, ◌^◌, ℕ, List, IfOk, OnOk, Some, None, length, IsTrue, [], ◌++◌};
ghost use Rattle.trace_check.specs.Bytes.{after_byte, after_bytes};
ghost use Rattle.trace_check.specs.Counted.{IsCounted, CountsOn};
ghost use Rattle.trace_check.specs.Reading.{Follows, Judges, Stands};
ghost use Rattle.trace_check.specs.Verdicts.{Passed, is_valid, on_line, on_shape, on_step, pass, plain_shape, beginning, going, on_rest, verdict_at, standing_of};
ghost use Rattle.unit_model.specs.Opening.{opened_core};
ghost use Rattle.unit_model.specs.Shapes.{IsValid};
ghost use Rattle.unit_model.specs.declared.machine.Core.{Core};

use crate::line::{shape_of, step_of};
use crate::machine::Machine;
use crate::verdict::Verdict;
use std::alloc::{AllocError, Global};
use unit_model::{Shape, Step};

/// A line of so many bytes is broken.
const LONG: usize = 256;

/// What a check keeps: the core after the lines that have passed, their numbers, and the text of the line under way.
#[derive(Debug, Drop)]
pub(crate) struct Reading {
    pub(crate) machine: Machine,
    pub(crate) steps: u64,
    pub(crate) lines: u64,
    // the byte where the line under way begins
    pub(crate) place: u64,
    pub(crate) text: Vec<u8>,
}

fn is_valid(shape: &Shape) -> bool
    ensures value { result ≡ is_valid shape.now }
    ensures valid { IsTrue result → IsValid shape.now }
{
    shape.valid()
}

impl Reading {
    /// Before the first line, with the plain shape. Fails for want of memory alone.
    pub(crate) fn open(alloc: Global) -> Result<Reading, AllocError>
        ensures follows { IfOk result (λ reading. Follows beginning [] reading) }
        ensures counted { IfOk result (λ reading. IsCounted reading 0) }
    {
        let shape = plain_shape();
        Ok(Reading {
            machine: Machine::open(alloc, &shape)?,
            steps: 0,
            lines: 0,
            place: 0,
            text: Vec::new(alloc),
        })
    }

    // The line under way has passed, with this number of steps.
    fn pass(&mut self, steps: u64)
        requires lines { self.old.lines + 1 < 2 ^ 64 }
        requires place { self.old.place + (length self.old.text.items + 1) < 2 ^ 64 }
        ensures counts { self.new ≡ record self.old {
          steps = steps;
          lines = self.old.lines + 1;
          place = self.old.place + (length self.old.text.items + 1);
          text = self.new.text;
        } }
        ensures text { self.new.text.items ≡ [] }
    {
        self.steps = steps;
        self.lines += 1;
        self.place += self.text.len() as u64 + 1;
        self.text.clear();
    }
}

impl Reading {
    // A line that says a step.
    fn take_step(&mut self, step: &Step) -> Result<Option<Verdict>, AllocError>
        requires steps { self.old.steps + 1 < 2 ^ 64 }
        requires lines { self.old.lines + 1 < 2 ^ 64 }
        requires place { self.old.place + (length self.old.text.items + 1) < 2 ^ 64 }
        ensures judges { IfOk result (λ verdict. (at : Passed) (text : List ℕ)
            → Follows at text self.old
            → Judges (on_step at text (Some step.now)) verdict self.new) }
        ensures counted { CountsOn self.old self.new }
    {
        match self.machine.step(step)? {
            Some(unmet) => Ok(Some(Verdict::Illegal {
                line: self.lines + 1,
                rule: unmet.rule,
                want: unmet.want,
                found: unmet.found,
            })),
            None => {
                self.pass(self.steps + 1);
                Ok(None)
            }
        }
    }

    // A line that says a shape.
    fn take_shape(&mut self, alloc: Global, shape: &Shape) -> Result<Option<Verdict>, AllocError>
        requires lines { self.old.lines + 1 < 2 ^ 64 }
        requires place { self.old.place + (length self.old.text.items + 1) < 2 ^ 64 }
        ensures judges { IfOk result (λ verdict. (at : Passed) (text : List ℕ)
            → Follows at text self.old
            → Judges (on_shape at text (Some shape.now)) verdict self.new) }
        ensures counted { CountsOn self.old self.new }
    {
        if self.lines != 0 || !is_valid(shape) {
            return Ok(Some(Verdict::Broken(self.place)));
        }
        self.machine = Machine::open(alloc, shape)?;
        self.pass(self.steps);
        Ok(None)
    }

    // The line under way has ended.
    fn end_line(&mut self, alloc: Global) -> Result<Option<Verdict>, AllocError>
        requires steps { self.old.steps + 1 < 2 ^ 64 }
        requires lines { self.old.lines + 1 < 2 ^ 64 }
        requires place { self.old.place + (length self.old.text.items + 1) < 2 ^ 64 }
        ensures judges { IfOk result (λ verdict. (at : Passed) (text : List ℕ)
            → Follows at text self.old
            → Judges (on_line at text) verdict self.new) }
        ensures counted { CountsOn self.old self.new }
    {
        if self.text.len() >= LONG {
            return Ok(Some(Verdict::Broken(self.place)));
        }
        if let Some(shape) = shape_of(self.text.as_slice()) {
            return self.take_shape(alloc, &shape);
        }
        match step_of(self.text.as_slice()) {
            Some(step) => self.take_step(&step),
            None => Ok(Some(Verdict::Broken(self.place))),
        }
    }

    // Takes the next byte.
    fn take_byte(&mut self, alloc: Global, byte: u8) -> Result<Option<Verdict>, AllocError>
        requires steps { self.old.steps + 1 < 2 ^ 64 }
        requires lines { self.old.lines + 1 < 2 ^ 64 }
        requires place { self.old.place + (length self.old.text.items + 1) < 2 ^ 64 }
        ensures stands { IfOk result (λ verdict. (at : Passed) (text : List ℕ)
            → Follows at text self.old
            → Stands (after_byte (going at text) byte) verdict self.new) }
        ensures counted { CountsOn self.old self.new }
    {
        if byte == b'\n' {
            return self.end_line(alloc);
        }
        match self.text.push(byte) {
            Ok(()) => Ok(self.too_long()),
            Err(_) => Err(AllocError),
        }
    }

    // A line that is too long, though it hasn't ended.
    fn too_long(&self) -> Option<Verdict>
        ensures { (at : Passed) (text : List ℕ) → Follows at text self.now
            → Stands (on_rest at text) result self.now }
    {
        if self.text.len() >= LONG {
            Some(Verdict::Broken(self.place))
        } else {
            None
        }
    }

    /// Takes the bytes in turn, until the verdict is decided. Fails for want of memory alone.
    pub(crate) fn take(
        &mut self,
        alloc: Global,
        piece: &[u8],
    ) -> Result<Option<Verdict>, AllocError>
        requires counted { (bytes : ℕ) × IsCounted self.old bytes
            × (bytes + length piece.now < 2 ^ 64) }
        ensures stands { IfOk result (λ verdict. (at : Passed) (text : List ℕ)
            → Follows at text self.old
            → Stands (after_bytes (going at text) piece.now) verdict self.new) }
        ensures counted { (bytes : ℕ) → IsCounted self.old bytes
            → IsCounted self.new (bytes + length piece.now) }
    {
        for byte in piece {
            let verdict = self.take_byte(alloc, *byte)?;
            if verdict.is_some() {
                return Ok(verdict);
            }
        }
        Ok(None)
    }
}

impl Reading {
    /// The verdict where no more bytes come. It takes no memory.
    pub(crate) fn verdict_at_end(&self) -> Verdict
        ensures { (at : Passed) (text : List ℕ) → Follows at text self.now
            → result ≡ verdict_at (going at text) }
    {
        if !self.text.is_empty() {
            return Verdict::Broken(self.place);
        }
        let tally = self.machine.tally();
        Verdict::Legal {
            steps: self.steps,
            free: tally.free,
            chunks: tally.chunks,
            drawn: tally.drawn,
            accepted: tally.accepted,
            cancelled: tally.cancelled,
            abandoned: tally.abandoned,
            refused: tally.refused,
            left_open: tally.left_open,
        }
    }
}

impl Reading {
    /// Takes the bytes in turn, given the verdict where it is decided, until it is. Fails for want of memory alone.
    pub(crate) fn go_on(
        &mut self,
        alloc: Global,
        verdict: Option<Verdict>,
        piece: &[u8],
    ) -> Result<Option<Verdict>, AllocError>
        requires counted { (bytes : ℕ) × IsCounted self.old bytes
            × (bytes + length piece.now < 2 ^ 64) }
        ensures stands { IfOk result (λ after. (bytes : List ℕ)
            → Stands (standing_of bytes) verdict self.old
            → Stands (standing_of (bytes ++ piece.now)) after self.new) }
        ensures counted { (bytes : ℕ) → IsCounted self.old bytes
            → IsCounted self.new (bytes + length piece.now) }
    {
        if verdict.is_some() {
            return Ok(verdict);
        }
        let after = self.take(alloc, piece)?;
        Ok(after)
    }
}

fn plain_shape() -> Shape
    ensures value { result ≡ plain_shape }
    ensures valid { IsValid result }
{
    Shape {
        items: 8,
        back_items: 8,
        out_segments: 1,
        back_segments: 1,
        engines: 1,
        workers: 1,
        start: 8,
    }
}
