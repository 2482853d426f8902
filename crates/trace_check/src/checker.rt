//! The check of a trace that comes in pieces.
ghost use Rattle.std.specs.Prelude.{◌≡◌, ◌+◌, ◌<◌, ◌^◌, ◌++◌, [], ℕ, List, IfOk, OnOk, OnErr, IsOk, true, false, length};
ghost use Rattle.trace_check.specs.Counted.{IsCounted};

use crate::reading::Reading;
use crate::verdict::Verdict;
use std::alloc::{AllocError, Global};

/// Checks a trace, whose bytes come in any pieces.
///
/// A trace is lines, each with LF: a step's kind in lower case and then its numbers in decimal, each after one space. In
/// front of them one line `shape ITEMS BACK_ITEMS OUT BACK ENGINES WORKERS START` may stand; without it the shape has 8 items
/// and 8 back items, one segment a side, one engine, one worker, and places from 8 on.
///
/// Of the bytes it keeps those of the line under way. Its memory is in proportion to the streams, the items and the chunks
/// that someone has.
#[derive(Debug, Drop)]
pub struct Checker {
    pub(crate) reading: Reading,
    pub(crate) verdict: Option<Verdict>,
    // how many bytes came
    pub(crate) read: u64,
    // memory ran out, so that the rest says nothing
    pub(crate) failed: bool,
    ghost counted: { IsCounted reading read },
}

impl Checker {
    ghost use Rattle.trace_check.specs.Checking.{HasRead, bytes_read, has_failed};
    ghost use Rattle.trace_check.specs.Verdicts.{is_decided, standing_of, verdict_of};

    /// A checker that was fed no bytes.
    ///
    /// Fails for want of memory alone.
    pub fn open(alloc: Global) -> Result<Checker, AllocError>
        ensures read { IfOk result (λ checker. HasRead checker []) }
        ensures count { IfOk result (λ checker. bytes_read checker ≡ 0) }
        ensures whole { IfOk result (λ checker. has_failed checker ≡ false) }
    {
        Ok(Checker {
            reading: Reading::open(alloc)?,
            verdict: None,
            read: 0,
            failed: false,
        })
    }

    /// Takes the next bytes of the trace. However they are cut into pieces, the verdict is that of the whole.
    ///
    /// # Errors
    ///
    /// Want of memory alone. The checker has then failed: every later call of this answers the same, and there is no verdict.
    pub fn feed(&mut self, alloc: Global, piece: &[u8]) -> Result<(), AllocError>
        requires { bytes_read self.old + length piece.now < 2 ^ 64 }
        ensures fed { OnOk result ((bytes : List ℕ) → HasRead self.old bytes
            → HasRead self.new (bytes ++ piece.now)) }
        ensures count { OnOk result (bytes_read self.new ≡ bytes_read self.old + length piece.now) }
        ensures whole { OnOk result (has_failed self.new ≡ false) }
        ensures failed { OnErr result (has_failed self.new ≡ true) }
        ensures stays { has_failed self.old ≡ true → has_failed self.new ≡ true }
    {
        if self.failed {
            return Err(AllocError);
        }
        let taken = self.reading.go_on(alloc, self.verdict, piece);
        self.read += piece.len() as u64;
        match taken {
            Ok(verdict) => {
                self.verdict = verdict;
                Ok(())
            }
            Err(AllocError) => {
                self.failed = true;
                Err(AllocError)
            }
        }
    }

    /// Whether a line of the bytes so far is broken or its step not enabled, so that no later byte changes the verdict.
    pub fn decided(&self) -> bool
        ensures { (bytes : List ℕ) → HasRead self.now bytes
            → result ≡ is_decided (standing_of bytes) }
    {
        self.verdict.is_some()
    }

    /// Whether memory ran out.
    pub fn failed(&self) -> bool
        ensures { result ≡ has_failed self.now }
    {
        self.failed
    }

    /// The verdict of the bytes so far. It takes no memory, and the checker stays as it was.
    pub fn finish(&mut self) -> Verdict
        requires { has_failed self.old ≡ false }
        ensures verdict { (bytes : List ℕ) → HasRead self.old bytes → result ≡ verdict_of bytes }
        ensures kept { self.new ≡ self.old }
    {
        match self.verdict {
            Some(verdict) => verdict,
            None => self.reading.verdict_at_end(),
        }
    }
}
