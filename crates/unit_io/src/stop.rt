//! Why a program ends early: its exit status and the line that tells it.
ghost use Rattle.std.specs.Prelude.{◌≡◌, OnOk};
ghost use Rattle.unit_io.specs.Causes.{HasCause};
ghost use Rattle.unit_io.specs.Status.{status_of, line_of};
ghost use Rattle.unit_io.specs.Told.{Adds, AddsFront};

use crate::output::{write_all, write_both};
use crate::stream::{Failed, Sink};
use itoa::Buffer;

/// Why a program ended without doing its whole work.
#[derive(Clone, Copy, Debug, PartialEq, Eq, Drop)]
pub enum Stop {
    /// The words are no form of the command line.
    Usage,
    /// The source failed.
    Read,
    /// The sink failed.
    Write,
    /// There was no memory.
    Memory,
    /// The input is longer than its limit, which stands here, or broken: the place of the byte where the first broken
    /// part begins.
    Input(u64),
    /// A trace has a step that isn't enabled. All was written.
    Illegal,
}

impl Stop {
    /// The exit status.
    pub fn status(self) -> u8
        ensures { result ≡ status_of self }
    {
        match self {
            Stop::Usage => 2,
            Stop::Read => 3,
            Stop::Write => 4,
            Stop::Memory => 5,
            Stop::Input(_) => 6,
            Stop::Illegal => 8,
        }
    }
}

// Writes the line of an input that is too long or broken.
fn write_input_line<E: Sink>(err: &mut E, place: u64) -> Result<(), Failed>
    ensures all { OnOk result
        (Adds (E.written err.old) (E.written err.new) (line_of (Stop.Input place))) }
    ensures front { AddsFront (E.written err.old) (E.written err.new) (line_of (Stop.Input place)) }
    ensures cause { HasCause (E.faults err.old) (E.faults err.new) result }
{
    let mut buffer = Buffer::new();
    let digits = buffer.format(place).as_bytes();
    match write_both(err, b"unit: input ", digits) {
        Ok(()) => write_all(err, b"\n"),
        Err(failed) => Err(failed),
    }
}

/// Writes the line that tells the person at the terminal why the program ended, with its LF, or a front of it before a
/// fault.
pub fn write_line<E: Sink>(err: &mut E, stop: Stop) -> Result<(), Failed>
    ensures all { OnOk result (Adds (E.written err.old) (E.written err.new) (line_of stop)) }
    ensures front { AddsFront (E.written err.old) (E.written err.new) (line_of stop) }
    ensures cause { HasCause (E.faults err.old) (E.faults err.new) result }
{
    match stop {
        Stop::Usage => write_all(err, b"unit: usage\n"),
        Stop::Read => write_all(err, b"unit: read\n"),
        Stop::Write => write_all(err, b"unit: write\n"),
        Stop::Memory => write_all(err, b"unit: memory\n"),
        Stop::Input(place) => write_input_line(err, place),
        Stop::Illegal => write_all(err, b"unit: illegal\n"),
    }
}

#[cfg(test)]
mod tests {
    use super::*;
    use crate::memory::MemSink;

    #[test]
    fn tells_the_place_of_an_input(rt: HostRuntime) {
        let line = b"unit: input 211\n".as_slice();
        let mut sink = MemSink::open(rt.alloc(), Vec::new(rt.alloc()));
        if write_line(&mut sink, Stop::Input(211)).is_err() {
            // It found no memory, and a front of the line was written.
            assert!(rt; line.starts_with(sink.written()));
            sink = MemSink::open(rt.alloc(), Vec::new(rt.alloc()));
            assert!(rt; write_line(&mut sink, Stop::Input(211)).is_ok());
        }
        assert!(rt; sink.written() == line);
        assert_eq!(rt; Stop::Input(211).status(), 6);
    }
}
