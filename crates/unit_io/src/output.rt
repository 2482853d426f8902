//! The output, written to its end.
ghost use Rattle.std.specs.Prelude.{◌≡◌, ◌++◌, OnOk};
ghost use Rattle.unit_io.specs.Causes.{HasCause};
ghost use Rattle.unit_io.specs.Told.{Adds, AddsFront};

use crate::stream::{Failed, Sink};

/// Writes all the bytes, or a front of them before a fault.
pub fn write_all<K: Sink>(out: &mut K, bytes: &[u8]) -> Result<(), Failed>
    ensures all { OnOk result (Adds (K.written out.old) (K.written out.new) bytes.now) }
    ensures front { AddsFront (K.written out.old) (K.written out.new) bytes.now }
    ensures cause { HasCause (K.faults out.old) (K.faults out.new) result }
{
    let mut at = 0;
    while at < bytes.len() {
        match out.write(&bytes[at..]) {
            Ok(n) => at += n,
            Err(failed) => return Err(failed),
        }
    }
    Ok(())
}

/// Writes the first bytes and then the second ones, or a front of both before a fault.
pub fn write_both<K: Sink>(out: &mut K, first: &[u8], second: &[u8]) -> Result<(), Failed>
    ensures all { OnOk result
        (Adds (K.written out.old) (K.written out.new) (first.now ++ second.now)) }
    ensures front { AddsFront (K.written out.old) (K.written out.new) (first.now ++ second.now) }
    ensures cause { HasCause (K.faults out.old) (K.faults out.new) result }
{
    match write_all(out, first) {
        Ok(()) => write_all(out, second),
        Err(failed) => Err(failed),
    }
}

#[cfg(test)]
mod tests {
    use super::*;
    use crate::memory::MemSink;

    #[test]
    fn writes_to_the_end(rt: HostRuntime) {
        let mut sink = MemSink::open(rt.alloc(), Vec::new(rt.alloc()));
        let text = [7u8; 79];
        if write_all(&mut sink, &text).is_err() {
            // It found no memory; what was written is a front, and the rest can be written still.
            let at = sink.written().len();
            assert!(rt; at < text.len());
            assert!(rt; write_all(&mut sink, &text[at..]).is_ok());
        }
        assert!(rt; sink.written() == text.as_slice());
    }
}
