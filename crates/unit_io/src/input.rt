//! The input, read to its end.
ghost use Rattle.std.specs.Prelude.{◌≡◌, ◌≢◌, ◌≤◌, ◌<◌, length, ℕ, List, Some, IfOk, IfErr};
ghost use Rattle.unit_io.specs.Causes.{Rose};
ghost use Rattle.unit_io.specs.Told.{TakesAll};
ghost use Rattle.unit_io.specs.Status.{input_limit, status_in, IsReadStop};

use crate::stop::Stop;
use crate::stream::Source;
use std::alloc::{AllocError, Global};
use unit_types::Bytes;

/// Bytes of an input. Kept where it is read to its end; a longer one ends the program with status 6.
pub const INPUT_LIMIT: usize = 268_435_456;

/// How many bytes a read asks for.
const PIECE: usize = 65_536;

// A buffer for one read. The clause gives its length alone: its bytes don't matter.
fn room(alloc: Global) -> Result<Vec<u8>, AllocError>
    ensures { IfOk result (λ v. 0 < length v.items) }
{
    vec![in alloc; 0u8; PIECE]
}

/// All that the source has.
///
/// Ends with `Stop::Read` where the source failed, with `Stop::Input(INPUT_LIMIT)` where it has more bytes than that,
/// and else with `Stop::Memory`.
pub fn read_all<S: Source>(alloc: Global, src: &mut S) -> Result<Bytes, Stop>
    ensures all { IfOk result (λ input. TakesAll (S.left src.old) (S.left src.new) input) }
    ensures short { IfOk result (λ input. length input ≤ input_limit) }
    ensures read { IfErr result (λ stop. IsReadStop stop) }
    ensures failed { status_in result ≡ 3 → Rose (S.faults src.old) (S.faults src.new) }
    ensures kept { status_in result ≢ 3 → S.faults src.new ≡ S.faults src.old }
    ensures too_long { status_in result ≡ 6
        → (input : List ℕ) → S.left src.old ≡ Some input → input_limit < length input }
{
    let Ok(mut buf) = room(alloc) else {
        return Err(Stop::Memory);
    };
    let mut input = Bytes::of(Vec::new(alloc));
    let mut size = 0;
    loop {
        let Ok(n) = src.read(buf.as_mut_slice()) else {
            return Err(Stop::Read);
        };
        if n == 0 {
            return Ok(input);
        }
        if n > INPUT_LIMIT - size {
            return Err(Stop::Input(INPUT_LIMIT as u64));
        }
        if input.append(&buf.as_slice()[..n]).is_err() {
            return Err(Stop::Memory);
        }
        size += n;
    }
}

#[cfg(test)]
mod tests {
    use super::*;
    use crate::memory::MemSource;
    use crate::trial::{copied, room};
    use std::alloc::AllocGlobal;
    use std::process::Abort;

    fn source(rt: &(impl Abort + AllocGlobal)) -> MemSource {
        let mut pieces = room(rt, 1);
        pieces.push(2).expect(rt, "pushed");
        MemSource::open(copied(rt, b"abc"), pieces, Vec::new(rt.alloc()))
    }

    #[test]
    fn reads_to_the_end(rt: HostRuntime) {
        let alloc = rt.alloc();
        let mut input = read_all(alloc, &mut source(&rt));
        if let Err(stop) = input {
            assert_eq!(rt; stop, Stop::Memory);
            input = read_all(alloc, &mut source(&rt));
        }
        assert!(rt; input.expect(&rt, "read").as_slice() == b"abc".as_slice());
    }
}
