//! Standard input read whole, as the measure for commands that do more with it.

use std::io::{self, Read};

const PIECE: usize = 65_536;

/// Reads standard input whole into a `Vec`, and prints its length.
pub fn measure(rt: &HostRuntime) -> io::Result<()> {
    let mut piece = vec![in rt.alloc(); 0u8; PIECE]?;
    let mut input = Vec::new(rt.alloc());
    let mut source = rt.stdin();
    for _ in 0..u64::MAX {
        let n = source.read(piece.as_mut_slice())?;
        if n == 0 {
            break;
        }
        input.extend_from_slice(&piece.as_slice()[..n])?;
    }
    let length = input.len();
    println!(rt; "{length}")
}
