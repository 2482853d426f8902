//! The check of a trace from standard input, as the measure of a line's cost.

use std::io::{self, Read};
use trace_check::{Checker, Verdict};

/// Checks standard input as a trace, and prints whether it is legal.
pub fn measure(rt: &HostRuntime) -> io::Result<()> {
    let mut checker = Checker::open(rt.alloc())?;
    let mut buffer = [0u8; 65536];
    let mut source = rt.stdin();
    for _ in 0..65536u64 {
        let n = source.read(&mut buffer)?;
        if n == 0 {
            break;
        }
        checker.feed(rt.alloc(), &buffer[..n])?;
    }
    match checker.finish() {
        Verdict::Legal { .. } => println!(rt; "legal"),
        _ => println!(rt; "not legal"),
    }
}
