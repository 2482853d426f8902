//! The program `unit`: its handlers, and the standard streams under the commands.
#![tactic(auto)]

mod handlers;
#[cfg(test)]
mod tests;

use handlers::ProgramHandlers;
use std::alloc::{AllocError, Global};
use std::process::ExitCode;
use std::{env, io};
use unit_io::Sink;
use unit_net::{StdSink, StdSource};
use unit_top::unit_top;

// The words behind the program's name. A word that isn't UTF-8 makes them a faulty command line, as no words are.
fn command_words(rt: &HostRuntime) -> Result<Vec<String>, AllocError> {
    let mut words = Vec::new(rt.alloc());
    match env::args(rt) {
        Ok(args) => {
            for word in args.skip(1) {
                words.push(word)?;
            }
        }
        Err(error) if error.kind() == io::ErrorKind::OutOfMemory => return Err(AllocError),
        Err(_) => {}
    }
    Ok(words)
}

fn run(rt: &HostRuntime) -> Result<u8, AllocError> {
    let words = command_words(rt)?;
    let handlers = ProgramHandlers::open(rt.alloc())?;
    let mut source = StdSource::open(rt.alloc(), rt.stdin())?;
    let mut sink = StdSink::open(rt.stdout());
    let mut errors = StdSink::open(rt.stderr());
    Ok(unit_top(
        rt.alloc(),
        words.as_slice(),
        &mut source,
        &mut sink,
        &mut errors,
        &handlers,
    ))
}

fn main(rt: HostRuntime) -> ExitCode {
    match run(&rt) {
        Ok(status) => ExitCode::from(status),
        Err(AllocError) => {
            let _ = StdSink::open(rt.stderr()).write(b"unit: memory\n");
            ExitCode::from(5)
        }
    }
}
