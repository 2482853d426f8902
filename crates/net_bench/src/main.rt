//! What is timed of sockets: servers that answer each request with the same bytes, one over the link and one over the kit's
//! own poll; clients that load a server; and a link with two workers at rest. Without words it prints its words.
#![tactic(auto)]

ghost use Rattle.std.specs.Prelude.{◌<◌, length, IfOk};

mod echo;
mod load;
mod plain;
mod quiet;

use std::alloc::{AllocError, Global};
use std::{env, io};
use timed_sides::{named, print_words};

/// What can be run.
#[derive(Clone, Copy, Drop)]
enum Task {
    Echo,
    Plain,
    Load,
    Quiet,
}

/// The word of each task. The numbers behind it are: of `echo` and `plain` the port; of `load` the port, how many clients
/// ask, how many are silent, and milliseconds; of `quiet` milliseconds.
const WORDS: [(&str, Task); 4] = [
    ("echo", Task::Echo),
    ("plain", Task::Plain),
    ("load", Task::Load),
    ("quiet", Task::Quiet),
];

/// What a server answers: 79 bytes.
const REPLY: &[u8] =
    b"HTTP/1.1 200 OK\r\nContent-Type: text/plain\r\nContent-Length: 14\r\n\r\nHello, world!\n";

/// How a request ends.
const END: &[u8] = b"\r\n\r\n";

/// Bytes of a read.
const PIECE: usize = 16_384;

// The words behind the program's name.
fn words(rt: &HostRuntime) -> io::Result<Vec<String>> {
    let mut words = Vec::new(rt.alloc());
    for word in env::args(rt)?.skip(1) {
        words.push(word)?;
    }
    Ok(words)
}

// The number at that place among the words; 0 where none is there.
fn number(words: &[String], at: usize) -> u32 {
    match words.get(at) {
        Some(word) => word.as_str().parse::<u32>().unwrap_or(0),
        None => 0,
    }
}

// The port that stands first behind the task.
fn port(words: &[String]) -> u16 {
    u16::try_from(number(words, 1)).unwrap_or(0)
}

// A buffer for one read. The clause gives its length alone: its bytes don't matter.
fn room(alloc: Global) -> Result<Vec<u8>, AllocError>
    ensures { IfOk result (λ v. 0 < length v.items) }
{
    vec![in alloc; 0u8; PIECE]
}

fn main(rt: HostRuntime) -> io::Result<()> {
    let words = words(&rt)?;
    let words = words.as_slice();
    let Some(word) = words.first() else {
        return print_words(&rt, &WORDS);
    };
    match named(&WORDS, word) {
        Some(Task::Echo) => echo::serve(&rt, port(words)),
        Some(Task::Plain) => plain::serve(&rt, port(words)),
        Some(Task::Load) => {
            let active = number(words, 2) as usize;
            let idle = number(words, 3) as usize;
            load::load(&rt, port(words), active, idle, u64::from(number(words, 4)))
        }
        Some(Task::Quiet) => quiet::rest_for(&rt, u64::from(number(words, 1))),
        None => println!(rt; "net_bench: no such word: {word}"),
    }
}
