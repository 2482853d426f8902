//! What is timed of connections: one word a measurement, told as a ratio against something in the same run. Without words it
//! prints its words.
#![tactic(auto)]

mod connections;
mod echoes;
mod greetings;
mod handlers;

use std::{env, io};
use timed_sides::{named, print_words};

/// What can be measured.
#[derive(Clone, Copy, Drop)]
enum Measurement {
    Hello,
    Log,
    Echo,
}

/// The word of each measurement.
const WORDS: [(&str, Measurement); 3] = [
    ("conn-hello", Measurement::Hello),
    ("conn-log", Measurement::Log),
    ("conn-echo", Measurement::Echo),
];

impl Measurement {
    /// Measures, and prints what it found.
    fn run(self, rt: &HostRuntime) -> io::Result<()> {
        match self {
            Measurement::Hello => greetings::measure(rt),
            Measurement::Log => greetings::measure_log(rt),
            Measurement::Echo => echoes::measure(rt),
        }
    }
}

fn main(rt: HostRuntime) -> io::Result<()> {
    let Some(word) = env::args(&rt)?.nth(1) else {
        return print_words(&rt, &WORDS);
    };
    match named(&WORDS, &word) {
        Some(measurement) => measurement.run(&rt),
        None => println!(rt; "conn_bench: no such word: {word}"),
    }
}
