//! What is timed of requests and texts: one word a measurement, told as a ratio against something in the same run.
//! Without words it prints its words.
#![tactic(auto)]

mod conns;
mod grammars;
mod heads;
mod input;
mod memory;
mod records;
mod traces;

use std::{env, io};
use timed_sides::{named, print_words};

/// What can be measured.
#[derive(Clone, Copy, Drop)]
enum Measurement {
    Input,
    NormalPath,
    Matches,
    Expand,
    WriteRecord,
    ReadRecord,
    Trace,
    NextHead,
    Pipelined,
    HeadBytes,
    ChunkBytes,
    ConnReads,
    EmptyLines,
    SmallChunks,
}

/// The word of each measurement.
const WORDS: [(&str, Measurement); 14] = [
    ("read-input", Measurement::Input),
    ("normal-path", Measurement::NormalPath),
    ("matches", Measurement::Matches),
    ("expand", Measurement::Expand),
    ("write-record", Measurement::WriteRecord),
    ("read-record", Measurement::ReadRecord),
    ("check-trace", Measurement::Trace),
    ("next-head", Measurement::NextHead),
    ("pipelined", Measurement::Pipelined),
    ("head-bytes", Measurement::HeadBytes),
    ("chunk-bytes", Measurement::ChunkBytes),
    ("conn-reads", Measurement::ConnReads),
    ("empty-lines", Measurement::EmptyLines),
    ("small-chunks", Measurement::SmallChunks),
];

impl Measurement {
    /// Measures, and prints what it found.
    fn run(self, rt: &HostRuntime) -> io::Result<()> {
        match self {
            Measurement::Input => input::measure(rt),
            Measurement::NormalPath => grammars::normal_paths(rt),
            Measurement::Matches => grammars::patterns(rt),
            Measurement::Expand => grammars::expansions(rt),
            Measurement::WriteRecord => records::write_record_ratio(rt),
            Measurement::ReadRecord => records::read_record_ratio(rt),
            Measurement::Trace => traces::measure(rt),
            Measurement::NextHead => heads::head_ratio(rt),
            Measurement::Pipelined => heads::pipelined(rt),
            Measurement::HeadBytes => heads::head_bytes(rt),
            Measurement::ChunkBytes => heads::chunk_bytes(rt),
            Measurement::ConnReads => conns::measure(rt),
            Measurement::EmptyLines => memory::empty_lines(rt),
            Measurement::SmallChunks => memory::small_chunks(rt),
        }
    }
}

fn main(rt: HostRuntime) -> io::Result<()> {
    let Some(word) = env::args(&rt)?.nth(1) else {
        return print_words(&rt, &WORDS);
    };
    match named(&WORDS, &word) {
        Some(measurement) => measurement.run(&rt),
        None => println!(rt; "unit_bench: no such word: {word}"),
    }
}
