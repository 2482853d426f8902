//! What is timed of what threads share: one word a measurement, told as a ratio against something in the same run.
//! Without words it prints its words.
#![tactic(auto)]

mod fabric;
mod maps;
mod queues;
mod replies;
mod rings;
mod segments;
mod status;

use std::sync::Wait;
use std::thread::Threads;
use std::{env, io};
use timed_sides::{named, print_words};

/// What can be measured.
#[derive(Clone, Copy, Drop)]
enum Measurement {
    RingAlone,
    RingShared,
    Claim,
    QueueItem,
    SegmentChunk,
    FabricTurn,
    FabricClaim,
    ReplyParts,
    ReplyPartsDouble,
    StatusAdd,
    StatusLook,
}

/// The word of each measurement.
const WORDS: [(&str, Measurement); 11] = [
    ("ring-alone", Measurement::RingAlone),
    ("ring-shared", Measurement::RingShared),
    ("claim", Measurement::Claim),
    ("queue-item", Measurement::QueueItem),
    ("segment-chunk", Measurement::SegmentChunk),
    ("fabric-turn", Measurement::FabricTurn),
    ("fabric-claim", Measurement::FabricClaim),
    ("reply-parts", Measurement::ReplyParts),
    ("reply-parts-double", Measurement::ReplyPartsDouble),
    ("status-add", Measurement::StatusAdd),
    ("status-look", Measurement::StatusLook),
];

impl Measurement {
    /// Measures, and prints what it found. What waits and starts threads does so by the second handle.
    fn run<R: Threads + Wait + Sync>(self, rt: &HostRuntime, threads: &R) -> io::Result<()> {
        match self {
            Measurement::RingAlone => rings::alone(rt, threads),
            Measurement::RingShared => rings::shared(rt, threads),
            Measurement::Claim => maps::claims(rt),
            Measurement::QueueItem => queues::measure(rt, threads),
            Measurement::SegmentChunk => segments::measure(rt),
            Measurement::FabricTurn => fabric::measure_turns(rt, threads),
            Measurement::FabricClaim => fabric::measure_claims(rt),
            Measurement::ReplyParts => replies::measure(rt),
            Measurement::ReplyPartsDouble => replies::measure_double(rt),
            Measurement::StatusAdd => status::measure_adds(rt),
            Measurement::StatusLook => status::measure_looks(rt),
        }
    }
}

fn main(rt: HostRuntime) -> io::Result<()> {
    let Some(word) = env::args(&rt)?.nth(1) else {
        return print_words(&rt, &WORDS);
    };
    match named(&WORDS, &word) {
        Some(measurement) => measurement.run(&rt, &rt),
        None => println!(rt; "fabric_bench: no such word: {word}"),
    }
}
