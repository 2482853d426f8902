//! What is timed of configurations: one word a measurement, told as a ratio against something in the same run. Without
//! words it prints its words.
#![tactic(auto)]

mod controls;
mod documents;
mod enters;
mod routes;
mod trees;
mod validations;

use std::sync::Wait;
use std::{env, io};
use timed_sides::{named, print_words};

/// What can be measured.
#[derive(Clone, Copy, Drop)]
enum Measurement {
    Trees,
    Route,
    Validate,
    Enter,
    ControlGet,
    ControlPut,
    ControlChange,
}

/// The word of each measurement.
const WORDS: [(&str, Measurement); 7] = [
    ("trees", Measurement::Trees),
    ("route", Measurement::Route),
    ("validate", Measurement::Validate),
    ("enter", Measurement::Enter),
    ("control-get", Measurement::ControlGet),
    ("control-put", Measurement::ControlPut),
    ("control-change", Measurement::ControlChange),
];

impl Measurement {
    /// Measures, and prints what it found. What waits does so by the second handle.
    fn run<R: Wait>(self, rt: &HostRuntime, threads: &R) -> io::Result<()> {
        match self {
            Measurement::Trees => trees::measure(rt),
            Measurement::Route => routes::measure(rt),
            Measurement::Validate => validations::measure(rt),
            Measurement::Enter => enters::measure(rt, threads),
            Measurement::ControlGet => controls::measure_get(rt),
            Measurement::ControlPut => controls::measure_put(rt),
            Measurement::ControlChange => controls::measure_change(rt),
        }
    }
}

fn main(rt: HostRuntime) -> io::Result<()> {
    let Some(word) = env::args(&rt)?.nth(1) else {
        return print_words(&rt, &WORDS);
    };
    match named(&WORDS, &word) {
        Some(measurement) => measurement.run(&rt, &rt),
        None => println!(rt; "conf_bench: no such word: {word}"),
    }
}
