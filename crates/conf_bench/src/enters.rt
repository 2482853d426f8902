//! A reader's look at the newest configuration, against an uncontended lock and unlock of a `Mutex`.
ghost use Rattle.std.specs.Prelude.{◌≡◌};

use conf_book::Book;
use conf_shared::{ConfReader, Naming, Opened, Shared};
use std::io;
use std::marker::Brand;
use std::sync::{Mutex, Wait};
use std::time::Instant;
use timed_sides::{Side, Timed, least_times, report};
use unit_types::Bytes;

const RUNS: u32 = 15;

const ROUNDS: u64 = 200_000;

/// `enter`: at most ten times as long as a lock and its unlock. What waits does so by `threads`.
pub fn measure<R: Wait>(rt: &HostRuntime, threads: &R) -> io::Result<()> {
    let times = least_times(rt, RUNS, &Enters { threads }, &Locks { threads })?;
    report(rt, "enter", 1000, times)
}

#[derive(Drop)]
struct Enters<'a, R> {
    threads: &'a R,
}

impl<R: Wait> Side for Enters<'_, R> {
    fn run(&self, rt: &HostRuntime) -> io::Result<Timed> {
        run_named::<Brand, R>(rt, self.threads, Opened::new())
    }
}

// One run, over a history that is named.
fn run_named<J: Naming, R: Wait>(rt: &HostRuntime, threads: &R, opened: Opened) -> io::Result<Timed>
    requires { opened ≡ J.history }
{
    let book = Book::open(rt.alloc(), &no_names())?;
    let mut shared = Shared::<J>::open(rt.alloc(), opened, &book, 1)?;
    let run = reader_run(rt, &mut shared);
    shared.end(threads);
    run
}

fn no_names() -> [Bytes; 0] {
    []
}

fn reader_run<J: Naming>(rt: &HostRuntime, shared: &mut Shared<J>) -> io::Result<Timed> {
    let mut reader = shared.reader()?;
    let start = Instant::now(rt)?;
    let done = enter_rounds(&mut reader);
    Timed::since(rt, &start, done == ROUNDS)
}

fn enter_rounds<J: Naming>(reader: &mut ConfReader<J>) -> u64 {
    for round in 0..ROUNDS {
        if reader.enter().is_err() {
            return round;
        }
    }
    ROUNDS
}

#[derive(Drop)]
struct Locks<'a, R> {
    threads: &'a R,
}

impl<R: Wait> Side for Locks<'_, R> {
    fn run(&self, rt: &HostRuntime) -> io::Result<Timed> {
        let lock = Mutex::new(0u64);
        let start = Instant::now(rt)?;
        lock_rounds(self.threads, &lock);
        Timed::since(rt, &start, true)
    }
}

fn lock_rounds<R: Wait>(rt: &R, lock: &Mutex<u64>) {
    for round in 0..ROUNDS {
        *lock.lock(rt) = round;
    }
}
