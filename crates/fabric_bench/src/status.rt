//! Counts of a status book against bare steps on words: a fetch-add, and 32 loads.
ghost use Rattle.std.specs.Prelude.{◌≡◌, slice_index};
ghost use Rattle.status_book.specs.Seats.{CountsIn, LooksAt, sums_of};

use status_book::{CountSeat, LookSeat, StatusBook};
use std::alloc::{AllocError, Global};
use std::hint::black_box;
use std::io;
use std::sync::atomic::{AtomicU64, Ordering};
use std::time::Instant;
use timed_sides::{Side, Timed, least_times, report};

const RUNS: u32 = 15;

const ROUNDS: u64 = 1_000_000;

const ENGINES: u32 = 4;

// The counts of all engines.
const COUNTS: u32 = 32;

/// `add`: at most one and a half times as long as a fetch-add.
pub fn measure_adds(rt: &HostRuntime) -> io::Result<()> {
    let times = least_times(rt, RUNS, &Adds {}, &BareAdds {})?;
    report(rt, "a count added to", 150, times)
}

/// `look` at four engines: at most three times as long as 32 loads.
pub fn measure_looks(rt: &HostRuntime) -> io::Result<()> {
    let times = least_times(rt, RUNS, &BookLooks {}, &BareLoads {})?;
    report(rt, "a look at four engines", 300, times)
}

#[derive(Drop)]
struct Adds {}

impl Side for Adds {
    fn run(&self, rt: &HostRuntime) -> io::Result<Timed> {
        let (book, mut seats, _look) = StatusBook::open(rt.alloc(), ENGINES)?;
        let Some(mut seat) = seats.pop() else {
            return Timed::since(rt, &Instant::now(rt)?, false);
        };
        let start = Instant::now(rt)?;
        add_rounds(&book, &mut seat);
        Timed::since(rt, &start, true)
    }
}

fn add_rounds(book: &StatusBook, seat: &mut CountSeat)
    requires own { CountsIn book.now seat.old }
    requires new { slice_index (sums_of seat.old) 1 ≡ 0 }
{
    for round in 0..ROUNDS {
        book.add(seat, 1, 1);
    }
}

#[derive(Drop)]
struct BareAdds {}

impl Side for BareAdds {
    fn run(&self, rt: &HostRuntime) -> io::Result<Timed> {
        let word = AtomicU64::new(0);
        let start = Instant::now(rt)?;
        for _ in 0..ROUNDS {
            word.fetch_add(1, Ordering::SeqCst);
        }
        Timed::since(rt, &start, true)
    }
}

#[derive(Drop)]
struct BookLooks {}

impl Side for BookLooks {
    fn run(&self, rt: &HostRuntime) -> io::Result<Timed> {
        let (book, _seats, mut look) = StatusBook::open(rt.alloc(), ENGINES)?;
        let start = Instant::now(rt)?;
        look_rounds(&book, &mut look);
        Timed::since(rt, &start, true)
    }
}

fn look_rounds(book: &StatusBook, seat: &mut LookSeat)
    requires own { LooksAt book.now seat.old }
{
    for _ in 0..ROUNDS {
        black_box(book.look(seat));
    }
}

#[derive(Drop)]
struct BareLoads {}

impl Side for BareLoads {
    fn run(&self, rt: &HostRuntime) -> io::Result<Timed> {
        let words = zero_words(rt.alloc())?;
        let start = Instant::now(rt)?;
        load_rounds(&words);
        Timed::since(rt, &start, true)
    }
}

fn zero_words(alloc: Global) -> Result<Vec<AtomicU64>, AllocError> {
    let mut words = Vec::new(alloc);
    for _ in 0..COUNTS {
        words.push(AtomicU64::new(0))?;
    }
    Ok(words)
}

fn load_rounds(words: &[AtomicU64]) {
    for _ in 0..ROUNDS {
        for word in words {
            black_box(word.load(Ordering::SeqCst));
        }
    }
}
