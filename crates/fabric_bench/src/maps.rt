//! Claims of a chunk map against the bare steps on words that they need.
ghost use Rattle.std.specs.Prelude.{◌≡◌, ◌<◌, ◌≤◌, ℕ};
ghost use Rattle.chunk_map.specs.Seats.{BelongsTo};

use chunk_map::{ChunkMap, Claim, MapSeat};
use std::alloc::{AllocError, Global};
use std::io;
use std::sync::atomic::{AtomicU64, Ordering};
use std::time::Instant;
use timed_sides::{Side, Timed, least_times, report};
use unit_model::Run;

const RUNS: u32 = 7;

const ROUNDS: u64 = 1_000_000;

/// Claims one chunk of a half-full segment and gives it back, against ten loads, a fetch-and and a fetch-or.
pub fn claims(rt: &HostRuntime) -> io::Result<()> {
    let times = least_times(rt, RUNS, &ClaimRounds {}, &BareSteps {})?;
    report(rt, "claim of a chunk", 300, times)
}

#[derive(Drop)]
pub struct ClaimRounds {}

impl Side for ClaimRounds {
    fn run(&self, rt: &HostRuntime) -> io::Result<Timed> {
        let (map, mut seat) = ChunkMap::open(rt.alloc(), 1)?;
        fill_half(&map, &mut seat);
        let start = Instant::now(rt)?;
        let done = map_rounds(&map, &mut seat);
        Timed::since(rt, &start, done == ROUNDS)
    }
}

#[derive(Drop)]
struct BareSteps {}

impl Side for BareSteps {
    fn run(&self, rt: &HostRuntime) -> io::Result<Timed> {
        let words = half_words(rt.alloc())?;
        let start = Instant::now(rt)?;
        let done = word_rounds(&words);
        Timed::since(rt, &start, done == ROUNDS)
    }
}

// Ten words whose even bits are set.
fn half_words(alloc: Global) -> Result<Vec<AtomicU64>, AllocError> {
    let mut words = Vec::new(alloc);
    for _ in 0..10u32 {
        words.push(AtomicU64::new(0x5555_5555_5555_5555))?;
    }
    Ok(words)
}

// Loads all words, takes a bit of the first one, and gives it back.
fn word_rounds(words: &[AtomicU64]) -> u64 {
    let Some(first) = words.first() else {
        return 0;
    };
    for round in 0..ROUNDS {
        let mut free = 0;
        for word in words {
            free |= word.load(Ordering::SeqCst);
        }
        if free & 1 == 0 {
            return round;
        }
        first.fetch_and(!1, Ordering::SeqCst);
        first.fetch_or(1, Ordering::SeqCst);
    }
    ROUNDS
}

// Claims two neighbouring chunks at a time and gives the first one back.
fn fill_half(map: &ChunkMap, seat: &mut MapSeat)
    requires { BelongsTo seat.old map.now }
    ensures { BelongsTo seat.new map.now }
{
    for _ in 0..320 {
        if let Claim::Run(run) = map.claim_run(seat, 16385) {
            map.release_run(seat, Run { size: 1, ..run });
        }
    }
}

fn map_rounds(map: &ChunkMap, seat: &mut MapSeat) -> u64
    requires { BelongsTo seat.old map.now }
{
    for round in 0..ROUNDS {
        match map.claim_run(seat, 16384) {
            Claim::Run(run) => map.release_run(seat, run),
            Claim::Full(_) => return round,
        }
    }
    ROUNDS
}
