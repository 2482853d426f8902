//! A chunk that is claimed, filled, read and released, against a claim and a release of a chunk map.
ghost use Rattle.std.specs.Prelude.{◌≡◌, ◌≤◌, [], length, IfOk};
ghost use Rattle.unit_model.specs.Runs.{chunks_for};
ghost use Rattle.carried_slots.specs.RunSlots.{HasEmpty};
ghost use Rattle.chunk_map.specs.Seats.{BelongsTo as BelongsToMap};
ghost use Rattle.segment_table.specs.Owning.{BelongsTo, first_of, slots_of};

use chunk_map::{ChunkMap, Claim, MapSeat};
use request_context::{Parcel, Pieces};
use segment_table::{SegSeat, Segments};
use std::alloc::{AllocError, Global};
use std::io;
use std::time::Instant;
use timed_sides::{Letters, Side, Timed, least_times, report};
use unit_model::Run;
use unit_types::Bytes;

const RUNS: u32 = 7;

const ROUNDS: u64 = 1_000_000;

const CHUNK: u32 = 16_384;

// The bytes of half the chunks of a segment. They are claimed before, so that a search looks past them.
const HALF: u32 = 320 * CHUNK;

/// Claims, fills, reads and releases one chunk: at most twice as long as a claim and a release of a chunk map.
pub fn measure(rt: &HostRuntime) -> io::Result<()> {
    let times = least_times(rt, RUNS, &ChunkRounds {}, &ClaimRounds {})?;
    report(rt, "a chunk with contents", 200, times)
}

#[derive(Drop)]
struct ChunkRounds {}

impl Side for ChunkRounds {
    fn run(&self, rt: &HostRuntime) -> io::Result<Timed> {
        let (segments, mut seat) = Segments::open(rt.alloc(), 1)?;
        let mut pieces = one_piece(rt.alloc())?;
        segments.claim(&mut seat, HALF);
        let start = Instant::now(rt)?;
        let done = chunk_rounds(&segments, &mut seat, &mut pieces);
        Timed::since(rt, &start, done == ROUNDS)
    }
}

#[derive(Drop)]
struct ClaimRounds {}

impl Side for ClaimRounds {
    fn run(&self, rt: &HostRuntime) -> io::Result<Timed> {
        let (map, mut seat) = ChunkMap::open(rt.alloc(), 1)?;
        map.claim_run(&mut seat, HALF);
        let start = Instant::now(rt)?;
        let done = claim_rounds(&map, &mut seat);
        Timed::since(rt, &start, done == ROUNDS)
    }
}

// A parcel as large as a chunk.
fn one_piece(alloc: Global) -> Result<Pieces<Letters>, AllocError>
    ensures { IfOk result (λ pieces. length pieces.parcels ≡ 1) }
{
    let mut pieces = Pieces::room(alloc, 1)?;
    let bytes = vec![in alloc; b'x'; CHUNK as usize]?;
    pieces.push(Parcel::Ask(Bytes::of(bytes)));
    Ok(pieces)
}

fn chunk_rounds(
    segments: &Segments<Letters>,
    seat: &mut SegSeat<Letters>,
    pieces: &mut Pieces<Letters>,
) -> u64
    requires own { BelongsTo seat.old segments.now }
    requires one { length pieces.old.parcels ≡ 1 }
{
    for round in 0..ROUNDS {
        match segments.claim(seat, CHUNK) {
            Claim::Run(run) => pass_through(segments, seat, run, pieces),
            Claim::Full(_) => return round,
        }
    }
    ROUNDS
}

// Fills the chunk of a run with the parcel, reads it, and releases the run.
fn pass_through(
    segments: &Segments<Letters>,
    seat: &mut SegSeat<Letters>,
    run: Run,
    pieces: &mut Pieces<Letters>,
)
    requires own { BelongsTo seat.old segments.now }
    requires empty { HasEmpty (first_of run) (chunks_for run.size) (slots_of seat.old) }
    requires one { (chunks_for run.size ≡ 1) × (length pieces.old.parcels ≡ 1) }
    ensures own { BelongsTo seat.new segments.now }
    ensures one { length pieces.new.parcels ≡ 1 }
{
    segments.fill(seat, run, pieces);
    segments.read(seat, run, pieces);
    segments.release(seat, run);
}

fn claim_rounds(map: &ChunkMap, seat: &mut MapSeat) -> u64
    requires { BelongsToMap seat.old map.now }
{
    for round in 0..ROUNDS {
        match map.claim_run(seat, CHUNK) {
            Claim::Run(run) => map.release_run(seat, run),
            Claim::Full(_) => return round,
        }
    }
    ROUNDS
}
