ghost use Rattle.chunk_map.specs.Seats.{BelongsTo};

use super::*;
use std::alloc::AllocError;
use std::test::*;
use std::thread;
use unit_model::{Run, Seen};

const SEGMENT_BYTES: u32 = 10_485_760;

fn run_of(claim: Claim) -> Option<Run> {
    match claim {
        Claim::Run(run) => Some(run),
        Claim::Full(_) => None,
    }
}

fn seen_of(claim: Claim) -> Option<Seen> {
    match claim {
        Claim::Run(_) => None,
        Claim::Full(seen) => Some(seen),
    }
}

fn run(segment: u16, chunk: u16, size: u32) -> Option<Run> {
    Some(Run {
        segment,
        chunk,
        size,
    })
}

fn shows_nothing(claim: Claim, segments: u32) -> bool {
    match seen_of(claim) {
        Some(seen) => seen.segments == segments && seen.words == [0; 80],
        None => false,
    }
}

#[test]
fn a_whole_segment(rt: HostRuntime) -> Result<(), AllocError> {
    let (map, mut seat) = ChunkMap::open(rt.alloc(), 1)?;
    assert_eq!(rt;
        run_of(map.claim_run(&mut seat, SEGMENT_BYTES)),
        run(0, 0, SEGMENT_BYTES)
    );
    assert!(rt; shows_nothing(map.claim_run(&mut seat, 1), 1));
    Ok(())
}

#[test]
fn a_second_segment_is_opened(rt: HostRuntime) -> Result<(), AllocError> {
    let (map, mut seat) = ChunkMap::open(rt.alloc(), 2)?;
    assert_eq!(rt;
        run_of(map.claim_run(&mut seat, SEGMENT_BYTES)),
        run(0, 0, SEGMENT_BYTES)
    );
    assert!(rt; shows_nothing(map.claim_run(&mut seat, 1), 1));
    assert_eq!(rt; map.open_more(&mut seat), Opened::Yes(2));
    assert_eq!(rt; run_of(map.claim_run(&mut seat, 1)), run(1, 0, 1));
    assert_eq!(rt; map.open_more(&mut seat), Opened::AllOpen(2));
    assert_eq!(rt; map.close(seat).open_count(), 2);
    Ok(())
}

// Claims two neighbouring chunks and keeps the second one.
fn keep_second(map: &ChunkMap, seat: &mut MapSeat) -> bool
    requires own { BelongsTo seat.old map.now }
    ensures own { BelongsTo seat.new map.now }
{
    match map.claim_run(seat, 16385) {
        Claim::Run(run) => {
            map.release_run(seat, Run { size: 1, ..run });
            true
        }
        Claim::Full(_) => false,
    }
}

#[test]
fn odd_chunks_are_held(rt: HostRuntime) -> Result<(), AllocError> {
    let (map, mut seat) = ChunkMap::open(rt.alloc(), 1)?;
    for _ in 0..320 {
        assert!(rt; keep_second(&map, &mut seat));
    }
    let seen = seen_of(map.claim_run(&mut seat, 16385));
    assert!(rt; seen.is_some());
    if let Some(seen) = seen {
        assert_eq!(rt; seen.segments, 1);
        for number in 0..80 {
            let word = if number < 10 { 6148914691236517205 } else { 0 };
            assert_eq!(rt; seen.words[number], word);
        }
    }
    assert_eq!(rt; run_of(map.claim_run(&mut seat, 1)), run(0, 0, 1));
    Ok(())
}

// Marks the chunks of so many claims of one chunk.
fn claim_some(map: &ChunkMap, seat: &mut MapSeat, count: usize) -> [bool; 640]
    requires own { BelongsTo seat.old map.now }
{
    let mut mine = [false; 640];
    for _ in 0..count {
        if let Some(run) = run_of(map.claim_run(seat, 16384)) {
            if let Some(mark) = mine.get_mut(run.chunk as usize) {
                *mark = true;
            }
        }
    }
    mine
}

#[test]
fn two_threads_share_no_chunk(rt: HostRuntime) -> Result<(), AllocError> {
    let (map, mut seat) = ChunkMap::open(rt.alloc(), 1)?;
    let mut other = map.split(&mut seat);
    let (mine, theirs) = thread::join(
        &rt,
        ||
            requires { BelongsTo seat map }
        { claim_some(&map, &mut seat, 300) },
        ||
            requires { BelongsTo other map }
        { claim_some(&map, &mut other, 300) },
    );
    let mut marked = 0usize;
    for chunk in 0..640 {
        assert!(rt; !(mine[chunk] && theirs[chunk]));
        if mine[chunk] || theirs[chunk] {
            marked += 1;
        }
    }
    assert_eq!(rt; marked, 600);
    Ok(())
}
