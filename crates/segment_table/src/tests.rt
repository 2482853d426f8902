ghost use Rattle.std.specs.Prelude.{◌≡◌, ◌+◌, ◌≤◌, [], length, IfOk, IfSome};
ghost use Rattle.carried_slots.specs.RunLaws.{AreApart};
ghost use Rattle.carried_slots.specs.RunSlots.{HasEmpty, HasFull};
ghost use Rattle.unit_model.specs.Runs.{chunks_for};
ghost use Rattle.segment_table.specs.Owning.{BelongsTo, first_of, slots_of};

use super::*;
use chunk_map::Claim;
use request_context::{Parcel, Pieces, ask_bytes, ask_pieces};
use std::alloc::{AllocError, Global};
use std::test::*;
use unit_model::{Run, Seen};
use unit_types::{Bytes, Fields, Handlers, Reply, Request};

// Handlers that know no name.
struct NoHandlers;

impl Handlers for NoHandlers {
    ghost use Rattle.segment_table.specs.NoReplies.{no_names, no_reply, no_reply_fits};

    ghost reply_of = { λ name request. no_reply };

    ghost listed = { λ _. [] };

    ghost names_fit = { λ _. no_names };

    ghost replies_fit = { λ name request. no_reply_fits };

    fn names(&self) -> &[Bytes] {
        &[]
    }

    fn reply(&self, alloc: Global, _name: &[u8], _request: &Request) -> Result<Reply, AllocError> {
        Ok(Reply {
            status: 404,
            fields: Fields::of(Vec::new(alloc)),
            body: Bytes::of(Vec::new(alloc)),
        })
    }
}

// Fills a run, and reads it.
fn fill_and_read(
    segments: &Segments<NoHandlers>,
    seat: &mut SegSeat<NoHandlers>,
    run: Run,
    pieces: &mut Pieces<NoHandlers>,
    back: &mut Pieces<NoHandlers>,
)
    requires own { BelongsTo seat.old segments.now }
    requires empty { HasEmpty (first_of run) (chunks_for run.size) (slots_of seat.old) }
    requires many { length pieces.old.parcels ≡ chunks_for run.size }
    requires room { (back.old.parcels ≡ []) × (chunks_for run.size ≤ back.old.spare) }
    ensures own { BelongsTo seat.new segments.now }
    ensures empty { HasEmpty (first_of run) (chunks_for run.size) (slots_of seat.new) }
    ensures same { back.new.parcels ≡ pieces.old.parcels }
{
    segments.fill(seat, run, pieces);
    segments.read(seat, run, back);
}

#[test]
fn what_was_filled_is_read_in_order(rt: HostRuntime) -> Result<(), AllocError> {
    let alloc = rt.alloc();
    let (segments, mut seat) = Segments::<NoHandlers>::open(alloc, 1)?;
    let bytes = Bytes::of(vec![in alloc; 7u8; 20_000]?);
    let mut pieces: Pieces<NoHandlers> = ask_pieces(alloc, &bytes)?;
    let Claim::Run(run) = segments.claim(&mut seat, 20_000) else {
        panic!(rt; "no run is free")
    };
    assert_eq!(rt; (run.segment, run.chunk), (0, 0));
    assert_eq!(rt; pieces.len(), run.chunk_count() as usize);
    let mut back: Pieces<NoHandlers> = Pieces::room(alloc, run.chunk_count())?;
    fill_and_read(&segments, &mut seat, run, &mut pieces, &mut back);
    assert_eq!(rt; pieces.len(), 0);
    segments.release(&mut seat, run);
    let (Some(first), Some(second)) = (back.pop(), back.pop()) else {
        panic!(rt; "fewer than two parcels were read")
    };
    let lengths = (first.as_slice().len(), second.as_slice().len());
    assert_eq!(rt; lengths, (16_384, 3_616));
    let Claim::Run(whole) = segments.claim(&mut seat, 10_485_760) else {
        panic!(rt; "the run wasn't given back")
    };
    assert_eq!(rt; (whole.segment, whole.chunk), (0, 0));
    let Claim::Full(seen) = segments.claim(&mut seat, 1) else {
        panic!(rt; "a chunk was given twice")
    };
    assert_eq!(rt; (seen.segments, seen.words[0]), (1, 0));
    Ok(())
}

#[test]
fn all_segments_are_open(rt: HostRuntime) -> Result<(), AllocError> {
    let (segments, mut seat) = Segments::<NoHandlers>::open(rt.alloc(), 2)?;
    let mut other = segments.split(&mut seat);
    let Claim::Run(whole) = segments.claim(&mut seat, 10_485_760) else {
        panic!(rt; "no run is free")
    };
    let Claim::Run(run) = segments.claim(&mut other, 1) else {
        panic!(rt; "the second segment isn't open")
    };
    assert_eq!(rt; (whole.segment, run.segment), (0, 1));
    segments.release(&mut other, run);
    let closed = segments.close(seat);
    assert_eq!(rt; closed.word(0), 0);
    assert_eq!(rt; closed.word(10), u64::MAX);
    Ok(())
}

const SEGMENT_BYTES: u32 = 10_485_760;

// As many bytes, of which each chunk begins with its number.
fn numbered(alloc: Global, count: usize) -> Result<Bytes, AllocError> {
    let mut bytes = vec![in alloc; 0u8; count]?;
    for chunk in bytes.as_mut_slice().chunks_mut(16_384).enumerate() {
        chunk.1[0] = (chunk.0 % 251) as u8;
    }
    Ok(Bytes::of(bytes))
}

#[test]
fn an_empty_segment_is_filled_whole(rt: HostRuntime) -> Result<(), AllocError> {
    let alloc = rt.alloc();
    let (segments, mut seat) = Segments::<NoHandlers>::open(alloc, 1)?;
    let bytes = numbered(alloc, SEGMENT_BYTES as usize)?;
    let mut pieces: Pieces<NoHandlers> = ask_pieces(alloc, &bytes)?;
    let Claim::Run(run) = segments.claim(&mut seat, SEGMENT_BYTES) else {
        panic!(rt; "no run is free")
    };
    assert_eq!(rt; (run.segment, run.chunk), (0, 0));
    assert_eq!(rt; pieces.len(), run.chunk_count() as usize);
    let mut back: Pieces<NoHandlers> = Pieces::room(alloc, run.chunk_count())?;
    fill_and_read(&segments, &mut seat, run, &mut pieces, &mut back);
    let read = ask_bytes(alloc, &mut back)?;
    assert!(rt; read.as_slice() == bytes.as_slice());
    let Claim::Full(seen) = segments.claim(&mut seat, 1) else {
        panic!(rt; "a chunk was given twice")
    };
    assert!(rt; seen.segments == 1 && seen.words == [0; 80]);
    Ok(())
}

// One parcel of one byte.
fn one_piece(alloc: Global, byte: u8) -> Result<Pieces<NoHandlers>, AllocError>
    ensures { IfOk result (λ pieces. length pieces.parcels ≡ 1) }
{
    let mut pieces: Pieces<NoHandlers> = Pieces::room(alloc, 1)?;
    pieces.push(Parcel::Ask(Bytes::of(vec![in alloc; byte; 1]?)));
    Ok(pieces)
}

// Gives the first of two neighbouring chunks back, and fills the second.
fn keep(
    segments: &Segments<NoHandlers>,
    seat: &mut SegSeat<NoHandlers>,
    run: Run,
    piece: &mut Pieces<NoHandlers>,
) -> Run
    requires own { BelongsTo seat.old segments.now }
    requires within { run.chunk + 2 ≤ 640 }
    requires empty { HasEmpty (first_of run) 2 (slots_of seat.old) }
    requires one { length piece.old.parcels ≡ 1 }
    ensures own { BelongsTo seat.new segments.now }
    ensures kept { HasFull (first_of result) (chunks_for result.size) (slots_of seat.new) }
{
    segments.release(seat, Run { size: 1, ..run });
    let second = Run {
        chunk: run.chunk + 1,
        size: 1,
        ..run
    };
    segments.fill(seat, second, piece);
    second
}

// Claims two neighbouring chunks, and keeps the second one, filled.
fn keep_second(
    segments: &Segments<NoHandlers>,
    seat: &mut SegSeat<NoHandlers>,
    piece: &mut Pieces<NoHandlers>,
) -> Option<Run>
    requires own { BelongsTo seat.old segments.now }
    requires one { length piece.old.parcels ≡ 1 }
    ensures own { BelongsTo seat.new segments.now }
    ensures kept { IfSome result (λ run. HasFull (first_of run) (chunks_for run.size)
        (slots_of seat.new)) }
{
    match segments.claim(seat, 16_385) {
        Claim::Run(run) => Some(keep(segments, seat, run, piece)),
        Claim::Full(_) => None,
    }
}

// Looks for two neighbouring chunks that are free, while a run is held and filled.
fn see_full(
    segments: &Segments<NoHandlers>,
    seat: &mut SegSeat<NoHandlers>,
    held: Run,
) -> Option<Seen>
    requires own { BelongsTo seat.old segments.now }
    requires full { HasFull (first_of held) (chunks_for held.size) (slots_of seat.old) }
    ensures own { BelongsTo seat.new segments.now }
    ensures full { IfSome result (λ seen. HasFull (first_of held) (chunks_for held.size)
        (slots_of seat.new)) }
{
    match segments.claim(seat, 16_385) {
        Claim::Run(_) => None,
        Claim::Full(seen) => Some(seen),
    }
}

#[test]
fn odd_chunks_are_held_with_contents(rt: HostRuntime) -> Result<(), AllocError> {
    let alloc = rt.alloc();
    let (segments, mut seat) = Segments::<NoHandlers>::open(alloc, 1)?;
    for _ in 0..319 {
        let mut piece = one_piece(alloc, 1)?;
        assert!(rt; keep_second(&segments, &mut seat, &mut piece).is_some());
    }
    let mut piece = one_piece(alloc, 9)?;
    let Some(last) = keep_second(&segments, &mut seat, &mut piece) else {
        panic!(rt; "no two neighbours are free")
    };
    assert_eq!(rt; (last.segment, last.chunk), (0, 639));
    let Some(seen) = see_full(&segments, &mut seat, last) else {
        panic!(rt; "two neighbours are free")
    };
    assert_eq!(rt; (seen.segments, seen.words[0]), (1, 6148914691236517205));
    assert_eq!(rt; (seen.words[9], seen.words[10]), (6148914691236517205, 0));
    let mut back: Pieces<NoHandlers> = Pieces::room(alloc, last.chunk_count())?;
    segments.read(&mut seat, last, &mut back);
    let read = ask_bytes(alloc, &mut back)?;
    assert!(rt; read.as_slice() == [9u8].as_slice());
    Ok(())
}

// Claims a run beside one that is held and empty.
fn claim_beside(
    segments: &Segments<NoHandlers>,
    seat: &mut SegSeat<NoHandlers>,
    first: Run,
    size: u32,
) -> Option<Run>
    requires own { BelongsTo seat.old segments.now }
    requires empty { HasEmpty (first_of first) (chunks_for first.size) (slots_of seat.old) }
    requires sizes { (1 ≤ first.size) × (1 ≤ size) × (size ≤ 10485760) }
    ensures own { BelongsTo seat.new segments.now }
    ensures both { IfSome result (λ run.
        HasEmpty (first_of first) (chunks_for first.size) (slots_of seat.new)
        × HasEmpty (first_of run) (chunks_for run.size) (slots_of seat.new)
        × AreApart (first_of first) (chunks_for first.size) (first_of run)
        (chunks_for run.size)) }
{
    match segments.claim(seat, size) {
        Claim::Run(run) => Some(run),
        Claim::Full(_) => None,
    }
}

// Fills a run beside one that is filled.
fn fill_beside(
    segments: &Segments<NoHandlers>,
    seat: &mut SegSeat<NoHandlers>,
    first: Run,
    second: Run,
    pieces: &mut Pieces<NoHandlers>,
)
    requires own { BelongsTo seat.old segments.now }
    requires full { HasFull (first_of first) (chunks_for first.size) (slots_of seat.old) }
    requires empty { HasEmpty (first_of second) (chunks_for second.size) (slots_of seat.old) }
    requires apart { AreApart (first_of first) (chunks_for first.size) (first_of second)
        (chunks_for second.size) }
    requires many { length pieces.old.parcels ≡ chunks_for second.size }
    ensures own { BelongsTo seat.new segments.now }
    ensures full { HasFull (first_of first) (chunks_for first.size) (slots_of seat.new)
        × HasFull (first_of second) (chunks_for second.size) (slots_of seat.new) }
{
    segments.fill(seat, second, pieces);
}

// Fills two runs.
fn fill_two(
    segments: &Segments<NoHandlers>,
    seat: &mut SegSeat<NoHandlers>,
    first: Run,
    second: Run,
    pieces: &mut Pieces<NoHandlers>,
    others: &mut Pieces<NoHandlers>,
)
    requires own { BelongsTo seat.old segments.now }
    requires empty { HasEmpty (first_of first) (chunks_for first.size) (slots_of seat.old)
        × HasEmpty (first_of second) (chunks_for second.size) (slots_of seat.old) }
    requires apart { AreApart (first_of first) (chunks_for first.size) (first_of second)
        (chunks_for second.size) }
    requires many { length pieces.old.parcels ≡ chunks_for first.size }
    requires others { length others.old.parcels ≡ chunks_for second.size }
    ensures own { BelongsTo seat.new segments.now }
    ensures full { HasFull (first_of first) (chunks_for first.size) (slots_of seat.new)
        × HasFull (first_of second) (chunks_for second.size) (slots_of seat.new) }
{
    segments.fill(seat, first, pieces);
    fill_beside(segments, seat, first, second, others);
}

// Reads the first of two runs.
fn read_first(
    segments: &Segments<NoHandlers>,
    seat: &mut SegSeat<NoHandlers>,
    first: Run,
    second: Run,
    back: &mut Pieces<NoHandlers>,
)
    requires own { BelongsTo seat.old segments.now }
    requires full { HasFull (first_of first) (chunks_for first.size) (slots_of seat.old)
        × HasFull (first_of second) (chunks_for second.size) (slots_of seat.old) }
    requires apart { AreApart (first_of first) (chunks_for first.size) (first_of second)
        (chunks_for second.size) }
    requires room { (back.old.parcels ≡ []) × (chunks_for first.size ≤ back.old.spare) }
    ensures own { BelongsTo seat.new segments.now }
    ensures full { HasFull (first_of second) (chunks_for second.size) (slots_of seat.new) }
{
    segments.read(seat, first, back);
}

#[test]
fn one_seat_has_two_runs(rt: HostRuntime) -> Result<(), AllocError> {
    let alloc = rt.alloc();
    let (segments, mut seat) = Segments::<NoHandlers>::open(alloc, 1)?;
    let bytes = Bytes::of(vec![in alloc; 7u8; 20_000]?);
    let others = Bytes::of(vec![in alloc; 8u8; 40_000]?);
    let mut pieces: Pieces<NoHandlers> = ask_pieces(alloc, &bytes)?;
    let mut more: Pieces<NoHandlers> = ask_pieces(alloc, &others)?;
    let Claim::Run(first) = segments.claim(&mut seat, 20_000) else {
        panic!(rt; "no run is free")
    };
    let Some(second) = claim_beside(&segments, &mut seat, first, 40_000) else {
        panic!(rt; "no second run is free")
    };
    assert_eq!(rt; (first.chunk, second.chunk), (0, 2));
    assert_eq!(rt; pieces.len(), first.chunk_count() as usize);
    assert_eq!(rt; more.len(), second.chunk_count() as usize);
    let mut back: Pieces<NoHandlers> = Pieces::room(alloc, first.chunk_count())?;
    let mut rest: Pieces<NoHandlers> = Pieces::room(alloc, second.chunk_count())?;
    fill_two(&segments, &mut seat, first, second, &mut pieces, &mut more);
    read_first(&segments, &mut seat, first, second, &mut back);
    segments.read(&mut seat, second, &mut rest);
    let read = ask_bytes(alloc, &mut back)?;
    assert!(rt; read.as_slice() == bytes.as_slice());
    let read = ask_bytes(alloc, &mut rest)?;
    assert!(rt; read.as_slice() == others.as_slice());
    Ok(())
}
