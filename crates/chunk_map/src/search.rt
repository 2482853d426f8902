//! The search for a run of free chunks, at any map that has the steps of one.
ghost use Rattle.std.specs.Prelude.{◌≡◌, ◌≢◌, ◌+◌, ◌*◌, ◌/◌, ◌<◌, ◌≤◌, ℕ, ◌-◌, List, length, slice_index, true, false, IfSome, IfNone};
ghost use Rattle.unit_model.specs.Limits.{chunk_bytes, most_segments, segment_chunks};
ghost use Rattle.std.specs.List.{range_with_len};
ghost use Rattle.unit_model.specs.Runs.{chunks_for, HasNoRun};
ghost use Rattle.unit_model.specs.Weights.{weigh, is_number};
ghost use Rattle.chunk_map.specs.Claims.{IfRun, IfFull};
ghost use Rattle.chunk_map.specs.Gains.{gained, given_back, tried, SameSearch, Steps};
ghost use Rattle.chunk_map.specs.Looks.{open_seen, was_gained, was_looked, seen_free, may_be_free, Begins, Searched};
ghost use Rattle.chunk_map.specs.Runs.{run_chunks, AreFree, NoneBelow, IsLowest};
ghost use Rattle.chunk_map.specs.Showing.{Shows, ShowsSegment};
ghost use Rattle.chunk_map.specs.Words.{is_free};

use crate::any_map::MapSteps;
use crate::run_bits::{first_from, run_starts};
use unit_model::{CHUNK_BYTES, Run, Seen};

/// What a claim gave.
#[derive(Debug, Drop)]
pub enum Claim {
    /// The seat holds the run's chunks.
    Run(Run),
    /// The looks at all chunks of the open segments found no such run.
    Full(Seen),
}

// How many chunks so many bytes need.
fn chunk_count(size: u32) -> usize
    requires { (1 ≤ size) × (size ≤ segment_chunks * chunk_bytes) }
    ensures { (result ≡ chunks_for size) × (1 ≤ result) × (result ≤ segment_chunks) }
{
    size.div_ceil(CHUNK_BYTES) as usize
}

// No look at any chunk.
fn unseen() -> Seen
    ensures { (number : ℕ) → slice_index result.words number ≡ 0 }
{
    Seen {
        words: [0; 80],
        segments: 0,
    }
}

// Notes that a chunk of the segment isn't free.
fn clear(words: &mut [u64; 10], chunk: usize)
    requires { chunk < segment_chunks }
    ensures here { is_free (slice_index words.new) chunk ≡ false }
    ensures others { (other : ℕ) → other ≢ chunk
        → is_free (slice_index words.new) other ≡ is_free (slice_index words.old) other }
{
    words[chunk / 64] &= !(1u64 << (chunk % 64));
}

// Notes the looks at the words of a segment.
fn note(seen: &mut [u64; 80], segment: usize, words: &[u64; 10])
    requires { segment < 8 }
    ensures here { (number : ℕ) → number < 10
        → slice_index seen.new (10 * segment + number) ≡ slice_index words.now number }
    ensures others { (number : ℕ) → number / 10 ≢ segment
        → slice_index seen.new number ≡ slice_index seen.old number }
{
    for number in 0..10 {
        seen[10 * segment + number] = words[number];
    }
}

// The run of so many bytes from this chunk of the segment on.
fn run_at(segment: usize, chunk: usize, size: u32) -> Run
    requires { (segment < 8) × (chunk < segment_chunks) }
    ensures { (result.segment ≡ segment) × (result.chunk ≡ chunk) × (result.size ≡ size) }
{
    Run {
        segment: segment as u16,
        chunk: chunk as u16,
        size,
    }
}

/// Gives chunks back, the last one first.
pub fn give_back<T: MapSteps>(map: &T, seat: &mut T::Seat, first: usize, count: usize)
    requires own { T.belongs seat.old map.now }
    requires held { (i : ℕ) → i < count
        → 0 < T.weighs map.now (is_number (first + i)) (T.knows seat.old) }
    requires within { 0 < count → first + count ≤ most_segments * segment_chunks }
    ensures own { T.belongs seat.new map.now }
    ensures view { T.knows seat.new ≡ given_back (T.after map.now) first count (T.knows seat.old) }
{
    let mut left = count;
    while left > 0 {
        left -= 1;
        let chunk = first + left;
        map.free(seat, chunk);
    }
}

// Gains so many chunks, or as many of them as come before the first one that isn't free, which it gives back.
fn gain<T: MapSteps>(map: &T, seat: &mut T::Seat, first: usize, count: usize) -> usize
    requires own { T.belongs seat.old map.now }
    requires may { T.may_take map.now (T.knows seat.old) }
    requires within { first + count ≤ segment_chunks * T.segments map.now }
    requires open { first + count
        ≤ segment_chunks * open_seen (T.events map.now (T.knows seat.old)) }
    requires few { T.segments map.now ≤ 8 }
    ensures own { T.belongs seat.new map.now }
    ensures most { result ≤ count }
    ensures all { result ≡ count
        → T.knows seat.new ≡ gained (T.after map.now) first count (T.knows seat.old) }
    ensures fewer { result < count
        → T.knows seat.new ≡ tried (T.after map.now) first result (T.knows seat.old) }
{
    for i in 0..count {
        if !map.take(seat, first + i) {
            give_back(map, seat, first, i);
            return i;
        }
    }
    count
}

// Looks at the words of a segment that the search hasn't looked at yet.
fn look<T: MapSteps>(map: &T, seat: &mut T::Seat, words: &mut [u64; 10], segment: usize)
    requires own { T.belongs seat.old map.now }
    requires segment { segment < T.segments map.now }
    requires few { T.segments map.now ≤ 8 }
    requires fresh { (chunk : ℕ) → segment_chunks * segment ≤ chunk
        → was_gained (T.events map.now (T.knows seat.old)) chunk ≡ false }
    ensures own { T.belongs seat.new map.now }
    ensures told { Steps (T.after map.now) (T.knows seat.old) (T.knows seat.new) }
    ensures long { length words.new ≡ 10 }
    ensures shows { ShowsSegment segment words.new (T.events map.now (T.knows seat.new)) }
    ensures elsewhere { (chunk : ℕ) → chunk / segment_chunks ≢ segment
        → seen_free (T.events map.now (T.knows seat.new)) chunk
        ≡ seen_free (T.events map.now (T.knows seat.old)) chunk }
    ensures search { SameSearch (T.events map.now (T.knows seat.old))
        (T.events map.now (T.knows seat.new)) }
    ensures looked { (chunk : ℕ) → chunk / segment_chunks ≡ segment
        → was_looked (T.events map.now (T.knows seat.new)) chunk ≡ true }
    ensures held { (f : ℕ → ℕ)
        → T.weighs map.now f (T.knows seat.new) ≡ T.weighs map.now f (T.knows seat.old) }
    ensures gained { (chunk : ℕ) → was_gained (T.events map.now (T.knows seat.new)) chunk
        ≡ was_gained (T.events map.now (T.knows seat.old)) chunk }
{
    for number in 0..10 {
        words[number] = map.see_word(seat, 10 * segment + number);
    }
}

// Claims the first run of a segment that the looks allow, and tells the looks. Where a chunk of a run is missed, the
// search goes on behind it.
fn claim_in<T: MapSteps>(
    map: &T,
    seat: &mut T::Seat,
    words: &mut [u64; 10],
    segment: usize,
    count: usize,
) -> Option<usize>
    requires own { T.belongs seat.old map.now }
    requires may { T.may_take map.now (T.knows seat.old) }
    requires segment { segment < T.segments map.now }
    requires few { T.segments map.now ≤ 8 }
    requires open { segment < open_seen (T.events map.now (T.knows seat.old)) }
    requires count { (1 ≤ count) × (count ≤ segment_chunks) }
    requires fresh { (chunk : ℕ) → segment_chunks * segment ≤ chunk
        → was_gained (T.events map.now (T.knows seat.old)) chunk ≡ false }
    ensures own { T.belongs seat.new map.now }
    ensures told { Steps (T.after map.now) (T.knows seat.old) (T.knows seat.new) }
    ensures shows { ShowsSegment segment words.new (T.events map.now (T.knows seat.new)) }
    ensures elsewhere { (chunk : ℕ) → chunk / segment_chunks ≢ segment
        → seen_free (T.events map.now (T.knows seat.new)) chunk
        ≡ seen_free (T.events map.now (T.knows seat.old)) chunk }
    ensures search { SameSearch (T.events map.now (T.knows seat.old))
        (T.events map.now (T.knows seat.new)) }
    ensures looked { (chunk : ℕ) → chunk / segment_chunks ≡ segment
        → was_looked (T.events map.now (T.knows seat.new)) chunk ≡ true }
    ensures fresh { (chunk : ℕ) → segment_chunks * (segment + 1) ≤ chunk
        → was_gained (T.events map.now (T.knows seat.new)) chunk ≡ false }
    ensures some { IfSome result
        (λ first. AreFree (seen_free (T.events map.now (T.knows seat.new))) count segment first) }
    ensures lowest { IfSome result
        (λ first. NoneBelow (seen_free (T.events map.now (T.knows seat.new))) count segment first) }
    ensures gained { IfSome result (λ first. (f : ℕ → ℕ)
        → T.weighs map.now f (T.knows seat.new)
        ≡ weigh f (range_with_len (segment_chunks * segment + first) count)
        + T.weighs map.now f (T.knows seat.old)) }
    ensures held { IfNone result ((f : ℕ → ℕ) → T.weighs map.now f (T.knows seat.new)
        ≡ T.weighs map.now f (T.knows seat.old)) }
    ensures none { IfNone result
        (NoneBelow (seen_free (T.events map.now (T.knows seat.new))) count segment segment_chunks) }
{
    look(map, seat, words, segment);
    let starts = run_starts(words, count);
    let mut from = 0;
    while let Some(first) = first_from(&starts, from) {
        let gained = gain(map, seat, 640 * segment + first, count);
        if gained == count {
            return Some(first);
        }
        clear(words, first + gained);
        from = first + gained + 1;
    }
    None
}

// Goes on with a search that found no run in the first segment, whose looks are `first`. Where
// it finds none either, `seen` has the looks at all segments.
#[cold]
#[inline(never)]
fn claim_behind<T: MapSteps>(
    map: &T,
    seat: &mut T::Seat,
    seen: &mut Seen,
    first: &[u64; 10],
    opened: usize,
    size: u32,
) -> Option<Run>
    requires own { T.belongs seat.old map.now }
    requires may { T.may_take map.now (T.knows seat.old) }
    requires size { (1 ≤ size) × (size ≤ segment_chunks * chunk_bytes) }
    requires few { T.segments map.now ≤ 8 }
    requires open { (opened ≡ open_seen (T.events map.now (T.knows seat.old))) × (1 ≤ opened)
        × (opened ≤ T.segments map.now) }
    requires unseen { (number : ℕ) → slice_index seen.old.words number ≡ 0 }
    requires shows { ShowsSegment 0 first.now (T.events map.now (T.knows seat.old)) }
    requires looked { (chunk : ℕ) → chunk < segment_chunks
        → was_looked (T.events map.now (T.knows seat.old)) chunk ≡ true }
    requires fresh { (chunk : ℕ) → segment_chunks ≤ chunk
        → was_gained (T.events map.now (T.knows seat.old)) chunk ≡ false }
    requires behind { (chunk : ℕ) → segment_chunks ≤ chunk
        → seen_free (T.events map.now (T.knows seat.old)) chunk ≡ false }
    requires none { NoneBelow (seen_free (T.events map.now (T.knows seat.old)))
        (chunks_for size) 0 segment_chunks }
    ensures own { T.belongs seat.new map.now }
    ensures told { Steps (T.after map.now) (T.knows seat.old) (T.knows seat.new) }
    ensures search { SameSearch (T.events map.now (T.knows seat.old))
        (T.events map.now (T.knows seat.new)) }
    ensures segment { IfSome result (λ run. run.segment < opened)
        × IfNone result (seen.new.segments ≡ opened) }
    ensures run { IfSome result (λ run. (run.size ≡ size)
        × AreFree (seen_free (T.events map.now (T.knows seat.new)))
        (chunks_for size) run.segment run.chunk
        × IsLowest (may_be_free (T.events map.now (T.knows seat.new)))
        (chunks_for size) run.segment run.chunk) }
    ensures gained { IfSome result (λ run. (f : ℕ → ℕ) → T.weighs map.now f (T.knows seat.new)
        ≡ weigh f (run_chunks run) + T.weighs map.now f (T.knows seat.old)) }
    ensures full { IfNone result (Shows seen.new.words (T.events map.now (T.knows seat.new))
        × HasNoRun seen.new (chunks_for size)) }
    ensures looked { IfNone result ((chunk : ℕ) → chunk < segment_chunks * seen.new.segments
        → was_looked (T.events map.now (T.knows seat.new)) chunk ≡ true) }
    ensures past { IfNone result ((number : ℕ) → 10 * seen.new.segments ≤ number
        → slice_index seen.new.words number ≡ 0) }
    ensures held { IfNone result ((f : ℕ → ℕ) → T.weighs map.now f (T.knows seat.new)
        ≡ T.weighs map.now f (T.knows seat.old)) }
{
    let count = chunk_count(size);
    note(&mut seen.words, 0, first);
    for segment in 1..opened {
        let mut words = [0u64; 10];
        if let Some(chunk) = claim_in(map, seat, &mut words, segment, count) {
            return Some(run_at(segment, chunk, size));
        }
        note(&mut seen.words, segment, &words);
    }
    seen.segments = opened as u32;
    None
}

// The search of `claim_among`. Where there is no run, `seen` has the looks at all segments. It gives
// no `Claim`, of which each call that passes it on clears and copies all 656 bytes.
fn search_among<T: MapSteps>(
    map: &T,
    seat: &mut T::Seat,
    seen: &mut Seen,
    opened: usize,
    size: u32,
) -> Option<Run>
    requires own { T.belongs seat.old map.now }
    requires may { T.may_take map.now (T.knows seat.old) }
    requires size { (1 ≤ size) × (size ≤ segment_chunks * chunk_bytes) }
    requires open { (1 ≤ opened) × (opened ≤ T.segments map.now) × (T.segments map.now ≤ 8) }
    requires unseen { (number : ℕ) → slice_index seen.old.words number ≡ 0 }
    requires begins { Begins opened (T.events map.now (T.knows seat.old)) }
    ensures own { T.belongs seat.new map.now }
    ensures told { Steps (T.after map.now) (T.knows seat.old) (T.knows seat.new) }
    ensures search { SameSearch (T.events map.now (T.knows seat.old))
        (T.events map.now (T.knows seat.new))
        × IfSome result (λ run. run.segment < opened)
        × IfNone result (seen.new.segments ≡ opened) }
    ensures run { IfSome result (λ run. (run.size ≡ size)
        × AreFree (seen_free (T.events map.now (T.knows seat.new)))
        (chunks_for size) run.segment run.chunk
        × IsLowest (may_be_free (T.events map.now (T.knows seat.new)))
        (chunks_for size) run.segment run.chunk) }
    ensures gained { IfSome result (λ run. (f : ℕ → ℕ) → T.weighs map.now f (T.knows seat.new)
        ≡ weigh f (run_chunks run) + T.weighs map.now f (T.knows seat.old)) }
    ensures full { IfNone result (Shows seen.new.words (T.events map.now (T.knows seat.new))
        × HasNoRun seen.new (chunks_for size)) }
    ensures looked { IfNone result ((chunk : ℕ) → chunk < segment_chunks * seen.new.segments
        → was_looked (T.events map.now (T.knows seat.new)) chunk ≡ true) }
    ensures past { IfNone result ((number : ℕ) → 10 * seen.new.segments ≤ number
        → slice_index seen.new.words number ≡ 0) }
    ensures held { IfNone result ((f : ℕ → ℕ) → T.weighs map.now f (T.knows seat.new)
        ≡ T.weighs map.now f (T.knows seat.old)) }
{
    let count = chunk_count(size);
    let mut words = [0u64; 10];
    match claim_in(map, seat, &mut words, 0, count) {
        Some(chunk) => Some(run_at(0, chunk, size)),
        None => claim_behind(map, seat, seen, &words, opened, size),
    }
}

/// Claims a run of as many neighbouring chunks as so many bytes need, among so many open segments, in a search that has begun
/// and has looked at no chunk yet, by a seat that may take chunks. The search takes the lowest segment, and in it the lowest chunks, that its looks allow;
/// chunks gained on the way to a full map are given back. It is full exactly where the looks at all chunks of these segments
/// have no such run.
///
/// A look at a chunk is a load of its word, or a try to take its bit. A chunk that the search gained counts as found free
/// from then on, also after it was given back.
pub fn claim_among<T: MapSteps>(map: &T, seat: &mut T::Seat, opened: usize, size: u32) -> Claim
    requires own { T.belongs seat.old map.now }
    requires may { T.may_take map.now (T.knows seat.old) }
    requires size { (1 ≤ size) × (size ≤ segment_chunks * chunk_bytes) }
    requires open { (1 ≤ opened) × (opened ≤ T.segments map.now) × (T.segments map.now ≤ 8) }
    requires begins { Begins opened (T.events map.now (T.knows seat.old)) }
    ensures own { T.belongs seat.new map.now }
    ensures told { Steps (T.after map.now) (T.knows seat.old) (T.knows seat.new) }
    ensures search { SameSearch (T.events map.now (T.knows seat.old))
        (T.events map.now (T.knows seat.new))
        × IfRun result (λ run. run.segment < opened)
        × IfFull result (λ seen. seen.segments ≡ opened) }
    ensures run { IfRun result (λ run. (run.size ≡ size)
        × AreFree (seen_free (T.events map.now (T.knows seat.new)))
        (chunks_for size) run.segment run.chunk
        × IsLowest (may_be_free (T.events map.now (T.knows seat.new)))
        (chunks_for size) run.segment run.chunk) }
    ensures gained { IfRun result (λ run. (f : ℕ → ℕ) → T.weighs map.now f (T.knows seat.new)
        ≡ weigh f (run_chunks run) + T.weighs map.now f (T.knows seat.old)) }
    ensures full { IfFull result (λ seen. Shows seen.words (T.events map.now (T.knows seat.new))
        × HasNoRun seen (chunks_for size)) }
    ensures looked { IfFull result (λ seen. (chunk : ℕ) → chunk < segment_chunks * seen.segments
        → was_looked (T.events map.now (T.knows seat.new)) chunk ≡ true) }
    ensures past { IfFull result (λ seen. (number : ℕ) → 10 * seen.segments ≤ number
        → slice_index seen.words number ≡ 0) }
    ensures held { IfFull result (λ seen. (f : ℕ → ℕ) → T.weighs map.now f (T.knows seat.new)
        ≡ T.weighs map.now f (T.knows seat.old)) }
{
    let mut seen = unseen();
    match search_among(map, seat, &mut seen, opened, size) {
        Some(run) => Claim::Run(run),
        None => Claim::Full(seen),
    }
}

/// Claims a run of as many neighbouring chunks as so many bytes need, among the segments that are open by one load. This is
/// `claim_among` after that load.
pub fn claim_run<T: MapSteps>(map: &T, seat: &mut T::Seat, size: u32) -> Claim
    requires own { T.belongs seat.old map.now }
    requires may { T.may_take map.now (T.knows seat.old) }
    requires size { (1 ≤ size) × (size ≤ segment_chunks * chunk_bytes) }
    ensures own { T.belongs seat.new map.now }
    ensures told { Steps (T.after map.now) (T.knows seat.old) (T.knows seat.new) }
    ensures search { (opened : ℕ) × (1 ≤ opened)
        × (open_seen (T.events map.now (T.knows seat.old)) ≤ opened) × (opened ≤ T.segments map.now)
        × Searched opened (T.events map.now (T.knows seat.old))
        (T.events map.now (T.knows seat.new))
        × IfRun result (λ run. run.segment < opened)
        × IfFull result (λ seen. seen.segments ≡ opened) }
    ensures run { IfRun result (λ run. (run.size ≡ size)
        × AreFree (seen_free (T.events map.now (T.knows seat.new)))
        (chunks_for size) run.segment run.chunk
        × IsLowest (may_be_free (T.events map.now (T.knows seat.new)))
        (chunks_for size) run.segment run.chunk) }
    ensures gained { IfRun result (λ run. (f : ℕ → ℕ) → T.weighs map.now f (T.knows seat.new)
        ≡ weigh f (run_chunks run) + T.weighs map.now f (T.knows seat.old)) }
    ensures full { IfFull result (λ seen. Shows seen.words (T.events map.now (T.knows seat.new))
        × HasNoRun seen (chunks_for size)) }
    ensures looked { IfFull result (λ seen. (chunk : ℕ) → chunk < segment_chunks * seen.segments
        → was_looked (T.events map.now (T.knows seat.new)) chunk ≡ true) }
    ensures past { IfFull result (λ seen. (number : ℕ) → 10 * seen.segments ≤ number
        → slice_index seen.words number ≡ 0) }
    ensures held { IfFull result (λ seen. (f : ℕ → ℕ) → T.weighs map.now f (T.knows seat.new)
        ≡ T.weighs map.now f (T.knows seat.old)) }
{
    let mut seen = unseen();
    let opened = map.see_open(seat);
    match search_among(map, seat, &mut seen, opened as usize, size) {
        Some(run) => Claim::Run(run),
        None => Claim::Full(seen),
    }
}
