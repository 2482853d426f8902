//! The conditions of steps by their numbers, 1 to 13, for whatever can be looked at as a core. The eleventh, what the state
//! of a stream allows, is the looked at's own: a core's stands in `streams`.
ghost use Rattle.std.specs.Prelude.{if◌then◌else◌, ◌≡◌, ◌∷◌, [], ◌+◌, ◌-◌, ◌*◌, ◌==◌, ◌<◌, ◌≤◌, ◌^◌, Option};
ghost use Rattle.unit_model.specs.Conditions.{all_have_owner, first_of, fits_side, has_owner, has_tag, is_either, is_engine, is_first_free_item, is_first_free_place, is_first_line_item, is_first_line_place, is_in_segments, is_next_free_place, is_next_line_place, is_next_place, is_next_stream, is_open, is_tagged, is_worker, may_empty, may_fill, may_open, may_use, run_has_owner, seat_holds, unless};
ghost use Rattle.unit_model.specs.Core.{chunk_number, queue_of, role_of, side_end, side_opened, side_start};
ghost use Rattle.unit_model.specs.Shapes.{role_code};

use crate::limits::{PAST_ITEMS, PLACE_LIMIT, SEGMENT_CHUNKS, STREAM_LIMIT};
use crate::looks::Looks;
use crate::machine::Unmet;
use crate::runs::Run;
use crate::shape::Role;

/// Nothing where the condition holds, and else its number with what it wants and what was found.
pub fn unless(holds: bool, rule: u8, want: u64, found: u64) -> Option<Unmet>
    ensures { result ≡ unless holds rule want found }
{
    if holds {
        None
    } else {
        Some(Unmet { rule, want, found })
    }
}

// The first of the conditions that isn't met.
pub(crate) fn first_of(conditions: &[Option<Unmet>]) -> Option<Unmet>
    ensures { result ≡ first_of conditions.now }
{
    match conditions {
        [] => None,
        [first, rest @ ..] => first.or(first_of(rest)),
    }
}

/// The number of a chunk over all segments.
pub fn chunk_number(segment: u32, chunk: u32) -> u64
    ensures { result ≡ chunk_number segment chunk }
{
    SEGMENT_CHUNKS * segment as u64 + chunk as u64
}

fn role_of<L: Looks>(looks: &L, seat: u32) -> Role
    ensures { role_code result ≡ role_of (L.core looks.now) seat }
{
    looks.shape().role(seat)
}

pub(crate) fn side_start<L: Looks>(looks: &L, seat: u32) -> u64
    ensures value { result ≡ side_start (L.core looks.now) seat }
    ensures small { result < 2 ^ 33 }
{
    looks.shape().side_start(seat)
}

pub(crate) fn side_end<L: Looks>(looks: &L, seat: u32) -> u64
    ensures value { result ≡ side_end (L.core looks.now) seat }
    ensures small { result < 2 ^ 33 }
{
    looks.shape().side_end(seat)
}

fn side_opened<L: Looks>(looks: &L, seat: u32) -> u64
    ensures { result ≡ side_opened (L.core looks.now) seat }
{
    let opened = looks.opened();
    if role_of(looks, seat).is_engine() {
        opened.out as u64
    } else {
        opened.back as u64
    }
}

// 1: the seat is an engine's.
#[tactic(auto, unfolding(crate::specs::Conditions::is_engine))]
pub(crate) fn is_engine<L: Looks>(looks: &L, seat: u32) -> Option<Unmet>
    ensures { result ≡ is_engine (L.core looks.now) seat }
{
    let role = role_of(looks, seat).code();
    unless(role == Role::Engine.code(), 1, 0, role)
}

// 1: the seat is a worker's.
#[tactic(auto, unfolding(crate::specs::Conditions::is_worker))]
pub(crate) fn is_worker<L: Looks>(looks: &L, seat: u32) -> Option<Unmet>
    ensures { result ≡ is_worker (L.core looks.now) seat }
{
    let role = role_of(looks, seat).code();
    unless(role == Role::Worker.code(), 1, 1, role)
}

// 1: the seat is an engine's or a worker's.
#[tactic(auto, unfolding(crate::specs::Conditions::is_either))]
pub(crate) fn is_either<L: Looks>(looks: &L, seat: u32) -> Option<Unmet>
    ensures { result ≡ is_either (L.core looks.now) seat }
{
    let role = role_of(looks, seat).code();
    unless(role <= Role::Worker.code(), 1, 2, role)
}

// 1: the role that a pop of the queue wants.
pub(crate) fn may_pop<L: Looks>(looks: &L, seat: u32, queue: u32) -> Option<Unmet>
    ensures { result
        ≡ (if queue == 0 then is_worker (L.core looks.now) seat
        else is_engine (L.core looks.now) seat) }
{
    if queue == 0 {
        is_worker(looks, seat)
    } else {
        is_engine(looks, seat)
    }
}

// 2: the stream is the next one and below its limit.
#[tactic(auto, unfolding(crate::specs::Conditions::is_next_stream))]
pub(crate) fn is_next_stream<L: Looks>(looks: &L, stream: u64) -> Option<Unmet>
    ensures { result ≡ is_next_stream (L.core looks.now) stream }
{
    unless(
        stream == looks.next_stream() && stream < STREAM_LIMIT,
        2,
        looks.next_stream().min(STREAM_LIMIT),
        stream,
    )
}

// 3: the chunk is in one of the segments from `start` up to `end`.
#[tactic(auto, unfolding(crate::specs::Conditions::is_in_segments))]
pub(crate) fn is_in_segments(start: u64, end: u64, segment: u32, chunk: u32) -> Option<Unmet>
    requires start { start < 2 ^ 33 }
    requires end { end < 2 ^ 33 }
    ensures { result ≡ is_in_segments start end segment chunk }
{
    let is_chunk = (chunk as u64) < SEGMENT_CHUNKS;
    let number = segment as u64;
    let want = if is_chunk && number < start {
        SEGMENT_CHUNKS * start
    } else {
        SEGMENT_CHUNKS * end
    };
    let found = if is_chunk {
        chunk_number(segment, chunk)
    } else {
        PAST_ITEMS
    };
    unless(is_chunk && start <= number && number < end, 3, want, found)
}

// 4: the chunk's owner.
#[tactic(auto, unfolding(crate::specs::Conditions::has_owner))]
pub(crate) fn has_owner<L: Looks>(looks: &L, code: u64, number: u64) -> Option<Unmet>
    ensures { result ≡ has_owner (L.core looks.now) code number }
{
    let found = looks.owner_code_at(number);
    unless(found == code, 4, code, found)
}

// 4: the owner of so many chunks from this number on, the first that fails.
#[tactic(auto, using(crate::proofs::OwnedChunks::one_chunk))]
pub(crate) fn all_have_owner<L: Looks>(
    looks: &L,
    code: u64,
    number: u64,
    count: u32,
) -> Option<Unmet>
    requires { number < 2 ^ 62 }
    ensures { result ≡ all_have_owner (L.core looks.now) code number count }
{
    for i in 0..count {
        let unmet = has_owner(looks, code, number + i as u64);
        if unmet.is_some() {
            return unmet;
        }
    }
    None
}

// 4: the owner of the run's chunks.
#[tactic(auto, unfolding(crate::specs::Conditions::run_has_owner))]
pub(crate) fn run_has_owner<L: Looks>(looks: &L, code: u64, run: Run) -> Option<Unmet>
    ensures { result ≡ run_has_owner (L.core looks.now) code run }
{
    all_have_owner(
        looks,
        code,
        chunk_number(run.segment as u32, run.chunk as u32),
        run.chunk_count(),
    )
}

// 5: queue and item are there.
#[tactic(auto, unfolding(crate::specs::Conditions::may_use))]
pub(crate) fn may_use<L: Looks>(looks: &L, queue: u32, item: u32) -> Option<Unmet>
    ensures { result ≡ may_use (L.core looks.now) queue item }
{
    unless(looks.is_there(queue, item), 5, 1, 0)
}

// 5, and the queue is this seat's to fill: engines fill queue 0, workers the back queues.
#[tactic(auto, unfolding(crate::specs::Conditions::may_fill))]
pub(crate) fn may_fill<L: Looks>(looks: &L, seat: u32, queue: u32, item: u32) -> Option<Unmet>
    ensures { result ≡ may_fill (L.core looks.now) seat queue item }
{
    let is_own = if role_of(looks, seat).is_engine() {
        queue == 0
    } else {
        queue != 0
    };
    unless(looks.is_there(queue, item) && is_own, 5, 1, 0)
}

// 5, and the queue is this seat's to empty: queue 0 a worker's, queue 1 + e that of engine e.
#[tactic(auto, unfolding(crate::specs::Conditions::may_empty))]
pub(crate) fn may_empty<L: Looks>(looks: &L, seat: u32, queue: u32, item: u32) -> Option<Unmet>
    ensures { result ≡ may_empty (L.core looks.now) seat queue item }
{
    let is_own = queue == 0 || queue as u64 == 1 + seat as u64;
    unless(looks.is_there(queue, item) && is_own, 5, 1, 0)
}

// 6: the place is the first one of the free list.
#[tactic(auto, unfolding(crate::specs::Conditions::is_first_free_place))]
pub(crate) fn is_first_free_place<L: Looks>(looks: &L, queue: u32, place: u64) -> Option<Unmet>
    ensures { result ≡ is_first_free_place (L.core looks.now) queue place }
{
    let first = looks.free_place(queue);
    unless(place == first, 6, first, place)
}

// 6: the place is the first one of the line.
#[tactic(auto, unfolding(crate::specs::Conditions::is_first_line_place))]
pub(crate) fn is_first_line_place<L: Looks>(looks: &L, queue: u32, place: u64) -> Option<Unmet>
    ensures { result ≡ is_first_line_place (L.core looks.now) queue place }
{
    let first = looks.line_place(queue);
    unless(place == first, 6, first, place)
}

// 6: the place is the one behind the list, and below its limit.
fn is_next_place(next: u64, place: u64) -> Option<Unmet>
    ensures { result ≡ is_next_place next place }
{
    unless(
        place == next && place < PLACE_LIMIT,
        6,
        next.min(PLACE_LIMIT),
        place,
    )
}

// 6: the place is the one behind the line.
#[tactic(auto, unfolding(crate::specs::Conditions::is_next_line_place))]
pub(crate) fn is_next_line_place<L: Looks>(looks: &L, queue: u32, place: u64) -> Option<Unmet>
    ensures { result ≡ is_next_line_place (L.core looks.now) queue place }
{
    is_next_place(looks.next_line(queue), place)
}

// 6: the place is the one behind the free list.
#[tactic(auto, unfolding(crate::specs::Conditions::is_next_free_place))]
pub(crate) fn is_next_free_place<L: Looks>(looks: &L, queue: u32, place: u64) -> Option<Unmet>
    ensures { result ≡ is_next_free_place (L.core looks.now) queue place }
{
    is_next_place(looks.next_free(queue), place)
}

// 7: the item is the first of the free list.
#[tactic(auto, unfolding(crate::specs::Conditions::is_first_free_item))]
pub(crate) fn is_first_free_item<L: Looks>(looks: &L, queue: u32, item: u32) -> Option<Unmet>
    ensures { result ≡ is_first_free_item (L.core looks.now) queue item }
{
    let first = looks.free_item(queue);
    unless(item as u64 == first, 7, first, item as u64)
}

// 7: the item is the first of the line.
#[tactic(auto, unfolding(crate::specs::Conditions::is_first_line_item))]
pub(crate) fn is_first_line_item<L: Looks>(looks: &L, queue: u32, item: u32) -> Option<Unmet>
    ensures { result ≡ is_first_line_item (L.core looks.now) queue item }
{
    let first = looks.line_item(queue);
    unless(item as u64 == first, 7, first, item as u64)
}

// 8: the seat holds the item.
#[tactic(auto, unfolding(crate::specs::Conditions::seat_holds))]
pub(crate) fn seat_holds<L: Looks>(looks: &L, seat: u32, queue: u32, item: u32) -> Option<Unmet>
    ensures { result ≡ seat_holds (L.core looks.now) seat queue item }
{
    let want = 1 + seat as u64;
    let found = looks.item_of(queue, item).whereabouts.code();
    unless(found == want, 8, want, found)
}

// 9: the tag is this one.
#[tactic(auto, unfolding(crate::specs::Conditions::has_tag))]
pub(crate) fn has_tag<L: Looks>(looks: &L, queue: u32, item: u32, tag: u64) -> Option<Unmet>
    ensures { result ≡ has_tag (L.core looks.now) queue item tag }
{
    let found = looks.item_of(queue, item).tag;
    unless(found == tag, 9, tag, found)
}

// 9: the tag is any but 0.
#[tactic(auto, unfolding(crate::specs::Conditions::is_tagged))]
pub(crate) fn is_tagged<L: Looks>(looks: &L, queue: u32, item: u32) -> Option<Unmet>
    ensures { result ≡ is_tagged (L.core looks.now) queue item }
{
    let found = looks.item_of(queue, item).tag;
    unless(found != 0, 9, PLACE_LIMIT, found)
}

// 10: the run has a size of at least 1 and fits its segment and the seat's side.
#[tactic(auto, unfolding(crate::specs::Conditions::fits_side))]
pub(crate) fn fits_side<L: Looks>(looks: &L, seat: u32, run: Run) -> Option<Unmet>
    ensures { result ≡ fits_side (L.core looks.now) seat run }
{
    let in_segment = run.size > 0 && run.chunk as u64 + run.chunk_count() as u64 <= SEGMENT_CHUNKS;
    let segment = run.segment as u64;
    let on_side = side_start(looks, seat) <= segment && segment < side_end(looks, seat);
    unless(in_segment && on_side, 10, 1, 0)
}

// 12: the segment is one of the open ones, which are the lowest of the seat's side.
#[tactic(auto, unfolding(crate::specs::Conditions::is_open))]
pub(crate) fn is_open<L: Looks>(looks: &L, seat: u32, segment: u32) -> Option<Unmet>
    ensures { result ≡ is_open (L.core looks.now) seat segment }
{
    let opened = side_opened(looks, seat);
    let number = (segment as u64).saturating_sub(side_start(looks, seat));
    unless(number < opened, 12, opened, number)
}

// 13: the count is the number of open segments of the seat's side, of which one isn't open.
#[tactic(auto, unfolding(crate::specs::Conditions::may_open))]
pub(crate) fn may_open<L: Looks>(looks: &L, seat: u32, count: u32) -> Option<Unmet>
    ensures { result ≡ may_open (L.core looks.now) seat count }
{
    let opened = side_opened(looks, seat);
    let some_left = opened < side_end(looks, seat).saturating_sub(side_start(looks, seat));
    let want = if some_left { opened } else { PAST_ITEMS };
    unless(some_left && count as u64 == opened, 13, want, count as u64)
}
