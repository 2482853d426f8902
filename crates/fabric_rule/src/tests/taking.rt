// The request of a line is popped and taken by a worker, or cancelled before.
ghost use Rattle.std.specs.Prelude.{ℕ, ◌≡◌, ◌≢◌, [], IfSome, List, None, Some};
ghost use Rattle.carried_slots.specs.Carried.{content};
ghost use Rattle.fabric_rule.specs.Claiming.{without_chunk};
ghost use Rattle.fabric_rule.specs.declared.event.Segments.TheVariants.{Out};
ghost use Rattle.fabric_rule.specs.Seats.{fresh_main};
ghost use Rattle.fabric_rule.specs.TestViews.{given_request, held_request, noted_request, plain_shape, popped_request, taken_request, with_a_request};

use super::*;
use crate::tests::request::{posted_request, request_bytes};
use request_context::Parcel;

// Pops item 0 of the line.
fn pops(table: &Fabric, layout: &Layout, seat: &mut Seat) -> Option<()>
    requires own { seat.old.seat.table_id ≡ table.now.table.shared.table_id }
    requires plain { table.now.table.shared.key ≡ plain_shape }
    requires laid { layout.now.shape ≡ plain_shape }
    requires fresh { seat.old.seat.me ≡ (fresh_main plain_shape 1, []) }
    ensures own { seat.new.seat.table_id ≡ seat.old.seat.table_id }
    ensures me { IfSome result (λ _. seat.new.seat.me ≡ (popped_request, [])) }
{
    let line = fabric_words::Side::LineSide;
    let head_word = layout.offset(Place::Head {
        queue: 0,
        side: line,
    });
    let slot = layout.offset(Place::Slot {
        queue: 0,
        side: line,
        slot: 0,
    });
    let place = table.load(seat, head_word, head(0, Side::Line));
    let first = table.load(seat, slot, entry(0, Side::Line, 8));
    if place != 8 || first != 8 || table.pop(seat, head_word, 0, 8, 8) != 8 {
        return None;
    }
    Some(())
}

// Notes the item's run and its poster.
fn notes(table: &Fabric, layout: &Layout, seat: &mut Seat) -> Option<()>
    requires own { seat.old.seat.table_id ≡ table.now.table.shared.table_id }
    requires plain { table.now.table.shared.key ≡ plain_shape }
    requires laid { layout.now.shape ≡ plain_shape }
    requires popped { seat.old.seat.me ≡ (popped_request, []) }
    ensures own { seat.new.seat.table_id ≡ seat.old.seat.table_id }
    ensures me { IfSome result (λ _. seat.new.seat.me ≡ (noted_request, [])) }
{
    let run_word = layout.offset(Place::RunWord { queue: 0, item: 0 });
    let part_word = layout.offset(Place::PartWord { queue: 0, item: 0 });
    let run = table.load(seat, run_word, Look::Run { queue: 0, item: 0 });
    let part = table.load(seat, part_word, Look::Part { queue: 0, item: 0 });
    if run != 77 || part != 0 {
        return None;
    }
    Some(())
}

// The item gets a seat of its own, which takes the lists in.
fn holds(table: &Fabric, mut seat: Seat) -> Seat
    requires own { seat.seat.table_id ≡ table.now.table.shared.table_id }
    requires noted { seat.seat.me ≡ (noted_request, []) }
    ensures own { result.seat.table_id ≡ seat.seat.table_id }
    ensures me { result.seat.me ≡ (held_request, []) }
{
    let mut state = table.hand_on(&mut seat);
    table.take_in(&mut state, seat);
    state
}

// Takes the request: the tag as it was, which is 1 where it won.
fn takes(table: &Fabric, layout: &Layout, seat: &mut Seat) -> u64
    requires own { seat.old.seat.table_id ≡ table.now.table.shared.table_id }
    requires plain { table.now.table.shared.key ≡ plain_shape }
    requires laid { layout.now.shape ≡ plain_shape }
    requires held { seat.old.seat.me ≡ (held_request, []) }
    ensures own { seat.new.seat.table_id ≡ seat.old.seat.table_id }
    ensures won { result ≡ 1 → (text : List ℕ) × (seat.new.seat.me.0 ≡ taken_request text) }
    ensures nothing { result ≢ 1 → seat.new.seat.me.1 ≡ [] }
{
    let held = HeldRequest {
        item: 0,
        run: 77,
        poster: 0,
    };
    table.take(
        seat,
        layout.offset(Place::Tag { queue: 0, item: 0 }),
        held,
        1,
    )
}

// Takes out what lies in chunk 0.
fn reads(table: &Fabric, seat: &mut Seat) -> Option<Bytes>
    requires own { seat.old.seat.table_id ≡ table.now.table.shared.table_id }
    requires taken { (text : List ℕ) × (seat.old.seat.me.0 ≡ taken_request text) }
    ensures own { seat.new.seat.table_id ≡ seat.old.seat.table_id }
    ensures view { seat.new.seat.me.0 ≡ seat.old.seat.me.0 }
    ensures empty { content seat.new.seat.me.1 0 ≡ Some None }
{
    match table.swap(seat, 0, None) {
        Some(parcel) => Some(parcel.into_bytes()),
        None => None,
    }
}

// Gives the item back into its free ring.
fn gives(table: &Fabric, layout: &Layout, seat: &mut Seat) -> Option<()>
    requires own { seat.old.seat.table_id ≡ table.now.table.shared.table_id }
    requires plain { table.now.table.shared.key ≡ plain_shape }
    requires laid { layout.now.shape ≡ plain_shape }
    requires taken { (text : List ℕ) × (seat.old.seat.me.0 ≡ taken_request text) }
    ensures own { seat.new.seat.table_id ≡ seat.old.seat.table_id }
    ensures given { IfSome result (λ _. (text : List ℕ) → seat.old.seat.me.0 ≡ taken_request text
        → seat.new.seat.me.0 ≡ given_request text) }
    ensures slots { IfSome result (λ _. seat.new.seat.me.1 ≡ seat.old.seat.me.1) }
{
    let free = fabric_words::Side::FreeSide;
    let tail_word = layout.offset(Place::Tail {
        queue: 0,
        side: free,
    });
    let slot = layout.offset(Place::Slot {
        queue: 0,
        side: free,
        slot: 0,
    });
    let end = table.load(seat, tail_word, tail(0, Side::Free));
    let last = table.load(seat, slot, entry(0, Side::Free, 16));
    let put = EntryPut {
        item: 0,
        place: 16,
        entry: 8,
    };
    if end != 16 || last != 8 || table.give(seat, slot, 0, 8, put) != 8 {
        return None;
    }
    Some(())
}

// Gives chunk 0 back.
fn releases(table: &Fabric, layout: &Layout, seat: &mut Seat)
    requires own { seat.old.seat.table_id ≡ table.now.table.shared.table_id }
    requires plain { table.now.table.shared.key ≡ plain_shape }
    requires laid { layout.now.shape ≡ plain_shape }
    requires empty { content seat.old.seat.me.1 0 ≡ Some None }
    ensures own { seat.new.seat.table_id ≡ seat.old.seat.table_id }
    ensures given { seat.new.seat.me.0 ≡ without_chunk plain_shape Out 0 seat.old.seat.me.0 }
{
    let map = layout.offset(Place::Chunks { number: 0 });
    table.release_bit(seat, map, Segments::Out, 0);
}

// Cancels the request: the tag as it was, which is 1 where it won.
fn cancels(table: &Fabric, layout: &Layout, seat: &mut Seat) -> u64
    requires own { seat.old.seat.table_id ≡ table.now.table.shared.table_id }
    requires plain { table.now.table.shared.key ≡ plain_shape }
    requires laid { layout.now.shape ≡ plain_shape }
    requires posted { (text : List ℕ) × (seat.old.seat.me ≡ (with_a_request text, [])) }
    ensures own { seat.new.seat.table_id ≡ seat.old.seat.table_id }
{
    let posted = PostedItem { item: 0, run: 77 };
    table.cancel(
        seat,
        layout.offset(Place::Tag { queue: 0, item: 0 }),
        posted,
        1,
    )
}

#[test]
fn a_worker_takes_the_request(rt: HostRuntime) {
    let shape = plain();
    assert!(rt; shape.valid());
    let layout = Layout::of(shape);
    let (table, mut first) = Fabric::open(rt.alloc(), &shape).expect(&rt, "a table");
    let mut engine = table.first_main(&mut first, 0);
    let mut worker = table.first_main(&mut first, 1);
    posted_request(rt.alloc(), &table, &layout, &mut engine).expect(&rt, "a request");
    pops(&table, &layout, &mut worker).expect(&rt, "an item");
    assert_eq!(rt;
        see(&table, &layout, &mut first, head(0, Side::Line)),
        Some(9)
    );
    notes(&table, &layout, &mut worker).expect(&rt, "its words");
    let mut state = holds(&table, worker);
    let found = takes(&table, &layout, &mut state);
    assert_eq!(rt; found, 1);
    let tag = Look::Tag { queue: 0, item: 0 };
    assert_eq!(rt; see(&table, &layout, &mut first, tag), Some(0));
    let bytes = reads(&table, &mut state).expect(&rt, "a piece");
    assert!(rt; bytes.as_slice() == request_bytes());
    gives(&table, &layout, &mut state).expect(&rt, "a place");
    assert_eq!(rt;
        see(&table, &layout, &mut first, entry(0, Side::Free, 16)),
        Some(16)
    );
    releases(&table, &layout, &mut state);
    let map = map_word(Segments::Out, 0);
    assert_eq!(rt; see(&table, &layout, &mut first, map), Some(u64::MAX));
    assert_eq!(rt; cancels(&table, &layout, &mut engine), 0);
    assert_eq!(rt; see(&table, &layout, &mut first, tag), Some(0));
}

// The worker's notes are stale: the engine cancels between its look at the run and its exchange.
#[test]
fn a_cancelled_request_is_not_taken(rt: HostRuntime) {
    let shape = plain();
    assert!(rt; shape.valid());
    let layout = Layout::of(shape);
    let (table, mut first) = Fabric::open(rt.alloc(), &shape).expect(&rt, "a table");
    let mut engine = table.first_main(&mut first, 0);
    let mut worker = table.first_main(&mut first, 1);
    posted_request(rt.alloc(), &table, &layout, &mut engine).expect(&rt, "a request");
    pops(&table, &layout, &mut worker).expect(&rt, "an item");
    notes(&table, &layout, &mut worker).expect(&rt, "its words");
    let mut state = holds(&table, worker);
    assert_eq!(rt; cancels(&table, &layout, &mut engine), 1);
    assert_eq!(rt; takes(&table, &layout, &mut state), 0);
    let tag = Look::Tag { queue: 0, item: 0 };
    assert_eq!(rt; see(&table, &layout, &mut first, tag), Some(0));
}
