//! Turns and searches, by one thread and by two.
ghost use Rattle.std.specs.Prelude.{◌≡◌, ◌+◌, ◌*◌, ◌≤◌, ◌<◌, ◌^◌, IfSome, IsTrue};
ghost use Rattle.carried_slots.specs.RunSlots.{HasEmpty};
ghost use Rattle.unit_model.specs.Limits.{segment_chunks};
ghost use Rattle.unit_model.specs.Runs.{chunks_for};
ghost use Rattle.unit_model.specs.Shapes.{role_in};
ghost use Rattle.fabric_rule.specs.Opening.{ledger_of};
ghost use Rattle.fabric_rule.specs.SegmentMaps.{MayTakeChunks, first_in_side, side_chunks};
ghost use Rattle.fabric_rule.specs.Steps.{IsMain};
ghost use Rattle.fabric_rule.specs.Turns.{MayGet, MayGive, SameWorks};
ghost use Rattle.fabric_rule.specs.declared.event.Segments.TheVariants.{Out};

use super::*;
use chunk_map::Claim;
use nncq_ring::{PopTurn, PushTurn};
use std::thread;
use unit_model::Run;

// How often a turn is tried that another thread may make be lost.
const TRIES: u32 = 100_000;

// Draws a stream, if it was the next one.
fn has_drawn(table: &Fabric, layout: &Layout, engine: &mut Seat, stream: u64) -> bool
    requires own { engine.old.seat.table_id ≡ table.now.table.shared.table_id }
    requires laid { layout.now.shape ≡ table.now.table.shared.key }
    requires main { IsMain engine.old.seat.me.0 (ledger_of engine.old.seat.me.0) }
    requires engine { role_in table.now.table.shared.key engine.old.seat.me.0.seat ≡ 0 }
    requires low { stream < 2 ^ 62 }
    ensures own { engine.new.seat.table_id ≡ engine.old.seat.table_id }
    ensures drew { IsTrue result → MayGet table.now.table.shared.key 0 engine.new.seat.me.0
        × MayTakeChunks table.now.table.shared.key Out engine.new.seat.me.0 }
{
    table.draw(engine, layout.offset(Place::NextStream), stream) == stream
}

// The first free item of queue 0, if it came.
fn got(table: &Fabric, layout: &Layout, seat: &mut Seat) -> Option<u32>
    requires own { seat.old.seat.table_id ≡ table.now.table.shared.table_id }
    requires laid { layout.now.shape ≡ table.now.table.shared.key }
    requires may { MayGet table.now.table.shared.key 0 seat.old.seat.me.0 }
    ensures own { seat.new.seat.table_id ≡ seat.old.seat.table_id }
    ensures slots { seat.new.seat.me.1 ≡ seat.old.seat.me.1 }
    ensures works { SameWorks seat.old.seat.me.0 seat.new.seat.me.0 }
    ensures may { IfSome result
        (λ item. MayGive table.now.table.shared.key 0 item seat.new.seat.me.0) }
{
    for _ in 0..TRIES {
        if let PopTurn::Got { value, .. } = table.get_item_turn(layout, seat, 0) {
            return Some(value);
        }
    }
    None
}

// Whether the item went back.
fn is_given(table: &Fabric, layout: &Layout, seat: &mut Seat, item: u32) -> bool
    requires own { seat.old.seat.table_id ≡ table.now.table.shared.table_id }
    requires laid { layout.now.shape ≡ table.now.table.shared.key }
    requires may { MayGive table.now.table.shared.key 0 item seat.old.seat.me.0 }
    ensures own { seat.new.seat.table_id ≡ seat.old.seat.table_id }
    ensures slots { seat.new.seat.me.1 ≡ seat.old.seat.me.1 }
    ensures works { SameWorks seat.old.seat.me.0 seat.new.seat.me.0 }
{
    for _ in 0..TRIES {
        match table.give_turn(layout, seat, 0, item) {
            PushTurn::Done(_) => return true,
            PushTurn::Worn(_) => return false,
            PushTurn::Lost { .. } => {}
        }
    }
    false
}

// Whether an item was got and went back.
fn goes_round(table: &Fabric, layout: &Layout, seat: &mut Seat) -> bool
    requires own { seat.old.seat.table_id ≡ table.now.table.shared.table_id }
    requires laid { layout.now.shape ≡ table.now.table.shared.key }
    requires may { MayGet table.now.table.shared.key 0 seat.old.seat.me.0 }
    ensures own { seat.new.seat.table_id ≡ seat.old.seat.table_id }
    ensures slots { seat.new.seat.me.1 ≡ seat.old.seat.me.1 }
    ensures works { SameWorks seat.old.seat.me.0 seat.new.seat.me.0 }
{
    match got(table, layout, seat) {
        Some(item) => is_given(table, layout, seat, item),
        None => false,
    }
}

// Whether a run for so many bytes was claimed, and an item went round; then the run is given back.
fn passes(table: &Fabric, layout: &Layout, seat: &mut Seat, bytes: u32) -> bool
    requires own { seat.old.seat.table_id ≡ table.now.table.shared.table_id }
    requires laid { layout.now.shape ≡ table.now.table.shared.key }
    requires gets { MayGet table.now.table.shared.key 0 seat.old.seat.me.0 }
    requires takes { MayTakeChunks table.now.table.shared.key Out seat.old.seat.me.0 }
    requires some { (1 ≤ bytes) × (bytes ≤ 49152) }
    ensures own { seat.new.seat.table_id ≡ seat.old.seat.table_id }
    ensures works { SameWorks seat.old.seat.me.0 seat.new.seat.me.0 }
{
    let Claim::Run(run) = table.claim(layout, seat, Segments::Out, bytes) else {
        return false;
    };
    let passed = goes_round(table, layout, seat);
    table.release(layout, seat, Segments::Out, run);
    passed
}

// How many of 5,000 rounds went well, with runs of 1 to 3 chunks.
fn rounds(table: &Fabric, layout: &Layout, seat: &mut Seat) -> u32
    requires own { seat.old.seat.table_id ≡ table.now.table.shared.table_id }
    requires laid { layout.now.shape ≡ table.now.table.shared.key }
    requires gets { MayGet table.now.table.shared.key 0 seat.old.seat.me.0 }
    requires takes { MayTakeChunks table.now.table.shared.key Out seat.old.seat.me.0 }
{
    let mut well = 0u32;
    for round in 0..5_000u32 {
        if passes(table, layout, seat, 16_384 * (1 + round % 3)) {
            well = well.saturating_add(1);
        }
    }
    well
}

// The chunks of a first claim of so many bytes.
fn held(table: &Fabric, layout: &Layout, seat: &mut Seat, bytes: u32) -> Option<Run>
    requires own { seat.old.seat.table_id ≡ table.now.table.shared.table_id }
    requires laid { layout.now.shape ≡ table.now.table.shared.key }
    requires takes { MayTakeChunks table.now.table.shared.key Out seat.old.seat.me.0 }
    requires some { (1 ≤ bytes) × (bytes ≤ 10485760) }
    ensures own { seat.new.seat.table_id ≡ seat.old.seat.table_id }
    ensures empty { IfSome result (λ run.
        (segment_chunks * run.segment + run.chunk + chunks_for run.size
        ≤ side_chunks table.now.table.shared.key Out)
        × HasEmpty (first_in_side table.now.table.shared.key Out run) (chunks_for run.size)
        seat.new.seat.me.1) }
{
    match table.claim(layout, seat, Segments::Out, bytes) {
        Claim::Run(run) => Some(run),
        Claim::Full(_) => None,
    }
}

// While a third seat has all but three chunks of the first segment, two threads claim runs of 1 to 3 chunks over two segments,
// and pass items through a ring. Then all chunks are free.
#[test]
fn two_threads_share_rings_and_segments(rt: HostRuntime) {
    let shape = Shape {
        items: 8,
        back_items: 8,
        out_segments: 2,
        back_segments: 1,
        engines: 3,
        workers: 1,
        start: 8,
    };
    assert!(rt; shape.valid());
    let layout = Layout::of(shape);
    let (table, mut first) = Fabric::open(rt.alloc(), &shape).expect(&rt, "a table");
    let mut one = table.first_main(&mut first, 0);
    let mut two = table.first_main(&mut first, 1);
    let mut three = table.first_main(&mut first, 2);
    let drew_one = has_drawn(&table, &layout, &mut one, 1);
    assert!(rt; drew_one);
    let drew_two = has_drawn(&table, &layout, &mut two, 2);
    assert!(rt; drew_two);
    let drew_three = has_drawn(&table, &layout, &mut three, 3);
    assert!(rt; drew_three);
    let open = layout.offset(Place::OpenedOut);
    let one_open = table.open_segment(&mut three, open, Segments::Out, 1);
    assert_eq!(rt; one_open, 1);
    let run = held(&table, &layout, &mut three, 637 * 16_384).expect(&rt, "a run");
    let (mine, theirs) = thread::join(
        &rt,
        || rounds(&table, &layout, &mut one),
        || rounds(&table, &layout, &mut two),
    );
    assert_eq!(rt; (mine, theirs), (5_000, 5_000));
    table.release(&layout, &mut three, Segments::Out, run);
    for number in 0..20 {
        let word = see(&table, &layout, &mut first, map_word(Segments::Out, number));
        assert_eq!(rt; word, Some(u64::MAX));
    }
}

// A turn at the free ring of queue 0.
fn takes(table: &Fabric, layout: &Layout, seat: &mut Seat) -> PopTurn
    requires own { seat.old.seat.table_id ≡ table.now.table.shared.table_id }
    requires laid { layout.now.shape ≡ table.now.table.shared.key }
    requires may { MayGet table.now.table.shared.key 0 seat.old.seat.me.0 }
    ensures own { seat.new.seat.table_id ≡ seat.old.seat.table_id }
    ensures works { SameWorks seat.old.seat.me.0 seat.new.seat.me.0 }
{
    table.get_item_turn(layout, seat, 0)
}

// The one item of a ring comes, goes back and comes again; then there is none.
#[test]
fn a_free_ring_of_one_item_is_empty_without_it(rt: HostRuntime) {
    let shape = Shape {
        items: 1,
        ..plain()
    };
    assert!(rt; shape.valid());
    let layout = Layout::of(shape);
    let (table, mut first) = Fabric::open(rt.alloc(), &shape).expect(&rt, "a table");
    let mut engine = table.first_main(&mut first, 0);
    let drew = has_drawn(&table, &layout, &mut engine, 1);
    assert!(rt; drew);
    let went_round = goes_round(&table, &layout, &mut engine);
    assert!(rt; went_round);
    let turn = takes(&table, &layout, &mut engine);
    assert_eq!(rt; turn, PopTurn::Got { place: 9, value: 0 });
    let turn = takes(&table, &layout, &mut engine);
    assert_eq!(rt;
        turn,
        PopTurn::Empty {
            place: 10,
            entry: 9
        }
    );
}
