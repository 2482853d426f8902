ghost use Rattle.std.specs.Prelude.{◌≡◌, ◌≤◌, [], IfSome};
ghost use Rattle.fabric_rule.specs.Looks.{place_of};
ghost use Rattle.fabric_rule.specs.Seats.{fresh_main, without_works, works_of};
ghost use Rattle.fabric_rule.specs.TestViews.{one_drawn, plain_shape};
ghost use Rattle.fabric_rule.specs.declared.look.Look.TheVariants.{Entry, Head, Map, Tail};
ghost use Rattle.fabric_rule.specs.Views.{word_side};

mod chunks;
mod request;
mod stale;
mod taking;
mod turns;

use super::*;
use app_queue::Side;
use fabric_words::{Layout, Place};
use std::alloc::{AllocError, Global};
use std::test::*;
use unit_model::Shape;
use unit_types::{Bytes, Fields, Handlers, Reply, Request};

// Handlers that know no name.
struct NoHandlers;

impl Handlers for NoHandlers {
    ghost use Rattle.segment_table.specs.NoReplies.{no_names, no_reply, no_reply_fits};

    ghost reply_of = { λ name request. no_reply };

    ghost listed = { λ _. [] };

    ghost names_fit = { λ _. no_names };

    ghost replies_fit = { λ name request. no_reply_fits };

    fn names(&self) -> &[Bytes] {
        &[]
    }

    fn reply(&self, alloc: Global, _name: &[u8], _request: &Request) -> Result<Reply, AllocError> {
        Ok(Reply {
            status: 404,
            fields: Fields::of(Vec::new(alloc)),
            body: Bytes::of(Vec::new(alloc)),
        })
    }
}

type Fabric = FabricTable<NoHandlers>;

type Seat = FabricSeat<NoHandlers>;

fn plain() -> Shape
    ensures { result ≡ plain_shape }
{
    Shape {
        items: 8,
        back_items: 8,
        out_segments: 1,
        back_segments: 1,
        engines: 1,
        workers: 1,
        start: 8,
    }
}

// The same ring, as the words name its side.
fn side_of(side: Side) -> fabric_words::Side
    ensures { result ≡ word_side side }
{
    match side {
        Side::Free => fabric_words::Side::FreeSide,
        Side::Line => fabric_words::Side::LineSide,
    }
}

// The word that is looked at, if it is there.
fn looked_at(layout: &Layout, look: Look) -> Option<Place>
    ensures { IfSome result (λ place. place ≡ place_of layout.now.shape look) }
{
    let place = match look {
        Look::Next => Place::NextStream,
        Look::Open(Segments::Out) => Place::OpenedOut,
        Look::Open(Segments::Back) => Place::OpenedBack,
        Look::Map {
            segments: Segments::Out,
            number,
        } => Place::Chunks { number },
        Look::Map {
            segments: Segments::Back,
            number,
        } => Place::Chunks {
            number: number.checked_add(10 * layout.shape().out_segments)?,
        },
        Look::Tail { queue, side } => Place::Tail {
            queue,
            side: side_of(side),
        },
        Look::Head { queue, side } => Place::Head {
            queue,
            side: side_of(side),
        },
        Look::Entry { queue, side, place } => Place::Slot {
            queue,
            side: side_of(side),
            slot: place.checked_rem(layout.items(queue) as u64)? as u32,
        },
        Look::Tag { queue, item } => Place::Tag { queue, item },
        Look::Run { queue, item } => Place::RunWord { queue, item },
        Look::Part { queue, item } => Place::PartWord { queue, item },
    };
    Some(place)
}

// The word, if it is there.
fn see(table: &Fabric, layout: &Layout, seat: &mut Seat, look: Look) -> Option<u64>
    requires own { seat.old.seat.table_id ≡ table.now.table.shared.table_id }
    requires laid { layout.now.shape ≡ table.now.table.shared.key }
    ensures own { seat.new.seat.table_id ≡ seat.old.seat.table_id }
    ensures kept { (seat.new.seat.me.0.chunks ≡ seat.old.seat.me.0.chunks)
        × (seat.new.seat.me.0.items ≡ seat.old.seat.me.0.items)
        × (seat.new.seat.me.0.works ≡ seat.old.seat.me.0.works) }
{
    let place = looked_at(layout, look)?;
    if !layout.is_there(place) {
        return None;
    }
    Some(table.load(seat, layout.offset(place), look))
}

// Draws stream 1, which gets a seat of its own.
fn drawn(table: &Fabric, layout: &Layout, main: &mut Seat) -> Option<Seat>
    requires own { main.old.seat.table_id ≡ table.now.table.shared.table_id }
    requires laid { layout.now.shape ≡ table.now.table.shared.key }
    requires some { 1 ≤ table.now.table.shared.key.engines }
    requires fresh { main.old.seat.me ≡ (fresh_main table.now.table.shared.key 0, []) }
    ensures own { IfSome result (λ state. (main.new.seat.table_id ≡ main.old.seat.table_id)
        × (state.seat.table_id ≡ main.old.seat.table_id)) }
    ensures main { IfSome result (λ state. main.new.seat.me
        ≡ (without_works (one_drawn table.now.table.shared.key), [])) }
    ensures state { IfSome result (λ state. state.seat.me
        ≡ (works_of (one_drawn table.now.table.shared.key), [])) }
{
    let found = table.draw(main, layout.offset(Place::NextStream), 1);
    if found != 1 {
        return None;
    }
    Some(table.works_off(main))
}

// Gives a stream up that was drawn and not posted.
fn give_up(table: &Fabric, main: &mut Seat, state: Seat)
    requires own { (main.old.seat.table_id ≡ table.now.table.shared.table_id)
        × (state.seat.table_id ≡ table.now.table.shared.table_id) }
    requires main { main.old.seat.me
        ≡ (without_works (one_drawn table.now.table.shared.key), []) }
    requires state { state.seat.me ≡ (works_of (one_drawn table.now.table.shared.key), []) }
    ensures own { main.new.seat.table_id ≡ main.old.seat.table_id }
{
    table.end_works(main, state);
}

// Claims the first chunk of an engine's side and gives it back: its map word before, between and
// after.
fn claim_and_release(table: &Fabric, layout: &Layout, seat: &mut Seat) -> Option<(u64, u64, u64)>
    requires own { seat.old.seat.table_id ≡ table.now.table.shared.table_id }
    requires laid { layout.now.shape ≡ table.now.table.shared.key }
    requires side { 1 ≤ table.now.table.shared.key.out_segments }
    requires engine { 1 ≤ table.now.table.shared.key.engines }
    requires drawn { seat.old.seat.me ≡ (works_of (one_drawn table.now.table.shared.key), []) }
    ensures own { seat.new.seat.table_id ≡ seat.old.seat.table_id }
{
    let word = layout.offset(Place::Chunks { number: 0 });
    let look = map_word(Segments::Out, 0);
    let out = Look::Open(Segments::Out);
    let before = table.load(seat, word, look);
    let open = table.load(seat, layout.offset(Place::OpenedOut), out);
    if open == 0 {
        return None;
    }
    if !table.claim_bit(seat, word, Segments::Out, 0) {
        return None;
    }
    let between = table.load(seat, word, look);
    table.release_bit(seat, word, Segments::Out, 0);
    let after = table.load(seat, word, look);
    Some((before, between, after))
}

// Gets the first item of the line from its free ring and gives it back: the tail of that ring then.
fn get_and_give(table: &Fabric, layout: &Layout, seat: &mut Seat) -> Option<u64>
    requires own { seat.old.seat.table_id ≡ table.now.table.shared.table_id }
    requires laid { layout.now.shape ≡ table.now.table.shared.key }
    requires engine { 1 ≤ table.now.table.shared.key.engines }
    requires eight { table.now.table.shared.key.items ≡ 8 }
    requires drawn { seat.old.seat.me ≡ (works_of (one_drawn table.now.table.shared.key), []) }
    ensures own { seat.new.seat.table_id ≡ seat.old.seat.table_id }
{
    let free = fabric_words::Side::FreeSide;
    let head_word = layout.offset(Place::Head {
        queue: 0,
        side: free,
    });
    let tail_word = layout.offset(Place::Tail {
        queue: 0,
        side: free,
    });
    let slot = layout.offset(Place::Slot {
        queue: 0,
        side: free,
        slot: 0,
    });
    let place = table.load(seat, head_word, head(0, Side::Free));
    let first = table.load(seat, slot, entry(0, Side::Free, 8));
    if place != 8 || first != 8 || table.get_item(seat, head_word, 0, 8, 8) != 8 {
        return None;
    }
    let end = table.load(seat, tail_word, tail(0, Side::Free));
    let last = table.load(seat, slot, entry(0, Side::Free, 16));
    let put = EntryPut {
        item: 0,
        place: 16,
        entry: 8,
    };
    if end != 16 || last != 8 {
        return None;
    }
    if table.give(seat, slot, 0, 8, put) != 8 {
        return None;
    }
    table.help(seat, tail_word, 0, Side::Free, 16);
    Some(table.load(seat, tail_word, tail(0, Side::Free)))
}

fn map_word(segments: Segments, number: u32) -> Look
    ensures { result ≡ Map segments number }
{
    Look::Map { segments, number }
}

fn tail(queue: u32, side: Side) -> Look
    ensures { result ≡ Tail queue side }
{
    Look::Tail { queue, side }
}

fn head(queue: u32, side: Side) -> Look
    ensures { result ≡ Head queue side }
{
    Look::Head { queue, side }
}

fn entry(queue: u32, side: Side, place: u64) -> Look
    ensures { result ≡ Entry queue side place }
{
    Look::Entry { queue, side, place }
}

#[test]
fn a_fabric_begins_with_its_words(rt: HostRuntime) {
    let shape = plain();
    assert!(rt; shape.valid());
    let layout = Layout::of(shape);
    let (table, mut seat) = Fabric::open(rt.alloc(), &shape).expect(&rt, "a table");
    for (look, word) in [
        (Look::Next, 1),
        (Look::Open(Segments::Out), 1),
        (Look::Open(Segments::Back), 1),
        (map_word(Segments::Out, 0), u64::MAX),
        (map_word(Segments::Out, 9), u64::MAX),
        (map_word(Segments::Back, 9), u64::MAX),
        (head(0, Side::Free), 8),
        (tail(0, Side::Free), 16),
        (entry(0, Side::Free, 8), 8),
        (entry(0, Side::Free, 15), 15),
        (head(1, Side::Free), 8),
        (tail(1, Side::Free), 16),
        (head(0, Side::Line), 8),
        (tail(0, Side::Line), 8),
        (entry(0, Side::Line, 8), 0),
        (head(1, Side::Line), 8),
        (tail(1, Side::Line), 8),
        (Look::Tag { queue: 0, item: 0 }, 0),
        (Look::Run { queue: 1, item: 7 }, 0),
        (Look::Part { queue: 1, item: 7 }, 0),
    ] {
        assert_eq!(rt; see(&table, &layout, &mut seat, look), Some(word));
    }
    assert_eq!(rt; see(&table, &layout, &mut seat, head(2, Side::Free)), None);
    let past = Look::Tag { queue: 0, item: 8 };
    assert_eq!(rt; see(&table, &layout, &mut seat, past), None);
}

#[test]
fn each_number_gets_a_main_seat_and_gives_it_back(rt: HostRuntime) {
    let shape = plain();
    assert!(rt; shape.valid());
    let layout = Layout::of(shape);
    let (table, mut first) = Fabric::open(rt.alloc(), &shape).expect(&rt, "a table");
    let mut engine = table.first_main(&mut first, 0);
    let mut worker = table.first_main(&mut first, 1);
    assert_eq!(rt; see(&table, &layout, &mut engine, Look::Next), Some(1));
    let line = head(0, Side::Line);
    assert_eq!(rt; see(&table, &layout, &mut worker, line), Some(8));
    table.take_in(&mut first, engine);
    table.take_in(&mut first, worker);
    assert_eq!(rt; see(&table, &layout, &mut first, Look::Next), Some(1));
}

#[test]
fn a_stream_is_drawn_and_given_up(rt: HostRuntime) {
    let shape = plain();
    assert!(rt; shape.valid());
    let layout = Layout::of(shape);
    let (table, mut first) = Fabric::open(rt.alloc(), &shape).expect(&rt, "a table");
    let mut engine = table.first_main(&mut first, 0);
    let stream = drawn(&table, &layout, &mut engine).expect(&rt, "a stream");
    assert_eq!(rt; see(&table, &layout, &mut first, Look::Next), Some(2));
    give_up(&table, &mut engine, stream);
    assert_eq!(rt; see(&table, &layout, &mut engine, Look::Next), Some(2));
}

#[test]
fn a_chunk_is_claimed_and_given_back(rt: HostRuntime) {
    let shape = plain();
    assert!(rt; shape.valid());
    let layout = Layout::of(shape);
    let (table, mut first) = Fabric::open(rt.alloc(), &shape).expect(&rt, "a table");
    let mut engine = table.first_main(&mut first, 0);
    let mut state = drawn(&table, &layout, &mut engine).expect(&rt, "a stream");
    let words = claim_and_release(&table, &layout, &mut state);
    assert_eq!(rt; words, Some((u64::MAX, u64::MAX - 1, u64::MAX)));
}

#[test]
fn an_item_is_got_and_given_back(rt: HostRuntime) {
    let shape = plain();
    assert!(rt; shape.valid() && shape.items == 8);
    let layout = Layout::of(shape);
    let (table, mut first) = Fabric::open(rt.alloc(), &shape).expect(&rt, "a table");
    let mut engine = table.first_main(&mut first, 0);
    let mut state = drawn(&table, &layout, &mut engine).expect(&rt, "a stream");
    assert_eq!(rt; get_and_give(&table, &layout, &mut state), Some(17));
}
