// One request, from the stream that an engine draws to the line, by the calls of one thread.
ghost use Rattle.std.specs.Prelude.{ℕ, ◌≡◌, [], ◌∷◌, IfSome, List, None};
ghost use Rattle.request_context.specs.Record.{HasRecord, request_record};
ghost use Rattle.request_context.specs.declared.asked.Asked.{Asked};
ghost use Rattle.fabric_rule.specs.Seats.{fresh_main};
ghost use Rattle.fabric_rule.specs.TestViews.{one_drawn, plain_shape, with_a_chunk, with_a_post, with_a_request, with_an_item, with_words};

use super::*;
use request_context::{Parcel, read_record};

// The record of stream 1, a GET of / for the handler `hello`, from 127.0.0.1:40000 at
// 10.0.0.1:8080.
pub(crate) fn request_bytes() -> &'static [u8] {
    &[
        0, 0, 0, 0, 0, 0, 0, 1, 0, 0, 0, 5, 104, 101, 108, 108, 111, 1, 0, 0, 0, 3, 71, 69, 84, 0,
        0, 0, 1, 47, 0, 0, 0, 1, 47, 0, 0, 0, 0, 0, 0, 0, 1, 97, 127, 0, 0, 1, 156, 64, 10, 0, 0,
        1, 31, 144, 0, 0, 0, 1, 0, 0, 0, 4, 104, 111, 115, 116, 0, 0, 0, 1, 97, 0, 0, 0, 0,
    ]
}

// Those bytes, where they are the record of a request under stream 1.
fn record_of_one(alloc: Global) -> Option<Bytes>
    ensures { IfSome result (λ bytes. (asked : Asked) × HasRecord asked × (asked.stream ≡ 1)
        × (bytes ≡ request_record asked)) }
{
    let bytes = request_bytes();
    match read_record(alloc, bytes) {
        Ok(Some(asked)) if asked.stream == 1 => Bytes::copy_of(alloc, bytes).ok(),
        _ => None,
    }
}

// Draws stream 1.
fn draws(table: &Fabric, layout: &Layout, seat: &mut Seat) -> Option<()>
    requires own { seat.old.seat.table_id ≡ table.now.table.shared.table_id }
    requires plain { table.now.table.shared.key ≡ plain_shape }
    requires laid { layout.now.shape ≡ plain_shape }
    requires fresh { seat.old.seat.me ≡ (fresh_main plain_shape 0, []) }
    ensures own { seat.new.seat.table_id ≡ seat.old.seat.table_id }
    ensures me { IfSome result (λ _. seat.new.seat.me ≡ (one_drawn plain_shape, [])) }
{
    let found = table.draw(seat, layout.offset(Place::NextStream), 1);
    if found != 1 {
        return None;
    }
    Some(())
}

// Claims chunk 0.
fn claims(table: &Fabric, layout: &Layout, seat: &mut Seat) -> Option<()>
    requires own { seat.old.seat.table_id ≡ table.now.table.shared.table_id }
    requires plain { table.now.table.shared.key ≡ plain_shape }
    requires laid { layout.now.shape ≡ plain_shape }
    requires drawn { seat.old.seat.me ≡ (one_drawn plain_shape, []) }
    ensures own { seat.new.seat.table_id ≡ seat.old.seat.table_id }
    ensures me { IfSome result (λ _. seat.new.seat.me ≡ (with_a_chunk, (0, None) ∷ [])) }
{
    let out = Look::Open(Segments::Out);
    if table.load(seat, layout.offset(Place::OpenedOut), out) != 1 {
        return None;
    }
    let map = layout.offset(Place::Chunks { number: 0 });
    if !table.claim_bit(seat, map, Segments::Out, 0) {
        return None;
    }
    Some(())
}

// Gets item 0 of the line from its free ring.
fn gets(table: &Fabric, layout: &Layout, seat: &mut Seat) -> Option<()>
    requires own { seat.old.seat.table_id ≡ table.now.table.shared.table_id }
    requires plain { table.now.table.shared.key ≡ plain_shape }
    requires laid { layout.now.shape ≡ plain_shape }
    requires chunk { seat.old.seat.me ≡ (with_a_chunk, (0, None) ∷ []) }
    ensures own { seat.new.seat.table_id ≡ seat.old.seat.table_id }
    ensures me { IfSome result (λ _. seat.new.seat.me ≡ (with_an_item, (0, None) ∷ [])) }
{
    let free = fabric_words::Side::FreeSide;
    let head_word = layout.offset(Place::Head {
        queue: 0,
        side: free,
    });
    let slot = layout.offset(Place::Slot {
        queue: 0,
        side: free,
        slot: 0,
    });
    let place = table.load(seat, head_word, head(0, Side::Free));
    let first = table.load(seat, slot, entry(0, Side::Free, 8));
    if place != 8 || first != 8 || table.get_item(seat, head_word, 0, 8, 8) != 8 {
        return None;
    }
    Some(())
}

// Stores the run of 77 bytes from chunk 0 on, and engine 0 as the poster.
fn writes(table: &Fabric, layout: &Layout, seat: &mut Seat)
    requires own { seat.old.seat.table_id ≡ table.now.table.shared.table_id }
    requires plain { table.now.table.shared.key ≡ plain_shape }
    requires laid { layout.now.shape ≡ plain_shape }
    requires item { seat.old.seat.me ≡ (with_an_item, (0, None) ∷ []) }
    ensures own { seat.new.seat.table_id ≡ seat.old.seat.table_id }
    ensures me { seat.new.seat.me ≡ (with_words, (0, None) ∷ []) }
{
    let run = layout.offset(Place::RunWord { queue: 0, item: 0 });
    table.store_run(seat, run, 0, 0, 77);
    let part = layout.offset(Place::PartWord { queue: 0, item: 0 });
    table.store_part(seat, part, 0, 0, 0);
}

// Fills the chunk with the record, and posts it.
fn posts(table: &Fabric, layout: &Layout, seat: &mut Seat, text: Bytes)
    requires own { seat.old.seat.table_id ≡ table.now.table.shared.table_id }
    requires plain { table.now.table.shared.key ≡ plain_shape }
    requires laid { layout.now.shape ≡ plain_shape }
    requires words { seat.old.seat.me ≡ (with_words, (0, None) ∷ []) }
    requires text { (asked : Asked) × HasRecord asked × (asked.stream ≡ 1)
        × (text ≡ request_record asked) }
    ensures own { seat.new.seat.table_id ≡ seat.old.seat.table_id }
    ensures me { seat.new.seat.me ≡ (with_a_post text, []) }
{
    table.swap(seat, 0, Some(Parcel::Ask(text)));
    let got = GotItem {
        item: 0,
        place: 8,
        run: 77,
    };
    table.post(
        seat,
        layout.offset(Place::Tag { queue: 0, item: 0 }),
        got,
        1,
    );
}

// Pushes the item into the line.
fn pushes(table: &Fabric, layout: &Layout, seat: &mut Seat) -> Option<()>
    requires own { seat.old.seat.table_id ≡ table.now.table.shared.table_id }
    requires plain { table.now.table.shared.key ≡ plain_shape }
    requires laid { layout.now.shape ≡ plain_shape }
    requires posted { (text : List ℕ) × (seat.old.seat.me ≡ (with_a_post text, [])) }
    ensures own { seat.new.seat.table_id ≡ seat.old.seat.table_id }
    ensures me { IfSome result (λ _. (text : List ℕ) → seat.old.seat.me ≡ (with_a_post text, [])
        → seat.new.seat.me ≡ (with_a_request text, [])) }
{
    let line = fabric_words::Side::LineSide;
    let tail_word = layout.offset(Place::Tail {
        queue: 0,
        side: line,
    });
    let slot = layout.offset(Place::Slot {
        queue: 0,
        side: line,
        slot: 0,
    });
    let place = table.load(seat, tail_word, tail(0, Side::Line));
    let last = table.load(seat, slot, entry(0, Side::Line, 8));
    let put = EntryPut {
        item: 0,
        place: 8,
        entry: 0,
    };
    if place != 8 || last != 0 || table.push(seat, slot, 8, put) != 0 {
        return None;
    }
    Some(())
}

// All of these steps of engine 0.
pub(crate) fn posted_request(
    alloc: Global,
    table: &Fabric,
    layout: &Layout,
    seat: &mut Seat,
) -> Option<()>
    requires own { seat.old.seat.table_id ≡ table.now.table.shared.table_id }
    requires plain { table.now.table.shared.key ≡ plain_shape }
    requires laid { layout.now.shape ≡ plain_shape }
    requires fresh { seat.old.seat.me ≡ (fresh_main plain_shape 0, []) }
    ensures own { seat.new.seat.table_id ≡ seat.old.seat.table_id }
    ensures me { IfSome result (λ _. (text : List ℕ)
        × (seat.new.seat.me ≡ (with_a_request text, []))) }
{
    let text = record_of_one(alloc)?;
    draws(table, layout, seat)?;
    claims(table, layout, seat)?;
    gets(table, layout, seat)?;
    writes(table, layout, seat);
    posts(table, layout, seat, text);
    pushes(table, layout, seat)
}

#[test]
fn a_request_goes_into_the_line(rt: HostRuntime) {
    let shape = plain();
    assert!(rt; shape.valid());
    let layout = Layout::of(shape);
    let (table, mut first) = Fabric::open(rt.alloc(), &shape).expect(&rt, "a table");
    let mut engine = table.first_main(&mut first, 0);
    let text = record_of_one(rt.alloc()).expect(&rt, "a record");
    assert_eq!(rt; text.as_slice().len(), 77);
    draws(&table, &layout, &mut engine).expect(&rt, "a stream");
    assert_eq!(rt; see(&table, &layout, &mut first, Look::Next), Some(2));
    claims(&table, &layout, &mut engine).expect(&rt, "a chunk");
    let map = map_word(Segments::Out, 0);
    assert_eq!(rt; see(&table, &layout, &mut first, map), Some(u64::MAX - 1));
    gets(&table, &layout, &mut engine).expect(&rt, "an item");
    assert_eq!(rt;
        see(&table, &layout, &mut first, head(0, Side::Free)),
        Some(9)
    );
    writes(&table, &layout, &mut engine);
    let run = Look::Run { queue: 0, item: 0 };
    assert_eq!(rt; see(&table, &layout, &mut first, run), Some(77));
    let part = Look::Part { queue: 0, item: 0 };
    assert_eq!(rt; see(&table, &layout, &mut first, part), Some(0));
    posts(&table, &layout, &mut engine, text);
    let tag = Look::Tag { queue: 0, item: 0 };
    assert_eq!(rt; see(&table, &layout, &mut first, tag), Some(1));
    pushes(&table, &layout, &mut engine).expect(&rt, "a place");
    assert_eq!(rt;
        see(&table, &layout, &mut first, entry(0, Side::Line, 8)),
        Some(8)
    );
}
