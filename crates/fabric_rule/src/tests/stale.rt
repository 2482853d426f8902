// What a seat noted is stale where another seat moves between its load and its exchange: the exchange
// finds what stands there, and changes nothing.
ghost use Rattle.std.specs.Prelude.{◌≡◌, [], IfSome};
ghost use Rattle.fabric_rule.specs.Seats.{fresh_main};
ghost use Rattle.fabric_rule.specs.TestViews.{drawn_first, drawn_second, gave_first, got_first, got_second, missed_second, pair_shape};

use super::*;

// Two engines.
fn pair() -> Shape
    ensures { result ≡ pair_shape }
{
    Shape {
        items: 8,
        back_items: 8,
        out_segments: 2,
        back_segments: 1,
        engines: 2,
        workers: 1,
        start: 8,
    }
}

// The first engine draws stream 1; the second one wants it too, and finds 2, which it draws then.
fn draw_each(table: &Fabric, layout: &Layout, one: &mut Seat, other: &mut Seat) -> Option<u64>
    requires own { (one.old.seat.table_id ≡ table.now.table.shared.table_id)
        × (other.old.seat.table_id ≡ table.now.table.shared.table_id) }
    requires pair { table.now.table.shared.key ≡ pair_shape }
    requires laid { layout.now.shape ≡ pair_shape }
    requires first { one.old.seat.me ≡ (fresh_main pair_shape 0, []) }
    requires second { other.old.seat.me ≡ (fresh_main pair_shape 1, []) }
    ensures own { (one.new.seat.table_id ≡ one.old.seat.table_id)
        × (other.new.seat.table_id ≡ other.old.seat.table_id) }
    ensures first { IfSome result (λ _. one.new.seat.me ≡ (drawn_first, [])) }
    ensures second { IfSome result (λ _. other.new.seat.me ≡ (drawn_second, [])) }
{
    let next = layout.offset(Place::NextStream);
    if table.draw(one, next, 1) != 1 {
        return None;
    }
    let found = table.draw(other, next, 1);
    if found != 2 || table.draw(other, next, 2) != 2 {
        return None;
    }
    Some(found)
}

// Both see the first segment open and want chunk 0: whether each got it.
fn claim_each(
    table: &Fabric,
    layout: &Layout,
    one: &mut Seat,
    other: &mut Seat,
) -> Option<(bool, bool)>
    requires own { (one.old.seat.table_id ≡ table.now.table.shared.table_id)
        × (other.old.seat.table_id ≡ table.now.table.shared.table_id) }
    requires pair { table.now.table.shared.key ≡ pair_shape }
    requires laid { layout.now.shape ≡ pair_shape }
    requires first { one.old.seat.me ≡ (drawn_first, []) }
    requires second { other.old.seat.me ≡ (drawn_second, []) }
    ensures own { (one.new.seat.table_id ≡ one.old.seat.table_id)
        × (other.new.seat.table_id ≡ other.old.seat.table_id) }
{
    let open = layout.offset(Place::OpenedOut);
    let out = Look::Open(Segments::Out);
    if table.load(one, open, out) != 1 || table.load(other, open, out) != 1 {
        return None;
    }
    let map = layout.offset(Place::Chunks { number: 0 });
    let won = table.claim_bit(one, map, Segments::Out, 0);
    let lost = table.claim_bit(other, map, Segments::Out, 0);
    Some((won, lost))
}

// Both see item 0 first in its free ring. The first engine gets it; the second one finds the head
// further on, and gets item 1 then.
fn get_each(table: &Fabric, layout: &Layout, one: &mut Seat, other: &mut Seat) -> Option<u64>
    requires own { (one.old.seat.table_id ≡ table.now.table.shared.table_id)
        × (other.old.seat.table_id ≡ table.now.table.shared.table_id) }
    requires pair { table.now.table.shared.key ≡ pair_shape }
    requires laid { layout.now.shape ≡ pair_shape }
    requires first { one.old.seat.me ≡ (drawn_first, []) }
    requires second { other.old.seat.me ≡ (drawn_second, []) }
    ensures own { (one.new.seat.table_id ≡ one.old.seat.table_id)
        × (other.new.seat.table_id ≡ other.old.seat.table_id) }
    ensures first { IfSome result (λ _. one.new.seat.me ≡ (got_first, [])) }
    ensures second { IfSome result (λ _. other.new.seat.me ≡ (got_second, [])) }
{
    let free = fabric_words::Side::FreeSide;
    let head_word = layout.offset(Place::Head {
        queue: 0,
        side: free,
    });
    let slot = layout.offset(Place::Slot {
        queue: 0,
        side: free,
        slot: 0,
    });
    let next = layout.offset(Place::Slot {
        queue: 0,
        side: free,
        slot: 1,
    });
    let place = table.load(one, head_word, head(0, Side::Free));
    let first = table.load(one, slot, entry(0, Side::Free, 8));
    let same_place = table.load(other, head_word, head(0, Side::Free));
    let same_first = table.load(other, slot, entry(0, Side::Free, 8));
    if place != 8 || first != 8 || same_place != 8 || same_first != 8 {
        return None;
    }
    if table.get_item(one, head_word, 0, 8, 8) != 8 {
        return None;
    }
    let found = table.get_item(other, head_word, 0, 8, 8);
    let second = table.load(other, next, entry(0, Side::Free, 9));
    if found != 9 || second != 9 || table.get_item(other, head_word, 0, 9, 9) != 9 {
        return None;
    }
    Some(found)
}

// Both see the end of the free ring. The first engine gives its item back there; the second one finds
// that item's entry.
fn give_each(table: &Fabric, layout: &Layout, one: &mut Seat, other: &mut Seat) -> Option<u64>
    requires own { (one.old.seat.table_id ≡ table.now.table.shared.table_id)
        × (other.old.seat.table_id ≡ table.now.table.shared.table_id) }
    requires pair { table.now.table.shared.key ≡ pair_shape }
    requires laid { layout.now.shape ≡ pair_shape }
    requires first { one.old.seat.me ≡ (got_first, []) }
    requires second { other.old.seat.me ≡ (got_second, []) }
    ensures own { (one.new.seat.table_id ≡ one.old.seat.table_id)
        × (other.new.seat.table_id ≡ other.old.seat.table_id) }
    ensures first { IfSome result (λ _. one.new.seat.me ≡ (gave_first, [])) }
    ensures second { IfSome result (λ _. other.new.seat.me ≡ (missed_second, [])) }
{
    let free = fabric_words::Side::FreeSide;
    let tail_word = layout.offset(Place::Tail {
        queue: 0,
        side: free,
    });
    let slot = layout.offset(Place::Slot {
        queue: 0,
        side: free,
        slot: 0,
    });
    let end = table.load(one, tail_word, tail(0, Side::Free));
    let last = table.load(one, slot, entry(0, Side::Free, 16));
    let same_end = table.load(other, tail_word, tail(0, Side::Free));
    let same_last = table.load(other, slot, entry(0, Side::Free, 16));
    if end != 16 || last != 8 || same_end != 16 || same_last != 8 {
        return None;
    }
    let put = EntryPut {
        item: 0,
        place: 16,
        entry: 8,
    };
    let late = EntryPut {
        item: 1,
        place: 16,
        entry: 8,
    };
    if table.give(one, slot, 0, 8, put) != 8 {
        return None;
    }
    let found = table.give(other, slot, 0, 8, late);
    if found != 16 {
        return None;
    }
    Some(found)
}

// Moves the tail on to behind the place that was filled: by who filled it.
fn help_first(table: &Fabric, layout: &Layout, seat: &mut Seat) -> u64
    requires own { seat.old.seat.table_id ≡ table.now.table.shared.table_id }
    requires pair { table.now.table.shared.key ≡ pair_shape }
    requires laid { layout.now.shape ≡ pair_shape }
    requires gave { seat.old.seat.me ≡ (gave_first, []) }
    ensures own { seat.new.seat.table_id ≡ seat.old.seat.table_id }
{
    let tail_word = layout.offset(Place::Tail {
        queue: 0,
        side: fabric_words::Side::FreeSide,
    });
    table.help(seat, tail_word, 0, Side::Free, 16)
}

// And by who found it filled.
fn help_second(table: &Fabric, layout: &Layout, seat: &mut Seat) -> u64
    requires own { seat.old.seat.table_id ≡ table.now.table.shared.table_id }
    requires pair { table.now.table.shared.key ≡ pair_shape }
    requires laid { layout.now.shape ≡ pair_shape }
    requires missed { seat.old.seat.me ≡ (missed_second, []) }
    ensures own { seat.new.seat.table_id ≡ seat.old.seat.table_id }
{
    let tail_word = layout.offset(Place::Tail {
        queue: 0,
        side: fabric_words::Side::FreeSide,
    });
    table.help(seat, tail_word, 0, Side::Free, 16)
}

// Both know one open segment and want to open the next: what each found.
fn open_each(table: &Fabric, layout: &Layout, one: &mut Seat, other: &mut Seat) -> (u64, u64)
    requires own { (one.old.seat.table_id ≡ table.now.table.shared.table_id)
        × (other.old.seat.table_id ≡ table.now.table.shared.table_id) }
    requires pair { table.now.table.shared.key ≡ pair_shape }
    requires laid { layout.now.shape ≡ pair_shape }
    requires first { one.old.seat.me ≡ (drawn_first, []) }
    requires second { other.old.seat.me ≡ (drawn_second, []) }
    ensures own { (one.new.seat.table_id ≡ one.old.seat.table_id)
        × (other.new.seat.table_id ≡ other.old.seat.table_id) }
{
    let open = layout.offset(Place::OpenedOut);
    let won = table.open_segment(one, open, Segments::Out, 1);
    let lost = table.open_segment(other, open, Segments::Out, 1);
    (won, lost)
}

#[test]
fn a_stale_stream_and_a_stale_chunk(rt: HostRuntime) {
    let shape = pair();
    assert!(rt; shape.valid());
    let layout = Layout::of(shape);
    let (table, mut first) = Fabric::open(rt.alloc(), &shape).expect(&rt, "a table");
    let mut one = table.first_main(&mut first, 0);
    let mut other = table.first_main(&mut first, 1);
    let found = draw_each(&table, &layout, &mut one, &mut other).expect(&rt, "two streams");
    assert_eq!(rt; found, 2);
    assert_eq!(rt; see(&table, &layout, &mut first, Look::Next), Some(3));
    let claimed = claim_each(&table, &layout, &mut one, &mut other);
    assert_eq!(rt; claimed, Some((true, false)));
    let map = map_word(Segments::Out, 0);
    assert_eq!(rt; see(&table, &layout, &mut first, map), Some(u64::MAX - 1));
}

#[test]
fn a_stale_head_entry_and_tail(rt: HostRuntime) {
    let shape = pair();
    assert!(rt; shape.valid());
    let layout = Layout::of(shape);
    let (table, mut first) = Fabric::open(rt.alloc(), &shape).expect(&rt, "a table");
    let mut one = table.first_main(&mut first, 0);
    let mut other = table.first_main(&mut first, 1);
    draw_each(&table, &layout, &mut one, &mut other).expect(&rt, "two streams");
    let got = get_each(&table, &layout, &mut one, &mut other).expect(&rt, "two items");
    assert_eq!(rt; got, 9);
    assert_eq!(rt;
        see(&table, &layout, &mut first, head(0, Side::Free)),
        Some(10)
    );
    let given = give_each(&table, &layout, &mut one, &mut other).expect(&rt, "one given");
    assert_eq!(rt; given, 16);
    assert_eq!(rt;
        see(&table, &layout, &mut first, tail(0, Side::Free)),
        Some(16)
    );
    assert_eq!(rt; help_first(&table, &layout, &mut one), 16);
    assert_eq!(rt; help_second(&table, &layout, &mut other), 17);
    assert_eq!(rt;
        see(&table, &layout, &mut first, tail(0, Side::Free)),
        Some(17)
    );
    assert_eq!(rt;
        see(&table, &layout, &mut first, entry(0, Side::Free, 16)),
        Some(16)
    );
}

#[test]
fn a_stale_open_number(rt: HostRuntime) {
    let shape = pair();
    assert!(rt; shape.valid());
    let layout = Layout::of(shape);
    let (table, mut first) = Fabric::open(rt.alloc(), &shape).expect(&rt, "a table");
    let mut one = table.first_main(&mut first, 0);
    let mut other = table.first_main(&mut first, 1);
    draw_each(&table, &layout, &mut one, &mut other).expect(&rt, "two streams");
    assert_eq!(rt; open_each(&table, &layout, &mut one, &mut other), (1, 2));
    let out = Look::Open(Segments::Out);
    assert_eq!(rt; see(&table, &layout, &mut first, out), Some(2));
}
