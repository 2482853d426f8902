use super::*;
use request_context::Parcel;

// An engine draws a stream, claims a chunk, fills it, reads it, gives it back, and opens a segment.
#[test]
fn a_chunk_is_claimed_filled_and_given_back(rt: HostRuntime) {
    let shape = Shape {
        items: 8,
        back_items: 8,
        out_segments: 2,
        back_segments: 1,
        engines: 1,
        workers: 1,
        start: 8,
    };
    assert!(rt; shape.valid());
    let layout = Layout::of(shape);
    let (table, mut first) = Fabric::open(rt.alloc(), &shape).expect(&rt, "a table");
    let mut engine = table.first_main(&mut first, 0);
    let next = layout.offset(Place::NextStream);
    let found = table.draw(&mut engine, next, 1);
    assert_eq!(rt; found, 1);
    let look = Look::Map {
        segments: Segments::Out,
        number: 0,
    };
    let map = layout.offset(Place::Chunks { number: 0 });
    let gained = table.claim_bit(&mut engine, map, Segments::Out, 0);
    assert!(rt; gained);
    let piece = Parcel::Ask(Bytes::of(Vec::new(rt.alloc())));
    let was_empty = table.swap(&mut engine, 0, Some(piece)).is_none();
    assert!(rt; was_empty);
    let was_full = table.swap(&mut engine, 0, None).is_some();
    assert!(rt; was_full);
    let word = table.load(&mut engine, map, look);
    assert_eq!(rt; word, u64::MAX - 1);
    table.release_bit(&mut engine, map, Segments::Out, 0);
    let open = layout.offset(Place::OpenedOut);
    let one = table.open_segment(&mut engine, open, Segments::Out, 1);
    assert_eq!(rt; one, 1);
    let two = table.load(&mut engine, open, Look::Open(Segments::Out));
    assert_eq!(rt; two, 2);
}
