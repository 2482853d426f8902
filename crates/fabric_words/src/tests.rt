use super::*;
use std::test::*;
use unit_model::{Core, Looks, Run, Shape, Step, step_core};

fn plain() -> Shape {
    Shape {
        items: 8,
        back_items: 8,
        out_segments: 1,
        back_segments: 1,
        engines: 1,
        workers: 1,
        start: 8,
    }
}

// One request of which the client hung up, and one that is answered.
fn two_requests() -> [Step; 32] {
    [
        draw(0, 1),
        claim(0, 0),
        get_item(0, 0, 0, 8),
        set_run(0, 0, 0, 0, 77),
        set_part(0, 0, 0, 0),
        arm(0, 0, 0, 1),
        push(0, 0, 0, 8),
        settle(0, 0, 0, 1),
        release(0, 0),
        pop(1, 0, 0, 8),
        give_item(1, 0, 0, 16),
        draw(0, 2),
        claim(0, 0),
        get_item(0, 0, 1, 9),
        set_run(0, 0, 1, 0, 77),
        set_part(0, 0, 1, 0),
        arm(0, 0, 1, 2),
        push(0, 0, 1, 9),
        pop(1, 0, 1, 9),
        settle(1, 0, 1, 2),
        release(1, 0),
        give_item(1, 0, 1, 17),
        claim(1, 1),
        get_item(1, 1, 0, 8),
        set_run(1, 1, 0, 1, 54),
        set_part(1, 1, 0, 1),
        arm(1, 1, 0, 2),
        push(1, 1, 0, 8),
        pop(0, 1, 0, 8),
        settle(0, 1, 0, 2),
        release(0, 1),
        give_item(0, 1, 0, 16),
    ]
}

fn draw(seat: u32, stream: u64) -> Step {
    Step::Draw { seat, stream }
}

fn claim(seat: u32, segment: u32) -> Step {
    Step::Claim {
        seat,
        segment,
        chunk: 0,
    }
}

fn release(seat: u32, segment: u32) -> Step {
    Step::Release {
        seat,
        segment,
        chunk: 0,
    }
}

fn get_item(seat: u32, queue: u32, item: u32, place: u64) -> Step {
    Step::GetItem {
        seat,
        queue,
        item,
        place,
    }
}

fn set_run(seat: u32, queue: u32, item: u32, segment: u16, size: u32) -> Step {
    let run = Run {
        segment,
        chunk: 0,
        size,
    };
    Step::SetRun {
        seat,
        queue,
        item,
        run,
    }
}

fn set_part(seat: u32, queue: u32, item: u32, part: u64) -> Step {
    Step::SetPart {
        seat,
        queue,
        item,
        part,
    }
}

fn arm(seat: u32, queue: u32, item: u32, stream: u64) -> Step {
    Step::Arm {
        seat,
        queue,
        item,
        stream,
    }
}

fn push(seat: u32, queue: u32, item: u32, place: u64) -> Step {
    Step::Push {
        seat,
        queue,
        item,
        place,
    }
}

fn pop(seat: u32, queue: u32, item: u32, place: u64) -> Step {
    Step::Pop {
        seat,
        queue,
        item,
        place,
    }
}

fn settle(seat: u32, queue: u32, item: u32, stream: u64) -> Step {
    Step::Settle {
        seat,
        queue,
        item,
        stream,
    }
}

fn give_item(seat: u32, queue: u32, item: u32, place: u64) -> Step {
    Step::GiveItem {
        seat,
        queue,
        item,
        place,
    }
}

// The word of a place, and past all words where there is none.
fn word(layout: &Layout, words: &[u64], place: Place) -> u64 {
    if words.len() < layout.width() || !layout.is_there(place) {
        return u64::MAX;
    }
    layout.word(words, place)
}

// Whether a ring has this first place, this next one, and this first item.
fn ring_is(
    layout: &Layout,
    words: &[u64],
    queue: u32,
    side: Side,
    first: u64,
    next: u64,
    item: u64,
) -> bool {
    let size = layout.items(queue) as u64;
    if size == 0 {
        return false;
    }
    let tail = word(layout, words, Place::Tail { queue, side });
    let at_tail = word(
        layout,
        words,
        Place::Slot {
            queue,
            side,
            slot: (tail % size) as u32,
        },
    );
    let moved = at_tail / size == tail / size;
    let entry = word(
        layout,
        words,
        Place::Slot {
            queue,
            side,
            slot: (first % size) as u32,
        },
    );
    word(layout, words, Place::Head { queue, side }) == first
        && (tail == next && !moved || tail < next && tail + 1 == next && moved)
        && (first == next || entry / size == first / size && entry % size == item)
}

// Whether the words of an item say what the core has of it.
fn item_is(layout: &Layout, words: &[u64], core: &Core, queue: u32, item: u32) -> bool {
    let has = core.item_of(queue, item);
    word(layout, words, Place::Tag { queue, item }) == has.tag
        && word(layout, words, Place::RunWord { queue, item }) == port_message::pack(has.run)
        && word(layout, words, Place::PartWord { queue, item }) == has.part
}

// Whether the words show the core, as far as it can be looked at.
fn shown(layout: &Layout, words: &[u64], core: &Core) -> bool {
    let shape = core.shape();
    let mut same = word(layout, words, Place::NextStream) == core.next_stream()
        && word(layout, words, Place::OpenedOut) == core.opened().out as u64
        && word(layout, words, Place::OpenedBack) == core.opened().back as u64;
    for queue in 0..5 {
        if queue <= shape.engines {
            same = same
                && ring_is(
                    layout,
                    words,
                    queue,
                    Side::FreeSide,
                    core.free_place(queue),
                    core.next_free(queue),
                    core.free_item(queue),
                )
                && ring_is(
                    layout,
                    words,
                    queue,
                    Side::LineSide,
                    core.line_place(queue),
                    core.next_line(queue),
                    core.line_item(queue),
                );
            for item in 0..layout.items(queue) {
                same = same && item_is(layout, words, core, queue, item);
            }
        }
    }
    for number in 0..10240u32 {
        let map_word = word(
            layout,
            words,
            Place::Chunks {
                number: number / 64,
            },
        );
        let free = map_word >> (number % 64) & 1 == 1;
        same = same && free == (core.owner_code_at(number as u64) == 0);
    }
    same
}

// Moves on each tail that an entry was put behind.
fn help_all(layout: &Layout, words: &mut [u64]) {
    for queue in 0..5 {
        if queue <= layout.shape().engines && layout.width() <= words.len() {
            layout.help(words, queue, Side::FreeSide);
            layout.help(words, queue, Side::LineSide);
        }
    }
}

// Does a step to the words, where its word is there.
fn make(layout: &Layout, words: &mut [u64], step: &Step) -> bool {
    let able = layout.is_placed(step) && layout.width() <= words.len();
    if able {
        layout.make(words, step);
    }
    able
}

#[test]
fn words_show_the_machine_after_each_step(rt: HostRuntime) {
    let shape = plain();
    assert!(rt; shape.valid());
    let layout = Layout::of(shape);
    let mut core = Core::open(rt.alloc(), &shape).expect(&rt, "a core");
    let mut words = layout.opened_words(rt.alloc()).expect(&rt, "its words");
    for step in two_requests() {
        assert!(rt; step_core(&mut core, &step).is_ok());
        assert!(rt; make(&layout, words.as_mut_slice(), &step));
        assert!(rt; shown(&layout, words.as_slice(), &core));
        help_all(&layout, words.as_mut_slice());
        assert!(rt; shown(&layout, words.as_slice(), &core));
    }
}

#[test]
fn opened_words_show_opened_cores(rt: HostRuntime) {
    for (engines, segments, back_items) in [(1, 1, 8), (4, 1, 5), (1, 8, 17), (4, 8, 1)] {
        let shape = Shape {
            engines,
            back_items,
            out_segments: segments,
            back_segments: segments,
            start: 23,
            ..plain()
        };
        assert!(rt; shape.valid());
        let layout = Layout::of(shape);
        let core = Core::open(rt.alloc(), &shape).expect(&rt, "a core");
        let words = layout.opened_words(rt.alloc()).expect(&rt, "its words");
        assert!(rt; shown(&layout, words.as_slice(), &core));
    }
}

#[test]
fn words_stand_where_they_did(rt: HostRuntime) {
    let shape = plain();
    assert!(rt; shape.valid());
    let layout = Layout::of(shape);
    assert_eq!(rt; layout.width(), 352);
    for (place, offset) in [
        (Place::OpenedBack, 48),
        (Place::Chunks { number: 19 }, 89),
        (
            Place::Tail {
                queue: 1,
                side: Side::LineSide,
            },
            288,
        ),
        (Place::PartWord { queue: 0, item: 7 }, 222),
    ] {
        assert!(rt; layout.is_there(place));
        assert_eq!(rt; layout.offset(place), offset);
    }
}
