use super::*;
use std::test::*;

pub(crate) fn plain() -> Shape {
    Shape {
        items: 8,
        back_items: 8,
        out_segments: 1,
        back_segments: 1,
        engines: 1,
        workers: 1,
        start: 8,
    }
}

#[test]
fn shapes(rt: HostRuntime) {
    let shape = plain();
    assert!(rt; shape.valid());
    assert!(rt; !Shape { start: 7, ..shape }.valid());
    assert!(rt;
        !Shape {
            back_items: 9,
            ..shape
        }
        .valid()
    );
    assert!(rt; !Shape { items: 0, ..shape }.valid());
    assert!(rt;
        !Shape {
            workers: 5,
            ..shape
        }
        .valid()
    );
    assert!(rt;
        !Shape {
            out_segments: 9,
            ..shape
        }
        .valid()
    );
    assert!(rt;
        Shape {
            start: 4611686018427371519,
            ..shape
        }
        .valid()
    );
    assert!(rt;
        !Shape {
            start: 4611686018427371520,
            ..shape
        }
        .valid()
    );
}

#[test]
fn chunks(rt: HostRuntime) {
    for (size, count) in [(0, 0), (1, 1), (16384, 1), (16385, 2), (u32::MAX, 262144)] {
        let run = Run {
            segment: 3,
            chunk: 5,
            size,
        };
        assert_eq!(rt; run.chunk_count(), count, "of {size} bytes");
    }
}

pub(crate) fn wide() -> Shape {
    Shape {
        out_segments: 2,
        ..plain()
    }
}

pub(crate) fn draw(seat: u32, stream: u64) -> Step {
    Step::Draw { seat, stream }
}

pub(crate) fn claim(seat: u32, segment: u32, chunk: u32) -> Step {
    Step::Claim {
        seat,
        segment,
        chunk,
    }
}

pub(crate) fn release(seat: u32, segment: u32, chunk: u32) -> Step {
    Step::Release {
        seat,
        segment,
        chunk,
    }
}

pub(crate) fn open(seat: u32, count: u32) -> Step {
    Step::Open { seat, count }
}

pub(crate) fn get_item(seat: u32, queue: u32, item: u32, place: u64) -> Step {
    Step::GetItem {
        seat,
        queue,
        item,
        place,
    }
}

pub(crate) fn set_part(seat: u32, queue: u32, item: u32, part: u64) -> Step {
    Step::SetPart {
        seat,
        queue,
        item,
        part,
    }
}

pub(crate) fn arm(seat: u32, queue: u32, item: u32, stream: u64) -> Step {
    Step::Arm {
        seat,
        queue,
        item,
        stream,
    }
}

pub(crate) fn push(seat: u32, queue: u32, item: u32, place: u64) -> Step {
    Step::Push {
        seat,
        queue,
        item,
        place,
    }
}

pub(crate) fn pop(seat: u32, queue: u32, item: u32, place: u64) -> Step {
    Step::Pop {
        seat,
        queue,
        item,
        place,
    }
}

pub(crate) fn settle(seat: u32, queue: u32, item: u32, stream: u64) -> Step {
    Step::Settle {
        seat,
        queue,
        item,
        stream,
    }
}

pub(crate) fn give_item(seat: u32, queue: u32, item: u32, place: u64) -> Step {
    Step::GiveItem {
        seat,
        queue,
        item,
        place,
    }
}

pub(crate) fn abandon(seat: u32, stream: u64) -> Step {
    Step::Abandon { seat, stream }
}

// The run is a segment, a chunk and a size.
pub(crate) fn set_run(seat: u32, queue: u32, item: u32, run: (u16, u16, u32)) -> Step {
    let (segment, chunk, size) = run;
    let run = Run {
        segment,
        chunk,
        size,
    };
    Step::SetRun {
        seat,
        queue,
        item,
        run,
    }
}

// Two requests. The first is taken back before a worker takes it; the second is answered by one part, whose chunk is in
// segment `back`.
pub(crate) fn trace(back: u16) -> [Step; 32] {
    let segment = back as u32;
    [
        draw(0, 1),
        claim(0, 0, 0),
        get_item(0, 0, 0, 8),
        set_run(0, 0, 0, (0, 0, 77)),
        set_part(0, 0, 0, 0),
        arm(0, 0, 0, 1),
        push(0, 0, 0, 8),
        settle(0, 0, 0, 1),
        release(0, 0, 0),
        pop(1, 0, 0, 8),
        give_item(1, 0, 0, 16),
        draw(0, 2),
        claim(0, 0, 0),
        get_item(0, 0, 1, 9),
        set_run(0, 0, 1, (0, 0, 77)),
        set_part(0, 0, 1, 0),
        arm(0, 0, 1, 2),
        push(0, 0, 1, 9),
        pop(1, 0, 1, 9),
        settle(1, 0, 1, 2),
        release(1, 0, 0),
        give_item(1, 0, 1, 17),
        claim(1, segment, 0),
        get_item(1, 1, 0, 8),
        set_run(1, 1, 0, (back, 0, 54)),
        set_part(1, 1, 0, 1),
        arm(1, 1, 0, 2),
        push(1, 1, 0, 8),
        pop(0, 1, 0, 8),
        settle(0, 1, 0, 2),
        release(0, segment, 0),
        give_item(0, 1, 0, 16),
    ]
}

fn trace_lines() -> &'static [u8] {
    b"draw 0 1\nclaim 0 0 0\ngetitem 0 0 0 8\nsetrun 0 0 0 0 0 77\nsetpart 0 0 0 0\narm 0 0 0 1\npush 0 0 0 8\nsettle 0 0 0 1\nrelease 0 0 0\npop 1 0 0 8\ngiveitem 1 0 0 16\ndraw 0 2\nclaim 0 0 0\ngetitem 0 0 1 9\nsetrun 0 0 1 0 0 77\nsetpart 0 0 1 0\narm 0 0 1 2\npush 0 0 1 9\npop 1 0 1 9\nsettle 1 0 1 2\nrelease 1 0 0\ngiveitem 1 0 1 17\nclaim 1 1 0\ngetitem 1 1 0 8\nsetrun 1 1 0 1 0 54\nsetpart 1 1 0 1\narm 1 1 0 2\npush 1 1 0 8\npop 0 1 0 8\nsettle 0 1 0 2\nrelease 0 1 0\ngiveitem 0 1 0 16\n"
}

#[test]
fn a_chunk_is_claimed_once(rt: HostRuntime) {
    let shape = plain();
    assert!(rt; shape.valid());
    let mut core = Core::open(rt.alloc(), &shape).expect(&rt, "opened");
    let claim = Step::Claim {
        seat: 0,
        segment: 0,
        chunk: 0,
    };
    assert_eq!(rt; step_core(&mut core, &claim), Ok(()));
    let owned = StepFault::NotEnabled {
        rule: 4,
        want: 0,
        found: 1,
    };
    assert_eq!(rt; step_core(&mut core, &claim), Err(owned));
}

#[test]
fn segments_are_opened_in_order(rt: HostRuntime) {
    let shape = wide();
    assert!(rt; shape.valid());
    let mut core = Core::open(rt.alloc(), &shape).expect(&rt, "opened");
    let claim = Step::Claim {
        seat: 0,
        segment: 1,
        chunk: 0,
    };
    let closed = StepFault::NotEnabled {
        rule: 12,
        want: 1,
        found: 1,
    };
    assert_eq!(rt; step_core(&mut core, &claim), Err(closed));
    let miscounted = StepFault::NotEnabled {
        rule: 13,
        want: 1,
        found: 0,
    };
    assert_eq!(rt;
        step_core(&mut core, &Step::Open { seat: 0, count: 0 }),
        Err(miscounted)
    );
    assert_eq!(rt;
        step_core(&mut core, &Step::Open { seat: 0, count: 1 }),
        Ok(())
    );
    assert_eq!(rt; step_core(&mut core, &claim), Ok(()));
}

#[test]
fn steps_run_and_are_told(rt: HostRuntime) {
    let shape = plain();
    assert!(rt; shape.valid());
    let mut core = Core::open(rt.alloc(), &shape).expect(&rt, "opened");
    let steps = trace(1);
    assert!(rt; run_core(&mut core, &steps).is_ok());
    let mut text = Bytes::of(Vec::new(rt.alloc()));
    for step in &steps {
        step_line(rt.alloc(), step, &mut text).expect(&rt, "told");
    }
    assert!(rt; text.as_slice() == trace_lines());
}
