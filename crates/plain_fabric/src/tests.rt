ghost use Rattle.plain_fabric.specs.Laws.{HasOnePair};

use super::*;
use std::alloc::{AllocError, Global};
use std::test::*;
use unit_model::{Bytes, Core, Looks, Shape, Step, run_core, step_line};

pub(crate) fn plain() -> Shape
    ensures { HasOnePair result }
{
    Shape {
        items: 8,
        back_items: 8,
        out_segments: 1,
        back_segments: 1,
        engines: 1,
        workers: 1,
        start: 8,
    }
}

// One request of which the client hung up, and one that is answered.
pub(crate) fn two_requests() -> &'static [u8] {
    b"draw 0 1
claim 0 0 0
getitem 0 0 0 8
setrun 0 0 0 0 0 77
setpart 0 0 0 0
arm 0 0 0 1
push 0 0 0 8
settle 0 0 0 1
release 0 0 0
pop 1 0 0 8
giveitem 1 0 0 16
draw 0 2
claim 0 0 0
getitem 0 0 1 9
setrun 0 0 1 0 0 77
setpart 0 0 1 0
arm 0 0 1 2
push 0 0 1 9
pop 1 0 1 9
settle 1 0 1 2
release 1 0 0
giveitem 1 0 1 17
claim 1 1 0
getitem 1 1 0 8
setrun 1 1 0 1 0 54
setpart 1 1 0 1
arm 1 1 0 2
push 1 1 0 8
pop 0 1 0 8
settle 0 1 0 2
release 0 1 0
giveitem 0 1 0 16
"
}

// The lines of the steps, behind those that are there.
pub(crate) fn tell(alloc: Global, steps: &[Step], text: &mut Bytes) -> Result<(), AllocError> {
    for step in steps {
        step_line(alloc, step, text)?;
    }
    Ok(())
}

#[test]
fn a_hung_up_client_and_an_answered_one(rt: HostRuntime) {
    let shape = plain();
    assert!(rt; shape.valid() && shape.engines == 1 && shape.workers == 1);
    let gone = hung_up_steps(rt.alloc(), &shape, 0, 77).expect(&rt, "listed");
    let answered = answered_steps(rt.alloc(), &shape, 1, 0, 77, &[54]).expect(&rt, "listed");
    assert!(rt; gone.len() == 11 && answered.len() == 21);
    let mut text = Bytes::of(Vec::new(rt.alloc()));
    tell(rt.alloc(), &gone, &mut text).expect(&rt, "told");
    tell(rt.alloc(), &answered, &mut text).expect(&rt, "told");
    assert!(rt; text.as_slice() == two_requests());
    let mut core = Core::open(rt.alloc(), &shape).expect(&rt, "opened");
    assert!(rt; run_core(&mut core, &gone).is_ok());
    assert!(rt; run_core(&mut core, &answered).is_ok());
    assert!(rt; core.next_stream() == 3 && core.free_place(0) == 10 && core.free_place(1) == 9);
}

// A body of 300,000 bytes comes back: 19 chunks of the request, 16 and 3 of the two parts of the
// reply.
#[test]
fn a_reply_of_two_parts(rt: HostRuntime) {
    let shape = plain();
    assert!(rt; shape.valid() && shape.engines == 1 && shape.workers == 1);
    let steps = answered_steps(rt.alloc(), &shape, 0, 0, 300_105, &[262_144, 37_910]).expect(
        &rt, "listed",
    );
    assert!(rt; steps.len() == 101);
    let mut core = Core::open(rt.alloc(), &shape).expect(&rt, "opened");
    assert!(rt; run_core(&mut core, &steps).is_ok());
    let mut sizes = Vec::new(rt.alloc());
    let mut parts = Vec::new(rt.alloc());
    for step in steps.iter() {
        match *step {
            Step::SetRun { run, .. } => sizes.push(run.size).expect(&rt, "kept"),
            Step::SetPart { part, .. } => parts.push(part).expect(&rt, "kept"),
            _ => {}
        }
    }
    assert!(rt; sizes.as_slice() == [300_105, 262_144, 37_910].as_slice());
    assert!(rt; parts.as_slice() == [0, 0, 3].as_slice());
}

// Nine requests take each of the eight items once, and the first one again.
#[test]
fn items_take_turns(rt: HostRuntime) {
    let shape = plain();
    assert!(rt; shape.valid() && shape.engines == 1 && shape.workers == 1);
    let mut core = Core::open(rt.alloc(), &shape).expect(&rt, "opened");
    for drawn in 0..9 {
        let steps = answered_steps(rt.alloc(), &shape, drawn, drawn, 1, &[16_385]).expect(
            &rt, "listed",
        );
        assert!(rt; steps.len() == 23);
        assert!(rt; run_core(&mut core, &steps).is_ok());
    }
    assert!(rt; core.next_stream() == 10 && core.free_item(0) == 1 && core.free_item(1) == 1);
}
