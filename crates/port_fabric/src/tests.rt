//! Calls of a fabric, on one thread.
ghost use Rattle.std.specs.Prelude.{[], IfSome};
ghost use Rattle.std.specs.List.{All};
ghost use Rattle.unit_model.specs.Shapes.{IsValid};
ghost use Rattle.port_fabric.specs.Seats.{IsEngineOf};

use super::*;
use std::alloc::{AllocError, Global};
use std::test::*;
use unit_model::Shape;
use unit_types::{Bytes, Fields, Handlers, Reply, Request};

// Handlers that know no name.
#[derive(Drop)]
struct NoHandlers;

impl Handlers for NoHandlers {
    ghost use Rattle.segment_table.specs.NoReplies.{no_names, no_reply, no_reply_fits};

    ghost reply_of = { λ name request. no_reply };

    ghost listed = { λ _. [] };

    ghost names_fit = { λ _. no_names };

    ghost replies_fit = { λ name request. no_reply_fits };

    fn names(&self) -> &[Bytes] {
        &[]
    }

    fn reply(&self, alloc: Global, _name: &[u8], _request: &Request) -> Result<Reply, AllocError> {
        Ok(Reply {
            status: 404,
            fields: Fields::of(Vec::new(alloc)),
            body: Bytes::of(Vec::new(alloc)),
        })
    }
}

fn shape() -> Shape
    ensures { IsValid result }
{
    Shape {
        items: 8,
        back_items: 8,
        out_segments: 1,
        back_segments: 1,
        engines: 2,
        workers: 1,
        start: 8,
    }
}

// The stream that the engine drew, which it refused then.
fn draw_and_refuse(fabric: &Fabric<NoHandlers>, engine: &mut EngineSeat<NoHandlers>) -> Option<u64>
    requires { IsEngineOf fabric.now engine.old }
    ensures { IsEngineOf fabric.now engine.new }
{
    match fabric.draw_turn(engine) {
        Draw::Drawn(drawn) => {
            let stream = drawn.stream();
            fabric.refuse(engine, drawn);
            Some(stream)
        }
        Draw::Lost { .. } | Draw::Worn(_) => None,
    }
}

// The seat of the last engine of these.
fn last_seat(
    fabric: &Fabric<NoHandlers>,
    seats: &mut Vec<EngineSeat<NoHandlers>>,
) -> Option<EngineSeat<NoHandlers>>
    requires { All (IsEngineOf fabric.now) seats.old.items }
    ensures seat { IfSome result (IsEngineOf fabric.now) }
    ensures rest { All (IsEngineOf fabric.now) seats.new.items }
{
    seats.pop()
}

// Two engines draw in turn, and refuse what they drew.
#[test]
fn streams_are_drawn_and_refused(rt: HostRuntime) -> Result<(), Fail> {
    let (fabric, mut engines, workers) = Fabric::<NoHandlers>::open(rt.alloc(), &shape())?;
    assert_eq!(rt; workers.len(), 1);
    let mut second = last_seat(&fabric, &mut engines).expect(&rt, "a seat");
    let mut first = last_seat(&fabric, &mut engines).expect(&rt, "a seat");
    assert!(rt; engines.is_empty());
    assert_eq!(rt; draw_and_refuse(&fabric, &mut first), Some(1));
    assert_eq!(rt; draw_and_refuse(&fabric, &mut second), Some(2));
    assert_eq!(rt; draw_and_refuse(&fabric, &mut first), Some(3));
    Ok(())
}
