//! The steps of a request, from the engine to the worker and back.
ghost use Rattle.std.specs.Prelude.{◌≡◌, ◌+◌, ◌++◌, ◌<◌, ◌≤◌, ◌^◌, length, IfOk, OnOk};
ghost use Rattle.plain_fabric.specs.Laws.{HasOnePair};
ghost use Rattle.plain_fabric.specs.Schedule.{answered_steps, cancelling, claims, freeing, giving, hung_up_steps, part_steps, place_behind, posting, releases, sending, settling, taking, undoing, winning};

use crate::message::Message;
use std::alloc::{AllocError, Global};
use unit_model::{Run, Shape, Step};

// The chunks of a run are claimed, in ascending order.
pub(crate) fn claim(steps: &mut Vec<Step>, seat: u32, run: Run) -> Result<(), AllocError>
    requires { run.chunk ≡ 0 }
    ensures { OnOk result (steps.new.items ≡ steps.old.items ++ claims seat run) }
{
    for chunk in 0..run.chunk_count() {
        steps.push(Step::Claim {
            seat,
            segment: run.segment as u32,
            chunk,
        })?;
    }
    Ok(())
}

// They are released, in ascending order.
fn release(steps: &mut Vec<Step>, seat: u32, run: Run) -> Result<(), AllocError>
    requires { run.chunk ≡ 0 }
    ensures { OnOk result (steps.new.items ≡ steps.old.items ++ releases seat run) }
{
    for chunk in 0..run.chunk_count() {
        steps.push(Step::Release {
            seat,
            segment: run.segment as u32,
            chunk,
        })?;
    }
    Ok(())
}

// The sender's steps of a message, once it has the chunks.
pub(crate) fn post(
    steps: &mut Vec<Step>,
    shape: &Shape,
    message: &Message,
) -> Result<(), AllocError>
    requires plain { HasOnePair shape.now }
    requires early { place_behind shape.now message.now < 2 ^ 63 }
    ensures { OnOk result (steps.new.items ≡ steps.old.items ++ posting shape.now message.now) }
{
    let Message {
        from: seat,
        queue,
        part,
        stream,
        ..
    } = *message;
    let run = message.run(shape);
    let item = message.item(shape);
    let place = message.place(shape);
    steps.push(Step::GetItem {
        seat,
        queue,
        item,
        place,
    })?;
    steps.push(Step::SetRun {
        seat,
        queue,
        item,
        run,
    })?;
    steps.push(Step::SetPart {
        seat,
        queue,
        item,
        part,
    })?;
    steps.push(Step::Arm {
        seat,
        queue,
        item,
        stream,
    })?;
    steps.push(Step::Push {
        seat,
        queue,
        item,
        place,
    })?;
    Ok(())
}

// The sender's steps of a message.
fn send(steps: &mut Vec<Step>, shape: &Shape, message: &Message) -> Result<(), AllocError>
    requires plain { HasOnePair shape.now }
    requires early { place_behind shape.now message.now < 2 ^ 63 }
    ensures { OnOk result (steps.new.items ≡ steps.old.items ++ sending shape.now message.now) }
{
    claim(steps, message.from, message.run(shape))?;
    post(steps, shape, message)
}

// The taker's steps until it has the chunks.
pub(crate) fn win(steps: &mut Vec<Step>, shape: &Shape, message: &Message) -> Result<(), AllocError>
    requires plain { HasOnePair shape.now }
    requires early { place_behind shape.now message.now < 2 ^ 63 }
    ensures { OnOk result (steps.new.items ≡ steps.old.items ++ winning shape.now message.now) }
{
    let Message {
        to: seat,
        queue,
        stream,
        ..
    } = *message;
    let item = message.item(shape);
    steps.push(Step::Pop {
        seat,
        queue,
        item,
        place: message.place(shape),
    })?;
    steps.push(Step::Settle {
        seat,
        queue,
        item,
        stream,
    })?;
    Ok(())
}

// The step by which the taker gives the item back.
fn giving(shape: &Shape, message: &Message) -> Step
    requires plain { HasOnePair shape.now }
    requires early { place_behind shape.now message.now < 2 ^ 63 }
    ensures { result ≡ giving shape.now message.now }
{
    Step::GiveItem {
        seat: message.to,
        queue: message.queue,
        item: message.item(shape),
        place: message.place_behind(shape),
    }
}

// The taker's steps once it has what was in the chunks.
pub(crate) fn free(
    steps: &mut Vec<Step>,
    shape: &Shape,
    message: &Message,
) -> Result<(), AllocError>
    requires plain { HasOnePair shape.now }
    requires early { place_behind shape.now message.now < 2 ^ 63 }
    ensures { OnOk result (steps.new.items ≡ steps.old.items ++ freeing shape.now message.now) }
{
    release(steps, message.to, message.run(shape))?;
    steps.push(giving(shape, message))?;
    Ok(())
}

// The taker's steps of a message.
fn take(steps: &mut Vec<Step>, shape: &Shape, message: &Message) -> Result<(), AllocError>
    requires plain { HasOnePair shape.now }
    requires early { place_behind shape.now message.now < 2 ^ 63 }
    ensures { OnOk result (steps.new.items ≡ steps.old.items ++ taking shape.now message.now) }
{
    win(steps, shape, message)?;
    free(steps, shape, message)
}

/// The step by which the sender settles its own message.
pub(crate) fn settling(shape: &Shape, message: &Message) -> Step
    requires plain { HasOnePair shape.now }
    ensures { result ≡ settling shape.now message.now }
{
    Step::Settle {
        seat: message.from,
        queue: message.queue,
        item: message.item(shape),
        stream: message.stream,
    }
}

// The steps of such a message, once the sender has what was in the chunks.
pub(crate) fn undo(
    steps: &mut Vec<Step>,
    shape: &Shape,
    message: &Message,
) -> Result<(), AllocError>
    requires plain { HasOnePair shape.now }
    requires early { place_behind shape.now message.now < 2 ^ 63 }
    ensures { OnOk result (steps.new.items ≡ steps.old.items ++ undoing shape.now message.now) }
{
    release(steps, message.from, message.run(shape))?;
    steps.push(Step::Pop {
        seat: message.to,
        queue: message.queue,
        item: message.item(shape),
        place: message.place(shape),
    })?;
    steps.push(giving(shape, message))?;
    Ok(())
}

// The steps of a message that its sender settles.
fn cancel(steps: &mut Vec<Step>, shape: &Shape, message: &Message) -> Result<(), AllocError>
    requires plain { HasOnePair shape.now }
    requires early { place_behind shape.now message.now < 2 ^ 63 }
    ensures { OnOk result
        (steps.new.items ≡ steps.old.items ++ cancelling shape.now message.now) }
{
    steps.push(settling(shape, message))?;
    undo(steps, shape, message)
}

// The steps of the parts of a reply from this number on, by their sizes.
fn send_parts(
    steps: &mut Vec<Step>,
    shape: &Shape,
    drawn: u64,
    sent: u64,
    number: u32,
    sizes: &[u32],
) -> Result<(), AllocError>
    requires plain { HasOnePair shape.now }
    requires early { (drawn < 2 ^ 48) × (sent + length sizes.now < 2 ^ 61) }
    requires few { number + length sizes.now ≤ 4096 }
    ensures { OnOk result
        (steps.new.items ≡ steps.old.items ++ part_steps shape.now drawn sent number sizes.now) }
{
    match sizes {
        [] => Ok(()),
        [size, rest @ ..] => {
            let part = Message::of_part(drawn, sent, number, rest.is_empty(), *size);
            send(steps, shape, &part)?;
            take(steps, shape, &part)?;
            send_parts(steps, shape, drawn, sent + 1, number + 1, rest)
        }
    }
}

/// The steps of a request that is answered, from a machine at rest with so many streams drawn and
/// so many parts sent: `size` is the bytes of the request's record, and `sizes` those of the parts
/// of the reply's.
///
/// Fails for want of memory alone.
pub fn answered_steps(
    alloc: Global,
    shape: &Shape,
    drawn: u64,
    sent: u64,
    size: u32,
    sizes: &[u32],
) -> Result<Vec<Step>, AllocError>
    requires plain { HasOnePair shape.now }
    requires early { (drawn < 2 ^ 48) × (sent + length sizes.now < 2 ^ 61) }
    requires few { length sizes.now ≤ 4096 }
    ensures { IfOk result
        (λ steps. steps.items ≡ answered_steps shape.now drawn sent size sizes.now) }
{
    let request = Message::of_request(drawn, size);
    let mut steps = Vec::new(alloc);
    steps.push(Step::Draw {
        seat: 0,
        stream: request.stream,
    })?;
    send(&mut steps, shape, &request)?;
    take(&mut steps, shape, &request)?;
    send_parts(&mut steps, shape, drawn, sent, 0, sizes)?;
    Ok(steps)
}

/// The steps of a request whose client has hung up: it is posted and cancelled.
///
/// Fails for want of memory alone.
pub fn hung_up_steps(
    alloc: Global,
    shape: &Shape,
    drawn: u64,
    size: u32,
) -> Result<Vec<Step>, AllocError>
    requires plain { HasOnePair shape.now }
    requires early { drawn < 2 ^ 48 }
    ensures { IfOk result (λ steps. steps.items ≡ hung_up_steps shape.now drawn size) }
{
    let request = Message::of_request(drawn, size);
    let mut steps = Vec::new(alloc);
    steps.push(Step::Draw {
        seat: 0,
        stream: request.stream,
    })?;
    send(&mut steps, shape, &request)?;
    cancel(&mut steps, shape, &request)?;
    Ok(steps)
}
