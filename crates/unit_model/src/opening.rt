//! The core as it begins.
ghost use Rattle.std.specs.Prelude.{◌≡◌, ◌<◌, ◌≤◌, ◌+◌, ◌*◌, ◌^◌, ◌∷◌, ◌++◌, [], IfOk, OnOk, replicate};
ghost use Rattle.unit_model.specs.Core.{blank, no_seat};
ghost use Rattle.unit_model.specs.Holding.{IsHeldRight};
ghost use Rattle.unit_model.specs.Opening.{first_entries, fresh_queue, opened_core};
ghost use Rattle.unit_model.specs.Shapes.{IsValid};
ghost use Rattle.unit_model.specs.Soundness.{IsSound};
ghost use Rattle.unit_model.specs.declared.machine.Owner.TheVariants.{Free};

use crate::limits::SEGMENT_CHUNKS;
use crate::machine::{BLANK, Core, Entry, Item, Owner, Queue, Seat, Sides};
use crate::series::Series;
use crate::shape::Shape;
use std::alloc::{AllocError, Global};

impl Core {
    /// The core of a valid shape as it begins: all chunks are free, one segment of each side is open, all items are in the
    /// free lists in ascending order, and the next stream is 1. It is sound.
    ///
    /// Fails for want of memory alone.
    #[tactic(auto, using(crate::proofs::HeldOpening::opened_holds_right))]
    pub fn open(alloc: Global, shape: &Shape) -> Result<Core, AllocError>
        requires { IsValid shape.now }
        ensures opened { IfOk result (λ core. core ≡ opened_core shape.now) }
        ensures held { IfOk result (λ core. IsHeldRight core) }
        ensures sound { IfOk result (λ core. IsSound core) }
    {
        let segments = shape.out_segments as u64 + shape.back_segments as u64;
        let chunks = (SEGMENT_CHUNKS * segments) as usize;
        let queues = fresh_queues(alloc, shape)?;
        Ok(Core {
            shape: *shape,
            next: 1,
            opened: Sides { out: 1, back: 1 },
            owners: free_chunks(alloc, chunks)?,
            queues: Series::of(queues),
            seats: fresh_seats(alloc, shape.engines + shape.workers)?,
        })
    }
}

fn free_chunks(alloc: Global, count: usize) -> Result<Series<Owner>, AllocError>
    ensures { IfOk result (λ owners. owners ≡ replicate count Free) }
{
    let mut owners = Vec::new(alloc);
    owners.resize(count, Owner::Free)?;
    Ok(Series::of(owners))
}

#[tactic(auto, using(crate::proofs::FirstEntries::one_more_of))]
fn fresh_queues(alloc: Global, shape: &Shape) -> Result<Vec<Queue>, AllocError>
    requires { IsValid shape.now }
    ensures { IfOk result (λ queues. queues.items
        ≡ fresh_queue shape.now.start shape.now.items
        ∷ replicate shape.now.engines (fresh_queue shape.now.start shape.now.back_items)) }
{
    let mut queues = Vec::new(alloc);
    push(&mut queues, fresh_queue(alloc, shape.start, shape.items)?)?;
    for _ in 0..shape.engines {
        push(
            &mut queues,
            fresh_queue(alloc, shape.start, shape.back_items)?,
        )?;
    }
    Ok(queues)
}

// Puts a value behind the others. Where there is no memory the value is dropped.
fn push<T: Drop>(values: &mut Vec<T>, value: T) -> Result<(), AllocError>
    ensures { OnOk result (values.new.items ≡ values.old.items ++ value ∷ []) }
{
    match values.push(value) {
        Ok(()) => Ok(()),
        Err(_) => Err(AllocError),
    }
}

fn fresh_queue(alloc: Global, start: u64, items: u32) -> Result<Queue, AllocError>
    requires { start < 2 ^ 62 }
    ensures { IfOk result (λ queue. queue ≡ fresh_queue start items) }
{
    Ok(Queue {
        free: Series::of(first_entries(alloc, start, items)?),
        next_free: start + items as u64,
        line: Series::of(Vec::new(alloc)),
        next_line: start,
        items: fresh_items(alloc, items as usize)?,
    })
}

#[tactic(auto, using(crate::proofs::FirstEntries::one_entry_more))]
fn first_entries(alloc: Global, start: u64, items: u32) -> Result<Vec<Entry>, AllocError>
    requires { start < 2 ^ 62 }
    ensures { IfOk result (λ entries. entries.items ≡ first_entries start items) }
{
    let mut entries = Vec::new(alloc);
    for item in 0..items {
        let place = start + item as u64;
        push(&mut entries, Entry { place, item })?;
    }
    Ok(entries)
}

fn fresh_items(alloc: Global, count: usize) -> Result<Series<Item>, AllocError>
    ensures { IfOk result (λ items. items ≡ replicate count blank) }
{
    let mut items = Vec::new(alloc);
    items.resize(count, BLANK)?;
    Ok(Series::of(items))
}

#[tactic(auto, using(crate::proofs::FirstEntries::one_more_of))]
fn fresh_seats(alloc: Global, count: u32) -> Result<Series<Seat>, AllocError>
    ensures { IfOk result (λ seats. seats ≡ replicate count no_seat) }
{
    let mut seats = Vec::new(alloc);
    for _ in 0..count {
        push(&mut seats, fresh_seat(alloc))?;
    }
    Ok(Series::of(seats))
}

fn fresh_seat(alloc: Global) -> Seat
    ensures { result ≡ no_seat }
{
    Seat {
        drawn: Series::of(Vec::new(alloc)),
        posted: Series::of(Vec::new(alloc)),
        cancelled: Series::of(Vec::new(alloc)),
        abandoned: Series::of(Vec::new(alloc)),
        received: Series::of(Vec::new(alloc)),
        taken: Series::of(Vec::new(alloc)),
        sent: Series::of(Vec::new(alloc)),
        closed: Series::of(Vec::new(alloc)),
    }
}
