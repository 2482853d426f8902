//! What the steps do to a frame.
ghost use Rattle.std.specs.Prelude.{◌≡◌, ◌≢◌, ◌<◌, ◌+◌, ◌*◌, ◌^◌, ◌∷◌, ◌++◌, [], IfOk, OnOk, replicate, ℕ};
ghost use Rattle.trace_check.specs.Owners.{owner_in};
ghost use Rattle.unit_model.specs.Effects.{set_all, with_free, with_in_line, with_item, with_opened, with_owner, with_run_owner, without_first_free, without_first_in_line};
ghost use Rattle.unit_model.specs.Opening.{fresh_queue, opened_core};
ghost use Rattle.unit_model.specs.Shapes.{IsValid};
ghost use Rattle.unit_model.specs.declared.machine.Owner.TheVariants.{Free};

use crate::frame::Frame;
use crate::lane::Lane;
use std::alloc::{AllocError, Global};
use std::collections::BTreeMap;
use unit_model::{Entry, Item, Owner, Run, Shape, Sides, chunk_number};

fn forget(owners: &mut BTreeMap<u64, Owner>, number: u64)
    ensures here { owner_in owners.new number ≡ Free }
    ensures apart { (i : ℕ) → i ≢ number → owner_in owners.new i ≡ owner_in owners.old i }
{
    owners.remove(&number);
}

fn keep(owners: &mut BTreeMap<u64, Owner>, number: u64, owner: Owner) -> Result<(), AllocError>
    ensures here { OnOk result (owner_in owners.new number ≡ owner) }
    ensures apart { OnOk result ((i : ℕ) → i ≢ number
        → owner_in owners.new i ≡ owner_in owners.old i) }
{
    match owners.insert(number, owner) {
        Ok(_) => Ok(()),
        Err(_) => Err(AllocError),
    }
}

impl Frame {
    /// Writes an item anew, where there is one. Fails for want of memory alone.
    #[tactic(auto, using(unit_model::proofs::Lists::changed_here, unit_model::proofs::Lists::changed_past), unfolding(unit_model::specs::Effects::with_item))]
    pub(crate) fn set_item(&mut self, queue: u32, item: u32, new: Item) -> Result<(), AllocError>
        ensures { OnOk result (self.new ≡ with_item queue item new self.old) }
    {
        if queue as usize >= self.queues.len() {
            return Ok(());
        }
        let queue = &mut self.queues[queue as usize];
        queue.set_item(item, new)
    }

    #[tactic(auto, using(unit_model::proofs::Lists::changed_here, unit_model::proofs::Lists::changed_past), unfolding(unit_model::specs::Effects::without_first_free))]
    pub(crate) fn drop_first_free(&mut self, queue: u32)
        ensures { self.new ≡ without_first_free queue self.old }
    {
        if (queue as usize) < self.queues.len() {
            let queue = &mut self.queues[queue as usize];
            queue.drop_first_free();
        }
    }

    #[tactic(auto, using(unit_model::proofs::Lists::changed_here, unit_model::proofs::Lists::changed_past), unfolding(unit_model::specs::Effects::without_first_in_line))]
    pub(crate) fn drop_first_in_line(&mut self, queue: u32)
        ensures { self.new ≡ without_first_in_line queue self.old }
    {
        if (queue as usize) < self.queues.len() {
            let queue = &mut self.queues[queue as usize];
            queue.drop_first_in_line();
        }
    }

    #[tactic(auto, using(unit_model::proofs::Lists::changed_here, unit_model::proofs::Lists::changed_past), unfolding(unit_model::specs::Effects::with_free))]
    pub(crate) fn append_free(&mut self, queue: u32, entry: Entry) -> Result<(), AllocError>
        requires { entry.place < 2 ^ 63 }
        ensures { OnOk result (self.new ≡ with_free queue entry self.old) }
    {
        if queue as usize >= self.queues.len() {
            return Ok(());
        }
        let queue = &mut self.queues[queue as usize];
        queue.append_free(entry)
    }

    #[tactic(auto, using(unit_model::proofs::Lists::changed_here, unit_model::proofs::Lists::changed_past), unfolding(unit_model::specs::Effects::with_in_line))]
    pub(crate) fn append_in_line(&mut self, queue: u32, entry: Entry) -> Result<(), AllocError>
        requires { entry.place < 2 ^ 63 }
        ensures { OnOk result (self.new ≡ with_in_line queue entry self.old) }
    {
        if queue as usize >= self.queues.len() {
            return Ok(());
        }
        let queue = &mut self.queues[queue as usize];
        queue.append_in_line(entry)
    }

    /// Makes a chunk free.
    #[tactic(auto, unfolding(unit_model::specs::Effects::with_owner))]
    pub(crate) fn free_chunk(&mut self, number: u64)
        ensures { self.new ≡ with_owner number Free self.old }
    {
        forget(&mut self.owners, number);
    }

    /// Gives a chunk an owner. Fails for want of memory alone.
    #[tactic(auto, unfolding(unit_model::specs::Effects::with_owner))]
    pub(crate) fn set_owner(&mut self, number: u64, owner: Owner) -> Result<(), AllocError>
        ensures { OnOk result (self.new ≡ with_owner number owner self.old) }
    {
        keep(&mut self.owners, number, owner)?;
        Ok(())
    }

    /// Gives the chunks of a run an owner. Fails for want of memory alone.
    #[tactic(auto, using(unit_model::proofs::Lists::set_all_more), unfolding(unit_model::specs::Effects::with_owner, unit_model::specs::Effects::with_run_owner))]
    pub(crate) fn set_run_owner(&mut self, run: Run, owner: Owner) -> Result<(), AllocError>
        ensures { OnOk result (self.new ≡ with_run_owner run owner self.old) }
    {
        let first = chunk_number(run.segment as u32, run.chunk as u32);
        for i in 0..run.chunk_count() {
            self.set_owner(first + i as u64, owner)?;
        }
        Ok(())
    }

    #[tactic(auto, unfolding(unit_model::specs::Effects::with_opened))]
    pub(crate) fn set_opened(&mut self, seat: u32, count: u32)
        ensures { self.new ≡ with_opened seat count self.old }
    {
        if self.role_of(seat).is_engine() {
            self.opened = Sides {
                out: count,
                back: self.opened.back,
            };
        } else {
            self.opened = Sides {
                out: self.opened.out,
                back: count,
            };
        }
    }

    pub(crate) fn set_next(&mut self, next: u64)
        ensures { self.new ≡ record self.old { next = next } }
    {
        self.next = next;
    }

    /// The frame of the core of a valid shape as it begins. Fails for want of memory alone.
    pub(crate) fn open(alloc: Global, shape: &Shape) -> Result<Frame, AllocError>
        requires { IsValid shape.now }
        ensures { IfOk result (λ frame. frame ≡ record (opened_core shape.now) { seats = [] }) }
    {
        Ok(Frame {
            shape: *shape,
            next: 1,
            opened: Sides { out: 1, back: 1 },
            owners: BTreeMap::new(alloc),
            queues: fresh_queues(alloc, shape)?,
        })
    }
}

#[tactic(auto, using(unit_model::proofs::FirstEntries::one_more_of))]
fn fresh_queues(alloc: Global, shape: &Shape) -> Result<Vec<Lane>, AllocError>
    requires { IsValid shape.now }
    ensures { IfOk result (λ queues. queues.items ≡ fresh_queue shape.now.start shape.now.items
        ∷ replicate shape.now.engines (fresh_queue shape.now.start shape.now.back_items)) }
{
    let mut queues = Vec::new(alloc);
    push(&mut queues, Lane::fresh(alloc, shape.start, shape.items)?)?;
    for _ in 0..shape.engines {
        push(
            &mut queues,
            Lane::fresh(alloc, shape.start, shape.back_items)?,
        )?;
    }
    Ok(queues)
}

// Puts a queue behind the others. Fails for want of memory alone.
fn push(queues: &mut Vec<Lane>, lane: Lane) -> Result<(), AllocError>
    ensures { OnOk result (queues.new.items ≡ queues.old.items ++ lane ∷ []) }
{
    match queues.push(lane) {
        Ok(()) => Ok(()),
        Err(_) => Err(AllocError),
    }
}
