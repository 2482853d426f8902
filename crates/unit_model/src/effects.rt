//! What a step does.
ghost use Rattle.std.specs.Prelude.{◌≡◌, ◌∷◌, ◌++◌, [], ◌+◌, ◌*◌, ◌<◌, ◌≤◌, ◌^◌, OnOk, OnErr, Option, get_or, length};
ghost use Rattle.unit_model.specs.Core.{chunk_number};
ghost use Rattle.unit_model.specs.Effects.{after_step, change_queue, noted, set_all, with_free, with_in_line, with_item, with_note, with_opened, with_owner, with_run_owner, without_first_free, without_first_in_line};

use crate::conditions::chunk_number;
use crate::machine::{Core, Entry, Item, Note, Owner, Queue, Seat, Sides};
use crate::runs::Run;
use std::alloc::AllocError;

impl Seat {
    /// Adds a note to its list.
    fn note(&mut self, note: Note) -> Result<(), AllocError>
        ensures ok { OnOk result (self.new ≡ noted note self.old) }
        ensures err { OnErr result (self.new ≡ self.old) }
    {
        match note {
            Note::Drawn(stream) => self.drawn.append(stream),
            Note::Posted(stream) => self.posted.append(stream),
            Note::Cancelled(stream) => self.cancelled.append(stream),
            Note::Abandoned(stream) => self.abandoned.append(stream),
            Note::Received(part) => self.received.append(part),
            Note::Taken(stream) => self.taken.append(stream),
            Note::Sent(part) => self.sent.append(part),
            Note::Closed(stream) => self.closed.append(stream),
        }
    }
}

impl Core {
    /// Adds a note to the lists of a seat, where there is one.
    #[tactic(auto, using(crate::proofs::Lists::changed_here, crate::proofs::Lists::changed_past), unfolding(crate::specs::Effects::with_note))]
    pub(crate) fn note(&mut self, seat: u32, note: Note) -> Result<(), AllocError>
        ensures ok { OnOk result (self.new ≡ with_note seat note self.old) }
        ensures err { OnErr result (self.new ≡ self.old) }
    {
        let seats = &mut self.seats;
        if seat as usize >= seats.values.len() {
            return Ok(());
        }
        let seat = &mut seats.values[seat as usize];
        seat.note(note)
    }

    /// Writes an item anew, where there is one.
    #[tactic(auto, using(crate::proofs::Lists::changed_here, crate::proofs::Lists::changed_past), unfolding(crate::specs::Effects::with_item))]
    pub(crate) fn set_item(&mut self, queue: u32, item: u32, new: Item)
        ensures { self.new ≡ with_item queue item new self.old }
    {
        let queues = &mut self.queues;
        if (queue as usize) < queues.values.len() {
            let queue = &mut queues.values[queue as usize];
            queue.items.replace(item as usize, new);
        }
    }

    #[tactic(auto, using(crate::proofs::Lists::changed_here, crate::proofs::Lists::changed_past), unfolding(crate::specs::Effects::without_first_free))]
    pub(crate) fn drop_first_free(&mut self, queue: u32)
        ensures { self.new ≡ without_first_free queue self.old }
    {
        let queues = &mut self.queues;
        if (queue as usize) < queues.values.len() {
            let queue = &mut queues.values[queue as usize];
            queue.free.drop_first();
        }
    }

    #[tactic(auto, using(crate::proofs::Lists::changed_here, crate::proofs::Lists::changed_past), unfolding(crate::specs::Effects::without_first_in_line))]
    pub(crate) fn drop_first_in_line(&mut self, queue: u32)
        ensures { self.new ≡ without_first_in_line queue self.old }
    {
        let queues = &mut self.queues;
        if (queue as usize) < queues.values.len() {
            let queue = &mut queues.values[queue as usize];
            queue.line.drop_first();
        }
    }

    #[tactic(auto, using(crate::proofs::Lists::changed_here, crate::proofs::Lists::changed_past), unfolding(crate::specs::Effects::with_free))]
    pub(crate) fn append_free(&mut self, queue: u32, entry: Entry) -> Result<(), AllocError>
        requires { entry.place < 2 ^ 63 }
        ensures ok { OnOk result (self.new ≡ with_free queue entry self.old) }
        ensures err { OnErr result (self.new ≡ self.old) }
    {
        let queues = &mut self.queues;
        if queue as usize >= queues.values.len() {
            return Ok(());
        }
        let queue = &mut queues.values[queue as usize];
        queue.free.append(entry)?;
        queue.next_free = entry.place + 1;
        Ok(())
    }

    #[tactic(auto, using(crate::proofs::Lists::changed_here, crate::proofs::Lists::changed_past), unfolding(crate::specs::Effects::with_in_line))]
    pub(crate) fn append_in_line(&mut self, queue: u32, entry: Entry) -> Result<(), AllocError>
        requires { entry.place < 2 ^ 63 }
        ensures ok { OnOk result (self.new ≡ with_in_line queue entry self.old) }
        ensures err { OnErr result (self.new ≡ self.old) }
    {
        let queues = &mut self.queues;
        if queue as usize >= queues.values.len() {
            return Ok(());
        }
        let queue = &mut queues.values[queue as usize];
        queue.line.append(entry)?;
        queue.next_line = entry.place + 1;
        Ok(())
    }

    #[tactic(auto, unfolding(crate::specs::Effects::with_owner))]
    pub(crate) fn set_owner(&mut self, number: u64, owner: Owner)
        ensures { self.new ≡ with_owner number owner self.old }
    {
        self.owners.replace(number as usize, owner);
    }

    #[tactic(auto, using(crate::proofs::Lists::set_all_more), unfolding(crate::specs::Effects::with_run_owner))]
    pub(crate) fn set_run_owner(&mut self, run: Run, owner: Owner)
        ensures { self.new ≡ with_run_owner run owner self.old }
    {
        let first = chunk_number(run.segment as u32, run.chunk as u32) as usize;
        for i in 0..run.chunk_count() {
            self.owners.replace(first + i as usize, owner);
        }
    }

    #[tactic(auto, unfolding(crate::specs::Effects::with_opened))]
    pub(crate) fn set_opened(&mut self, seat: u32, count: u32)
        ensures { self.new ≡ with_opened seat count self.old }
    {
        if self.role_of(seat).is_engine() {
            self.opened = Sides {
                out: count,
                back: self.opened.back,
            };
        } else {
            self.opened = Sides {
                out: self.opened.out,
                back: count,
            };
        }
    }
}
