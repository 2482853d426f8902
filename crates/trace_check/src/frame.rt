//! All of a core but what its seats have done: the shape, the owners of chunks, and the queues.
ghost use Rattle.std.specs.Prelude.{◌≡◌, ◌+◌, ◌*◌, ◌==◌, ◌<◌, ◌≤◌, ◌^◌, IfSome, IfNone, length};
ghost use Rattle.unit_model.specs.Conditions.{holds, holds_tagged, is_there};
ghost use Rattle.unit_model.specs.Core.{first_item, first_place, item_of, no_queue, owner_code, owner_of, queue_of, role_of, whereabouts_code};
ghost use Rattle.unit_model.specs.Limits.{segment_chunks};
ghost use Rattle.unit_model.specs.Shapes.{role_code};

use crate::lane::Lane;
use std::alloc::{AllocError, Global};
use std::collections::BTreeMap;
use std::marker::Model;
use unit_model::{BLANK, Item, Owner, PAST_ITEMS, Role, SEGMENT_CHUNKS, Shape, Sides};

/// A core without its seats' lists. Contracts see that core.
#[derive(Debug, Drop)]
pub(crate) struct Frame {
    pub(crate) shape: Shape,
    pub(crate) next: u64,
    pub(crate) opened: Sides,
    // a free chunk needs no entry
    pub(crate) owners: BTreeMap<u64, Owner>,
    pub(crate) queues: Vec<Lane>,
}

impl Model for Frame {
    ghost use Rattle.std.specs.Prelude.{ℕ, ◌+◌, ◌*◌, []};
    ghost use Rattle.trace_check.specs.Owners.{listed, owner_in};
    ghost use Rattle.unit_model.specs.Limits.{segment_chunks};
    ghost use Rattle.unit_model.specs.declared.machine.Core.{Core};

    ghost Value = { Core };

    ghost view = { λ f. record {
      shape = f.shape;
      next = f.next;
      opened = f.opened;
      owners = listed (owner_in f.owners) (segment_chunks * (f.shape.out_segments + f.shape.back_segments));
      queues = f.queues.items;
      seats = [];
    } };
}

impl Frame {
    pub(crate) fn shape(&self) -> Shape
        ensures { result ≡ self.now.shape }
    {
        self.shape
    }

    pub(crate) fn next_stream(&self) -> u64
        ensures { result ≡ self.now.next }
    {
        self.next
    }

    pub(crate) fn opened(&self) -> Sides
        ensures { result ≡ self.now.opened }
    {
        self.opened
    }

    #[tactic(auto, using(crate::proofs::Listed::listed_length))]
    pub(crate) fn chunk_count(&self) -> u64
        ensures value { result
            ≡ segment_chunks * (self.now.shape.out_segments + self.now.shape.back_segments) }
        ensures owners { length self.now.owners ≡ result }
    {
        SEGMENT_CHUNKS * (self.shape.out_segments as u64 + self.shape.back_segments as u64)
    }

    #[tactic(auto, using(crate::proofs::Listed::listed_in, crate::proofs::Listed::listed_past))]
    pub(crate) fn owner_code_at(&self, number: u64) -> u64
        ensures { result ≡ owner_code (owner_of self.now number) }
    {
        if number >= self.chunk_count() {
            return 0;
        }
        match self.owners.get(&number) {
            Some(owner) => owner.code(),
            None => 0,
        }
    }

    pub(crate) fn role_of(&self, seat: u32) -> Role
        ensures { role_code result ≡ role_of self.now seat }
    {
        self.shape.role(seat)
    }

    fn queue(&self, queue: u32) -> Option<&Lane>
        ensures some { IfSome result (λ q. q.now ≡ queue_of self.now queue) }
        ensures none { IfNone result (queue_of self.now queue ≡ no_queue) }
    {
        self.queues.as_slice().get(queue as usize)
    }

    pub(crate) fn holds(&self, seat: u32, queue: u32, item: u32) -> bool
        ensures { result ≡ holds self.now seat queue item }
    {
        self.item_of(queue, item).whereabouts.code() == 1 + seat as u64
    }

    pub(crate) fn free_place(&self, queue: u32) -> u64
        ensures { result
            ≡ first_place (queue_of self.now queue).free (queue_of self.now queue).next_free }
    {
        match self.queue(queue) {
            Some(queue) => queue.free_place(),
            None => 0,
        }
    }

    pub(crate) fn line_place(&self, queue: u32) -> u64
        ensures { result
            ≡ first_place (queue_of self.now queue).line (queue_of self.now queue).next_line }
    {
        match self.queue(queue) {
            Some(queue) => queue.line_place(),
            None => 0,
        }
    }

    pub(crate) fn free_item(&self, queue: u32) -> u64
        ensures { result ≡ first_item (queue_of self.now queue).free }
    {
        match self.queue(queue) {
            Some(queue) => queue.free_item(),
            None => PAST_ITEMS,
        }
    }

    pub(crate) fn line_item(&self, queue: u32) -> u64
        ensures { result ≡ first_item (queue_of self.now queue).line }
    {
        match self.queue(queue) {
            Some(queue) => queue.line_item(),
            None => PAST_ITEMS,
        }
    }

    pub(crate) fn next_free(&self, queue: u32) -> u64
        ensures { result ≡ (queue_of self.now queue).next_free }
    {
        match self.queue(queue) {
            Some(queue) => queue.next_free(),
            None => 0,
        }
    }

    pub(crate) fn next_line(&self, queue: u32) -> u64
        ensures { result ≡ (queue_of self.now queue).next_line }
    {
        match self.queue(queue) {
            Some(queue) => queue.next_line(),
            None => 0,
        }
    }

    pub(crate) fn is_there(&self, queue: u32, item: u32) -> bool
        ensures { result ≡ is_there self.now queue item }
    {
        match self.queue(queue) {
            Some(queue) => queue.has_item(item),
            None => false,
        }
    }

    pub(crate) fn item_of(&self, queue: u32, item: u32) -> Item
        ensures { result ≡ item_of self.now queue item }
    {
        match self.queue(queue) {
            Some(queue) => queue.item(item),
            None => BLANK,
        }
    }

    pub(crate) fn holds_tagged(&self, seat: u32, queue: u32, stream: u64) -> bool
        ensures { result ≡ holds_tagged self.now seat queue stream }
    {
        match self.queue(queue) {
            Some(queue) => queue.has_held(1 + seat as u64, stream),
            None => false,
        }
    }
}
