//! The core of a trace, kept in maps.
ghost use Rattle.std.specs.BTreeMap.{get};
ghost use Rattle.std.specs.Ordering.{nat_cmp};
ghost use Rattle.std.specs.Prelude.{◌≡◌, ◌≢◌, ◌==◌, if◌then◌else◌, ◌<◌, ◌^◌, ◌-◌, ℕ, IfOk, OnOk, Option, Some, None};
ghost use Rattle.trace_check.specs.Shows.{Shows};
ghost use Rattle.trace_check.specs.Streams.{eleventh_known, may_abandon_known, may_arm_known, may_post_known, may_send_known, may_settle_known, may_win_known};
ghost use Rattle.unit_model.specs.Opening.{opened_core};
ghost use Rattle.unit_model.specs.Shapes.{IsValid};

use crate::frame::Frame;
use crate::streams::{
    Stream, abandoned_by, cancelled_by, drawn_by, is_closed, is_last_sent, is_received, is_taken,
    posted_by, sent_of, taken_by,
};
use std::alloc::{AllocError, Global};
use std::collections::BTreeMap;
use unit_model::{Item, Looks, Shape, Sides, Unmet, unless};

/// A core in which each stream has a record, in place of the lists of what each seat has done.
#[derive(Debug, Drop)]
pub(crate) struct Machine {
    pub(crate) frame: Frame,
    pub(crate) streams: BTreeMap<u64, Stream>,
}

impl Machine {
    /// The core of a valid shape as it begins. Fails for want of memory alone.
    pub(crate) fn open(alloc: Global, shape: &Shape) -> Result<Machine, AllocError>
        requires { IsValid shape.now }
        ensures { IfOk result (λ machine. Shows (opened_core shape.now) machine) }
    {
        Ok(Machine {
            frame: Frame::open(alloc, shape)?,
            streams: BTreeMap::new(alloc),
        })
    }
}

// The eleventh condition.
impl Machine {
    pub(crate) fn stream(&self, stream: u64) -> Option<Stream>
        ensures { result ≡ get nat_cmp self.now.streams stream }
    {
        match self.streams.get(&stream) {
            Some(known) => Some(*known),
            None => None,
        }
    }

    fn may_post(&self, seat: u32, queue: u32, item: u32, stream: u64) -> Option<Unmet>
        ensures { result
            ≡ may_post_known self.now.frame (get nat_cmp self.now.streams stream) seat queue item }
    {
        let known = self.stream(stream);
        let is_new = drawn_by(seat, &known) && !posted_by(seat, &known);
        let is_own = self.frame.item_of(queue, item).part == seat as u64;
        unless(is_new && is_own, 11, 1, 0)
    }

    fn may_send(&self, seat: u32, queue: u32, item: u32, stream: u64) -> Option<Unmet>
        requires { 0 < queue }
        ensures { result
            ≡ may_send_known self.now.frame (get nat_cmp self.now.streams stream) seat queue item
            stream }
    {
        let known = self.stream(stream);
        let asked = taken_by(seat, &known) && posted_by(queue - 1, &known);
        let unfinished = !is_last_sent(&known) && !is_closed(&known);
        let is_next_part = self.frame.item_of(queue, item).part / 2 == sent_of(&known);
        let is_waiting = self.frame.holds_tagged(seat, queue, stream);
        unless(asked && unfinished && is_next_part && !is_waiting, 11, 1, 0)
    }

    fn arm_unmet(&self, seat: u32, queue: u32, item: u32, stream: u64) -> Option<Unmet>
        ensures { result
            ≡ may_arm_known self.now.frame (get nat_cmp self.now.streams stream) seat queue item
            stream }
    {
        if queue == 0 {
            self.may_post(seat, queue, item, stream)
        } else {
            self.may_send(seat, queue, item, stream)
        }
    }

    fn may_win(&self, seat: u32, queue: u32, item: u32, stream: u64) -> bool
        ensures { result
            ≡ may_win_known self.now.frame (get nat_cmp self.now.streams stream) seat queue item }
    {
        let is_engine = self.frame.role_of(seat).is_engine();
        match (queue, is_engine) {
            (0, true) => posted_by(seat, &self.stream(stream)),
            (0, false) => self.frame.holds(seat, queue, item),
            (_, true) => self.frame.holds(seat, queue, item) && queue as u64 == 1 + seat as u64,
            (_, false) => self.frame.holds(seat, queue, item),
        }
    }

    fn settle_unmet(&self, seat: u32, queue: u32, item: u32, stream: u64) -> Option<Unmet>
        ensures { result
            ≡ may_settle_known self.now.frame (get nat_cmp self.now.streams stream) seat queue item
            stream }
    {
        let may_win = self.may_win(seat, queue, item, stream);
        unless(stream != 0 && may_win, 11, 1, 0)
    }

    fn abandon_unmet(&self, seat: u32, stream: u64) -> Option<Unmet>
        ensures { result ≡ may_abandon_known (get nat_cmp self.now.streams stream) seat }
    {
        let known = self.stream(stream);
        let is_posted = posted_by(seat, &known) && is_taken(&known);
        let ended = cancelled_by(seat, &known) || abandoned_by(seat, &known);
        unless(is_posted && !(ended || is_received(&known)), 11, 1, 0)
    }
}

// What the conditions of steps ask.
impl Looks for Machine {
    ghost use Rattle.std.specs.BTreeMap.{get};
    ghost use Rattle.std.specs.Ordering.{nat_cmp};
    ghost use Rattle.trace_check.specs.Streams.{eleventh_known};

    ghost core = { λ m. m.frame };

    ghost eleventh = { λ m. eleventh_known m.frame (get nat_cmp m.streams) };

    fn shape(&self) -> Shape {
        self.frame.shape()
    }

    fn next_stream(&self) -> u64 {
        self.frame.next_stream()
    }

    fn opened(&self) -> Sides {
        self.frame.opened()
    }

    fn owner_code_at(&self, number: u64) -> u64 {
        self.frame.owner_code_at(number)
    }

    fn is_there(&self, queue: u32, item: u32) -> bool {
        self.frame.is_there(queue, item)
    }

    fn item_of(&self, queue: u32, item: u32) -> Item {
        self.frame.item_of(queue, item)
    }

    fn free_place(&self, queue: u32) -> u64 {
        self.frame.free_place(queue)
    }

    fn line_place(&self, queue: u32) -> u64 {
        self.frame.line_place(queue)
    }

    fn next_free(&self, queue: u32) -> u64 {
        self.frame.next_free(queue)
    }

    fn next_line(&self, queue: u32) -> u64 {
        self.frame.next_line(queue)
    }

    fn free_item(&self, queue: u32) -> u64 {
        self.frame.free_item(queue)
    }

    fn line_item(&self, queue: u32) -> u64 {
        self.frame.line_item(queue)
    }

    fn may_arm(&self, seat: u32, queue: u32, item: u32, stream: u64) -> Option<Unmet> {
        self.arm_unmet(seat, queue, item, stream)
    }

    fn may_settle(&self, seat: u32, queue: u32, item: u32, stream: u64) -> Option<Unmet> {
        self.settle_unmet(seat, queue, item, stream)
    }

    fn may_abandon(&self, seat: u32, stream: u64) -> Option<Unmet> {
        self.abandon_unmet(seat, stream)
    }
}
