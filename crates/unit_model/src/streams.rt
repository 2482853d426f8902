//! What the state of a stream allows: the eleventh condition.
ghost use Rattle.std.specs.Prelude.{◌≡◌, ◌∷◌, [], ◌+◌, ◌-◌, ◌==◌, ◌&&◌, ◌<◌, ◌≤◌, ◌/◌, ◌%◌, Option, count_by, length};
ghost use Rattle.std.specs.List.{list_any};
ghost use Rattle.unit_model.specs.Conditions.{conditions_of, first_of, first_unmet, fits_side, has_stream, holds, holds_tagged, is_closed, is_last_sent, is_same_part, is_taken, may_abandon, may_arm, may_open, may_post, may_send, may_settle, may_win_part, may_win_request, part_of, parts_sent, unless};
ghost use Rattle.unit_model.specs.Core.{is_last_in, item_of, number_in, queue_of, seat_of, whereabouts_code};
ghost use Rattle.unit_model.specs.Weights.{weigh};

use crate::conditions::unless;
use crate::looks::Looks;
use crate::machine::{Core, Item, Part, Seat, Unmet};

pub(crate) fn has_stream(stream: u64, streams: &[u64]) -> bool
    ensures { result ≡ has_stream stream streams.now }
{
    streams.iter().any(|other| *other == stream)
}

fn has_last(stream: u64, parts: &[Part]) -> bool
    ensures { result ≡ list_any (λ part. part.stream == stream && part.last) parts.now }
{
    parts.iter().any(|part| part.stream == stream && part.last)
}

fn parts_in(stream: u64, parts: &[Part]) -> u64
    ensures { result ≡ count_by (λ part. part.stream == stream) parts.now }
{
    parts.iter().filter(|part| part.stream == stream).count() as u64
}

// Whether the seats sent this number of parts of the stream.
fn is_sent(seats: &[Seat], stream: u64, number: u64) -> bool
    ensures { result
        ≡ (number == weigh (λ lists. count_by (λ part. part.stream == stream) lists.sent)
        seats.now) }
{
    match seats {
        [] => number == 0,
        [first, rest @ ..] => {
            let sent = parts_in(stream, first.sent.as_slice());
            sent <= number && is_sent(rest, stream, number - sent)
        }
    }
}

/// The part that the item carries of this stream.
pub(crate) fn part_of(stream: u64, item: &Item) -> Part
    ensures { result ≡ part_of stream item.now }
{
    Part {
        stream,
        number: item.part / 2,
        last: item.part % 2 == 1,
    }
}

fn is_same_part(one: &Part, other: &Part) -> bool
    ensures { result ≡ is_same_part one.now other.now }
{
    one.stream == other.stream
        && one.number == other.number
        && if one.last { other.last } else { !other.last }
}

fn has_part(part: &Part, parts: &[Part]) -> bool
    ensures { result ≡ list_any (is_same_part part.now) parts.now }
{
    parts.iter().any(|other| is_same_part(part, other))
}

// What a seat's lists have.
impl Core {
    fn has_drawn(&self, seat: u32, stream: u64) -> bool
        ensures { result ≡ has_stream stream (seat_of self.now seat).drawn }
    {
        match self.seat(seat) {
            Some(lists) => has_stream(stream, lists.drawn.as_slice()),
            None => false,
        }
    }

    fn has_posted(&self, seat: u32, stream: u64) -> bool
        ensures { result ≡ has_stream stream (seat_of self.now seat).posted }
    {
        match self.seat(seat) {
            Some(lists) => has_stream(stream, lists.posted.as_slice()),
            None => false,
        }
    }

    fn has_taken(&self, seat: u32, stream: u64) -> bool
        ensures { result ≡ has_stream stream (seat_of self.now seat).taken }
    {
        match self.seat(seat) {
            Some(lists) => has_stream(stream, lists.taken.as_slice()),
            None => false,
        }
    }

    fn has_cancelled(&self, seat: u32, stream: u64) -> bool
        ensures { result ≡ has_stream stream (seat_of self.now seat).cancelled }
    {
        match self.seat(seat) {
            Some(lists) => has_stream(stream, lists.cancelled.as_slice()),
            None => false,
        }
    }

    fn has_abandoned(&self, seat: u32, stream: u64) -> bool
        ensures { result ≡ has_stream stream (seat_of self.now seat).abandoned }
    {
        match self.seat(seat) {
            Some(lists) => has_stream(stream, lists.abandoned.as_slice()),
            None => false,
        }
    }

    fn has_received_last(&self, seat: u32, stream: u64) -> bool
        ensures { result
            ≡ list_any (λ part. part.stream == stream && part.last)
            (seat_of self.now seat).received }
    {
        match self.seat(seat) {
            Some(lists) => has_last(stream, lists.received.as_slice()),
            None => false,
        }
    }

    fn has_sent(&self, seat: u32, part: &Part) -> bool
        ensures { result ≡ list_any (is_same_part part.now) (seat_of self.now seat).sent }
    {
        match self.seat(seat) {
            Some(lists) => has_part(part, lists.sent.as_slice()),
            None => false,
        }
    }

    fn is_taken(&self, stream: u64) -> bool
        ensures { result ≡ is_taken self.now stream }
    {
        self.seats
            .as_slice()
            .iter()
            .any(|lists| has_stream(stream, lists.taken.as_slice()))
    }

    fn is_closed(&self, stream: u64) -> bool
        ensures { result ≡ is_closed self.now stream }
    {
        self.seats
            .as_slice()
            .iter()
            .any(|lists| has_stream(stream, lists.closed.as_slice()))
    }

    fn is_last_sent(&self, stream: u64) -> bool
        ensures { result ≡ is_last_sent self.now stream }
    {
        self.seats
            .as_slice()
            .iter()
            .any(|lists| has_last(stream, lists.sent.as_slice()))
    }
}

// The conditions.
impl Core {
    #[tactic(auto, unfolding(crate::specs::Conditions::may_post))]
    fn may_post(&self, seat: u32, queue: u32, item: u32, stream: u64) -> Option<Unmet>
        ensures { result ≡ may_post self.now seat queue item stream }
    {
        let is_new = self.has_drawn(seat, stream) && !self.has_posted(seat, stream);
        let is_own = self.item_of(queue, item).part == seat as u64;
        unless(is_new && is_own, 11, 1, 0)
    }

    #[tactic(auto, unfolding(crate::specs::Conditions::may_send))]
    fn may_send(&self, seat: u32, queue: u32, item: u32, stream: u64) -> Option<Unmet>
        requires { 0 < queue }
        ensures { result ≡ may_send self.now seat queue item stream }
    {
        let asked = self.has_taken(seat, stream) && self.has_posted(queue - 1, stream);
        let unfinished = !self.is_last_sent(stream) && !self.is_closed(stream);
        let number = self.item_of(queue, item).part / 2;
        let is_next_part = is_sent(self.seats.as_slice(), stream, number);
        let is_waiting = self.holds_tagged(seat, queue, stream);
        unless(asked && unfinished && is_next_part && !is_waiting, 11, 1, 0)
    }

    #[tactic(auto, unfolding(crate::specs::Conditions::may_arm))]
    pub(crate) fn arm_unmet(&self, seat: u32, queue: u32, item: u32, stream: u64) -> Option<Unmet>
        ensures { result ≡ may_arm self.now seat queue item stream }
    {
        if queue == 0 {
            self.may_post(seat, queue, item, stream)
        } else {
            self.may_send(seat, queue, item, stream)
        }
    }

    fn may_win_request(&self, seat: u32, queue: u32, item: u32, stream: u64) -> bool
        ensures { result ≡ may_win_request self.now seat queue item stream }
    {
        if self.role_of(seat).is_engine() {
            self.has_posted(seat, stream)
        } else {
            self.holds(seat, queue, item)
        }
    }

    fn may_win_part(&self, seat: u32, queue: u32, item: u32, stream: u64) -> bool
        ensures { result ≡ may_win_part self.now seat queue item stream }
    {
        if !self.holds(seat, queue, item) {
            return false;
        }
        if self.role_of(seat).is_engine() {
            queue as u64 == 1 + seat as u64
        } else {
            let part = part_of(stream, &self.item_of(queue, item));
            self.has_sent(seat, &part)
        }
    }

    #[tactic(auto, unfolding(crate::specs::Conditions::may_settle))]
    pub(crate) fn settle_unmet(
        &self,
        seat: u32,
        queue: u32,
        item: u32,
        stream: u64,
    ) -> Option<Unmet>
        ensures { result ≡ may_settle self.now seat queue item stream }
    {
        let may_win = if queue == 0 {
            self.may_win_request(seat, queue, item, stream)
        } else {
            self.may_win_part(seat, queue, item, stream)
        };
        unless(stream != 0 && may_win, 11, 1, 0)
    }

    #[tactic(auto, unfolding(crate::specs::Conditions::may_abandon))]
    pub(crate) fn abandon_unmet(&self, seat: u32, stream: u64) -> Option<Unmet>
        ensures { result ≡ may_abandon self.now seat stream }
    {
        let is_posted = self.has_posted(seat, stream) && self.is_taken(stream);
        let ended = self.has_cancelled(seat, stream) || self.has_abandoned(seat, stream);
        let is_received = self.has_received_last(seat, stream);
        unless(is_posted && !(ended || is_received), 11, 1, 0)
    }
}
