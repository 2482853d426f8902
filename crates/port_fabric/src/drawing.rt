//! Streams are drawn, and refused.
ghost use Rattle.std.specs.Prelude.{◌≡◌, ◌≤◌, ◌^◌};
ghost use Rattle.port_fabric.specs.States.{IsDrawnSeat};

use crate::fabric::Fabric;
use crate::seats::EngineSeat;
use fabric_rule::{FabricSeat, Look};
use fabric_words::Place;
use std::marker::Brand;
use unit_types::Handlers;

/// The first stream that isn't drawn any more.
const WORN: u64 = 1 << 62;

/// A stream that an engine drew and hasn't posted. It is spent by a call that posts it, or refuses it.
#[derive(Drop)]
pub struct Drawn<H: Handlers> {
    pub(crate) seat: FabricSeat<H>,
    pub(crate) stream: u64,
    ghost drawn: { IsDrawnSeat stream seat.seat.me.0 },
}

/// What a draw answers.
#[derive(Drop)]
pub enum Draw<H: Handlers> {
    /// A stream was drawn.
    Drawn(Drawn<H>),
    /// Another seat drew the expected stream before this call's exchange, which found another one to be next.
    Lost { expected: u64, found: u64 },
    /// The next stream was this one, which is 2^62 or more: none is left.
    Worn(u64),
}

impl<H: Handlers> Drawn<H> {
    /// The number of the stream.
    pub fn stream(&self) -> u64
        ensures { result ≡ self.now.stream }
    {
        self.stream
    }
}

impl<H: Handlers> Fabric<H> {
    ghost use Rattle.fabric_rule.specs.declared.cause.Cause.TheVariants as cause;
    ghost use Rattle.port_fabric.specs.Drawing.{Draws, IsAnswerOf, IsDrawnBy, IsDrawnOf};
    ghost use Rattle.port_fabric.specs.Seats.{IsEngineOf, account, one_work_less};
    ghost use Rattle.port_fabric.specs.States.{IsMainSeat, with_refusal};

    /// Tries to draw the next stream.
    pub fn draw_turn(&self, seat: &mut EngineSeat<H>) -> Draw<H>
        requires own { IsEngineOf self.now seat.old }
        ensures own { IsEngineOf self.now seat.new }
        ensures state { IsAnswerOf self.now result }
        ensures draws { Draws seat.old.seat.seat.me.0 seat.new.seat.seat.me.0 result }
    {
        self.draw_by(&mut seat.seat)
    }

    fn draw_by(&self, seat: &mut FabricSeat<H>) -> Draw<H>
        requires own { seat.old.seat.table_id ≡ self.now.table.table.shared.table_id }
        requires main { IsMainSeat 0 seat.old.seat.me.0.seat seat.old.seat.me.0 }
        ensures own { seat.new.seat.table_id ≡ seat.old.seat.table_id }
        ensures state { IsAnswerOf self.now result }
        ensures main { IsMainSeat 0 seat.old.seat.me.0.seat seat.new.seat.me.0 }
        ensures draws { Draws seat.old.seat.me.0 seat.new.seat.me.0 result }
    {
        let word = self.layout.offset(Place::NextStream);
        let stream = self.table.load(seat, word, Look::Next);
        if stream >= WORN {
            self.refuse_worn(seat, stream);
            return Draw::Worn(stream);
        }
        let found = self.table.draw(seat, word, stream);
        if found != stream {
            return Draw::Lost {
                expected: stream,
                found,
            };
        }
        let seat = self.table.works_off(seat);
        Draw::Drawn(Drawn { seat, stream })
    }

    // No stream is left: the next one was this.
    fn refuse_worn(&self, seat: &mut FabricSeat<H>, place: u64)
        requires own { seat.old.seat.table_id ≡ self.now.table.table.shared.table_id }
        requires main { IsMainSeat 0 seat.old.seat.me.0.seat seat.old.seat.me.0 }
        requires worn { 2 ^ 62 ≤ place }
        ensures own { seat.new.seat.table_id ≡ seat.old.seat.table_id }
        ensures refused { seat.new.seat.me.0
            ≡ with_refusal 0 (cause.Worn place) seat.old.seat.me.0 }
    {
        self.table.account::<Brand, u64>(seat, place);
    }

    /// Spends a drawn stream. It counts as refused.
    pub fn refuse(&self, seat: &mut EngineSeat<H>, drawn: Drawn<H>)
        requires own { IsEngineOf self.now seat.old × IsDrawnOf self.now drawn }
        requires begun { IsDrawnBy seat.old drawn }
        ensures own { IsEngineOf self.now seat.new }
        ensures account { account seat.new ≡ one_work_less (account seat.old) }
    {
        self.table.end_works(&mut seat.seat, drawn.seat);
    }
}
