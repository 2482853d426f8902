//! What the steps do.
ghost use Rattle.std.specs.BTreeMap.{get};
ghost use Rattle.std.specs.Ordering.{nat_cmp};
ghost use Rattle.std.specs.Prelude.{◌≡◌, ◌==◌, if◌then◌else◌, ◌+◌, ◌<◌, ◌≤◌, ◌^◌, ℕ, IfOk, IfSome, OnOk, Option, Some, None, option_map, [], ◌∷◌};
ghost use Rattle.trace_check.specs.Shows.{Shows};
ghost use Rattle.trace_check.specs.Streams.{abandoned_stream, armed_stream, first_unmet_known, frame_after, settled_stream, stream_after};
ghost use Rattle.unit_model.specs.Conditions.{first_unmet};
ghost use Rattle.unit_model.specs.Core.{item_of};
ghost use Rattle.unit_model.specs.Effects.{with_free, with_in_line, with_item, with_opened, without_first_free, without_first_in_line, after_step};
ghost use Rattle.unit_model.specs.declared.machine.Core.{Core};

use crate::frame::Frame;
use crate::machine::Machine;
use crate::streams::Stream;
use std::alloc::AllocError;
use std::collections::BTreeMap;
use unit_model::{Entry, Item, Owner, Step, Unmet, Whereabouts, chunk_number, first_unmet};

// What the steps do to a frame.
impl Frame {
    pub(crate) fn get_item(&mut self, seat: u32, queue: u32, item: u32) -> Result<(), AllocError>
        ensures { OnOk result (self.new ≡ with_item queue item
            (record (item_of self.old queue item) { whereabouts = Whereabouts.WithSeat seat }) (without_first_free queue self.old)) }
    {
        let old = self.item_of(queue, item);
        self.drop_first_free(queue);
        let held = Item {
            whereabouts: Whereabouts::WithSeat(seat),
            ..old
        };
        self.set_item(queue, item, held)
    }

    pub(crate) fn pop(&mut self, seat: u32, queue: u32, item: u32) -> Result<(), AllocError>
        ensures { OnOk result (self.new ≡ with_item queue item
            (record (item_of self.old queue item) { whereabouts = Whereabouts.WithSeat seat }) (without_first_in_line queue self.old)) }
    {
        let old = self.item_of(queue, item);
        self.drop_first_in_line(queue);
        let held = Item {
            whereabouts: Whereabouts::WithSeat(seat),
            ..old
        };
        self.set_item(queue, item, held)
    }

    pub(crate) fn push(&mut self, queue: u32, item: u32, place: u64) -> Result<(), AllocError>
        requires { place < 2 ^ 63 }
        ensures { OnOk result (self.new ≡ with_item queue item
            (record (item_of self.old queue item) { whereabouts = Whereabouts.InLine })
            (with_in_line queue (record { place = place; item = item }) self.old)) }
    {
        let old = self.item_of(queue, item);
        self.append_in_line(queue, Entry { place, item })?;
        let pushed = Item {
            whereabouts: Whereabouts::InLine,
            ..old
        };
        self.set_item(queue, item, pushed)
    }

    pub(crate) fn give_item(&mut self, queue: u32, item: u32, place: u64) -> Result<(), AllocError>
        requires { place < 2 ^ 63 }
        ensures { OnOk result (self.new ≡ with_item queue item
            (record (item_of self.old queue item) { whereabouts = Whereabouts.InFreeList })
            (with_free queue (record { place = place; item = item }) self.old)) }
    {
        let old = self.item_of(queue, item);
        self.append_free(queue, Entry { place, item })?;
        let given = Item {
            whereabouts: Whereabouts::InFreeList,
            ..old
        };
        self.set_item(queue, item, given)
    }

    // The number of segments of the larger side.
    fn most_segments(&self) -> u32
        ensures out { self.now.shape.out_segments ≤ result }
        ensures back { self.now.shape.back_segments ≤ result }
    {
        self.shape.out_segments.max(self.shape.back_segments)
    }

    pub(crate) fn open_next(&mut self, seat: u32, count: u32)
        requires { first_unmet self.old (Step.Open seat count) ≡ None }
        ensures { self.new ≡ with_opened seat (count + 1) self.old }
    {
        // Fewer segments are open than the larger side has.
        let _most = self.most_segments();
        self.set_opened(seat, count + 1);
    }
}

// Puts the record of a stream into the map. Fails for want of memory alone.
fn put(streams: &mut BTreeMap<u64, Stream>, number: u64, stream: Stream) -> Result<(), AllocError>
    ensures { OnOk result ((n : ℕ) → get nat_cmp streams.new n ≡
        (if n == number then Some stream else get nat_cmp streams.old n)) }
{
    match streams.insert(number, stream) {
        Ok(_) => Ok(()),
        Err(_) => Err(AllocError),
    }
}

// Puts the changed record of a stream into the map, where it had one. Fails for want of memory alone.
fn put_changed(
    streams: &mut BTreeMap<u64, Stream>,
    number: u64,
    stream: Option<Stream>,
) -> Result<(), AllocError>
    requires { stream ≡ None → get nat_cmp streams.old number ≡ None }
    ensures { OnOk result ((n : ℕ) → get nat_cmp streams.new n ≡
        (if n == number then stream else get nat_cmp streams.old n)) }
{
    match stream {
        Some(stream) => put(streams, number, stream),
        None => Ok(()),
    }
}

fn armed(stream: Option<Stream>, queue: u32, item: &Item) -> Option<Stream>
    ensures value { result ≡ option_map (armed_stream queue item.now) stream }
    ensures none { result ≡ None → stream ≡ None }
{
    match stream {
        Some(stream) => Some(stream.armed(queue, item)),
        None => None,
    }
}

fn settled(
    stream: Option<Stream>,
    is_engine: bool,
    seat: u32,
    queue: u32,
    item: &Item,
) -> Option<Stream>
    ensures value { result ≡ option_map (settled_stream is_engine seat queue item.now) stream }
    ensures none { result ≡ None → stream ≡ None }
{
    match stream {
        Some(stream) => Some(stream.settled(is_engine, seat, queue, item)),
        None => None,
    }
}

fn given_up(stream: Option<Stream>) -> Option<Stream>
    ensures value { result ≡ option_map abandoned_stream stream }
    ensures none { result ≡ None → stream ≡ None }
{
    match stream {
        Some(stream) => Some(stream.given_up()),
        None => None,
    }
}

impl Machine {
    #[tactic(auto, unfolding(unit_model::specs::Effects::after_step, unit_model::specs::Effects::with_note, crate::specs::Streams::stream_after))]
    fn draw(&mut self, seat: u32, stream: u64) -> Result<(), AllocError>
        requires { stream < 2 ^ 62 }
        ensures frame { OnOk result (self.new.frame
            ≡ frame_after self.old.frame (Step.Draw seat stream)) }
        ensures streams { OnOk result ((n : ℕ) → get nat_cmp self.new.streams n
            ≡ stream_after self.old.frame (get nat_cmp self.old.streams) (Step.Draw seat stream)
            n) }
    {
        put(&mut self.streams, stream, Stream::drawn(seat))?;
        self.frame.set_next(stream + 1);
        Ok(())
    }

    #[tactic(auto, unfolding(unit_model::specs::Effects::after_step, unit_model::specs::Effects::with_note, unit_model::specs::Effects::with_item, unit_model::specs::Effects::with_run_owner, crate::specs::Streams::stream_after))]
    fn arm(&mut self, seat: u32, queue: u32, item: u32, stream: u64) -> Result<(), AllocError>
        ensures frame { OnOk result (self.new.frame
            ≡ frame_after self.old.frame (Step.Arm seat queue item stream)) }
        ensures streams { OnOk result ((n : ℕ) → get nat_cmp self.new.streams n
            ≡ stream_after self.old.frame (get nat_cmp self.old.streams)
            (Step.Arm seat queue item stream) n) }
    {
        let old = self.frame.item_of(queue, item);
        let known = armed(self.stream(stream), queue, &old);
        put_changed(&mut self.streams, stream, known)?;
        let new = Item {
            tag: stream,
            stream,
            ..old
        };
        self.frame.set_item(queue, item, new)?;
        self.frame
            .set_run_owner(old.run, Owner::Message(queue, item))?;
        Ok(())
    }

    #[tactic(auto, unfolding(unit_model::specs::Effects::after_step, unit_model::specs::Effects::with_note, unit_model::specs::Effects::with_item, unit_model::specs::Effects::with_run_owner, crate::specs::Streams::stream_after))]
    fn settle(&mut self, seat: u32, queue: u32, item: u32, stream: u64) -> Result<(), AllocError>
        ensures frame { OnOk result (self.new.frame
            ≡ frame_after self.old.frame (Step.Settle seat queue item stream)) }
        ensures streams { OnOk result ((n : ℕ) → get nat_cmp self.new.streams n
            ≡ stream_after self.old.frame (get nat_cmp self.old.streams)
            (Step.Settle seat queue item stream) n) }
    {
        let old = self.frame.item_of(queue, item);
        let is_engine = self.frame.role_of(seat).is_engine();
        let known = settled(self.stream(stream), is_engine, seat, queue, &old);
        put_changed(&mut self.streams, stream, known)?;
        self.frame.set_item(queue, item, Item { tag: 0, ..old })?;
        self.frame.set_run_owner(old.run, Owner::Seat(seat))?;
        Ok(())
    }

    #[tactic(auto, unfolding(unit_model::specs::Effects::after_step, unit_model::specs::Effects::with_note, crate::specs::Streams::stream_after))]
    fn abandon(&mut self, seat: u32, stream: u64) -> Result<(), AllocError>
        ensures frame { OnOk result (self.new.frame
            ≡ frame_after self.old.frame (Step.Abandon seat stream)) }
        ensures streams { OnOk result ((n : ℕ) → get nat_cmp self.new.streams n
            ≡ stream_after self.old.frame (get nat_cmp self.old.streams) (Step.Abandon seat stream)
            n) }
    {
        let known = given_up(self.stream(stream));
        put_changed(&mut self.streams, stream, known)?;
        Ok(())
    }
}

impl Machine {
    // What a step does, where its conditions are met.
    #[tactic(auto, unfolding(unit_model::specs::Effects::after_step, unit_model::specs::Effects::with_item, unit_model::specs::Effects::with_owner, unit_model::specs::Effects::with_opened, unit_model::specs::Effects::with_free, unit_model::specs::Effects::with_in_line, unit_model::specs::Effects::without_first_free, unit_model::specs::Effects::without_first_in_line, crate::specs::Streams::stream_after))]
    fn do_step(&mut self, step: &Step) -> Result<(), AllocError>
        requires { first_unmet_known self.old.frame (get nat_cmp self.old.streams) step.now ≡ None }
        ensures frame { OnOk result (self.new.frame ≡ frame_after self.old.frame step.now) }
        ensures streams { OnOk result ((n : ℕ) → get nat_cmp self.new.streams n
            ≡ stream_after self.old.frame (get nat_cmp self.old.streams) step.now n) }
    {
        match *step {
            Step::Draw { seat, stream } => self.draw(seat, stream),
            Step::Claim {
                seat,
                segment,
                chunk,
            } => {
                self.frame
                    .set_owner(chunk_number(segment, chunk), Owner::Seat(seat))
            }
            Step::Release { segment, chunk, .. } => {
                self.frame.free_chunk(chunk_number(segment, chunk));
                Ok(())
            }
            Step::Open { seat, count } => {
                self.frame.open_next(seat, count);
                Ok(())
            }
            Step::GetItem {
                seat,
                queue,
                item,
                ..
            } => self.frame.get_item(seat, queue, item),
            Step::SetRun {
                queue,
                item,
                run,
                ..
            } => {
                let old = self.frame.item_of(queue, item);
                self.frame.set_item(queue, item, Item { run, ..old })
            }
            Step::SetPart {
                queue,
                item,
                part,
                ..
            } => {
                let old = self.frame.item_of(queue, item);
                self.frame.set_item(queue, item, Item { part, ..old })
            }
            Step::Arm {
                seat,
                queue,
                item,
                stream,
            } => self.arm(seat, queue, item, stream),
            Step::Push {
                queue,
                item,
                place,
                ..
            } => self.frame.push(queue, item, place),
            Step::Pop {
                seat,
                queue,
                item,
                ..
            } => self.frame.pop(seat, queue, item),
            Step::Settle {
                seat,
                queue,
                item,
                stream,
            } => self.settle(seat, queue, item, stream),
            Step::GiveItem {
                queue,
                item,
                place,
                ..
            } => self.frame.give_item(queue, item, place),
            Step::Abandon { seat, stream } => self.abandon(seat, stream),
        }
    }

    // Does a step: nothing where its conditions are met, and else the first one that isn't.
    fn try_step(&mut self, step: &Step) -> Result<Option<Unmet>, AllocError>
        ensures unmet { IfOk result (λ unmet. unmet
            ≡ first_unmet_known self.old.frame (get nat_cmp self.old.streams) step.now) }
        ensures frame { IfOk result (λ unmet. unmet ≡ None
            → self.new.frame ≡ frame_after self.old.frame step.now) }
        ensures streams { IfOk result (λ unmet. unmet ≡ None → (n : ℕ)
            → get nat_cmp self.new.streams n
            ≡ stream_after self.old.frame (get nat_cmp self.old.streams) step.now n) }
    {
        let unmet = first_unmet(self, step);
        if unmet.is_none() {
            self.do_step(step)?;
        }
        Ok(unmet)
    }

    /// Does a step: nothing where its conditions are met, and else the first one that isn't.
    ///
    /// Fails for want of memory alone. What the machine shows is then open.
    pub(crate) fn step(&mut self, step: &Step) -> Result<Option<Unmet>, AllocError>
        ensures unmet { IfOk result (λ unmet. (core : Core) → Shows core self.old
            → unmet ≡ first_unmet core step.now) }
        ensures done { IfOk result (λ unmet. (core : Core) → Shows core self.old → unmet ≡ None
            → Shows (after_step core step.now) self.new) }
    {
        let unmet = self.try_step(step)?;
        Ok(unmet)
    }
}
