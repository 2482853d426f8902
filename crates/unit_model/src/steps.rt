//! Steps of the core, one and many.
ghost use Rattle.std.specs.Prelude.{◌≡◌, ◌<◌, ◌≤◌, ◌+◌, ◌^◌, OnOk, OnErr, IfErr, Some, take, length, slice_get};
ghost use Rattle.unit_model.specs.Conditions.{first_unmet};
ghost use Rattle.unit_model.specs.Core.{item_of};
ghost use Rattle.unit_model.specs.Effects.{after_step, armed_note, settled_note, with_free, with_in_line, with_item, without_first_free, without_first_in_line};
ghost use Rattle.unit_model.specs.Holding.{IsHeldRight};
ghost use Rattle.unit_model.specs.Running.{AllEnabled, Enabled, IsFaultOf, after_steps};
ghost use Rattle.unit_model.specs.Soundness.{IsSound};
ghost use Rattle.unit_model.specs.StreamCounts.{StreamCounts};
ghost use Rattle.unit_model.specs.declared.machine.Step.{Step};

use crate::conditions::chunk_number;
use crate::enabled::first_unmet;
use crate::looks::Looks;
use crate::machine::{Core, Entry, Item, Note, Owner, RunFault, Step, StepFault, Whereabouts};
use crate::streams::part_of;
use std::alloc::AllocError;

/// Does a step. A sound core stays sound, whatever the answer.
///
/// # Errors
///
/// `NotEnabled` exactly where a condition of the step isn't met, and it names the first one; `Memory` for want of memory.
/// After either the core is as before.
pub fn step_core(core: &mut Core, step: &Step) -> Result<(), StepFault>
    ensures enabled { OnOk result (Enabled core.old step.now) }
    ensures done { OnOk result (core.new ≡ after_step core.old step.now) }
    ensures fault { IfErr result (λ fault. IsFaultOf (first_unmet core.old step.now) fault) }
    ensures kept { OnErr result (core.new ≡ core.old) }
    ensures held { IsHeldRight core.old → IsHeldRight core.new }
    ensures streams { StreamCounts core.old → StreamCounts core.new }
    ensures sound { IsSound core.old → IsSound core.new }
{
    if let Some(unmet) = first_unmet(core, step) {
        return Err(StepFault::NotEnabled {
            rule: unmet.rule,
            want: unmet.want,
            found: unmet.found,
        });
    }
    match core.do_step(step) {
        Ok(()) => Ok(()),
        Err(_) => Err(StepFault::Memory),
    }
}

/// Does the steps in order.
///
/// It is Ok exactly where each step is enabled in its turn and memory doesn't run out. A sound core stays sound, whatever
/// the answer.
///
/// # Errors
///
/// The steps before `at` were done, and the one at `at` wasn't: the core is as it was before that one.
pub fn run_core(core: &mut Core, steps: &[Step]) -> Result<(), RunFault>
    ensures enabled { OnOk result (AllEnabled core.old steps.now) }
    ensures done { OnOk result (core.new ≡ after_steps core.old steps.now) }
    ensures at { IfErr result (λ fault. fault.at < length steps.now) }
    ensures before { IfErr result (λ fault. AllEnabled core.old (take fault.at steps.now)) }
    ensures stopped { IfErr result (λ fault. core.new
        ≡ after_steps core.old (take fault.at steps.now)) }
    ensures cause { IfErr result (λ fault. (step : Step)
        → slice_get steps.now fault.at ≡ Some step
        → IsFaultOf (first_unmet core.new step) fault.fault) }
    ensures held { IsHeldRight core.old → IsHeldRight core.new }
    ensures streams { StreamCounts core.old → StreamCounts core.new }
    ensures sound { IsSound core.old → IsSound core.new }
{
    for (i, step) in steps.iter().enumerate() {
        if let Err(fault) = step_core(core, step) {
            return Err(RunFault {
                at: i as u64,
                fault,
            });
        }
    }
    Ok(())
}

impl Core {
    // What a step does, where its conditions are met. Whatever may want memory comes first.
    #[tactic(auto, unfolding(crate::specs::Effects::after_step))]
    fn do_step(&mut self, step: &Step) -> Result<(), AllocError>
        requires { Enabled self.old step.now }
        ensures done { OnOk result (self.new ≡ after_step self.old step.now) }
        ensures kept { OnErr result (self.new ≡ self.old) }
    {
        match *step {
            Step::Draw { seat, stream } => self.draw(seat, stream),
            Step::Claim {
                seat,
                segment,
                chunk,
            } => {
                self.set_owner(chunk_number(segment, chunk), Owner::Seat(seat));
                Ok(())
            }
            Step::Release { segment, chunk, .. } => {
                self.set_owner(chunk_number(segment, chunk), Owner::Free);
                Ok(())
            }
            Step::Open { seat, count } => {
                self.open_next(seat, count);
                Ok(())
            }
            Step::GetItem {
                seat,
                queue,
                item,
                ..
            } => {
                self.get_item(seat, queue, item);
                Ok(())
            }
            Step::SetRun {
                queue,
                item,
                run,
                ..
            } => {
                let old = self.item_of(queue, item);
                self.set_item(queue, item, Item { run, ..old });
                Ok(())
            }
            Step::SetPart {
                queue,
                item,
                part,
                ..
            } => {
                let old = self.item_of(queue, item);
                self.set_item(queue, item, Item { part, ..old });
                Ok(())
            }
            Step::Arm {
                seat,
                queue,
                item,
                stream,
            } => self.arm(seat, queue, item, stream),
            Step::Push {
                queue,
                item,
                place,
                ..
            } => self.push(queue, item, place),
            Step::Pop {
                seat,
                queue,
                item,
                ..
            } => {
                self.pop(seat, queue, item);
                Ok(())
            }
            Step::Settle {
                seat,
                queue,
                item,
                stream,
            } => self.settle(seat, queue, item, stream),
            Step::GiveItem {
                queue,
                item,
                place,
                ..
            } => self.give_item(queue, item, place),
            Step::Abandon { seat, stream } => self.note(seat, Note::Abandoned(stream)),
        }
    }

    #[tactic(auto, unfolding(crate::specs::Effects::after_step))]
    fn draw(&mut self, seat: u32, stream: u64) -> Result<(), AllocError>
        requires { stream < 2 ^ 62 }
        ensures done { OnOk result (self.new ≡ after_step self.old (Step.Draw seat stream)) }
        ensures kept { OnErr result (self.new ≡ self.old) }
    {
        self.note(seat, Note::Drawn(stream))?;
        self.next = stream + 1;
        Ok(())
    }

    #[tactic(auto, unfolding(crate::specs::Effects::after_step))]
    fn open_next(&mut self, seat: u32, count: u32)
        requires { Enabled self.old (Step.Open seat count) }
        ensures { self.new ≡ after_step self.old (Step.Open seat count) }
    {
        // Fewer segments are open than the larger side has.
        let _most = self.shape.out_segments.max(self.shape.back_segments);
        self.set_opened(seat, count + 1);
    }

    fn get_item(&mut self, seat: u32, queue: u32, item: u32)
        ensures { self.new
            ≡ with_item queue item
            (record (item_of self.old queue item) { whereabouts = Whereabouts.WithSeat seat })
            (without_first_free queue self.old) }
    {
        let old = self.item_of(queue, item);
        self.drop_first_free(queue);
        let held = Item {
            whereabouts: Whereabouts::WithSeat(seat),
            ..old
        };
        self.set_item(queue, item, held);
    }

    fn pop(&mut self, seat: u32, queue: u32, item: u32)
        ensures { self.new
            ≡ with_item queue item
            (record (item_of self.old queue item) { whereabouts = Whereabouts.WithSeat seat })
            (without_first_in_line queue self.old) }
    {
        let old = self.item_of(queue, item);
        self.drop_first_in_line(queue);
        let held = Item {
            whereabouts: Whereabouts::WithSeat(seat),
            ..old
        };
        self.set_item(queue, item, held);
    }

    fn push(&mut self, queue: u32, item: u32, place: u64) -> Result<(), AllocError>
        requires { place < 2 ^ 63 }
        ensures done { OnOk result (self.new
            ≡ with_item queue item
            (record (item_of self.old queue item) { whereabouts = Whereabouts.InLine })
            (with_in_line queue (record { place = place; item = item }) self.old)) }
        ensures kept { OnErr result (self.new ≡ self.old) }
    {
        let old = self.item_of(queue, item);
        self.append_in_line(queue, Entry { place, item })?;
        let pushed = Item {
            whereabouts: Whereabouts::InLine,
            ..old
        };
        self.set_item(queue, item, pushed);
        Ok(())
    }

    fn give_item(&mut self, queue: u32, item: u32, place: u64) -> Result<(), AllocError>
        requires { place < 2 ^ 63 }
        ensures done { OnOk result (self.new
            ≡ with_item queue item
            (record (item_of self.old queue item) { whereabouts = Whereabouts.InFreeList })
            (with_free queue (record { place = place; item = item }) self.old)) }
        ensures kept { OnErr result (self.new ≡ self.old) }
    {
        let old = self.item_of(queue, item);
        self.append_free(queue, Entry { place, item })?;
        let given = Item {
            whereabouts: Whereabouts::InFreeList,
            ..old
        };
        self.set_item(queue, item, given);
        Ok(())
    }

    #[tactic(auto, unfolding(crate::specs::Effects::after_step))]
    fn arm(&mut self, seat: u32, queue: u32, item: u32, stream: u64) -> Result<(), AllocError>
        ensures done { OnOk result (self.new
            ≡ after_step self.old (Step.Arm seat queue item stream)) }
        ensures kept { OnErr result (self.new ≡ self.old) }
    {
        let old = self.item_of(queue, item);
        self.note(seat, armed_note(queue, stream, &old))?;
        let armed = Item {
            tag: stream,
            stream,
            ..old
        };
        self.set_item(queue, item, armed);
        self.set_run_owner(old.run, Owner::Message(queue, item));
        Ok(())
    }

    #[tactic(auto, unfolding(crate::specs::Effects::after_step))]
    fn settle(&mut self, seat: u32, queue: u32, item: u32, stream: u64) -> Result<(), AllocError>
        ensures done { OnOk result (self.new
            ≡ after_step self.old (Step.Settle seat queue item stream)) }
        ensures kept { OnErr result (self.new ≡ self.old) }
    {
        let old = self.item_of(queue, item);
        let is_engine = self.role_of(seat).is_engine();
        self.note(seat, settled_note(is_engine, queue, stream, &old))?;
        self.set_item(queue, item, Item { tag: 0, ..old });
        self.set_run_owner(old.run, Owner::Seat(seat));
        Ok(())
    }
}

fn armed_note(queue: u32, stream: u64, item: &Item) -> Note
    ensures { result ≡ armed_note queue stream item.now }
{
    if queue == 0 {
        Note::Posted(stream)
    } else {
        Note::Sent(part_of(stream, item))
    }
}

fn settled_note(is_engine: bool, queue: u32, stream: u64, item: &Item) -> Note
    ensures { result ≡ settled_note is_engine queue stream item.now }
{
    match (is_engine, queue) {
        (true, 0) => Note::Cancelled(stream),
        (true, _) => Note::Received(part_of(stream, item)),
        (false, 0) => Note::Taken(stream),
        (false, _) => Note::Closed(stream),
    }
}
