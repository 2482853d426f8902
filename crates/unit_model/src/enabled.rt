//! Which condition of a step is the first that isn't met.
ghost use Rattle.std.specs.Prelude.{if◌then◌else◌, ◌≡◌, ◌∷◌, [], ◌+◌, ◌==◌, Option};
ghost use Rattle.unit_model.specs.Conditions.{conditions_by, first_of, first_unmet_by, is_engine, is_worker};

use crate::conditions::{
    chunk_number, first_of, fits_side, has_owner, has_tag, is_either, is_engine,
    is_first_free_item, is_first_free_place, is_first_line_item, is_first_line_place,
    is_in_segments, is_next_free_place, is_next_line_place, is_next_stream, is_open, is_tagged,
    is_worker, may_empty, may_fill, may_open, may_pop, may_use, run_has_owner, seat_holds,
    side_end, side_start,
};
use crate::looks::Looks;
use crate::machine::{Step, Unmet};

/// The first condition of the step that isn't met, where the looks tell the eleventh.
#[tactic(auto, unfolding(crate::specs::Conditions::conditions_by))]
pub fn first_unmet<L: Looks>(looks: &L, step: &Step) -> Option<Unmet>
    ensures { result ≡ first_unmet_by (L.core looks.now) (L.eleventh looks.now) step.now }
{
    match *step {
        Step::Draw { seat, stream } => first_of(&[
            is_engine(looks, seat),
            is_next_stream(looks, stream),
        ]),
        Step::Claim {
            seat,
            segment,
            chunk,
        } => first_of_claim(looks, seat, segment, chunk),
        Step::Release {
            seat,
            segment,
            chunk,
        } => first_of_release(looks, seat, segment, chunk),
        Step::Open { seat, count } => first_of(&[
            is_either(looks, seat),
            may_open(looks, seat, count),
        ]),
        Step::GetItem {
            seat,
            queue,
            item,
            place,
        } => first_of(&[
            is_either(looks, seat),
            may_fill(looks, seat, queue, item),
            is_first_free_place(looks, queue, place),
            is_first_free_item(looks, queue, item),
        ]),
        Step::SetRun {
            seat,
            queue,
            item,
            run,
        } => first_of(&[
            is_either(looks, seat),
            may_fill(looks, seat, queue, item),
            seat_holds(looks, seat, queue, item),
            has_tag(looks, queue, item, 0),
            fits_side(looks, seat, run),
            run_has_owner(looks, 1 + seat as u64, run),
        ]),
        Step::SetPart {
            seat,
            queue,
            item,
            ..
        } => first_of(&[
            is_either(looks, seat),
            may_fill(looks, seat, queue, item),
            seat_holds(looks, seat, queue, item),
            has_tag(looks, queue, item, 0),
        ]),
        Step::Arm {
            seat,
            queue,
            item,
            stream,
        } => first_of_arm(looks, seat, queue, item, stream),
        Step::Push {
            seat,
            queue,
            item,
            place,
        } => first_of(&[
            is_either(looks, seat),
            may_fill(looks, seat, queue, item),
            seat_holds(looks, seat, queue, item),
            is_tagged(looks, queue, item),
            is_next_line_place(looks, queue, place),
        ]),
        Step::Pop {
            seat,
            queue,
            item,
            place,
        } => first_of(&[
            may_pop(looks, seat, queue),
            may_empty(looks, seat, queue, item),
            is_first_line_place(looks, queue, place),
            is_first_line_item(looks, queue, item),
        ]),
        Step::Settle {
            seat,
            queue,
            item,
            stream,
        } => first_of(&[
            is_either(looks, seat),
            may_use(looks, queue, item),
            has_tag(looks, queue, item, stream),
            looks.may_settle(seat, queue, item, stream),
        ]),
        Step::GiveItem {
            seat,
            queue,
            item,
            place,
        } => first_of(&[
            is_either(looks, seat),
            may_use(looks, queue, item),
            seat_holds(looks, seat, queue, item),
            has_tag(looks, queue, item, 0),
            is_next_free_place(looks, queue, place),
        ]),
        Step::Abandon { seat, stream } => first_of(&[
            is_engine(looks, seat),
            looks.may_abandon(seat, stream),
        ]),
    }
}

#[tactic(auto, unfolding(crate::specs::Conditions::conditions_by))]
fn first_of_claim<L: Looks>(looks: &L, seat: u32, segment: u32, chunk: u32) -> Option<Unmet>
    ensures { result
        ≡ first_unmet_by (L.core looks.now) (L.eleventh looks.now) (Step.Claim seat segment chunk) }
{
    first_of(&[
        is_either(looks, seat),
        is_in_segments(
            side_start(looks, seat),
            side_end(looks, seat),
            segment,
            chunk,
        ),
        is_open(looks, seat, segment),
        has_owner(looks, 0, chunk_number(segment, chunk)),
    ])
}

#[tactic(auto, unfolding(crate::specs::Conditions::conditions_by))]
fn first_of_release<L: Looks>(looks: &L, seat: u32, segment: u32, chunk: u32) -> Option<Unmet>
    ensures { result
        ≡ first_unmet_by (L.core looks.now) (L.eleventh looks.now)
        (Step.Release seat segment chunk) }
{
    let shape = looks.shape();
    let segments = shape.out_segments as u64 + shape.back_segments as u64;
    first_of(&[
        is_either(looks, seat),
        is_in_segments(0, segments, segment, chunk),
        has_owner(looks, 1 + seat as u64, chunk_number(segment, chunk)),
    ])
}

#[tactic(auto, unfolding(crate::specs::Conditions::conditions_by))]
fn first_of_arm<L: Looks>(looks: &L, seat: u32, queue: u32, item: u32, stream: u64) -> Option<Unmet>
    ensures { result
        ≡ first_unmet_by (L.core looks.now) (L.eleventh looks.now)
        (Step.Arm seat queue item stream) }
{
    let run = looks.item_of(queue, item).run;
    first_of(&[
        is_either(looks, seat),
        may_fill(looks, seat, queue, item),
        seat_holds(looks, seat, queue, item),
        has_tag(looks, queue, item, 0),
        fits_side(looks, seat, run),
        run_has_owner(looks, 1 + seat as u64, run),
        looks.may_arm(seat, queue, item, stream),
    ])
}
