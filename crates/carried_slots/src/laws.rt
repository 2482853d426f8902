//! Laws on acts and on carried slots. Each function does nothing: its contract is the law.
ghost use Rattle.std.specs.Prelude.{ℕ};
ghost use Rattle.carried_slots.specs.FreeSlots.{FreeBecomeLaw, FreeFirstLaw, FreeStayLaw, FreeTakenLaw, SlotGainedLaw, SlotGivenLaw};
ghost use Rattle.carried_slots.specs.RunLaws.{ApartLaw, GatheringLaw, RightGatheringLaw, RunGivenLaw, RunStaysLaw};
ghost use Rattle.carried_slots.specs.SlotLaws.{BecomesLaw, BroughtLaw, ContentLaw, EmptyGoneLaw, KnownLaw, RunGoneLaw, RunTakenLaw, SameValuesLaw, TakenLaw, WithoutLaw};

/// What a seat carries becomes any of its slots, in any order: the others go home with their values, and no other slot of the
/// table moves.
pub fn slots_become_others<S>()
    ensures { BecomesLaw S }
{}

/// Slots that are at home come in front of what a seat carries, and no other slot of the table moves.
pub fn slots_are_taken<S>()
    ensures { TakenLaw S }
{}

/// A slot that is carried has a value, and one that isn't has none.
pub fn a_carried_slot_has_a_value<S>()
    ensures { ContentLaw S }
{}

/// Without one slot the others have the values that they had.
pub fn a_slot_is_without<S>()
    ensures { WithoutLaw S }
{}

/// A slot comes to the front, and each has the value that it had.
pub fn a_slot_comes_to_the_front<S>()
    ensures { BroughtLaw S }
{}

/// Without the slots of a run the others have the values that they had.
pub fn a_run_is_without<S>()
    ensures { RunGoneLaw S }
{}

/// With the slots of a run each of these has its value, and the others have the values that they had.
pub fn a_run_is_taken<S>()
    ensures { RunTakenLaw S }
{}

/// An empty slot goes, and the slots with values stay as they are.
pub fn an_empty_slot_goes<T>()
    ensures { EmptyGoneLaw T }
{}

/// The slots with values and the weight of the empty ones tell what each slot has.
pub fn a_slot_is_known<T>()
    ensures { KnownLaw T }
{}

/// The slots of a run have one list of values, so that what is read in order is what was filled in order.
pub fn slots_have_one_list_of_values<T>()
    ensures { SameValuesLaw T }
{}

/// Slots of a run that are at home with values are one list of values, and come in front of what a seat carries by one act: so
/// one exchange on a tag takes all slots of an armed run.
pub fn a_run_is_gathered<T>()
    ensures { GatheringLaw T }
{}

/// Which values are right for which places of a run.
pub trait RightValues<T> {
    ghost right: { ℕ → T → Type 0 };
}

/// What is right at home at each place of a run is right in the list that is gathered.
pub fn what_is_gathered_is_right<T, J: RightValues<T>>()
    ensures { RightGatheringLaw T J.right }
{}

/// The slots of a run go home with their values by one act: so one store of a tag gives all slots of a run.
pub fn a_run_goes_home<T>()
    ensures { RunGivenLaw T }
{}

/// The slots of free chunks are at home and empty: at first, where no chunk becomes free and none of these slots moves, and where
/// a seat takes or gives slots of other chunks.
pub fn free_slots_stay<T>()
    ensures first { FreeFirstLaw T }
    ensures stay { FreeStayLaw T }
    ensures turned { FreeBecomeLaw T }
    ensures taken { FreeTakenLaw T }
{}

/// A free chunk is gained with its empty slot, and no other slot moves.
pub fn a_chunk_comes_with_its_slot<T>()
    ensures { SlotGainedLaw T }
{}

/// A chunk is given back with its empty slot, and no other slot moves.
pub fn a_chunk_goes_with_its_slot<T>()
    ensures { SlotGivenLaw T }
{}

/// A run that a seat carries has no slot in common with one of which it carries nothing.
pub fn runs_lie_apart<S>()
    ensures { ApartLaw S }
{}

/// Where a seat fills, reads, gains or gives back one run, its other runs have what they had.
pub fn another_run_stays<T>()
    ensures { RunStaysLaw T }
{}
