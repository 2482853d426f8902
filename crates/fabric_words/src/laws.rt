//! Laws of the words of a fabric: each change of a word is a step of the machine, or none. Each function does nothing: its
//! contract is the law. `specs/Makes.antt` says which word each step changes, and `specs/Needs.antt` what a seat needs for it.
ghost use Rattle.fabric_words.specs.CoreOf.{EachHasHoldings, ShownIsCoreOf};
ghost use Rattle.fabric_words.specs.Laws.{AbandonLaw, ArmGivesRun, ArmLaw, ClaimLaw, DrawLaw, GetItemLaw, GiveItemLaw, HelpLaw, OpenLaw, OpenedLaw, PopLaw, PushLaw, ReleaseLaw, SetPartLaw, SetRunLaw, SettleGivesRun, SettleLaw, StayLaw};
ghost use Rattle.fabric_words.specs.Offsets.{ApartLaw, MapLaw, SetWordLaw, SharedLaw, WithinLaw};
ghost use Rattle.fabric_words.specs.OwnWords.{PosterIsShown, RingIsLeft, TakenIsShown};

// ---- steps

/// Draw: the next stream rises by one.
pub fn a_draw_is_a_step()
    ensures { DrawLaw }
{}

/// Claim: the bit of a chunk, which was set, is cleared.
pub fn a_claim_is_a_step()
    ensures { ClaimLaw }
{}

/// Release: the bit of a chunk is set.
pub fn a_release_is_a_step()
    ensures { ReleaseLaw }
{}

/// Open: the number of open segments of the seat's side rises by one.
pub fn an_opening_is_a_step()
    ensures { OpenLaw }
{}

/// GetItem: the head of a free ring moves on.
pub fn a_get_is_a_step()
    ensures { GetItemLaw }
{}

/// SetRun: the run word of an item is that of the run.
pub fn a_run_is_a_step()
    ensures { SetRunLaw }
{}

/// SetPart: the part word of an item is the part.
pub fn a_part_is_a_step()
    ensures { SetPartLaw }
{}

/// Arm: the tag of an item is the stream. The chunks of its run are the message's from then on.
pub fn an_arm_is_a_step()
    ensures { ArmLaw }
{}

/// Push: the entry of an item stands at the next place of a line.
pub fn a_push_is_a_step()
    ensures { PushLaw }
{}

/// Pop: the head of a line moves on.
pub fn a_pop_is_a_step()
    ensures { PopLaw }
{}

/// Settle: the tag of an item is 0. The chunks of its run are the seat's from then on.
pub fn a_settle_is_a_step()
    ensures { SettleLaw }
{}

/// GiveItem: the entry of an item stands at the next place of a free ring.
pub fn a_give_is_a_step()
    ensures { GiveItemLaw }
{}

/// Abandon: no word changes.
pub fn an_abandon_is_a_step()
    ensures { AbandonLaw }
{}

/// An Arm gives the chunks of the item's run from the seat to the message, and a Settle from the message to the seat. No bit of
/// the map changes at either.
pub fn runs_change_hands()
    ensures arm { ArmGivesRun }
    ensures settle { SettleGivesRun }
{}

// ---- no steps

/// Where no word changes, as after a load or an exchange that was lost, the same core is shown.
pub fn a_look_is_no_step()
    ensures { StayLaw }
{}

/// Where a tail moves on past an entry with its cycle, the same core is shown.
pub fn a_helped_tail_is_no_step()
    ensures { HelpLaw }
{}

// ---- at first, and all of it

/// The words of a fabric that was just made show the core of its shape as it begins.
pub fn opened_words_show_the_opened_core()
    ensures { OpenedLaw }
{}

/// A sound core that words show is the one that is computed from them and from what they don't show: where its seats hold an
/// item or a chunk, the streams of items without a tag, and what the seats have done. Each core has such holdings.
pub fn words_and_holdings_are_the_core()
    ensures shown { ShownIsCoreOf }
    ensures own { EachHasHoldings }
{}

/// A stream that a seat posted and didn't cancel, and that no tag of queue 0 is, was taken. The part word of an item of queue
/// 0 with a tag is the seat that posted it.
pub fn own_words_show_the_rest()
    ensures taken { TakenIsShown }
    ensures poster { PosterIsShown }
{}

/// A ring of which no word is set stays as it was, with all notes on it.
pub fn rings_are_left()
    ensures { RingIsLeft }
{}

// ---- the layout

/// Words that are there stand within the list from word 16 on, no two in one place; so a word that is set changes no other. A
/// head, a tail, the next stream and a number of open segments have 16 words for themselves each, and so have the map words of
/// a segment.
pub fn words_stand_apart()
    ensures within { WithinLaw }
    ensures apart { ApartLaw }
    ensures shared { SharedLaw }
    ensures map { MapLaw }
    ensures set { SetWordLaw }
{}
