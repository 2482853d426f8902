//! What steps do to the parts of the rule. Each function does nothing: its contract is the law.
ghost use Rattle.fabric_rule.specs.Consequences.{AloneLaw, ArmedBackLaw, ArmedOnceLaw, ArmedRecordLaw, ClosedGoneLaw, CoreIsLaw, OneRecordLaw, PostedRecordLaw, RingsDistinctLaw};
ghost use Rattle.fabric_rule.specs.FrameLaws.{StreamsArmLaw, ChunksMoveLaw, ChunksStayLaw, CountedStayLaw, InWorkStayLaw, ItemMovesLaw, ItemsStayLaw, KeptStayLaw, ListsNotedLaw, ListsStayLaw, ListsThereLaw, NotedSameLaw, PostsStayLaw, RecordsStayLaw, RecordsThereLaw, StreamsStayLaw, WorksStayLaw, FilledStayLaw, OfEachLaw, OfFabricStayLaw};
ghost use Rattle.std.specs.Prelude.{ℕ, List};
ghost use Rattle.fabric_rule.specs.Hands.{ChunkInHandLaw, HandsOwnedLaw, InHandLaw};
ghost use Rattle.fabric_rule.specs.Looks.{LoadLaw};
ghost use Rattle.fabric_rule.specs.Keyed.{KeyedJoin, KeyedSplit, KeyedStep};
ghost use Rattle.fabric_rule.specs.Parts.{IsOfFabric, ShowsLists};
ghost use Rattle.fabric_rule.specs.Passing.{SlotsComeLaw, SlotsGoLaw};
ghost use Rattle.fabric_rule.specs.Settling.{AbandonLaw, CancelLaw, CloseLaw, NothingReceivedLaw, ReceiveLaw, UnpushedLaw};
ghost use Rattle.fabric_rule.specs.Sending.{PushPartLaw, SendLaw};
ghost use Rattle.fabric_rule.specs.Seats.{AccountLaw, JoinLaw, OpensLaw, SplitLaw};
ghost use Rattle.fabric_rule.specs.Steps.{ArmLineLaw, GetItemLaw, GiveItemLaw, HelpLaw, ItemLookLaw, LookLaw, PopLaw, PushLineLaw, TakeLaw};
ghost use Rattle.fabric_rule.specs.Claiming.{ClaimLaw, ReleaseLaw};
ghost use Rattle.fabric_rule.specs.Drawing.{DrawLaw};
ghost use Rattle.fabric_rule.specs.Reordering.{BringLaw};
ghost use Rattle.fabric_rule.specs.Segmenting.{OpenLaw};
ghost use Rattle.fabric_rule.specs.Storing.{StorePartLaw, StoreRunLaw};
ghost use Rattle.fabric_rule.specs.Views.{lists_at};
ghost use Rattle.unit_model.specs.declared.machine.Core.{Core};

use unit_types::Handlers;

/// What views hold stays what the machine has with seats, also where one item or the chunks of a run change hands.
pub fn what_is_held_is_shown()
    ensures items { ItemsStayLaw }
    ensures item { ItemMovesLaw }
    ensures chunks { ChunksStayLaw }
    ensures run { ChunksMoveLaw }
{}

/// What views say of lists and works stays true where no seat's lists change.
pub fn lists_and_works_stay()
    ensures posts { PostsStayLaw }
    ensures streams { StreamsStayLaw }
    ensures records { RecordsStayLaw }
    ensures records_there { RecordsThereLaw }
    ensures lists { ListsStayLaw }
    ensures there { ListsThereLaw }
    ensures works { WorksStayLaw }
    ensures counted { CountedStayLaw }
    ensures in_work { InWorkStayLaw }
    ensures kept { KeptStayLaw }
    ensures fabric { OfFabricStayLaw }
{}

/// What one view alone says of a key stays true at a step, a split and a join: here of the lists of a seat number.
pub fn what_one_view_says_stays()
    ensures step { (core : Core) (core' : Core) (popped : ℕ → List ℕ) (popped' : ℕ → List ℕ)
        → KeyedStep lists_at (ShowsLists core popped) (ShowsLists core' popped') }
    ensures split { (core : Core) (popped : ℕ → List ℕ)
        → KeyedSplit lists_at (ShowsLists core popped) }
    ensures join { (core : Core) (popped : ℕ → List ℕ)
        → KeyedJoin lists_at (ShowsLists core popped) }
    ensures each { (core : Core) (core' : Core)
        → OfEachLaw (IsOfFabric core) (IsOfFabric core') }
{}

/// Where a seat's lists get a note, the main view of its number gets it too, and what is said of other streams stays. An item that
/// is armed has the stream of its new arm.
pub fn lists_are_noted()
    ensures lists { ListsNotedLaw }
    ensures others { NotedSameLaw }
    ensures arms { StreamsArmLaw }
{}

/// Slots pass with tags: those of a run come with a settle, with the parcels of its message, and go with an arm. Where they stay,
/// they hold what they held.
pub fn slots_pass_with_tags<H: Handlers>()
    ensures come { SlotsComeLaw H }
    ensures go { SlotsGoLaw H }
    ensures stay { FilledStayLaw H }
{}

/// A load of any word is no step of the machine.
pub fn a_load_is_no_step<H: Handlers>()
    ensures { LoadLaw H }
{}

/// A look at a ring is no step of the machine.
pub fn a_look_is_no_step<H: Handlers>()
    ensures { LookLaw H }
{}

/// A look at an item's word, or a lost exchange of its tag, is no step of the machine.
pub fn a_look_at_an_item_is_no_step<H: Handlers>()
    ensures { ItemLookLaw H }
{}

/// The exchange of a line's head by a seat that empties it is Pop, where it won.
pub fn a_pop_is_a_step<H: Handlers>()
    ensures { PopLaw H }
{}

/// A tail that is moved on to the end of its line is no step of the machine.
pub fn a_helped_tail_is_no_step<H: Handlers>()
    ensures { HelpLaw H }
{}

/// An item that a view has is in the hand of its seat, and each item is in a ring, kept, or with one view. A chunk that a view has
/// is its seat's, and no other view has it.
pub fn each_item_is_in_one_place()
    ensures hand { InHandLaw }
    ensures owned { HandsOwnedLaw }
    ensures chunk { ChunkInHandLaw }
{}

/// The exchange of a line item's tag by the worker that holds it is Settle, where it won: the stream is taken, and all slots of the
/// run come with it, with the record under which its poster, an engine, posted the stream.
pub fn a_take_is_a_step<H: Handlers>()
    ensures { TakeLaw H }
{}

/// The store of a line item's tag by the engine that got the item and drew the stream is Arm: the stream is posted, and all slots of
/// the run go home with it, with the record of the request, which is the stream's from then on.
pub fn an_arm_is_a_step<H: Handlers>()
    ensures { ArmLineLaw H }
{}

/// The items in a ring are the queue's, and each stands in it once.
pub fn rings_have_each_item_once<H: Handlers>()
    ensures { RingsDistinctLaw H }
{}

/// The core that the rule shows is computed from words and views.
pub fn the_core_is_that_of_words_and_views<H: Handlers>()
    ensures { CoreIsLaw H }
{}

/// Of each posted stream a view has the record, all views the same one, and an armed line item has it in its run's slots.
pub fn each_stream_has_one_record<H: Handlers>()
    ensures posted { PostedRecordLaw H }
    ensures one { OneRecordLaw H }
    ensures armed { ArmedRecordLaw H }
{}

/// An armed item of a back queue is armed by a worker and not pushed, in the line, or popped by the
/// queue's engine and not settled. Of one stream at most one is armed and not pushed, and of a
/// closed one exactly one was taken back.
pub fn an_armed_part_is_in_one_place()
    ensures one { ArmedBackLaw }
    ensures alone { AloneLaw }
    ensures once { ArmedOnceLaw }
    ensures gone { ClosedGoneLaw }
{}

/// The exchange of an entry at the end of a ring is Push of a request, or GiveItem, where it won.
pub fn an_entry_is_a_step<H: Handlers>()
    ensures push { PushLineLaw H }
    ensures give { GiveItemLaw H }
{}

/// The exchange of a free ring's head by a seat that fills the queue is GetItem, where it won.
pub fn a_got_item_is_a_step<H: Handlers>()
    ensures { GetItemLaw H }
{}

/// The exchange of a line item's tag by the engine that posted the stream with it is Settle, where
/// it won: the stream is cancelled, and all slots of the run come with it, with the record under
/// which it was posted. An item that its poster has in hand has the stream.
pub fn a_cancel_is_a_step<H: Handlers>()
    ensures won { CancelLaw H }
    ensures unpushed { UnpushedLaw H }
{}

/// Where that exchange found another tag it is Abandon: a worker took the stream. A stream that isn't
/// posted yet has no received part, so who posts one knows that its last part hasn't come.
pub fn a_lost_cancel_is_a_step<H: Handlers>()
    ensures lost { AbandonLaw H }
    ensures nothing { NothingReceivedLaw H }
{}

/// The exchange of the tag of the item that an engine popped is Settle, and can't lose: the next
/// part of the stream is received, and all slots of the run come with it, with that part's pieces.
pub fn a_received_part_is_a_step<H: Handlers>()
    ensures { ReceiveLaw H }
{}

/// The exchange of the tag of the item that a worker armed and hasn't pushed is Settle, and can't
/// lose: the stream is closed, and all slots of the run come with it, with the part's pieces.
pub fn a_close_is_a_step<H: Handlers>()
    ensures { CloseLaw H }
{}

/// The store of a back item's tag by the worker that got the item and took the stream is Arm: the
/// part is sent, and all slots of the run go home with it, with all its pieces. The exchange of that
/// item's entry at the end of the line is Push, where it won.
pub fn a_sent_part_is_a_step<H: Handlers>()
    ensures arm { SendLaw H }
    ensures push { PushPartLaw H }
{}

/// The rule holds of a table that was just made, and its core is that of the shape as it begins.
pub fn a_table_begins<H: Handlers>()
    ensures { OpensLaw H }
{}

/// Where a main seat's account changes, a seat is split, or two are joined, the rule holds with the same core.
pub fn seats_come_and_go<H: Handlers>()
    ensures account { AccountLaw H }
    ensures split { SplitLaw H }
    ensures join { JoinLaw H }
{}

/// The store of the run or the part word of an item that a seat got and hasn't armed is SetRun,
/// where it has the run's chunks, and SetPart.
pub fn a_written_item_is_a_step<H: Handlers>()
    ensures run { StoreRunLaw H }
    ensures part { StorePartLaw H }
{}

/// The exchange of the next stream by an engine's main seat is Draw, where it won: its lists and its
/// works grow by the stream.
pub fn a_draw_is_a_step<H: Handlers>()
    ensures { DrawLaw H }
{}

/// A bit of the map that a seat with a work clears is Claim, where it was set, and the chunk's
/// empty slot comes with it. A bit that a seat sets of a chunk that it has with an empty slot is
/// Release, and the slot goes home.
pub fn a_bit_is_a_step<H: Handlers>()
    ensures claim { ClaimLaw H }
    ensures release { ReleaseLaw H }
{}

/// The exchange of the number of open segments by a seat of their side is Open, where it won: all
/// chunks of the new segment are free.
pub fn an_opening_is_a_step<H: Handlers>()
    ensures { OpenLaw H }
{}

/// A load at which the slots that a seat carries come into another order is no step of the machine.
pub fn slots_turn_at_no_step<H: Handlers>()
    ensures { BringLaw H }
{}
