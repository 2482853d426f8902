//! Laws of the machine: of sound cores, of who holds what, and of streams and parts. Each function does nothing: its
//! contract is the law.
ghost use Rattle.std.specs.Prelude.{List, ◌↔◌};
ghost use Rattle.unit_model.specs.AtRest.{LengthsAtRest};
ghost use Rattle.unit_model.specs.ByRole.{ItemsByRoleAtFirst, ItemsByRoleStay, SeatsByRoleAtFirst, SeatsByRoleStay};
ghost use Rattle.unit_model.specs.CountLaws.{CountsAddUp, CountsAreThePoints, CountsAtFirst, StepKeepsParts, StepKeepsStreams};
ghost use Rattle.unit_model.specs.Effects.{after_step};
ghost use Rattle.unit_model.specs.Holding.{HasNoStreamZero, IsHeldRight};
ghost use Rattle.unit_model.specs.Opening.{opened_core};
ghost use Rattle.unit_model.specs.OwnLists.{HolderSentLaw, OwnSendLaw, WasPostedLaw, WasTakenLaw};
ghost use Rattle.unit_model.specs.PartOrder.{ArmInOrder, CloseInOrder, InOrderAtFirst, LastEndsReceived, OthersInOrder, PopInOrder, PoppedIsNext, PushInOrder, ReceivedInOrder, SettleInOrder};
ghost use Rattle.unit_model.specs.Running.{AllEnabled, Enabled, after_steps};
ghost use Rattle.unit_model.specs.Shapes.{IsValid};
ghost use Rattle.unit_model.specs.Sound.{AllChunksAreFree, HasNoChunkWithSeats, HasNoTag, HasSoundHoldings, NamesWhatIsThere};
ghost use Rattle.unit_model.specs.Soundness.{EachPointAfterEveryRun, NothingEndsTwice, RunStaysSound, SoundAtFirst, SoundIsEachPoint, StepStaysSound};
ghost use Rattle.unit_model.specs.declared.machine.Core.{Core};
ghost use Rattle.unit_model.specs.declared.machine.Step.{Step};
ghost use Rattle.unit_model.specs.declared.shape.Shape.{Shape};

// ---- sound cores

/// The core of a valid shape is sound as it begins.
pub fn a_core_begins_sound()
    ensures { SoundAtFirst }
{}

/// An enabled step leaves a sound core sound.
pub fn a_step_stays_sound()
    ensures { StepStaysSound }
{}

/// So does a list of steps of which each is enabled in its turn.
pub fn a_run_stays_sound()
    ensures { RunStaysSound }
{}

/// That a core is sound says each point that is promised of it, and the points say no less.
pub fn sound_is_each_point()
    ensures { SoundIsEachPoint }
{}

/// From the core of a valid shape as it begins, each point holds after every list of steps of which each is enabled in its
/// turn.
pub fn each_point_holds_after_every_run()
    ensures { EachPointAfterEveryRun }
{}

/// There no stream is both taken and cancelled, nor either twice; each part of a stream is received at most once, and at
/// most one last part of it.
pub fn nothing_ends_twice()
    ensures { NothingEndsTwice }
{}

// ---- who holds what

/// In the core of a valid shape as it begins all is held right.
pub fn all_is_held_right_at_first()
    ensures { (shape : Shape) → IsValid shape → IsHeldRight (opened_core shape) }
{}

/// An enabled step leaves all held right.
pub fn each_step_holds_right()
    ensures { (core : Core) (step : Step)
        → IsHeldRight core → Enabled core step → IsHeldRight (after_step core step) }
{}

/// So does a list of steps of which each is enabled in its turn.
pub fn each_run_holds_right()
    ensures { (core : Core) (steps : List Step)
        → IsHeldRight core → AllEnabled core steps → IsHeldRight (after_steps core steps) }
{}

/// That all is held right says each point on items and chunks, that what the core names is there, and that no stream is 0;
/// and these together say no less.
pub fn held_right_is_each_point()
    ensures { (core : Core)
        → IsHeldRight core
        ↔ (HasSoundHoldings core × NamesWhatIsThere core × HasNoStreamZero core) }
{}

/// Where no item has a tag and no seat has a chunk, all chunks are free.
pub fn chunks_are_free_at_rest()
    ensures { (core : Core)
        → IsHeldRight core → HasNoTag core → HasNoChunkWithSeats core → AllChunksAreFree core }
{}

/// A queue each of whose items is in its free list has an empty line, and a free list as long as there are items.
pub fn lists_are_whole_at_rest()
    ensures { LengthsAtRest }
{}

/// An item in the line of a back queue has a tag; a tagged item of queue 0 that an engine holds was posted by it; an engine
/// holds items of its own back queue alone. An engine's lists have none of a worker's entries, and the other way round. So it
/// is at first, and each enabled step keeps it.
pub fn each_role_has_its_own()
    ensures items_at_first { ItemsByRoleAtFirst }
    ensures items_stay { ItemsByRoleStay }
    ensures seats_at_first { SeatsByRoleAtFirst }
    ensures seats_stay { SeatsByRoleStay }
{}

/// What a seat can show of a sound core from its own lists: that a stream which it posted was taken, who posted a tagged item
/// of queue 0, that it may send a part, and that it sent the part which it holds.
pub fn own_lists_show_the_rest()
    ensures taken { WasTakenLaw }
    ensures posted { WasPostedLaw }
    ensures sends { OwnSendLaw }
    ensures sent { HolderSentLaw }
{}

// ---- streams and parts

/// The core of any shape as it begins has the counts of streams and parts.
pub fn the_counts_hold_at_first()
    ensures { CountsAtFirst }
{}

/// An enabled step keeps the counts of streams.
pub fn a_step_keeps_streams()
    ensures { StepKeepsStreams }
{}

/// An enabled step keeps the counts of parts, where the core is held right.
pub fn a_step_keeps_parts()
    ensures { StepKeepsParts }
{}

/// Where the core is held right, the counts say each point that is promised of streams and parts, and the points say the
/// counts.
pub fn the_counts_are_the_points()
    ensures { CountsAreThePoints }
{}

/// Each stream that was drawn is one of accepted, cancelled, abandoned, refused and left open, and of no two; so their
/// numbers add up to that of the drawn ones.
pub fn the_account_is_whole()
    ensures { CountsAddUp }
{}

/// The parts of a stream that its engine received, popped and not settled, in its line, and armed and not pushed are, joined,
/// those that the worker sent, in their order, but for at most one last part that was taken back. An engine has at most one
/// popped part that it hasn't settled. So it is at first, and each enabled step keeps it where an engine pops only when it has
/// settled what it popped; what is popped and armed changes with Arm, Push, Pop and Settle.
pub fn parts_stay_in_order()
    ensures at_first { InOrderAtFirst }
    ensures arm { ArmInOrder }
    ensures push { PushInOrder }
    ensures pop { PopInOrder }
    ensures settle { SettleInOrder }
    ensures close { CloseInOrder }
    ensures others { OthersInOrder }
{}

/// So an engine receives the parts of a stream as 0, 1, 2 and so on, each as it was sent, and the one that it has popped is
/// the next. They end with the last: a received part that is the last is the final one, and nothing comes behind it.
pub fn parts_are_received_in_order()
    ensures received { ReceivedInOrder }
    ensures last { LastEndsReceived }
    ensures popped { PoppedIsNext }
{}
