//! What steps do to the parts of a rule of queues, over views of any type. Each function does nothing: its contract is the law.
ghost use Rattle.std.specs.Prelude.{ℕ};
ghost use Rattle.app_queue.specs.ArmLaws.{PlacedArmLaw, PlacedGetLaw, PlacedStayLaw};
ghost use Rattle.app_queue.specs.FrameLaws.{CountedArmLaw, CountedStayLaw, CountedWinLaw, FreeArmLaw, FreeLinesStayLaw, FreePutLaw, FreeStayLaw, FreeTakeLaw, HeldIsOutLaw, HistoriesStayLaw, HistoryStepLaw, ItemsMoveLaw, ItemsStayLaw, NotedSetLaw, NotedStayLaw, RingStepLaw, RingsStayLaw, TagsKnownOneLaw, TagsKnownSetLaw, TagsKnownStayLaw, TagsKnownWinLaw, WordsKnownOneLaw, WordsKnownSetLaw, WordsKnownStayLaw};

/// What a view says of an item's word: of the queue, the view and the item, that the word is so much.
pub trait Saying<V> {
    ghost says: { ℕ → V → ℕ → ℕ → Type 0 };
}

/// At which place a view got an item that it holds from the free ring of the queue, and hasn't armed since.
pub trait Getting<V> {
    ghost got: { ℕ → V → ℕ → ℕ → Type 0 };
}

/// Where no ring changes and nothing is noted of one, what is said of rings stays.
pub fn rings_stay<V>()
    ensures { RingsStayLaw V }
{}

/// A step at one ring leaves what is said of the others.
pub fn a_rings_step_leaves_the_others<V>()
    ensures { RingStepLaw V }
{}

/// What was put in a ring, or stood in it at first, was taken or stands in it, also after a step at one ring.
pub fn histories_stay<V>()
    ensures stay { HistoriesStayLaw V }
    ensures step { HistoryStepLaw V }
{}

/// Each item stays in one place, also where a step at one queue moves one of its items; and one that a seat holds is in no ring.
pub fn items_stay_owned<V>()
    ensures stay { ItemsStayLaw V }
    ensures moves { ItemsMoveLaw V }
    ensures out { HeldIsOutLaw V }
{}

/// The tags of free items stay 0 where tags stay or are taken to 0: where no ring changes, where what is in the free rings stays,
/// where an item whose tag is 0 is put in one, and where one is taken, whose tag is 0.
pub fn tags_of_free_items_stay()
    ensures stay { FreeStayLaw }
    ensures lines { FreeLinesStayLaw }
    ensures put { FreePutLaw }
    ensures take { FreeTakeLaw }
{}

/// The tags of free items stay 0 where an item that isn't free is armed.
pub fn an_armed_item_was_not_free()
    ensures { FreeArmLaw }
{}

/// Where no tag changes and nothing is armed or won, the account of arms and wins stays.
pub fn tags_stay_counted<V>()
    ensures { CountedStayLaw V }
{}

/// An arm that its holder makes is counted, and its holder knows it.
pub fn tags_are_armed<V, J: Saying<V>>()
    ensures counted { CountedArmLaw V }
    ensures known { TagsKnownSetLaw V J.says }
{}

/// A win is counted, whoever makes it, and what holders know of tags stays true.
pub fn tags_are_won<V, J: Saying<V>>()
    ensures counted { CountedWinLaw V }
    ensures known { TagsKnownWinLaw V J.says }
{}

/// What holders know of tags stays true where no tag changes; of an item that comes, the seat says what is so.
pub fn tags_stay_known<V, J: Saying<V>>()
    ensures stay { TagsKnownStayLaw V J.says }
    ensures one { TagsKnownOneLaw V J.says }
{}

/// What holders know of runs and parts stays true, also where a holder sets one.
pub fn exact_words_stay_known<V, J: Saying<V>>()
    ensures stay { WordsKnownStayLaw V J.says }
    ensures one { WordsKnownOneLaw V J.says }
    ensures set { WordsKnownSetLaw V J.says }
{}

/// Each run and part is 0, or some view noted it: where none changes, and where one is set and noted.
pub fn words_stay_noted<V>()
    ensures stay { NotedStayLaw V }
    ensures set { NotedSetLaw V }
{}

/// What is said of arms and their get places stays where nothing is got or armed: also where rings are put to and lines taken
/// from, where heads rise, and where a tag is settled.
pub fn arms_stay_placed<V, J: Getting<V>>()
    ensures { PlacedStayLaw V J.got }
{}

/// An item that is got from a free ring has a get place above all its arms.
pub fn an_item_got_is_fresh<V, J: Getting<V>>()
    ensures { PlacedGetLaw V J.got }
{}

/// An arm of an item that was got and not armed since is its latest one.
pub fn an_arm_is_the_latest<V, J: Getting<V>>()
    ensures { PlacedArmLaw V J.got }
{}
