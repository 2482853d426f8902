//! What becomes of the parts of a rule of queues where a seat is split or two are joined, over views of any type. Each function does
//! nothing: its contract is the law.
ghost use Rattle.app_queue.specs.SeatLaws.{CountedJoinLaw, CountedSplitLaw, HistoriesJoinLaw, HistoriesSplitLaw, ItemsJoinLaw, ItemsSplitLaw, NotedJoinLaw, NotedSplitLaw, PlacedJoinLaw, PlacedSplitLaw, RingsJoinLaw, RingsSplitLaw, TagsKnownJoinLaw, TagsKnownSplitLaw, WordsKnownJoinLaw, WordsKnownSplitLaw};

use crate::laws::{Getting, Saying};

/// What is said of rings stays where each half of a view has its notes or none, and where one of two views has the notes of both.
pub fn rings_stay_with_seats<V>()
    ensures split { RingsSplitLaw V }
    ensures join { RingsJoinLaw V }
{}

/// The histories of rings stay where what was put and taken is counted once.
pub fn histories_stay_with_seats<V>()
    ensures split { HistoriesSplitLaw V }
    ensures join { HistoriesJoinLaw V }
{}

/// Each item stays in one place where what is held is shared out, or put together.
pub fn items_stay_with_seats<V>()
    ensures split { ItemsSplitLaw V }
    ensures join { ItemsJoinLaw V }
{}

/// The account of arms and wins stays where these are counted once.
pub fn counts_stay_with_seats<V>()
    ensures split { CountedSplitLaw V }
    ensures join { CountedJoinLaw V }
{}

/// What holders know of tags stays true where none says more of what it holds.
pub fn known_tags_stay_with_seats<V, J: Saying<V>>()
    ensures split { TagsKnownSplitLaw V J.says }
    ensures join { TagsKnownJoinLaw V J.says }
{}

/// What holders know of runs and parts stays true where none says more of what it holds.
pub fn known_words_stay_with_seats<V, J: Saying<V>>()
    ensures split { WordsKnownSplitLaw V J.says }
    ensures join { WordsKnownJoinLaw V J.says }
{}

/// Each run and part is 0, or some view noted it, where each note is counted once.
pub fn noted_words_stay_with_seats<V>()
    ensures split { NotedSplitLaw V }
    ensures join { NotedJoinLaw V }
{}

/// What is said of arms and their get places stays where each arm is in one view still.
pub fn arms_stay_with_seats<V, J: Getting<V>>()
    ensures split { PlacedSplitLaw V J.got }
    ensures join { PlacedJoinLaw V J.got }
{}
