//! Tags, and the calls on them.
ghost use Rattle.std.specs.Prelude.{◌≡◌, ◌≢◌, ◌⊎◌, ◌<◌, ◌≤◌, ◌==◌, [], length, ℕ, IfOk, cond};

use crate::seat::TagSeat;
use crate::view::TagView;
use atomic_table::{Join, Play, Split, Table, TableRule};
use std::alloc::{AllocError, Global};

/// The rule of the table.
pub struct TagRule;

impl<S> TableRule<S, TagView, u32> for TagRule {
    ghost use Rattle.tracking_word.specs.Rule.{TagsHold};
    ghost use Rattle.tracking_word.specs.Views.{whole};

    ghost holds = { TagsHold };

    ghost first = { whole };
}

struct Arming;

impl<S> Play<S, TagView> for Arming {
    ghost use Rattle.tracking_word.specs.Rule.{Arms};

    ghost then = { Arms };
}

struct Settling;

impl<S> Play<S, TagView> for Settling {
    ghost use Rattle.tracking_word.specs.Rule.{Settles};

    ghost then = { Settles };
}

// A new seat holds nothing.
struct Apart;

impl Split<TagView> for Apart {
    ghost use Rattle.tracking_word.specs.Views.{empty};

    ghost left = { λ v. v };

    ghost right = { λ v. empty };
}

struct Together;

impl Join<TagView> for Together {
    ghost use Rattle.tracking_word.specs.Views.{empty, together};

    ghost both = { together };

    ghost spent = { empty };
}

/// The tags of `items` items, numbered from 0.
#[derive(Drop)]
pub struct Tags {
    pub(crate) table: Table<u8, TagView, u32, TagRule, Global>,
    pub(crate) items: u32,
    ghost sized: { (table.shared.key ≡ items) × (table.shared.table_id.words ≡ items) × (1 ≤ items)
        × (table.shared.table_id.slots ≡ 0) },
}

/// What a settle did.
#[derive(Clone, Copy, Debug, PartialEq, Eq, Drop)]
pub enum Settle {
    /// It took the tag from the stream to 0.
    Won,
    /// It found this other tag, and left it.
    Gone(u64),
}

impl Tags {
    ghost use Rattle.unit_model.specs.Sharing.{Holds};
    ghost use Rattle.tracking_word.specs.Views.{held_by, last_tag, whole, empty, after, together, settling};
    ghost use Rattle.tracking_word.specs.Seats.{BelongsTo, knows};
    ghost use Rattle.tracking_word.specs.declared.view.TagEvent.TheVariants.{Armed, Won, Gone};

    /// Tags that are all 0, and a seat that holds every item.
    ///
    /// Fails for want of memory alone.
    pub fn open(alloc: Global, items: u32) -> Result<(Tags, TagSeat), AllocError>
        requires { (1 ≤ items) × (items ≤ 16384) }
        ensures { IfOk result (λ r. (r.0.items ≡ items) × BelongsTo r.1 r.0
            × (knows r.1 ≡ whole items)) }
    {
        let words = vec![in alloc; 0u64; items as usize]?;
        let (table, seat) = Table::of_words(alloc, words.as_slice(), &items)?;
        Ok((Tags { table, items }, TagSeat { seat }))
    }

    /// Makes a seat that holds nothing.
    pub fn split(&self, seat: &mut TagSeat) -> TagSeat
        requires own { BelongsTo seat.old self.now }
        ensures own { BelongsTo seat.new self.now × BelongsTo result self.now }
        ensures kept { knows seat.new ≡ knows seat.old }
        ensures made { knows result ≡ empty }
    {
        let table = &self.table;
        let shared = &table.shared;
        TagSeat {
            seat: shared.split_seat::<Apart>(&mut seat.seat),
        }
    }

    /// Ends a seat that holds nothing. What it did stays counted with the first one.
    pub fn join(&self, seat: &mut TagSeat, other: TagSeat)
        requires own { BelongsTo seat.old self.now × BelongsTo other self.now }
        requires none { (knows other).held ≡ [] }
        ensures own { BelongsTo seat.new self.now }
        ensures view { knows seat.new ≡ together (knows seat.old) (knows other) }
    {
        let table = &self.table;
        let shared = &table.shared;
        let TagSeat { seat: ended } = other;
        shared.join_seat::<Together>(&mut seat.seat, ended);
    }

    /// Sets the tag of an item that the seat holds, and whose tag is 0 by what the seat knows, to the stream.
    pub fn arm(&self, seat: &mut TagSeat, item: u32, stream: u64)
        requires own { BelongsTo seat.old self.now }
        requires held { Holds held_by item (knows seat.old) }
        requires zero { last_tag item (knows seat.old).log ≡ 0 }
        requires stream { 1 ≤ stream }
        ensures own { BelongsTo seat.new self.now }
        ensures view { knows seat.new ≡ after (Armed item stream) (knows seat.old) }
    {
        let table = &self.table;
        let shared = &table.shared;
        shared.store::<Arming>(&mut seat.seat, item as usize, stream);
    }

    // The tag as it was. It has become 0 where it was the stream.
    fn exchange(&self, seat: &mut TagSeat, item: u32, stream: u64) -> u64
        requires own { BelongsTo seat.old self.now }
        requires item { item < self.now.items }
        requires stream { 1 ≤ stream }
        ensures own { BelongsTo seat.new self.now }
        ensures view { knows seat.new ≡ after (settling item stream result) (knows seat.old) }
        ensures holder { Holds held_by item (knows seat.old)
            → (result ≡ last_tag item (knows seat.old).log) ⊎ (result ≡ 0) }
    {
        let table = &self.table;
        let shared = &table.shared;
        shared.compare_exchange::<Settling>(&mut seat.seat, item as usize, stream, 0)
    }

    /// Takes the tag from the stream to 0 by one exchange, or answers the other tag that the exchange found. A seat that holds
    /// the item finds the tag that it saw last, or 0.
    pub fn settle(&self, seat: &mut TagSeat, item: u32, stream: u64) -> Settle
        requires own { BelongsTo seat.old self.now }
        requires item { item < self.now.items }
        requires stream { 1 ≤ stream }
        ensures own { BelongsTo seat.new self.now }
        ensures won { result ≡ Settle.Won
            → knows seat.new ≡ after (Won item stream) (knows seat.old) }
        ensures gone { (found : ℕ) → result ≡ Settle.Gone found → (found ≢ stream)
            × (knows seat.new ≡ after (Gone item stream found) (knows seat.old)) }
        ensures holder_won { result ≡ Settle.Won → Holds held_by item (knows seat.old)
            → last_tag item (knows seat.old).log ≡ stream }
        ensures holder_gone { (found : ℕ) → result ≡ Settle.Gone found
            → Holds held_by item (knows seat.old)
            → (found ≡ last_tag item (knows seat.old).log) ⊎ (found ≡ 0) }
    {
        let found = self.exchange(seat, item, stream);
        if found == stream {
            Settle::Won
        } else {
            Settle::Gone(found)
        }
    }
}
