//! How a fabric's table is made, and how its seats are split and joined.
ghost use Rattle.std.specs.Prelude.{ℕ, ◌≡◌, ◌≢◌, ◌≤◌, ◌<◌, ◌+◌, [], ◌∷◌, IfOk};
ghost use Rattle.unit_model.specs.PartOrder.{Each};
ghost use Rattle.unit_model.specs.Shapes.{IsValid, role_in};
ghost use Rattle.fabric_rule.specs.Opening.{first_view, ledger_of};
ghost use Rattle.fabric_rule.specs.Seats.{HasItsArm, HasNoPost, HasOwnLists, IsAtRest, IsJoined, IsParted, MayBecome, MayEndAll, MayJoin, ended, first_from, fresh_main, handed, lists_of, main_of, together, without_first_lists, without_lists, without_works, works_of};
ghost use Rattle.fabric_rule.specs.Views.{empty};
ghost use Rattle.fabric_rule.specs.declared.view.Ledger.{Ledger};

use crate::table::{FabricSeat, FabricTable};
use crate::view::FabricView;
use atomic_table::{Join, Split, Table};
use fabric_words::Layout;
use std::alloc::{AllocError, Global};
use std::marker::{Brand, PhantomData};
use unit_model::Shape;
use unit_types::Handlers;

/// What stays of a view, and what leaves it for a new seat. A call picks it.
pub trait Halves {
    ghost use Rattle.fabric_rule.specs.declared.view.FabricView.{FabricView};

    ghost stays: { FabricView };

    ghost leaves: { FabricView };
}

impl Halves for Brand {
    ghost use Rattle.fabric_rule.specs.Seats.{no_view};

    ghost stays = { no_view };

    ghost leaves = { no_view };
}

/// The split that a call picked.
pub struct Cutting<J> {
    pick: PhantomData<J>,
}

impl<J: Halves> Split<FabricView> for Cutting<J> {
    ghost left = { λ v. J.stays };

    ghost right = { λ v. J.leaves };
}

/// What becomes of two views, and what the seat that ends is left with. A call picks it.
pub trait Whole {
    ghost use Rattle.fabric_rule.specs.declared.view.FabricView.{FabricView};

    ghost both: { FabricView };

    ghost spent: { FabricView };
}

impl Whole for Brand {
    ghost use Rattle.fabric_rule.specs.Seats.{no_view};

    ghost both = { no_view };

    ghost spent = { no_view };
}

/// The join that a call picked.
pub struct Joining<J> {
    pick: PhantomData<J>,
}

impl<J: Whole> Join<FabricView> for Joining<J> {
    ghost both = { λ v w. J.both };

    ghost spent = { J.spent };
}

/// What a seat's view becomes where its account changes. A call picks it.
pub trait Accounts {
    ghost use Rattle.fabric_rule.specs.declared.view.FabricView.{FabricView};

    ghost becomes: { FabricView };
}

impl Accounts for Brand {
    ghost use Rattle.fabric_rule.specs.Seats.{no_view};

    ghost becomes = { no_view };
}

impl<H: Handlers> FabricTable<H> {
    /// The words of a fabric of a valid shape, with an empty slot for each chunk, and a seat that
    /// has the lists of all seat numbers. All chunks are free, all items are in their free rings,
    /// and the next stream is 1.
    ///
    /// Fails for want of memory alone.
    pub fn open(alloc: Global, shape: &Shape) -> Result<(FabricTable<H>, FabricSeat<H>), AllocError>
        requires { IsValid shape.now }
        ensures shape { IfOk result (λ r. r.0.table.shared.key ≡ shape.now) }
        ensures own { IfOk result (λ r. r.1.seat.table_id ≡ r.0.table.shared.table_id) }
        ensures first { IfOk result (λ r. r.1.seat.me ≡ (first_view shape.now, [])) }
    {
        let layout = Layout::of(*shape);
        let words = layout.opened_words(alloc)?;
        let segments = shape.out_segments as usize + shape.back_segments as usize;
        let (table, seat) = Table::vacant(alloc, words.as_slice(), 640 * segments, shape)?;
        Ok((FabricTable { table }, FabricSeat { seat }))
    }

    /// Cuts a seat's view in two, as the call picks it, where an account may change before: the
    /// seat keeps what stays, with all its slots, and a new seat has what leaves.
    pub fn split<C: Halves, W: Drop>(&self, seat: &mut FabricSeat<H>, _about: W) -> FabricSeat<H>
        requires own { seat.old.seat.table_id ≡ self.now.table.shared.table_id }
        requires parted { IsParted seat.old.seat.me.0 C.stays C.leaves }
        ensures own { (seat.new.seat.table_id ≡ seat.old.seat.table_id)
            × (seat.new.seat.id ≡ seat.old.seat.id)
            × (result.seat.table_id ≡ seat.old.seat.table_id) }
        ensures stays { seat.new.seat.me ≡ (C.stays, seat.old.seat.me.1) }
        ensures leaves { result.seat.me ≡ (C.leaves, []) }
    {
        let table = &self.table;
        let shared = &table.shared;
        FabricSeat {
            seat: shared.split_seat::<Cutting<C>>(&mut seat.seat),
        }
    }

    /// Joins a seat that has no chunk and no item into another one, as the call picks it, where an
    /// account may change after: the seat that stays keeps its slots and what it knows of words,
    /// and the other one ends.
    pub fn join<C: Whole, W: Drop>(&self, seat: &mut FabricSeat<H>, other: FabricSeat<H>, _about: W)
        requires own { (seat.old.seat.table_id ≡ self.now.table.shared.table_id)
            × (other.seat.table_id ≡ self.now.table.shared.table_id) }
        requires joined { IsJoined seat.old.seat.me.0 other.seat.me.0 C.both }
        requires spent { C.spent ≡ empty self.now.table.shared.key }
        ensures own { (seat.new.seat.table_id ≡ seat.old.seat.table_id)
            × (seat.new.seat.id ≡ seat.old.seat.id) }
        ensures both { seat.new.seat.me ≡ (C.both, seat.old.seat.me.1) }
    {
        let table = &self.table;
        let shared = &table.shared;
        let FabricSeat { seat: ended } = other;
        shared.join_seat::<Joining<C>>(&mut seat.seat, ended);
    }

    /// Changes a main seat's account, as the call picks it: works end or begin, the seat is refused
    /// something, keeps an item for good, or hands on what it popped. It is a load of word 0, which
    /// is of no use.
    pub fn account<C: Accounts, W: Drop>(&self, seat: &mut FabricSeat<H>, about: W)
        requires own { seat.old.seat.table_id ≡ self.now.table.shared.table_id }
        requires may { MayBecome seat.old.seat.me.0 C.becomes }
        ensures own { (seat.new.seat.table_id ≡ seat.old.seat.table_id)
            × (seat.new.seat.id ≡ seat.old.seat.id) }
        ensures becomes { seat.new.seat.me ≡ (C.becomes, seat.old.seat.me.1) }
    {
        self.load_word::<Brand, W>(&mut seat.seat, 0, about);
    }

    /// A main seat of the first number of which a seat at rest has the lists: these leave it.
    pub fn main_off(&self, seat: &mut FabricSeat<H>) -> FabricSeat<H>
        requires own { seat.old.seat.table_id ≡ self.now.table.shared.table_id }
        requires rest { IsAtRest seat.old.seat.me.0 }
        requires some { seat.old.seat.me.0.ledgers ≢ [] }
        requires role { role_in seat.old.seat.me.0.shape (ledger_of seat.old.seat.me.0).seat ≤ 1 }
        ensures own { (seat.new.seat.table_id ≡ seat.old.seat.table_id)
            × (seat.new.seat.id ≡ seat.old.seat.id)
            × (result.seat.table_id ≡ seat.old.seat.table_id) }
        ensures stays { seat.new.seat.me
            ≡ (without_first_lists seat.old.seat.me.0, seat.old.seat.me.1) }
        ensures leaves { result.seat.me
            ≡ (main_of (ledger_of seat.old.seat.me.0) seat.old.seat.me.0, []) }
    {
        self.split::<Brand, ()>(seat, ())
    }

    /// The main seat of a number, of which the first seat still has the lists, as of those above
    /// it. So each number gets its own.
    pub fn first_main(&self, first: &mut FabricSeat<H>, number: u32) -> FabricSeat<H>
        requires own { first.old.seat.table_id ≡ self.now.table.shared.table_id }
        requires there { number
            < self.now.table.shared.key.engines + self.now.table.shared.key.workers }
        requires from { first.old.seat.me.0 ≡ first_from self.now.table.shared.key number }
        ensures own { (first.new.seat.table_id ≡ first.old.seat.table_id)
            × (first.new.seat.id ≡ first.old.seat.id)
            × (result.seat.table_id ≡ first.old.seat.table_id) }
        ensures stays { first.new.seat.me
            ≡ (first_from self.now.table.shared.key (number + 1), first.old.seat.me.1) }
        ensures main { result.seat.me ≡ (fresh_main self.now.table.shared.key number, []) }
    {
        self.split::<Brand, u32>(first, number)
    }

    /// The lists leave a seat that has works, for a new main seat; it keeps its works with all that
    /// is in its hand.
    pub fn lists_off(&self, seat: &mut FabricSeat<H>) -> FabricSeat<H>
        requires own { seat.old.seat.table_id ≡ self.now.table.shared.table_id }
        requires works { seat.old.seat.me.0.works ≢ [] }
        requires posts { Each (HasItsArm seat.old.seat.me.0.arms)
            seat.old.seat.me.0.works }
        requires popped { Each (λ (c : Ledger). c.popped ≡ []) seat.old.seat.me.0.ledgers }
        ensures own { (seat.new.seat.table_id ≡ seat.old.seat.table_id)
            × (seat.new.seat.id ≡ seat.old.seat.id)
            × (result.seat.table_id ≡ seat.old.seat.table_id) }
        ensures stays { seat.new.seat.me ≡ (without_lists seat.old.seat.me.0, seat.old.seat.me.1) }
        ensures leaves { result.seat.me ≡ (lists_of seat.old.seat.me.0, []) }
    {
        self.split::<Brand, ()>(seat, ())
    }

    /// The works of a main seat that has no chunks leave it for a seat of their own, with its
    /// items.
    pub fn works_off(&self, seat: &mut FabricSeat<H>) -> FabricSeat<H>
        requires own { seat.old.seat.table_id ≡ self.now.table.shared.table_id }
        requires works { seat.old.seat.me.0.works ≢ [] }
        requires posts { HasNoPost seat.old.seat.me.0.works }
        requires chunks { seat.old.seat.me.0.chunks ≡ [] }
        requires popped { Each (λ (c : Ledger). c.popped ≡ []) seat.old.seat.me.0.ledgers }
        ensures own { (seat.new.seat.table_id ≡ seat.old.seat.table_id)
            × (seat.new.seat.id ≡ seat.old.seat.id)
            × (result.seat.table_id ≡ seat.old.seat.table_id) }
        ensures stays { seat.new.seat.me ≡ (without_works seat.old.seat.me.0, seat.old.seat.me.1) }
        ensures leaves { result.seat.me ≡ (works_of seat.old.seat.me.0, []) }
    {
        self.split::<Brand, ()>(seat, ())
    }

    /// A worker's main seat hands the item that it popped on to a new seat, which has a work with
    /// it.
    pub fn hand_on(&self, seat: &mut FabricSeat<H>) -> FabricSeat<H>
        requires own { seat.old.seat.table_id ≡ self.now.table.shared.table_id }
        requires lists { HasOwnLists seat.old.seat.me.0 }
        requires worker { role_in seat.old.seat.me.0.shape seat.old.seat.me.0.seat ≢ 0 }
        requires posts { HasNoPost seat.old.seat.me.0.works }
        requires chunks { seat.old.seat.me.0.chunks ≡ [] }
        ensures own { (seat.new.seat.table_id ≡ seat.old.seat.table_id)
            × (seat.new.seat.id ≡ seat.old.seat.id)
            × (result.seat.table_id ≡ seat.old.seat.table_id) }
        ensures stays { seat.new.seat.me
            ≡ (without_works (handed seat.old.seat.me.0), seat.old.seat.me.1) }
        ensures leaves { result.seat.me ≡ (works_of (handed seat.old.seat.me.0), []) }
    {
        self.split::<Brand, ()>(seat, ())
    }

    /// Takes the lists, works, kept items, arms and records of another seat, which ends: it has no
    /// chunk and no item, and works only of this seat's number.
    pub fn take_in(&self, seat: &mut FabricSeat<H>, other: FabricSeat<H>)
        requires own { (seat.old.seat.table_id ≡ self.now.table.shared.table_id)
            × (other.seat.table_id ≡ self.now.table.shared.table_id) }
        requires may { MayJoin seat.old.seat.me.0 other.seat.me.0 }
        ensures own { (seat.new.seat.table_id ≡ seat.old.seat.table_id)
            × (seat.new.seat.id ≡ seat.old.seat.id) }
        ensures both { seat.new.seat.me
            ≡ (together seat.old.seat.me.0 other.seat.me.0, seat.old.seat.me.1) }
    {
        self.join::<Brand, ()>(seat, other, ());
    }
    /// Takes another seat in, as `take_in` does, and ends all works of both, none of which is a
    /// post that still awaits its reply. The items in the hand of the seat that stays are kept for
    /// good: their tags are 0, and their free rings have no place left.
    pub fn end_works(&self, seat: &mut FabricSeat<H>, other: FabricSeat<H>)
        requires own { (seat.old.seat.table_id ≡ self.now.table.shared.table_id)
            × (other.seat.table_id ≡ self.now.table.shared.table_id) }
        requires may { MayJoin seat.old.seat.me.0 other.seat.me.0 }
        requires end { MayEndAll (together seat.old.seat.me.0 other.seat.me.0) }
        ensures own { (seat.new.seat.table_id ≡ seat.old.seat.table_id)
            × (seat.new.seat.id ≡ seat.old.seat.id) }
        ensures both { seat.new.seat.me
            ≡ (ended (together seat.old.seat.me.0 other.seat.me.0), seat.old.seat.me.1) }
    {
        self.join::<Brand, ()>(seat, other, ());
    }
}
