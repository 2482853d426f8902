//! The items of a queue.
ghost use Rattle.std.specs.List.{list_any};
ghost use Rattle.std.specs.Prelude.{◌≡◌, ◌≢◌, ◌+◌, ◌-◌, ◌<◌, ◌^◌, ◌==◌, ◌&&◌, IfOk, OnOk, OnErr, Some, None, false, get_or, length, nat_lt, replicate, slice_set};
ghost use Rattle.unit_model.specs.Core.{blank, whereabouts_code};
ghost use Rattle.unit_model.specs.Weights.{one_if};

use std::alloc::{AllocError, Global};
use std::collections::BTreeMap;
use std::marker::Model;
use unit_model::{BLANK, Item};

/// Where an item is, as a number, and its tag.
#[derive(Clone, Copy, Debug, PartialEq, Eq, PartialOrd, Ord, Drop)]
pub(crate) struct Hand {
    pub(crate) code: u64,
    pub(crate) tag: u64,
}

/// The items of a queue. Contracts see the list.
#[derive(Debug, Drop)]
pub(crate) struct Items {
    values: Vec<Item>,
    // how many items that aren't free are there with that tag
    hands: BTreeMap<Hand, u64>,
}

impl Model for Items {
    ghost use Rattle.std.specs.Prelude.{List};
    ghost use Rattle.unit_model.specs.declared.machine.Item.{Item};

    ghost Value = { List Item };

    ghost use Rattle.trace_check.specs.Hands.{Counts};

    ghost view = { λ x. x.values.items };

    ghost invariant = { λ x. Counts x.hands x.values.items };
}

impl Hand {
    ghost use Rattle.trace_check.specs.Hands.{count_at, hand_of, same_hand};

    fn of(item: &Item) -> Hand
        ensures { result ≡ hand_of item.now }
    {
        Hand {
            code: item.whereabouts.code(),
            tag: item.tag,
        }
    }

    fn count(&self, hands: &BTreeMap<Hand, u64>) -> u64
        ensures { result ≡ count_at hands.now self.now }
    {
        match hands.get(self) {
            Some(count) => *count,
            None => 0,
        }
    }

    // One item more.
    fn add(self, hands: &mut BTreeMap<Hand, u64>) -> Result<(), AllocError>
        requires { count_at hands.old self + 1 < 2 ^ 64 }
        ensures ok { OnOk result ((hand : Hand) → count_at hands.new hand
            ≡ count_at hands.old hand + one_if (same_hand hand self)) }
        ensures err { OnErr result ((hand : Hand)
            → count_at hands.new hand ≡ count_at hands.old hand) }
    {
        let count = self.count(hands);
        match hands.insert(self, count + 1) {
            Ok(_) => Ok(()),
            Err(_) => Err(AllocError),
        }
    }

    // One item fewer, where there is one.
    fn remove(self, hands: &mut BTreeMap<Hand, u64>)
        ensures { (hand : Hand) → count_at hands.new hand
            ≡ count_at hands.old hand - one_if (same_hand hand self) }
    {
        let count = self.count(hands);
        if count > 1 {
            self.put(hands, count - 1);
        } else {
            hands.remove(&self);
        }
    }

    // Writes a count anew.
    fn put(self, hands: &mut BTreeMap<Hand, u64>, count: u64)
        requires { 0 < count_at hands.old self }
        ensures here { count_at hands.new self ≡ count }
        ensures apart { (hand : Hand) → same_hand hand self ≡ false
            → count_at hands.new hand ≡ count_at hands.old hand }
    {
        match hands.insert(self, count) {
            Ok(_) => {}
            Err(_) => {}
        }
    }

    // One item goes from one hand to another.
    fn give(self, hands: &mut BTreeMap<Hand, u64>, to: Hand) -> Result<(), AllocError>
        requires { (to.code ≢ 0) → count_at hands.old to + 1 < 2 ^ 64 }
        ensures ok { OnOk result ((hand : Hand) → hand.code ≢ 0
            → count_at hands.new hand
            ≡ (count_at hands.old hand + one_if (same_hand hand to))
            - one_if (same_hand hand self)) }
        ensures err { OnErr result ((hand : Hand)
            → count_at hands.new hand ≡ count_at hands.old hand) }
    {
        if to.code != 0 {
            to.add(hands)?;
        }
        if self.code != 0 {
            self.remove(hands);
        }
        Ok(())
    }
}

fn blanks(alloc: Global, count: usize) -> Result<Vec<Item>, AllocError>
    ensures { IfOk result (λ items. items.items ≡ replicate count blank) }
{
    let mut items = Vec::new(alloc);
    items.resize(count, BLANK)?;
    Ok(items)
}

impl Items {
    /// So many items that were never used. Fails for want of memory alone.
    pub(crate) fn fresh(alloc: Global, count: usize) -> Result<Items, AllocError>
        ensures { IfOk result (λ items. items ≡ replicate count blank) }
    {
        Ok(Items {
            values: blanks(alloc, count)?,
            hands: BTreeMap::new(alloc),
        })
    }

    pub(crate) fn has(&self, item: u32) -> bool
        ensures { result ≡ nat_lt item (length self.now) }
    {
        (item as usize) < self.values.len()
    }

    pub(crate) fn get(&self, item: u32) -> Item
        ensures { result ≡ get_or self.now item blank }
    {
        if item as usize >= self.values.len() {
            return BLANK;
        }
        self.values[item as usize]
    }

    /// Whether an item of this tag is where the code says, which isn't that of free items.
    pub(crate) fn some_at(&self, code: u64, tag: u64) -> bool
        requires { 0 < code }
        ensures { result ≡ list_any
            (λ item. whereabouts_code item.whereabouts == code && item.tag == tag) self.now }
    {
        let hand = Hand { code, tag };
        hand.count(&self.hands) > 0
    }

    /// Writes an item anew, where there is one. Fails for want of memory alone.
    pub(crate) fn set(&mut self, item: u32, new: Item) -> Result<(), AllocError>
        ensures { OnOk result (self.new ≡ slice_set self.old item new) }
    {
        if item as usize >= self.values.len() {
            return Ok(());
        }
        let from = Hand::of(&self.values[item as usize]);
        let to = Hand::of(&new);
        from.give(&mut self.hands, to)?;
        self.values[item as usize] = new;
        Ok(())
    }
}
