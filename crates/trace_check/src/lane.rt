//! A queue whose lists give and take at their ends.
ghost use Rattle.std.specs.List.{list_any};
ghost use Rattle.std.specs.Prelude.{◌≡◌, ◌<◌, ◌+◌, ◌^◌, ◌∷◌, ◌++◌, [], OnOk, IfOk, drop, get_or, length, nat_lt, slice_set, ◌==◌, ◌&&◌, replicate};
ghost use Rattle.unit_model.specs.Core.{blank, first_item, first_place, whereabouts_code};
ghost use Rattle.unit_model.specs.Opening.{fresh_queue, first_entries};

use crate::items::Items;
use std::alloc::{AllocError, Global};
use std::collections::VecDeque;
use std::marker::Model;
use unit_model::{Entry, Item, PAST_ITEMS};

/// A queue. Contracts see its lists.
#[derive(Debug, Drop)]
pub(crate) struct Lane {
    free: VecDeque<Entry>,
    next_free: u64,
    line: VecDeque<Entry>,
    next_line: u64,
    items: Items,
}

impl Model for Lane {
    ghost use Rattle.unit_model.specs.declared.machine.Queue.{Queue};

    ghost Value = { Queue };

    ghost view = { λ l. record {
      free = l.free.items;
      next_free = l.next_free;
      line = l.line.items;
      next_line = l.next_line;
      items = l.items;
    } };
}

fn first_place(entries: &VecDeque<Entry>, next: u64) -> u64
    ensures { result ≡ first_place entries.now.items next }
{
    match entries.front() {
        Some(entry) => entry.place,
        None => next,
    }
}

fn first_item(entries: &VecDeque<Entry>) -> u64
    ensures { result ≡ first_item entries.now.items }
{
    match entries.front() {
        Some(entry) => entry.item as u64,
        None => PAST_ITEMS,
    }
}

fn push(entries: &mut VecDeque<Entry>, entry: Entry) -> Result<(), AllocError>
    ensures { OnOk result (entries.new.items ≡ entries.old.items ++ entry ∷ []) }
{
    match entries.push_back(entry) {
        Ok(()) => Ok(()),
        Err(_) => Err(AllocError),
    }
}

impl Lane {
    pub(crate) fn free_place(&self) -> u64
        ensures { result ≡ first_place self.now.free self.now.next_free }
    {
        first_place(&self.free, self.next_free)
    }

    pub(crate) fn line_place(&self) -> u64
        ensures { result ≡ first_place self.now.line self.now.next_line }
    {
        first_place(&self.line, self.next_line)
    }

    pub(crate) fn free_item(&self) -> u64
        ensures { result ≡ first_item self.now.free }
    {
        first_item(&self.free)
    }

    pub(crate) fn line_item(&self) -> u64
        ensures { result ≡ first_item self.now.line }
    {
        first_item(&self.line)
    }

    pub(crate) fn next_free(&self) -> u64
        ensures { result ≡ self.now.next_free }
    {
        self.next_free
    }

    pub(crate) fn next_line(&self) -> u64
        ensures { result ≡ self.now.next_line }
    {
        self.next_line
    }

    pub(crate) fn has_item(&self, item: u32) -> bool
        ensures { result ≡ nat_lt item (length self.now.items) }
    {
        self.items.has(item)
    }

    pub(crate) fn item(&self, item: u32) -> Item
        ensures { result ≡ get_or self.now.items item blank }
    {
        self.items.get(item)
    }

    /// Whether an item of this tag is where the code says, which isn't that of free items.
    pub(crate) fn has_held(&self, code: u64, tag: u64) -> bool
        requires { 0 < code }
        ensures { result ≡ list_any
            (λ item. whereabouts_code item.whereabouts == code && item.tag == tag) self.now.items }
    {
        self.items.some_at(code, tag)
    }

    /// Fails for want of memory alone.
    pub(crate) fn set_item(&mut self, item: u32, new: Item) -> Result<(), AllocError>
        ensures { OnOk result (self.new
            ≡ record self.old { items = slice_set self.old.items item new }) }
    {
        self.items.set(item, new)
    }

    pub(crate) fn drop_first_free(&mut self)
        ensures { self.new ≡ record self.old { free = drop 1 self.old.free } }
    {
        self.free.pop_front();
    }

    pub(crate) fn drop_first_in_line(&mut self)
        ensures { self.new ≡ record self.old { line = drop 1 self.old.line } }
    {
        self.line.pop_front();
    }

    /// Fails for want of memory alone.
    pub(crate) fn append_free(&mut self, entry: Entry) -> Result<(), AllocError>
        requires { entry.place < 2 ^ 63 }
        ensures { OnOk result (self.new ≡ record self.old {
          free = self.old.free ++ entry ∷ [];
          next_free = entry.place + 1;
        }) }
    {
        push(&mut self.free, entry)?;
        self.next_free = entry.place + 1;
        Ok(())
    }

    /// Fails for want of memory alone.
    pub(crate) fn append_in_line(&mut self, entry: Entry) -> Result<(), AllocError>
        requires { entry.place < 2 ^ 63 }
        ensures { OnOk result (self.new ≡ record self.old {
          line = self.old.line ++ entry ∷ [];
          next_line = entry.place + 1;
        }) }
    {
        push(&mut self.line, entry)?;
        self.next_line = entry.place + 1;
        Ok(())
    }

    /// A queue whose items are all free, at the places from `start` on. Fails for want of memory alone.
    pub(crate) fn fresh(alloc: Global, start: u64, items: u32) -> Result<Lane, AllocError>
        requires { start < 2 ^ 62 }
        ensures { IfOk result (λ lane. lane ≡ fresh_queue start items) }
    {
        Ok(Lane {
            free: first_entries(alloc, start, items)?,
            next_free: start + items as u64,
            line: VecDeque::new(alloc),
            next_line: start,
            items: Items::fresh(alloc, items as usize)?,
        })
    }
}

#[tactic(auto, using(unit_model::proofs::FirstEntries::one_entry_more))]
fn first_entries(alloc: Global, start: u64, items: u32) -> Result<VecDeque<Entry>, AllocError>
    requires { start < 2 ^ 62 }
    ensures { IfOk result (λ entries. entries.items ≡ first_entries start items) }
{
    let mut entries = VecDeque::new(alloc);
    for item in 0..items {
        let place = start + item as u64;
        push(&mut entries, Entry { place, item })?;
    }
    Ok(entries)
}
