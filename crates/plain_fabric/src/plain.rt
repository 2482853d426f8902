//! A fabric that one thread plays.
ghost use Rattle.std.specs.Prelude.{◌≡◌, ◌≤◌, ◌+◌, ◌<◌, ◌^◌, ◌++◌, [], length, true, false, List, IfOk, OnOk, OnErr};
ghost use Rattle.plain_fabric.specs.Laws.{HasOnePair};
ghost use Rattle.plain_fabric.specs.Plains.{HasMade, asking_steps, gone_steps, next_record, sizes_of};
ghost use Rattle.request_context.specs.Record.{IsRecordable, asked_with};
ghost use Rattle.unit_model.specs.declared.machine.Step.{Step};

use crate::carrying::{answer, withdraw};
use crate::store::Store;
use std::alloc::{AllocError, Global};
use std::marker::Model;
use unit_model::{Shape, Step};
use unit_types::{Handlers, Reply, Request};

/// A fabric of one engine and one worker, which one thread plays in turn: one list of words, in the
/// layout that the fabric of many threads has, and a place for a parcel at each chunk, through
/// which requests and replies go.
///
/// It keeps the steps that were made, until they are forgotten.
#[derive(Drop)]
pub struct Plain<H: Handlers> {
    store: Store<H>,
    // how many streams were drawn and how many parts were sent
    drawn: u64,
    sent: u64,
    // memory ran out in the middle of a request
    failed: bool,
}

impl<H: Handlers> Model for Plain<H> {
    ghost use Rattle.plain_fabric.specs.Plains.{PlainValue};

    ghost Value = { PlainValue };

    ghost use Rattle.plain_fabric.specs.Plains.{IsKept};

    ghost view = { λ p. record { shape = p.store.layout.shape; words = p.store.words.items; trace = p.store.trace.items; drawn = p.drawn; sent = p.sent; failed = p.failed } };

    ghost invariant = { λ p. IsKept p.drawn p.sent p.failed p.store.chunks.items };
}

impl<H: Handlers> Plain<H> {
    /// A fabric of this shape, which is valid and has one engine and one worker.
    ///
    /// Fails for want of memory alone.
    pub fn open(alloc: Global, shape: &Shape) -> Result<Plain<H>, AllocError>
        requires { HasOnePair shape.now }
        ensures made { IfOk result (λ plain. HasMade plain []) }
        ensures shape { IfOk result (λ plain. plain.shape ≡ shape.now) }
        ensures trace { IfOk result (λ plain. plain.trace ≡ []) }
        ensures whole { IfOk result (λ plain. plain.failed ≡ false) }
        ensures drawn { IfOk result (λ plain. plain.drawn ≡ 0) }
        ensures sent { IfOk result (λ plain. plain.sent ≡ 0) }
    {
        Ok(Plain {
            store: Store::open(alloc, *shape)?,
            drawn: 0,
            sent: 0,
            failed: false,
        })
    }

    /// Asks the handler of this name: the request's record goes from the engine to the worker, who
    /// asks the handler, and the parts of the reply's record come back. Its steps are put behind
    /// those that are kept.
    ///
    /// The record can be written and fits one segment, no call has failed, and fewer than 2^48
    /// streams were drawn.
    ///
    /// # Errors
    ///
    /// Want of memory alone. The fabric has failed then, and may not be asked again.
    pub fn ask(
        &mut self,
        alloc: Global,
        handlers: &H,
        name: &[u8],
        request: &Request,
    ) -> Result<Reply, AllocError>
        requires whole { self.old.failed ≡ false }
        requires early { self.old.drawn < 2 ^ 48 }
        requires written { IsRecordable (asked_with (self.old.drawn + 1) name.now request.now) }
        requires fits { length (next_record self.old name.now request.now) ≤ 10485760 }
        ensures reply { IfOk result (λ reply. reply ≡ H.reply_of name.now request.now) }
        ensures trace { OnOk result (self.new.trace ≡ self.old.trace
            ++ asking_steps self.old name.now request.now (H.reply_of name.now request.now)) }
        ensures made { OnOk result ((made : List Step) → HasMade self.old made
            → HasMade self.new (made
            ++ asking_steps self.old name.now request.now (H.reply_of name.now request.now))) }
        ensures sent { OnOk result (self.new.sent ≡ self.old.sent
            + length (sizes_of (H.reply_of name.now request.now))) }
        ensures drawn { OnOk result (self.new.drawn ≡ self.old.drawn + 1) }
        ensures done { OnOk result (self.new.failed ≡ false) }
        ensures failed { OnErr result (self.new.failed ≡ true) }
        ensures shape { self.new.shape ≡ self.old.shape }
    {
        self.failed = true;
        let counts = (self.drawn, self.sent);
        let (reply, sent) = answer(&mut self.store, alloc, handlers, counts, name, request)?;
        self.drawn += 1;
        self.sent = sent;
        self.failed = false;
        Ok(reply)
    }

    /// Posts the request and cancels it, as for a client that has hung up. Its steps are put behind
    /// those that are kept. The conditions are those of `ask`.
    ///
    /// # Errors
    ///
    /// Want of memory alone. The fabric has failed then, and may not be asked again.
    pub fn ask_gone(
        &mut self,
        alloc: Global,
        name: &[u8],
        request: &Request,
    ) -> Result<(), AllocError>
        requires whole { self.old.failed ≡ false }
        requires early { self.old.drawn < 2 ^ 48 }
        requires written { IsRecordable (asked_with (self.old.drawn + 1) name.now request.now) }
        requires fits { length (next_record self.old name.now request.now) ≤ 10485760 }
        ensures trace { OnOk result (self.new.trace ≡ self.old.trace
            ++ gone_steps self.old name.now request.now) }
        ensures made { OnOk result ((made : List Step) → HasMade self.old made
            → HasMade self.new (made ++ gone_steps self.old name.now request.now)) }
        ensures sent { OnOk result (self.new.sent ≡ self.old.sent) }
        ensures drawn { OnOk result (self.new.drawn ≡ self.old.drawn + 1) }
        ensures done { OnOk result (self.new.failed ≡ false) }
        ensures failed { OnErr result (self.new.failed ≡ true) }
        ensures shape { self.new.shape ≡ self.old.shape }
    {
        self.failed = true;
        withdraw(&mut self.store, alloc, self.drawn, name, request)?;
        self.drawn += 1;
        self.failed = false;
        Ok(())
    }

    /// The steps that were made and not forgotten, in order.
    pub fn trace(&self) -> &[Step]
        ensures { result.now ≡ self.now.trace }
    {
        self.store.trace.as_slice()
    }

    /// Whether memory ran out in the middle of a request.
    pub fn failed(&self) -> bool
        ensures { result ≡ self.now.failed }
    {
        self.failed
    }

    /// Forgets the steps that are kept.
    pub fn forget_trace(&mut self)
        ensures trace { self.new.trace ≡ [] }
        ensures made { (made : List Step) → HasMade self.old made → HasMade self.new made }
        ensures drawn { self.new.drawn ≡ self.old.drawn }
        ensures sent { self.new.sent ≡ self.old.sent }
        ensures failed { self.new.failed ≡ self.old.failed }
        ensures shape { self.new.shape ≡ self.old.shape }
    {
        self.store.trace.clear();
    }

    /// How many streams were drawn.
    pub fn drawn(&self) -> u64
        ensures { result ≡ self.now.drawn }
    {
        self.drawn
    }
}
