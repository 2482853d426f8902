//! How a machine takes the reply to the request that waits, and how a call begins and is taken back.
ghost use Rattle.std.specs.Prelude.{◌≡◌, ◌<◌, ◌≤◌, ℕ, [], true, false, None, Some, IfOk, OnOk, OnErr, IfSome, option_map};
ghost use Rattle.std.specs.Option.{is_some};
ghost use Rattle.conf_validate.specs.Current.{numbered};
ghost use Rattle.http_front.specs.Session.{request_limit};
ghost use Rattle.conn_machine.specs.Answers.{Connection};
ghost use Rattle.conn_machine.specs.Calls.{Account, on_answer, settled};
ghost use Rattle.conn_machine.specs.declared.receipt.Need.TheVariants.{Ask};
ghost use Rattle.conn_machine.specs.Replying.{IsConcluding, IsReplied, concluded, concluded_by, reply_in, request_in};
ghost use Rattle.conn_machine.specs.Settling.{GoesBack, Grows};
ghost use Rattle.conn_machine.specs.Shows.{Held, IsAfter, IsAsBefore, Shows, Stands, bound_in, need_in};
ghost use Rattle.conn_machine.specs.States.{Numbered};
ghost use Rattle.conn_machine.specs.Turns.{receipt_of};
ghost use Rattle.http_front.specs.Message.{Message};

use crate::machine::Machine;
use crate::pending::{Pending, exchange};
use crate::receipt::Kind;
use crate::settling::Place;
use conf_validate::Current;
use header_rewrite::fielded_if_changed;
use http_front::error_reply;
use std::alloc::{AllocError, Global};
use std::mem::replace;
use unit_types::{Bytes, Handlers, Reply};

/// The status of a request that is turned away, or late (RFC 9110, section 15.6.4).
const UNAVAILABLE: u16 = 503;

/// How many bytes of room a connection keeps for its next answer.
const KEPT_ROOM: usize = 4096;

/// The reply to a request.
#[derive(Drop)]
enum Answer<'a> {
    /// It was made for it.
    Made(Reply),
    /// It is the handler's own, which isn't copied.
    Given(&'a Reply),
}

impl Answer<'_> {
    fn reply(&self) -> &Reply
        ensures { result.now ≡ reply_in self.now }
    {
        match self {
            Answer::Made(reply) => reply,
            Answer::Given(reply) => reply,
        }
    }
}

impl<H: Handlers> Machine<H> {
    // lets the bytes go that are written, and what an earlier call met
    pub(crate) fn begin(&mut self, alloc: Global)
        ensures { self.new ≡ record self.old { former = None } }
    {
        self.former = None;
        if self.written == self.out.as_slice().len() {
            self.written = 0;
            empty(alloc, &mut self.out);
        }
    }

    // answers what the server answers itself; behind a call that fails it stands where it stood at that place
    pub(crate) fn settle_or_go_back(
        &mut self,
        alloc: Global,
        conf: &Current,
        place: Place,
    ) -> Result<(), AllocError>
        requires after { IsAfter self.old.met (numbered conf.now) }
        requires former { self.old.former ≡ None }
        requires way { place.is_under_way ≡ true → is_some self.old.met ≡ true }
        requires left { (place.left ≤ request_limit) × (place.closed ≡ false → 1 ≤ place.left) }
        ensures ok { OnOk result ((c : Connection) (a : Account) → Stands H.reply_of c a self.old
            → Shows H.reply_of c (settled c (numbered conf.now) request_limit a) self.new) }
        ensures err { OnErr result ((before : Held) → GoesBack before place self.old
            → before.pending ≡ None → IsAsBefore H.reply_of before self.new) }
        ensures after { (next : Numbered) → IsAfter self.old.met next
            → IsAfter (Some (numbered conf.now)) next → IsAfter self.new.met next }
        ensures ended { OnOk result (self.new.ended ≡ self.old.ended) }
        ensures ended_err { OnErr result (self.new.ended ≡ place.ended) }
        ensures given_up { self.new.given_up ≡ self.old.given_up }
    {
        let is_first = self.met.is_none();
        match self.settle(alloc, conf) {
            Ok(()) => Ok(()),
            Err(error) => {
                self.go_back(alloc, place);
                if is_first {
                    self.unmeet();
                }
                Err(error)
            }
        }
    }

    // no configuration is met, as before the first request
    fn unmeet(&mut self)
        requires { self.old.is_under_way ≡ false }
        ensures { self.new ≡ record self.old { met = None } }
    {
        self.met = None;
    }

    // the request that waits gets this reply of its handler, or the one that it is turned away
    pub(crate) fn conclude(
        &mut self,
        alloc: Global,
        conf: &Current,
        stream: u64,
        kind: Kind,
        reply: Option<&Reply>,
    ) -> Result<(), AllocError>
        requires ask { need_in self.old ≡ Ask }
        requires after { IsAfter self.old.met (numbered conf.now) }
        requires status { IfSome reply (λ r. r.now.status < 1000) }
        ensures ok { OnOk result ((c : Connection) (a : Account) → Shows H.reply_of c a self.old
            → IsReplied H.reply_of c (numbered conf.now) a self.old.pending stream kind
            (concluded (option_map (λ r. r.now) reply.entry)) self.new) }
        ensures err { OnErr result (IsAsBefore H.reply_of self.old self.new) }
        ensures after { (next : Numbered) → IsAfter self.old.met next
            → IsAfter (Some (numbered conf.now)) next → IsAfter self.new.met next }
        ensures ended { self.new.ended ≡ self.old.ended }
        ensures given_up { self.new.given_up ≡ self.old.given_up }
    {
        let Some(mut pending) = self.pending.take() else {
            unreachable!();
        };
        self.begin(alloc);
        self.reader.mark();
        let place = self.place();
        exchange(&mut pending.rewrite, &mut pending.asks.1);
        match self.conclude_request(alloc, conf, &pending, stream, kind, reply) {
            Ok(()) => Ok(()),
            Err(error) => {
                exchange(&mut pending.rewrite, &mut pending.asks.1);
                self.go_back(alloc, place);
                self.pending = Some(pending);
                Err(error)
            }
        }
    }

    // the same, where the request that waited stands as it came
    fn conclude_request(
        &mut self,
        alloc: Global,
        conf: &Current,
        came: &Pending,
        stream: u64,
        kind: Kind,
        reply: Option<&Reply>,
    ) -> Result<(), AllocError>
        requires going { self.old.closed ≡ false }
        requires way { is_some (bound_in self.old) ≡ true }
        requires after { IsAfter self.old.met (numbered conf.now) }
        requires status { IfSome reply (λ r. r.now.status < 1000) }
        ensures ok { OnOk result ((c : Connection) (a : Account) (bound : Numbered) (message : Message)
            (used : ℕ) → IsConcluding H.reply_of c a bound message used came.now self.old
            → Shows H.reply_of c
            (on_answer c (numbered conf.now) bound (receipt_of bound.0 stream kind)
            (request_in c message)
            (concluded (option_map (λ r. r.now) reply.entry) c bound.1 (request_in c message))
            used a) self.new) }
        ensures after { (next : Numbered) → IsAfter self.old.met next
            → IsAfter (Some (numbered conf.now)) next → IsAfter self.new.met next }
        ensures ended { self.new.ended ≡ self.old.ended }
        ensures going { OnErr result (self.new.closed ≡ false) }
        ensures grows { Grows self.old self.new }
    {
        let answer = self.concluded(alloc, came, reply)?;
        self.reply(alloc, Some(&came.asks.1), answer.reply(), stream, kind)?;
        self.settle(alloc, conf)
    }

    // the handler's reply as the step changes it, or the one that the request is turned away
    fn concluded<'a>(
        &self,
        alloc: Global,
        came: &Pending,
        reply: Option<&'a Reply>,
    ) -> Result<Answer<'a>, AllocError>
        requires way { is_some (bound_in self.now) ≡ true }
        requires status { IfSome reply (λ r. r.now.status < 1000) }
        ensures reply { IfOk result (λ new. (bound : Numbered) → bound_in self.now ≡ Some bound
            → reply_in new ≡ concluded_by bound.1 came.now.step came.now.asks.1
            (option_map (λ r. r.now) reply.entry)) }
        ensures status { IfOk result (λ new. (reply_in new).status < 1000) }
    {
        let Some(met) = self.bound() else {
            unreachable!();
        };
        match reply {
            Some(reply) => {
                match fielded_if_changed(alloc, met.conf(), came.step, &came.asks.1, reply)? {
                    Some(made) => Ok(Answer::Made(made)),
                    None => Ok(Answer::Given(reply)),
                }
            }
            None => Ok(Answer::Made(error_reply(alloc, UNAVAILABLE)?)),
        }
    }
}

// takes all bytes away; where they have little room it stays
fn empty(alloc: Global, bytes: &mut Bytes)
    ensures { bytes.new ≡ [] }
{
    let mut items = replace(bytes, Bytes::of(Vec::new(alloc))).into_vec();
    if items.capacity() <= KEPT_ROOM {
        items.clear();
        *bytes = Bytes::of(items);
    }
}
