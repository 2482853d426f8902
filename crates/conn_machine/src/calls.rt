//! The calls of a machine.
ghost use Rattle.std.specs.Prelude.{◌≡◌, ◌<◌, ◌≤◌, true, false, Some, IfOk, IfSome, OnOk, OnErr};
ghost use Rattle.std.specs.Option.{is_some};
ghost use Rattle.conf_validate.specs.Current.{numbered};
ghost use Rattle.conn_machine.specs.Answers.{Connection, reply_to};
ghost use Rattle.conn_machine.specs.Calls.{Account, on_bytes, on_end, opened};
ghost use Rattle.conn_machine.specs.declared.receipt.Kind.TheVariants.{App, Busy, Late};
ghost use Rattle.conn_machine.specs.declared.receipt.Need.TheVariants.{Ask};
ghost use Rattle.conn_machine.specs.Replying.{IsReplied, unavailable};
ghost use Rattle.conn_machine.specs.Shows.{IsAfter, IsAsBefore, Shows, asking_in, connection_of, need_in, timeout_in_held};
ghost use Rattle.conn_machine.specs.States.{Numbered};

use crate::machine::Machine;
use crate::receipt::{Kind, Why};
use conf_validate::Current;
use http_front::{Reader, laws_of_units};
use std::alloc::{AllocError, Global};
use unit_types::{Addr, Bytes, Handlers, Reply};

impl<H: Handlers> Machine<H> {
    /// The machine of a connection whose first piece is `bytes`, which it doesn't copy.
    ///
    /// Fails for want of memory alone.
    pub fn over(
        alloc: Global,
        listener: Bytes,
        from: Addr,
        to: Addr,
        bytes: Bytes,
        conf: &Current,
    ) -> Result<Machine<H>, AllocError>
        ensures shows { IfOk result (λ machine. Shows H.reply_of
            (connection_of listener from to H.reply_of)
            (on_bytes (connection_of listener from to H.reply_of) (numbered conf.now) bytes opened)
            machine) }
        ensures after { IfOk result (λ machine. (next : Numbered)
            → IsAfter (Some (numbered conf.now)) next → IsAfter machine.met next) }
        ensures ended { IfOk result (λ machine. machine.ended ≡ false) }
        ensures given_up { IfOk result (λ machine. machine.given_up ≡ false) }
    {
        let reader = Reader::over(bytes, from, to);
        let mut machine = Machine::begun(alloc, listener, from, to, reader)?;
        machine.settle(alloc, conf)?;
        Ok(machine)
    }

    /// Takes the next bytes of the client, and answers what the server answers itself.
    ///
    /// Fails for want of memory alone; it stands then as before.
    pub fn on_bytes(
        &mut self,
        alloc: Global,
        conf: &Current,
        piece: &[u8],
    ) -> Result<(), AllocError>
        requires after { IsAfter self.old.met (numbered conf.now) }
        requires ended { self.old.ended ≡ false }
        requires given_up { self.old.given_up ≡ false }
        ensures ok { OnOk result ((c : Connection) (a : Account) → Shows H.reply_of c a self.old
            → Shows H.reply_of c (on_bytes c (numbered conf.now) piece.now a) self.new) }
        ensures err { OnErr result (IsAsBefore H.reply_of self.old self.new) }
        ensures after { (next : Numbered) → IsAfter self.old.met next
            → IsAfter (Some (numbered conf.now)) next → IsAfter self.new.met next }
        ensures ended { self.new.ended ≡ false }
        ensures given_up { self.new.given_up ≡ false }
    {
        // What is found in bytes stays where more come.
        laws_of_units();
        self.is_bounded();
        if self.closed {
            return Ok(());
        }
        self.begin(alloc);
        self.reader.feed(alloc, piece)?;
        if self.pending.is_some() {
            return Ok(());
        }
        let place = self.place();
        self.settle_or_go_back(alloc, conf, place)
    }

    /// The client sends no more, and what it sent is answered where the server answers it itself.
    ///
    /// Fails for want of memory alone; it stands then as before.
    pub fn on_end(&mut self, alloc: Global, conf: &Current) -> Result<(), AllocError>
        requires after { IsAfter self.old.met (numbered conf.now) }
        requires ended { self.old.ended ≡ false }
        requires given_up { self.old.given_up ≡ false }
        ensures ok { OnOk result ((c : Connection) (a : Account) → Shows H.reply_of c a self.old
            → Shows H.reply_of c (on_end c (numbered conf.now) a) self.new) }
        ensures err { OnErr result (IsAsBefore H.reply_of self.old self.new) }
        ensures after { (next : Numbered) → IsAfter self.old.met next
            → IsAfter (Some (numbered conf.now)) next → IsAfter self.new.met next }
        ensures ended { OnErr result (self.new.ended ≡ false) }
        ensures given_up { self.new.given_up ≡ false }
    {
        laws_of_units();
        self.is_bounded();
        if self.closed || self.pending.is_some() {
            self.reader.end();
            self.ended = true;
            return Ok(());
        }
        self.begin(alloc);
        let place = self.place();
        self.reader.end_marked();
        self.ended = true;
        self.settle_or_go_back(alloc, conf, place)
    }

    /// The handler replied to what is asked, under this stream.
    ///
    /// Fails for want of memory alone; it stands then as before.
    pub fn on_reply(
        &mut self,
        alloc: Global,
        stream: u64,
        reply: &Reply,
        conf: &Current,
    ) -> Result<(), AllocError>
        requires ask { need_in self.old ≡ Ask }
        requires after { IsAfter self.old.met (numbered conf.now) }
        requires stream { 0 < stream }
        requires reply { IfSome (asking_in self.old)
            (λ asked. reply.now ≡ H.reply_of asked.0 asked.1) }
        ensures ok { OnOk result ((c : Connection) (a : Account) → Shows H.reply_of c a self.old
            → IsReplied H.reply_of c (numbered conf.now) a self.old.pending stream App reply_to
            self.new) }
        ensures err { OnErr result (IsAsBefore H.reply_of self.old self.new) }
        ensures after { (next : Numbered) → IsAfter self.old.met next
            → IsAfter (Some (numbered conf.now)) next → IsAfter self.new.met next }
        ensures ended { self.new.ended ≡ self.old.ended }
        ensures given_up { self.new.given_up ≡ self.old.given_up }
    {
        self.conclude(alloc, conf, stream, Kind::App, Some(reply))
    }

    /// What is asked was turned away, under this stream or, where it is 0, before one was drawn.
    ///
    /// Fails for want of memory alone; it stands then as before.
    pub fn on_busy(
        &mut self,
        alloc: Global,
        stream: u64,
        why: Why,
        conf: &Current,
    ) -> Result<(), AllocError>
        requires ask { need_in self.old ≡ Ask }
        requires after { IsAfter self.old.met (numbered conf.now) }
        ensures ok { OnOk result ((c : Connection) (a : Account) → Shows H.reply_of c a self.old
            → IsReplied H.reply_of c (numbered conf.now) a self.old.pending stream (Busy why)
            unavailable self.new) }
        ensures err { OnErr result (IsAsBefore H.reply_of self.old self.new) }
        ensures after { (next : Numbered) → IsAfter self.old.met next
            → IsAfter (Some (numbered conf.now)) next → IsAfter self.new.met next }
        ensures ended { self.new.ended ≡ self.old.ended }
        ensures given_up { self.new.given_up ≡ self.old.given_up }
    {
        self.conclude(alloc, conf, stream, Kind::Busy(why), None)
    }

    /// No reply to what is asked came before its deadline; `now` is the reading of the clock that was at or past it. Both are in
    /// milliseconds.
    ///
    /// Fails for want of memory alone; it stands then as before.
    pub fn on_late(
        &mut self,
        alloc: Global,
        stream: u64,
        deadline: u64,
        now: u64,
        conf: &Current,
    ) -> Result<(), AllocError>
        requires ask { need_in self.old ≡ Ask }
        requires after { IsAfter self.old.met (numbered conf.now) }
        requires stream { 0 < stream }
        requires timeout { is_some (timeout_in_held self.old) ≡ true }
        requires late { deadline ≤ now }
        ensures ok { OnOk result ((c : Connection) (a : Account) → Shows H.reply_of c a self.old
            → IsReplied H.reply_of c (numbered conf.now) a self.old.pending stream
            (Late deadline now) unavailable self.new) }
        ensures err { OnErr result (IsAsBefore H.reply_of self.old self.new) }
        ensures after { (next : Numbered) → IsAfter self.old.met next
            → IsAfter (Some (numbered conf.now)) next → IsAfter self.new.met next }
        ensures ended { self.new.ended ≡ self.old.ended }
        ensures given_up { self.new.given_up ≡ self.old.given_up }
    {
        self.conclude(alloc, conf, stream, Kind::Late { deadline, now }, None)
    }
}
