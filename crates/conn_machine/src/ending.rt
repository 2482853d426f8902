//! How a connection is given up.
ghost use Rattle.std.specs.Prelude.{◌≡◌, false};
ghost use Rattle.conn_machine.specs.Answers.{Connection};
ghost use Rattle.conn_machine.specs.Calls.{Account, on_gone};
ghost use Rattle.conn_machine.specs.declared.receipt.Kind.TheVariants.{Gone, Memory};
ghost use Rattle.conn_machine.specs.Shows.{Shows, bound_in, ended_with, given_up_as, number_or};

use crate::machine::Machine;
use crate::receipt::{Kind, Receipt};
use unit_types::Handlers;

impl<H: Handlers> Machine<H> {
    /// The client hung up. It takes no memory.
    ///
    /// `stream` is the one that was drawn for the request under way, or 0. `conf` is the number of the receipt where no
    /// request is under way. Where the connection is closed, there is no receipt.
    pub fn on_gone(&mut self, conf: u64, stream: u64)
        ensures value { self.new ≡ given_up_as conf stream Gone self.old }
        ensures shows { (c : Connection) (a : Account) → Shows H.reply_of c a self.old
            → Shows H.reply_of c (on_gone conf stream Gone a) self.new }
    {
        self.give_up(conf, stream, Kind::Gone);
    }

    /// Memory is wanting. It takes none. Else it is as `on_gone`.
    pub fn on_memory(&mut self, conf: u64, stream: u64)
        ensures value { self.new ≡ given_up_as conf stream Memory self.old }
        ensures shows { (c : Connection) (a : Account) → Shows H.reply_of c a self.old
            → Shows H.reply_of c (on_gone conf stream Memory a) self.new }
    {
        self.give_up(conf, stream, Kind::Memory);
    }

    fn give_up(&mut self, conf: u64, stream: u64, kind: Kind)
        ensures { self.new ≡ given_up_as conf stream kind self.old }
    {
        if !self.closed {
            let number = self.number_or(conf);
            self.end_with(number, stream, kind);
        }
        self.given_up = true;
    }

    // the number of the configuration of the request under way, or this one where none is
    pub(crate) fn number_or(&self, number: u64) -> u64
        ensures { result ≡ number_or (bound_in self.now) number }
    {
        match self.bound() {
            Some(met) => met.number(),
            None => number,
        }
    }

    // closes the connection without a reply
    pub(crate) fn end_with(&mut self, number: u64, stream: u64, kind: Kind)
        requires { self.old.closed ≡ false }
        ensures { self.new ≡ ended_with number stream kind self.old }
    {
        self.receipts.push_reserved(Receipt {
            conf: number,
            stream,
            kind,
        });
        self.is_under_way = false;
        self.pending = None;
        self.last = number;
        self.closed = true;
    }
}
