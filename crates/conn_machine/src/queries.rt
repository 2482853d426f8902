//! What a machine shows.
ghost use Rattle.std.specs.Prelude.{◌≡◌, ◌≤◌, ℕ, Some, IfSome, drop, length, option_map};
ghost use Rattle.conf_validate.specs.Kept.{IsKept};
ghost use Rattle.request_context.specs.Record.{asked_with};
ghost use Rattle.conn_machine.specs.Answers.{Connection};
ghost use Rattle.conn_machine.specs.Calls.{Account, wrote};
ghost use Rattle.conn_machine.specs.Records.{HasShortRecord, record_limit, rewrite_of};
ghost use Rattle.conn_machine.specs.Shows.{Shows, asking_in, bound_in, need_in, timeout_in_held};
ghost use Rattle.conn_machine.specs.States.{Numbered, asking_of, need_of, timeout_of};

use crate::machine::Machine;
use crate::met::Met;
use crate::receipt::Need;
use crate::records::laws_of_records;
use unit_types::{Bytes, Handlers, Request};

impl<H: Handlers> Machine<H> {
    /// What it waits for.
    pub fn need(&self) -> Need
        ensures value { result ≡ need_in self.now }
        ensures need { (c : Connection) (a : Account) → Shows H.reply_of c a self.now
            → need_in self.now ≡ need_of c a.state }
    {
        if self.given_up {
            Need::Close
        } else if self.written < self.out.as_slice().len() {
            Need::Write
        } else if self.closed {
            Need::Close
        } else if self.bound().is_some() {
            if self.pending.is_some() {
                Need::Ask
            } else {
                Need::Read
            }
        } else if self.ended {
            Need::Close
        } else {
            Need::Read
        }
    }

    // the configuration of the request under way
    pub(crate) fn bound(&self) -> Option<&Met>
        ensures { option_map (λ m. m.now) result ≡ bound_in self.now }
    {
        if self.is_under_way {
            self.met.as_ref()
        } else {
            None
        }
    }

    // what the configuration of the request under way keeps, as a fact of its value; it does nothing
    fn is_kept(&self)
        ensures { (bound : Numbered) → bound_in self.now ≡ Some bound → IsKept bound.1 }
    {
        let Some(met) = self.bound() else {
            return;
        };
        met.conf().is_kept();
    }

    /// The name of the handler that is asked, and the request as it is asked, where a reply is needed.
    ///
    /// Under any stream its record can be written. It has at most 10,350,000 bytes, and at most 10,065,536 where its step
    /// has no `rewrite`.
    pub fn asking(&self) -> Option<&(Bytes, Request)>
        ensures value { option_map (λ asked. asked.now) result ≡ asking_in self.now }
        ensures asking { (c : Connection) (a : Account) → Shows H.reply_of c a self.now
            → asking_in self.now ≡ asking_of c a.state }
        ensures short { IfSome result (λ asked. (c : Connection) (a : Account) (stream : ℕ)
            → Shows H.reply_of c a self.now → HasShortRecord
            (record_limit (rewrite_of c a.state)) (asked_with stream asked.now.0 asked.now.1)) }
    {
        // Its record is short, since its configuration is a valid one.
        laws_of_records();
        self.is_kept();
        match self.need() {
            Need::Ask => match &self.pending {
                Some(pending) => Some(&pending.asks),
                None => None,
            },
            _ => None,
        }
    }

    /// After how many seconds the request that is asked is late, where a reply is needed and its application has a timeout.
    pub fn timeout(&self) -> Option<u64>
        ensures value { result ≡ timeout_in_held self.now }
        ensures timeout { (c : Connection) (a : Account) → Shows H.reply_of c a self.now
            → timeout_in_held self.now ≡ timeout_of c a.state }
    {
        match self.need() {
            Need::Ask => match &self.pending {
                Some(pending) => pending.timeout,
                None => None,
            },
            _ => None,
        }
    }

    /// The bytes that are to be written, all of them.
    pub fn out(&self) -> &[u8]
        ensures value { result.now ≡ self.now.out }
        ensures out { (c : Connection) (a : Account) → Shows H.reply_of c a self.now
            → result.now ≡ a.state.out }
    {
        &self.out.as_slice()[self.written..]
    }

    /// Says that so many of the bytes that `out` shows are written; no byte is moved.
    pub fn wrote(&mut self, n: usize)
        requires { n ≤ length self.old.out }
        ensures value { self.new ≡ record self.old { out = drop n self.old.out } }
        ensures shows { (c : Connection) (a : Account) → Shows H.reply_of c a self.old
            → Shows H.reply_of c (wrote n a) self.new }
    {
        self.pass_written(n);
    }

    fn pass_written(&mut self, n: usize)
        requires { n ≤ length self.old.out }
        ensures { self.new ≡ record self.old { out = drop n self.old.out } }
    {
        let left = self.out().len() - n;
        self.written = self.out.as_slice().len() - left;
    }

    /// The lines of the log so far.
    pub fn lines(&self) -> &Bytes
        ensures value { result.now ≡ self.now.lines }
        ensures lines { (c : Connection) (a : Account) → Shows H.reply_of c a self.now
            → result.now ≡ a.state.lines }
    {
        &self.lines
    }
}
