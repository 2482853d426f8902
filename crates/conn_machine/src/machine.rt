//! The machine of a connection.
ghost use Rattle.std.specs.Prelude.{◌≡◌, false, None, IfOk};
ghost use Rattle.conn_machine.specs.Calls.{Account, opened};
ghost use Rattle.conn_machine.specs.Answers.{Connection};
ghost use Rattle.conn_machine.specs.Shows.{Shows, connection_of, opened_held};

use crate::met::Met;
use crate::pending::Pending;
use crate::receipt::{Receipt, Receipts};
use http_front::Reader;
use std::alloc::{AllocError, Global};
use std::marker::{Model, PhantomData};
use unit_types::{Addr, Bytes, Handlers};

/// The most requests of a connection.
pub(crate) const REQUEST_LIMIT: u64 = 1000;

/// One connection to the handlers `H`: what came goes in, and what is to be written, what is to be asked and how its
/// requests ended come out. It does no input and output itself.
///
/// Contracts say where it stands by an account of what came and went (`Shows`), and hold for each one.
#[derive(Drop)]
pub struct Machine<H: Handlers> {
    pub(crate) listener: Bytes,
    pub(crate) from: Addr,
    pub(crate) to: Addr,
    pub(crate) reader: Reader,
    // the configuration of the newest request, the one before it where this call met a new one, and whether the newest
    // request is under way
    pub(crate) met: Option<Met>,
    pub(crate) former: Option<Met>,
    pub(crate) is_under_way: bool,
    pub(crate) pending: Option<Pending>,
    // how many requests may still come, with the one under way
    pub(crate) left: u64,
    // the number of the configuration of the last receipt
    pub(crate) last: u64,
    pub(crate) ended: bool,
    pub(crate) closed: bool,
    pub(crate) given_up: bool,
    pub(crate) out: Bytes,
    // how many bytes of `out` are written
    pub(crate) written: usize,
    pub(crate) lines: Bytes,
    pub(crate) receipts: Vec<Receipt>,
    pub(crate) handlers: PhantomData<H>,
}

impl<H: Handlers> Model for Machine<H> {
    ghost use Rattle.std.specs.Prelude.{◌≡◌, ◌≤◌, ◌<◌, true, false, length, drop, vec_len, vec_capacity};
    ghost use Rattle.std.specs.Option.{is_some};
    ghost use Rattle.http_front.specs.Session.{request_limit};
    ghost use Rattle.conn_machine.specs.Shows.{Held};

    ghost Value = { Held };

    ghost view = { λ m. record {
      listener = m.listener;
      from = m.from;
      to = m.to;
      reader = m.reader;
      met = m.met;
      former = m.former;
      is_under_way = m.is_under_way;
      pending = m.pending;
      left = m.left;
      last = m.last;
      ended = m.ended;
      closed = m.closed;
      given_up = m.given_up;
      out = drop m.written m.out;
      lines = m.lines;
      receipts = m.receipts.items;
    } };

    ghost invariant = { λ m. (m.written ≤ length m.out) × (m.closed ≡ false → vec_len m.receipts < vec_capacity m.receipts) × (m.left ≤ request_limit) × (m.closed ≡ false → 1 ≤ m.left) × (m.is_under_way ≡ true → is_some m.met ≡ true) };
}

impl<H: Handlers> Machine<H> {
    /// The machine of a connection that this listener accepted, before its first byte.
    ///
    /// Fails for want of memory alone.
    pub fn open(
        alloc: Global,
        listener: Bytes,
        from: Addr,
        to: Addr,
    ) -> Result<Machine<H>, AllocError>
        ensures shows { IfOk result (λ machine. Shows H.reply_of
            (connection_of listener from to H.reply_of) opened machine) }
        ensures met { IfOk result (λ machine. machine.met ≡ None) }
        ensures ended { IfOk result (λ machine. machine.ended ≡ false) }
        ensures given_up { IfOk result (λ machine. machine.given_up ≡ false) }
    {
        let reader = Reader::open(alloc, from, to)?;
        Machine::begun(alloc, listener, from, to, reader)
    }

    // the same over a reader
    pub(crate) fn begun(
        alloc: Global,
        listener: Bytes,
        from: Addr,
        to: Addr,
        reader: Reader,
    ) -> Result<Machine<H>, AllocError>
        ensures { IfOk result (λ machine. machine ≡ opened_held listener from to reader) }
    {
        Ok(Machine {
            listener,
            from,
            to,
            reader,
            met: None,
            former: None,
            is_under_way: false,
            pending: None,
            left: REQUEST_LIMIT,
            last: 0,
            ended: false,
            closed: false,
            given_up: false,
            out: Bytes::of(Vec::new(alloc)),
            written: 0,
            lines: Bytes::of(Vec::new(alloc)),
            receipts: Vec::with_capacity(alloc, 1)?,
            handlers: PhantomData,
        })
    }

    /// What is left in the end: the receipts of the requests, and the lines of the log. It takes no memory.
    pub fn close(self) -> (Receipts, Bytes)
        ensures value { result ≡ (self.receipts, self.lines) }
        ensures receipts { (c : Connection) (a : Account) → Shows H.reply_of c a self
            → result.0 ≡ a.told.receipts }
        ensures lines { (c : Connection) (a : Account) → Shows H.reply_of c a self
            → result.1 ≡ a.state.lines }
    {
        (Receipts::of(self.receipts), self.lines)
    }
}
