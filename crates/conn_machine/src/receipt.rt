//! How the requests of a connection ended.
ghost use Rattle.std.specs.Prelude.{◌≡◌};

use request_context::Asked;
use std::marker::Model;
use std::sync::Arc;
use unit_model::Seen;

/// Why a request was turned away with 503 (RFC 9110, section 15.6.4).
#[derive(Debug, Drop)]
pub enum Why {
    /// No run of chunks was free for its record.
    NoChunks {
        /// How many bytes the record has.
        size: u32,
        /// What the search for the run saw.
        seen: Box<Seen>,
    },
    /// No item was free: its queue's entry at that place was found as it is told.
    NoItem {
        /// The place that was looked at.
        place: u64,
        /// The entry that was found there.
        entry: u64,
    },
    /// A queue or the numbers of streams came to the end of their places.
    Worn {
        /// The place or the number that was found.
        place: u64,
    },
    /// Under its stream the reply to another request came.
    Stray(Arc<Asked>),
}

/// How a request ended, or a connection before its next one.
#[derive(Debug, Drop)]
pub enum Kind {
    /// A handler answered it.
    App,
    /// The server answered it: by a step of a route, or with an error.
    Own,
    /// It was turned away.
    Busy(Why),
    /// No reply came before its deadline.
    Late {
        /// The deadline, in milliseconds of the clock.
        deadline: u64,
        /// The reading that was at or past it.
        now: u64,
    },
    /// The client hung up.
    Gone,
    /// The input ended inside it.
    Cut,
    /// Memory was wanting.
    Memory,
}

/// How a request ended, under which configuration.
#[derive(Debug, Drop)]
pub struct Receipt {
    /// The number of its configuration.
    pub conf: u64,
    /// The stream that was drawn for it, 0 where none was.
    pub stream: u64,
    /// How it ended.
    pub kind: Kind,
}

/// The receipts of a connection, in the order of its requests. Contracts see the list itself.
#[derive(Debug, Drop)]
pub struct Receipts {
    list: Vec<Receipt>,
}

impl Model for Receipts {
    ghost use Rattle.std.specs.Prelude.{List};
    ghost use Rattle.conn_machine.specs.declared.receipt.Receipt.{Receipt};

    ghost Value = { List Receipt };

    ghost view = { λ r. r.list.items };
}

impl Receipts {
    /// The receipts of `list`, without a copy.
    pub fn of(list: Vec<Receipt>) -> Receipts
        ensures { result ≡ list.items }
    {
        Receipts { list }
    }

    /// The receipts as a slice.
    pub fn as_slice(&self) -> &[Receipt]
        ensures { result.now ≡ self.now }
    {
        self.list.as_slice()
    }
}

/// What a connection waits for.
#[derive(Debug, Clone, Copy, PartialEq, Eq, Drop)]
pub enum Need {
    /// More bytes, or the end of them.
    Read,
    /// The reply of a handler.
    Ask,
    /// That what is shown is written.
    Write,
    /// Nothing: it is to be closed.
    Close,
}
