//! A connection over a socket.
ghost use Rattle.std.specs.Prelude.{◌≡◌, ◌≤◌, ℕ, length, IfOk};

use crate::flags::{CLOSING, GONE, READABLE, TAKEN, WRITABLE};
use crate::side::Place;
use crate::standard::copy_front;
use mio::net::TcpStream;
use std::io;
use std::io::{ErrorKind, Read, Write};
use std::marker::Model;
use unit_io::{Conn, ConnCheck, ConnRead, ConnWrite, Ticket};
use unit_types::{Addr, Bytes};

/// What a `NetConn` was. Of its bytes nothing is told.
#[derive(Debug, Drop)]
pub struct NetTicket {
    /// The connection's number at its link.
    pub number: u64,
    /// The name of its listener, as `127.0.0.1:8080`.
    pub listener: Bytes,
    /// The client's address.
    pub from: Addr,
    /// The address at which it was accepted.
    pub to: Addr,
    /// Whether End was answered.
    pub ended: bool,
    /// How many calls failed.
    pub faults: u64,
}

impl Ticket for NetTicket {
    ghost use Rattle.std.specs.Prelude.{None};

    ghost number = { λ t. t.number };

    ghost listener_name = { λ t. t.listener };

    ghost from_addr = { λ t. t.from };

    ghost to_addr = { λ t. t.to };

    ghost came = { λ _. None };

    ghost went = { λ _. None };

    ghost ended = { λ t. t.ended };

    ghost faults = { λ t. t.faults };
}

/// What a read of a wire gave.
#[derive(Clone, Copy, Drop)]
enum Fetched {
    Bytes(usize),
    End,
    NotYet,
    Failed,
}

/// What a write to a wire gave.
#[derive(Clone, Copy, Drop)]
enum Sent {
    Bytes(usize),
    NotYet,
    Failed,
}

// Reads at most so many bytes into the front of the piece.
fn read_front(stream: &mut TcpStream, piece: &mut [u8], most: usize) -> io::Result<usize>
    requires { most ≤ length piece.old }
    ensures size { length piece.new ≡ length piece.old }
    ensures bound { IfOk result (λ n. n ≤ most) }
{
    stream.read(&mut piece[..most])
}

/// A socket, its place at the link, and the piece that it reads into: a reader of the system may write anywhere in what it
/// is given. The socket is closed before its place is free.
#[derive(Drop)]
struct Wire {
    stream: TcpStream,
    place: Place,
    piece: Vec<u8>,
}

impl Wire {
    // Reads at most so many bytes into the front of the piece. The system is asked only where the flags say that it may
    // have some. A read that leaves room has emptied the socket, so the flag falls, but not where the client sends no more:
    // its end comes with no event of its own.
    fn fetch(&mut self, most: usize) -> Fetched
        ensures some { (n : ℕ) → result ≡ Fetched.Bytes n → (1 ≤ n) × (n ≤ most) }
        ensures there { (n : ℕ) → result ≡ Fetched.Bytes n → n ≤ length self.new.piece.items }
    {
        let flags = self.place.flags().all();
        if flags & TAKEN != 0 {
            return Fetched::Failed;
        }
        if flags & READABLE == 0 {
            self.place.waits_for_bytes();
            return Fetched::NotYet;
        }
        let most = most.min(self.piece.len());
        match read_front(&mut self.stream, self.piece.as_mut_slice(), most) {
            Ok(0) => {
                self.place.ends();
                Fetched::End
            }
            Ok(n) => {
                if n < most {
                    self.is_dry(flags);
                }
                self.place.got();
                Fetched::Bytes(n)
            }
            Err(error) => self.unfetched(error.kind(), flags),
        }
    }

    // What a read gives that met this error. Where it was interrupted the flag stays, so the next one asks again.
    fn unfetched(&mut self, kind: ErrorKind, flags: u8) -> Fetched
        ensures { (n : ℕ) → result ≡ Fetched.Bytes n → ⊥ }
    {
        if kind == ErrorKind::WouldBlock {
            self.is_dry(flags);
        } else if kind != ErrorKind::Interrupted {
            return Fetched::Failed;
        }
        self.place.waits_for_bytes();
        Fetched::NotYet
    }

    // Notes that the socket has no more bytes for now.
    fn is_dry(&self, flags: u8) {
        if flags & CLOSING == 0 {
            self.place.flags().lower(READABLE);
        }
    }

    // Writes a front of the bytes. The system is asked only where the flags say that it may take some.
    fn send(&mut self, bytes: &[u8]) -> Sent
        ensures { (n : ℕ) → result ≡ Sent.Bytes n → (1 ≤ n) × (n ≤ length bytes.now) }
    {
        let flags = self.place.flags();
        if flags.has(TAKEN) {
            return Sent::Failed;
        }
        if !flags.has(WRITABLE) {
            self.place.waits_for_room();
            return Sent::NotYet;
        }
        match self.stream.write(bytes) {
            // A socket that takes nothing of some bytes would never take them.
            Ok(0) => Sent::Failed,
            Ok(n) => {
                if n < bytes.len() {
                    self.place.flags().lower(WRITABLE);
                }
                self.place.wrote();
                Sent::Bytes(n)
            }
            Err(error) => self.unsent(error.kind()),
        }
    }

    // What a write gives that met this error. Where it was interrupted the flag stays, so the next one asks again.
    fn unsent(&mut self, kind: ErrorKind) -> Sent
        ensures { (n : ℕ) → result ≡ Sent.Bytes n → ⊥ }
    {
        if kind == ErrorKind::WouldBlock {
            self.place.flags().lower(WRITABLE);
        } else if kind != ErrorKind::Interrupted {
            return Sent::Failed;
        }
        self.place.waits_for_room();
        Sent::NotYet
    }

    // Whether nothing speaks against the connection. The system isn't asked. A client that has only shut down its sending
    // side still waits for its reply.
    fn stands(&mut self) -> bool {
        self.place.looked_at();
        !self.place.flags().has(GONE | TAKEN)
    }
}

/// A connection over a socket of a `NetLink`.
///
/// A call asks the system only where the link has seen that it may give or take bytes. What it gives and takes is the
/// system's, and nothing is told of it.
#[derive(Drop)]
pub struct NetConn {
    // What a read needs that asks nothing of the system stands side by side.
    ended: bool,
    waits: u64,
    wire: Wire,
    listener: Bytes,
    number: u64,
    from: Addr,
    to: Addr,
    faults: u64,
}

impl Model for NetConn {
    ghost use Rattle.unit_net.specs.Edge.{NetConnState};

    ghost Value = { NetConnState };

    ghost view = { λ c. record {
      number = c.number;
      listener = c.listener;
      from = c.from;
      to = c.to;
      ended = c.ended;
      faults = c.faults;
      waits = c.waits;
    } };
}

/// What a connection needs of memory.
#[derive(Drop)]
pub(crate) struct Spare {
    /// What it reads into.
    pub(crate) piece: Vec<u8>,
    /// The name of its listener.
    pub(crate) listener: Bytes,
}

impl NetConn {
    ghost use Rattle.unit_net.specs.Edge.{accepted_conn};

    /// A connection of which nothing was asked yet.
    pub(crate) fn accepted(
        stream: TcpStream,
        place: Place,
        spare: Spare,
        number: u64,
        from: Addr,
        to: Addr,
    ) -> NetConn
        ensures { result ≡ accepted_conn number spare.listener from to }
    {
        let Spare { piece, listener } = spare;
        NetConn {
            ended: false,
            waits: 0,
            wire: Wire {
                stream,
                place,
                piece,
            },
            listener,
            number,
            from,
            to,
            faults: 0,
        }
    }
}

impl Conn for NetConn {
    ghost use Rattle.std.specs.Prelude.{None};

    type Ticket = NetTicket;

    ghost number = { λ c. c.number };

    ghost listener_name = { λ c. c.listener };

    ghost from_addr = { λ c. c.from };

    ghost to_addr = { λ c. c.to };

    ghost came = { λ _. None };

    ghost went = { λ _. None };

    ghost ended = { λ c. c.ended };

    ghost faults = { λ c. c.faults };

    ghost waits = { λ c. c.waits };

    fn read(&mut self, buf: &mut [u8]) -> ConnRead {
        if self.ended {
            return ConnRead::End;
        }
        match self.wire.fetch(buf.len()) {
            Fetched::Bytes(n) => {
                copy_front(self.wire.piece.as_slice(), n, buf);
                ConnRead::Got(n)
            }
            Fetched::End => {
                self.ended = true;
                ConnRead::End
            }
            Fetched::NotYet => {
                self.waits = self.waits.saturating_add(1);
                ConnRead::NotYet
            }
            Fetched::Failed => {
                self.faults = self.faults.saturating_add(1);
                ConnRead::Failed
            }
        }
    }

    fn write(&mut self, bytes: &[u8]) -> ConnWrite {
        match self.wire.send(bytes) {
            Sent::Bytes(n) => ConnWrite::Wrote(n),
            Sent::NotYet => {
                self.waits = self.waits.saturating_add(1);
                ConnWrite::NotYet
            }
            Sent::Failed => {
                self.faults = self.faults.saturating_add(1);
                ConnWrite::Failed
            }
        }
    }

    fn check(&mut self) -> ConnCheck {
        if self.wire.stands() {
            return ConnCheck::Alive;
        }
        self.faults = self.faults.saturating_add(1);
        ConnCheck::Failed
    }

    fn from(&self) -> Addr {
        self.from
    }

    fn to(&self) -> Addr {
        self.to
    }

    fn listener(&self) -> &[u8] {
        self.listener.as_slice()
    }

    fn close(self) -> NetTicket {
        NetTicket {
            number: self.number,
            listener: self.listener,
            from: self.from,
            to: self.to,
            ended: self.ended,
            faults: self.faults,
        }
    }
}
