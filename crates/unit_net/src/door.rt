//! The door of a link: the listening socket, the poll, and the places of its connections.
ghost use Rattle.std.specs.Prelude.{◌≡◌};

use crate::bell::{EngineBell, WorkBell};
use crate::conn::{NetConn, Spare};
use crate::flags::{CLOSING, FREE, Flags, GONE, MOVED, READABLE, TAKEN, WRITABLE};
use crate::side::{EngineSide, Place};
use crate::silent::Silences;
use mio::event::Event;
use mio::net::{TcpListener, TcpStream};
use mio::{Events, Interest, Poll, Token, Waker};
use std::alloc::{AllocError, AllocGlobal, Global};
use std::io;
use std::io::ErrorKind;
use std::net::{Ipv4Addr, Net, SocketAddr};
use std::sync::Arc;
use std::time::Duration;
use unit_types::{Addr, Bytes};

/// How many connections a link has at most.
const PLACES: usize = 256;

/// How many events a look takes in at most.
const EVENTS: usize = 512;

/// How many accepts without a look it takes until the door looks around.
const LOOK_EVERY: u8 = 4;

/// Bytes that a connection reads at once.
const PIECE: usize = 16_384;

/// Milliseconds that the engine sleeps at most. No bell rings where a run is stopped, and deadlines need a clock, so no sleep is
/// without an end.
const ENGINE_SLEEP: u64 = 50;

// The tokens of connections are their places, below `PLACES`.
const LISTENER: Token = Token(PLACES);

const WAKER: Token = Token(PLACES + 1);

/// What an accept met.
#[derive(Drop)]
pub(crate) enum Met {
    /// A new connection.
    Conn(NetConn),
    /// None is there, or none can be taken in for now.
    NotYet,
    /// The socket failed.
    Failed,
}

/// A door that listens, or has listened.
#[derive(Drop)]
pub(crate) struct Door {
    alloc: Global,
    poll: Poll,
    events: Events,
    listener: Option<TcpListener>,
    places: Vec<Arc<Flags>>,
    silences: Silences,
    side: Arc<EngineSide>,
    work: Option<Arc<WorkBell>>,
    name: Bytes,
    to: Addr,
    spare: Option<Spare>,
    handed: u64,
    // The moves of bytes at the last ring for the workers, and at the last rest.
    rung: u64,
    rested: u64,
    // Accepts since the last look.
    accepts: u8,
    // The listener may have a client.
    called: bool,
    // Something was noted since the last rest, and the engine hasn't looked at its connections since.
    fresh: bool,
}

impl Door {
    /// A door that listens on that port of 127.0.0.1, or on a free one where it is 0.
    ///
    /// Fails where the system gives no socket at that port, and for want of memory.
    pub(crate) fn open<R: Net + AllocGlobal>(rt: &R, port: u16) -> io::Result<Door> {
        let alloc = rt.alloc();
        let poll = Poll::new(rt)?;
        let waker = Waker::new(poll.registry(), WAKER)?;
        let address = SocketAddr::from((Ipv4Addr::LOCALHOST, port));
        let mut listener = TcpListener::bind(rt, address)?;
        poll.registry()
            .register(&mut listener, LISTENER, Interest::READABLE)?;
        let to = address_of(listener.local_addr()?);
        let side = Arc::new(alloc, EngineSide::new(EngineBell::new(waker)))?;
        Ok(Door {
            alloc,
            poll,
            events: Events::with_capacity(alloc, EVENTS)?,
            listener: Some(listener),
            places: free_places(alloc)?,
            silences: Silences::of(alloc, PLACES)?,
            side,
            work: None,
            name: name_of(alloc, to.port)?,
            to,
            spare: None,
            handed: 0,
            rung: 0,
            rested: 0,
            accepts: 0,
            called: false,
            fresh: false,
        })
    }

    /// The port.
    pub(crate) fn port(&self) -> u16 {
        self.to.port
    }

    /// What it shares with the gate.
    pub(crate) fn side(&self) -> &Arc<EngineSide> {
        &self.side
    }

    /// Has the door ring that bell for the workers.
    pub(crate) fn ring_at(&mut self, work: Arc<WorkBell>) {
        self.work = Some(work);
    }

    /// Listens no more. Clients that wait are turned away by the system.
    pub(crate) fn shut(&mut self) {
        self.listener = None;
        self.called = false;
    }

    /// At every fourth accept since the last look: a look at what the system has to say, which doesn't wait, and a ring for the
    /// workers where bytes moved since the last one.
    pub(crate) fn look_around(&mut self) {
        self.accepts = self.accepts.saturating_add(1);
        if self.accepts < LOOK_EVERY {
            return;
        }
        self.look(Duration::ZERO);
        let moves = self.side.moves();
        if moves != self.rung {
            self.ring_workers(moves);
        }
    }

    /// The next connection. The system is asked only where the listener may have a client and a place is free.
    pub(crate) fn next(&mut self) -> Met
        ensures { (c : NetConn) → result ≡ Met.Conn c → c.faults ≡ 0 }
    {
        if !self.called {
            return Met::NotYet;
        }
        let Some(place) = self.free_place() else {
            return Met::NotYet;
        };
        // Memory is asked for before the system, so that no client is lost for want of it.
        let Ok(spare) = self.take_spare() else {
            return Met::NotYet;
        };
        let Some(listener) = &self.listener else {
            return Met::Failed;
        };
        match listener.accept() {
            Ok((stream, from)) => self.seat(stream, address_of(from), place, spare),
            Err(error) => {
                self.spare = Some(spare);
                self.unmet(&error)
            }
        }
    }

    /// Waits until a connection may be there, or one of its connections may have something to say, or a worker rings. `now`
    /// is the time in milliseconds.
    ///
    /// The engine rests where a whole turn changed nothing, so all that it has for the workers is with them: they are rung
    /// where bytes moved since the last rest, whether or not they were rung in between.
    pub(crate) fn rest(&mut self, now: u64) {
        let moves = self.side.moves();
        if moves != self.rested {
            self.rested = moves;
            self.ring_workers(moves);
        }
        self.silences.look(self.places.as_slice(), now);
        self.make_room(now);
        if !self.side.bell().take() && !self.fresh && !self.is_answered_soon() {
            self.sleep();
        }
        self.fresh = false;
    }

    // Takes in what the system has to say, and waits at most so long for it.
    fn look(&mut self, limit: Duration) {
        self.accepts = 0;
        if self.poll.poll(&mut self.events, Some(limit)).is_err() {
            return;
        }
        for event in &self.events {
            let token = event.token();
            if token == LISTENER {
                self.called = true;
                self.fresh = true;
            } else if let Some(flags) = self.places.get(token.0) {
                note(flags, event);
                self.fresh = true;
            }
        }
    }

    // Rings for the workers at so many moves of bytes.
    fn ring_workers(&mut self, moves: u64) {
        self.rung = moves;
        if let Some(work) = &self.work {
            work.ring();
        }
    }

    // Looks and lets others run for a while, where a request is with a worker; whether there was news.
    fn is_answered_soon(&mut self) -> bool {
        if !self.side.is_asking() {
            return false;
        }
        self.look(Duration::ZERO);
        self.fresh || self.side.bell().take_soon()
    }

    // Sleeps until there is news, but not for long.
    fn sleep(&mut self) {
        if self.side.bell().lie_down() {
            self.look(Duration::from_millis(ENGINE_SLEEP));
        }
        self.side.bell().get_up();
    }

    // Where all places are taken and a client waits, marks the connection that was silent for longest, at least ten
    // seconds. At most one is marked at a time.
    fn make_room(&mut self, now: u64) {
        if !self.called || !self.silences.may_be_due(now) {
            return;
        }
        if self.places.iter().any(|flags| flags.has(FREE | TAKEN)) {
            return;
        }
        let Some(place) = self.silences.longest(self.places.as_slice(), now) else {
            return;
        };
        if !self.is_called() {
            return;
        }
        if let Some(flags) = self.places.get(place) {
            flags.raise(TAKEN);
            self.fresh = true;
        }
    }

    // Whether the listener has a client now: to register it again reports again what is there.
    fn is_called(&mut self) -> bool {
        self.called = false;
        if let Some(listener) = &mut self.listener {
            // Where it fails, nothing is reported.
            let _ = self
                .poll
                .registry()
                .reregister(listener, LISTENER, Interest::READABLE);
        }
        self.look(Duration::ZERO);
        self.called
    }

    fn free_place(&self) -> Option<usize> {
        self.places.iter().position(|flags| flags.has(FREE))
    }

    // What the next connection needs of memory.
    fn take_spare(&mut self) -> Result<Spare, AllocError> {
        match self.spare.take() {
            Some(spare) => Ok(spare),
            None => Ok(Spare {
                piece: vec![in self.alloc; 0u8; PIECE]?,
                listener: Bytes::copy_of(self.alloc, self.name.as_slice())?,
            }),
        }
    }

    // Gives a stream its place. One that can't have it is closed.
    fn seat(&mut self, stream: TcpStream, from: Addr, at: usize, spare: Spare) -> Met
        ensures { (c : NetConn) → result ≡ Met.Conn c → c.faults ≡ 0 }
    {
        let mut stream = stream;
        // Fails where the client is gone already, which the first read tells.
        let _ = stream.set_nodelay(true);
        let Some(flags) = self.places.get(at) else {
            return Met::NotYet;
        };
        let Ok(place) = Place::at(flags, &self.side) else {
            return Met::NotYet;
        };
        let both = Interest::READABLE | Interest::WRITABLE;
        if self
            .poll
            .registry()
            .register(&mut stream, Token(at), both)
            .is_err()
        {
            return Met::NotYet;
        }
        place.flags().reset(READABLE | WRITABLE | MOVED);
        let number = self.handed;
        self.handed = number.saturating_add(1);
        Met::Conn(NetConn::accepted(stream, place, spare, number, from, self.to))
    }

    // What an accept gives that met this error. The listener stays called where another accept may find a client.
    fn unmet(&mut self, error: &io::Error) -> Met
        ensures { (c : NetConn) → result ≡ Met.Conn c → ⊥ }
    {
        if error.kind() == ErrorKind::WouldBlock {
            self.called = false;
            return Met::NotYet;
        }
        if is_passing(error) {
            Met::NotYet
        } else {
            Met::Failed
        }
    }
}

/// Linux's numbers for too many open files, in the process and in the system, and for want of memory for sockets.
const OUT_OF_ROOM: [i32; 3] = [24, 23, 105];

// Whether an accept met an error that says nothing of the next one: the client left, or the system has no room for now.
fn is_passing(error: &io::Error) -> bool {
    let kind = error.kind();
    if kind == ErrorKind::ConnectionAborted
        || kind == ErrorKind::Interrupted
        || kind == ErrorKind::OutOfMemory
    {
        return true;
    }
    match error.raw_os_error() {
        Some(code) => OUT_OF_ROOM.contains(&code),
        None => false,
    }
}

// Sets the flags that an event tells. An event of a place that was freed since says nothing.
fn note(flags: &Flags, event: &Event) {
    if flags.has(FREE) {
        return;
    }
    let mut told = 0;
    if event.is_readable() {
        told |= READABLE;
    }
    if event.is_writable() {
        told |= WRITABLE;
    }
    if event.is_read_closed() {
        told |= READABLE | CLOSING;
    }
    if event.is_error() || event.is_write_closed() {
        told |= READABLE | WRITABLE | GONE;
    }
    flags.raise(told);
}

fn free_places(alloc: Global) -> Result<Vec<Arc<Flags>>, AllocError> {
    let mut places = Vec::with_capacity(alloc, PLACES)?;
    for _ in 0..PLACES {
        places.push(Arc::new(alloc, Flags::free())?)?;
    }
    Ok(places)
}

// The name of the listener at that port, as configurations have it.
fn name_of(alloc: Global, port: u16) -> Result<Bytes, AllocError> {
    let name = format!(in alloc; "127.0.0.1:{port}")?;
    Bytes::copy_of(alloc, name.as_bytes())
}

// An address of the fourth version of the protocol; the only one that a socket of 127.0.0.1 has.
fn address_of(address: SocketAddr) -> Addr {
    let ip = match address {
        SocketAddr::V4(address) => u32::from_be_bytes(address.ip().octets()),
        SocketAddr::V6(_) => 0,
    };
    Addr {
        ip,
        port: address.port(),
    }
}
