//! A link over a listening socket.
ghost use Rattle.std.specs.Prelude.{◌≡◌, ℕ};

use crate::bell::WorkBell;
use crate::clock::SystemClock;
use crate::conn::NetConn;
use crate::door::{Door, Met};
use crate::side::EngineSide;
use std::alloc::{AllocError, AllocGlobal};
use std::marker::Model;
use std::net::Net;
use std::sync::atomic::AtomicU64;
use std::sync::{Arc, Wait};
use std::time;
use std::time::Duration;
use unit_io::{Accepted, Clock, Link};

/// Milliseconds that a link which doesn't listen rests.
const CLOSED_REST: u64 = 20;

/// A link over a socket that listens on 127.0.0.1.
///
/// Its connections are numbered from 0. It has 256 places for them; while all are taken an accept answers `NotYet`. Where it
/// couldn't listen, every accept answers `Failed`. What it gives is the system's, and nothing is told of it.
#[derive(Drop)]
pub struct NetLink<K: time::Clock + Drop> {
    door: Option<Door>,
    clock: SystemClock<K>,
    left: Option<u32>,
    ended: bool,
    idle: bool,
    faults: u64,
    waits: u64,
}

impl<K: time::Clock + Drop> Model for NetLink<K> {
    ghost use Rattle.unit_net.specs.Edge.{NetLinkState};

    ghost Value = { NetLinkState };

    ghost view = { λ l. record {
      ended = l.ended;
      idle = l.idle;
      faults = l.faults;
      waits = l.waits;
    } };
}

impl<K: time::Clock + Drop> NetLink<K> {
    ghost use Rattle.unit_net.specs.Edge.{opened_link};

    /// A link that listens on that port of 127.0.0.1, or on a free one where it is 0. Where `accept` is a number, it is at
    /// its end after so many connections.
    ///
    /// Where it can't listen, as for a port that is taken, or for want of memory, its accepts fail.
    pub fn open(rt: &K, port: u16, accept: Option<u32>) -> NetLink<K>
    where
        K: Net + AllocGlobal + Copy,
        ensures { result ≡ opened_link }
    {
        NetLink {
            door: Door::open(rt, port).ok(),
            clock: SystemClock::open(*rt),
            left: accept,
            ended: false,
            idle: false,
            faults: 0,
            waits: 0,
        }
    }

    /// The port at which it listens; 0 where it couldn't.
    pub fn port(&self) -> u16 {
        match &self.door {
            Some(door) => door.port(),
            None => 0,
        }
    }

    /// What it shares with the gate, where it listens.
    pub(crate) fn side(&self) -> Option<&Arc<EngineSide>> {
        match &self.door {
            Some(door) => Some(door.side()),
            None => None,
        }
    }

    /// Has the link ring that bell for the workers.
    ///
    /// Fails for want of memory alone.
    pub(crate) fn ring_at(&mut self, work: &Arc<WorkBell>) -> Result<(), AllocError>
        ensures { self.new ≡ self.old }
    {
        if let Some(door) = &mut self.door {
            door.ring_at(Arc::try_clone(work)?);
        }
        Ok(())
    }

    // Whether no connection is left to hand out.
    fn is_at_end(&self) -> bool {
        self.ended || self.left == Some(0)
    }

    // Listens no more.
    fn shut(&mut self)
        ensures { self.new ≡ self.old }
    {
        if let Some(door) = &mut self.door {
            door.shut();
        }
    }

    // What an accept meets.
    fn next(&mut self) -> Met
        ensures kept { self.new ≡ self.old }
        ensures fresh { (c : NetConn) → result ≡ Met.Conn c → c.faults ≡ 0 }
    {
        let Some(door) = &mut self.door else {
            return Met::Failed;
        };
        door.look_around();
        door.next()
    }
}

impl<K: time::Clock + Drop> Link for NetLink<K> {
    ghost use Rattle.std.specs.Prelude.{None, true};

    type Conn = NetConn;

    ghost handed = { λ _. None };

    ghost at_end = { λ l. l.ended ≡ true };

    ghost idle = { λ l. l.idle ≡ true };

    ghost faults = { λ l. l.faults };

    ghost waits = { λ l. l.waits };

    fn accept(&mut self) -> Accepted<NetConn> {
        self.idle = false;
        if self.is_at_end() {
            self.shut();
            self.ended = true;
            return Accepted::End;
        }
        match self.next() {
            Met::Conn(conn) => {
                self.left = self.left.map(|left| left.saturating_sub(1));
                Accepted::Conn(conn)
            }
            Met::NotYet => {
                self.waits = self.waits.saturating_add(1);
                self.idle = true;
                Accepted::NotYet
            }
            Met::Failed => {
                self.faults = self.faults.saturating_add(1);
                Accepted::Failed
            }
        }
    }

    fn rest<R: Wait>(&mut self, rt: &R) {
        let now = self.clock.now();
        match &mut self.door {
            Some(door) => door.rest(now),
            None => {
                let limit = Duration::from_millis(CLOSED_REST);
                AtomicU64::new(0).park_timeout(rt, 0, limit);
            }
        }
    }
}
