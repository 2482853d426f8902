//! A link over memory, which tells all that it holds.
ghost use Rattle.std.specs.Prelude.{◌≡◌, ◌≢◌, ◌↔◌, ◌∷◌, [], All, Some, true};
ghost use Rattle.unit_io.specs.Causes.{Rose};
ghost use Rattle.unit_io.specs.Told.{Adds, IsAtEnd};

use crate::link::{Accepted, Link};
use crate::mem_conn::MemConn;
use crate::memory::one_more;
use std::collections::VecDeque;
use std::marker::Model;
use std::sync::Wait;

/// What an accept of a `MemLink` meets.
#[derive(Debug, Drop)]
pub enum LinkEvent {
    /// This connection.
    Conn(MemConn),
    /// Nothing yet.
    NotYet,
    /// A fault.
    Fail,
}

/// A link over memory.
///
/// Each accept meets the next event of its script, and the end behind the last one. Its connections are numbered from 0.
#[derive(Debug, Drop)]
pub struct MemLink {
    script: VecDeque<LinkEvent>,
    handed: u64,
    ended: bool,
    idle: bool,
    faults: u64,
    waits: u64,
}

impl Model for MemLink {
    ghost use Rattle.std.specs.Prelude.{◌+◌, ◌^◌, ◌<◌, All, length};
    ghost use Rattle.unit_io.specs.MemLink.{IsFreshEvent, LinkState};

    ghost Value = { LinkState };

    ghost view = { λ l. record {
      events = l.script.items;
      handed = l.handed;
      ended = l.ended;
      idle = l.idle;
      faults = l.faults;
      waits = l.waits;
    } };

    ghost invariant = { λ l. All IsFreshEvent l.script.items
        × (l.handed + length l.script.items < 2 ^ 64) };
}

impl MemLink {
    ghost use Rattle.unit_io.specs.MemLink.{IsFreshEvent, fresh};

    /// A link that has handed out no connection yet.
    pub fn open(script: Vec<LinkEvent>) -> MemLink
        requires { All IsFreshEvent script.items }
        ensures { result ≡ fresh script.items }
    {
        MemLink {
            script: VecDeque::from(script),
            handed: 0,
            ended: false,
            idle: false,
            faults: 0,
            waits: 0,
        }
    }
}

impl Link for MemLink {
    ghost use Rattle.std.specs.Prelude.{Some};
    ghost use Rattle.unit_io.specs.MemLink.{IsAccept, numbers_below};

    type Conn = MemConn;

    ghost handed = { λ l. Some (numbers_below l.handed) };

    ghost at_end = { λ l. l.ended ≡ true };

    ghost idle = { λ l. l.idle ≡ true };

    ghost faults = { λ l. l.faults };

    ghost waits = { λ l. l.waits };

    fn accept(&mut self) -> Accepted<MemConn>
        ensures exact { IsAccept self.old result self.new }

        ensures conn { (c : MemConn) → result ≡ Accepted.Conn c
            → Adds (Some (numbers_below self.old.handed)) (Some (numbers_below self.new.handed))
            (c.number ∷ []) }
        ensures fresh_came { (c : MemConn) → result ≡ Accepted.Conn c → IsAtEnd (Some c.came) }
        ensures fresh_went { (c : MemConn) → result ≡ Accepted.Conn c → IsAtEnd (Some c.went) }
        ensures fresh_faults { (c : MemConn) → result ≡ Accepted.Conn c → c.faults ≡ 0 }

        ensures end { result ≡ Accepted.End → self.new.ended ≡ true }
        ensures end_handed { result ≡ Accepted.End
            → Some (numbers_below self.new.handed) ≡ Some (numbers_below self.old.handed) }
        ensures kept_end { result ≢ Accepted.End
            → ((self.new.ended ≡ true) ↔ (self.old.ended ≡ true)) }

        ensures not_yet { result ≡ Accepted.NotYet → Rose self.old.waits self.new.waits }
        ensures not_yet_idle { result ≡ Accepted.NotYet → self.new.idle ≡ true }
        ensures not_yet_handed { result ≡ Accepted.NotYet
            → Some (numbers_below self.new.handed) ≡ Some (numbers_below self.old.handed) }
        ensures ready { result ≢ Accepted.NotYet → self.new.waits ≡ self.old.waits }
        ensures not_idle { result ≢ Accepted.NotYet → self.new.idle ≡ true → ⊥ }

        ensures failed { result ≡ Accepted.Failed → Rose self.old.faults self.new.faults }
        ensures failed_handed { result ≡ Accepted.Failed
            → Some (numbers_below self.new.handed) ≡ Some (numbers_below self.old.handed) }
        ensures sound { result ≢ Accepted.Failed → self.new.faults ≡ self.old.faults }
    {
        self.idle = false;
        match self.script.pop_front() {
            Some(LinkEvent::Conn(conn)) => {
                let number = self.handed;
                self.handed += 1;
                Accepted::Conn(conn.numbered(number))
            }
            Some(LinkEvent::NotYet) => {
                self.waits = one_more(self.waits);
                self.idle = true;
                Accepted::NotYet
            }
            Some(LinkEvent::Fail) => {
                self.faults = one_more(self.faults);
                Accepted::Failed
            }
            None => {
                self.ended = true;
                Accepted::End
            }
        }
    }

    fn rest<R: Wait>(&mut self, rt: &R) {
        let _ = rt;
    }
}

#[cfg(test)]
mod tests {
    use super::*;
    use crate::conn::Conn;
    use crate::trial::room;
    use std::alloc::AllocGlobal;
    use unit_types::{Addr, Bytes};

    const ADDR: Addr = Addr {
        ip: 0x7F00_0001,
        port: 40000,
    };

    fn connection(rt: &impl AllocGlobal) -> MemConn
        ensures came { result.came ≡ [] }
        ensures went { result.went ≡ [] }
        ensures faults { result.faults ≡ 0 }
    {
        let alloc = rt.alloc();
        let listener = Bytes::of(Vec::new(alloc));
        let script = Vec::new(alloc);
        MemConn::open(alloc, script, Vec::new(alloc), listener, ADDR, ADDR)
    }

    // The number of the connection that came, where one did.
    fn number_of(answer: Accepted<MemConn>) -> Option<u64> {
        match answer {
            Accepted::Conn(conn) => Some(conn.close().number),
            _ => None,
        }
    }

    #[test]
    fn meets_each_event_and_then_the_end(rt: HostRuntime) {
        let mut script = room(&rt, 4);
        script
            .push(LinkEvent::Conn(connection(&rt)))
            .expect(&rt, "pushed");
        script.push(LinkEvent::NotYet).expect(&rt, "pushed");
        script.push(LinkEvent::Fail).expect(&rt, "pushed");
        script
            .push(LinkEvent::Conn(connection(&rt)))
            .expect(&rt, "pushed");
        let mut link = MemLink::open(script);
        assert_eq!(rt; number_of(link.accept()), Some(0));
        assert!(rt; matches!(link.accept(), Accepted::NotYet));
        link.rest(&rt);
        assert!(rt; matches!(link.accept(), Accepted::Failed));
        assert_eq!(rt; number_of(link.accept()), Some(1));
        assert!(rt; matches!(link.accept(), Accepted::End));
        assert!(rt; matches!(link.accept(), Accepted::End));
    }
}
