//! A connection over memory, which tells all that it holds.
ghost use Rattle.std.specs.Prelude.{◌≡◌, ◌≢◌, ◌≤◌, ◌<◌, ◌⊎◌, ℕ, ◌-◌, ◌++◌, length, take, drop, min, All, Some, true, IfOk, OnErr};
ghost use Rattle.unit_io.specs.Causes.{Rose};
ghost use Rattle.unit_io.specs.Told.{Adds};

use crate::conn::{Conn, ConnCheck, ConnRead, ConnWrite, Ticket};
use crate::memory::{WRITE_LIMIT, hand_out, one_more};
use std::alloc::{AllocError, Global};
use std::collections::VecDeque;
use std::marker::Model;
use unit_types::{Addr, Bytes};

/// What a read of a `MemConn` meets.
#[derive(Debug, Drop)]
pub enum Event {
    /// These bytes; what a read has no room for is met by the next one.
    Give(Bytes),
    /// Nothing yet.
    NotYet,
    /// A fault.
    Fail,
    /// The end; every later read meets it too.
    End,
}

/// What a `MemConn` was.
#[derive(Debug, Drop)]
pub struct MemTicket {
    /// The connection's number.
    pub number: u64,
    /// The name of its listener.
    pub listener: Bytes,
    /// The client's address.
    pub from: Addr,
    /// The address at which it was accepted.
    pub to: Addr,
    /// The bytes that came.
    pub came: Bytes,
    /// The bytes that went.
    pub went: Bytes,
    /// Whether End was answered.
    pub ended: bool,
    /// How many calls failed.
    pub faults: u64,
}

impl Ticket for MemTicket {
    ghost use Rattle.std.specs.Prelude.{Some};

    ghost number = { λ t. t.number };

    ghost listener_name = { λ t. t.listener };

    ghost from_addr = { λ t. t.from };

    ghost to_addr = { λ t. t.to };

    ghost came = { λ t. Some t.came };

    ghost went = { λ t. Some t.went };

    ghost ended = { λ t. t.ended };

    ghost faults = { λ t. t.faults };
}

/// What is left of a script: the bytes of a `Give` that is under way, and the events behind it.
#[derive(Debug, Drop)]
struct Script {
    current: Bytes,
    at: usize,
    rest: VecDeque<Event>,
}

/// What stands next in a script.
#[derive(Clone, Copy, Debug, Drop)]
enum Met {
    Bytes,
    NotYet,
    Fail,
    End,
}

impl Script {
    ghost use Rattle.unit_io.specs.MemConn.{IsMet, IsScript, events_of, fails_next};

    // Goes to what stands next: bytes are then under way, and any other event lies behind.
    fn next(&mut self) -> Met
        requires { IsScript self.old }
        ensures met { IsMet (events_of self.old) result (events_of self.new) }
        ensures under_way { result ≡ Met.Bytes → self.new.at < length self.new.current }
        ensures kept { IsScript self.new }
    {
        if self.at < self.current.as_slice().len() {
            return Met::Bytes;
        }
        match self.rest.pop_front() {
            Some(Event::Give(bytes)) => {
                self.current = bytes;
                self.at = 0;
                Met::Bytes
            }
            Some(Event::NotYet) => Met::NotYet,
            Some(Event::Fail) => Met::Fail,
            Some(Event::End) | None => {
                self.rest.clear();
                Met::End
            }
        }
    }

    fn fails_next(&self) -> bool
        requires { IsScript self.now }
        ensures { result ≡ fails_next (events_of self.now) }
    {
        if self.at < self.current.as_slice().len() {
            return false;
        }
        matches!(self.rest.front(), Some(Event::Fail))
    }
}

// Gives the bytes from the place `at` on, as many as there is room for, and notes that they came.
fn give(came: &mut Bytes, bytes: &[u8], at: usize, buf: &mut [u8]) -> Result<usize, AllocError>
    requires { at < length bytes.now }
    ensures size { IfOk result (λ n. n ≡ min (length buf.old) (length bytes.now - at)) }
    ensures came { IfOk result (λ n. came.new ≡ came.old ++ take n (drop at bytes.now)) }
    ensures moved { IfOk result (λ n. take n buf.new ≡ take n (drop at bytes.now)) }
    ensures room { length buf.new ≡ length buf.old }
    ensures behind { IfOk result (λ n. drop n buf.new ≡ drop n buf.old) }
    ensures untouched { OnErr result (buf.new ≡ buf.old) }
    ensures kept { OnErr result (came.new ≡ came.old) }
{
    let left = &bytes[at..];
    let n = buf.len().min(left.len());
    match came.append(&left[..n]) {
        Ok(()) => {
            hand_out(left, 0, buf, n);
            Ok(n)
        }
        Err(failed) => Err(failed),
    }
}

/// A connection over memory.
///
/// Each read meets the next event of its script, and the end behind the last one. A write takes at most `WRITE_LIMIT`
/// bytes, and the writes numbered in `fail_writes`, from 0, fail. `check` fails once an `Event::Fail` stands next. Beside
/// these those calls alone fail that find no memory, which are counted.
#[derive(Debug, Drop)]
pub struct MemConn {
    script: Script,
    fail_writes: Vec<u64>,
    writes: u64,
    number: u64,
    listener: Bytes,
    from: Addr,
    to: Addr,
    came: Bytes,
    went: Bytes,
    ended: bool,
    faults: u64,
    waits: u64,
    unkept: u64,
}

impl Model for MemConn {
    ghost use Rattle.std.specs.Prelude.{◌≡◌, true, []};
    ghost use Rattle.unit_io.specs.MemConn.{ConnState, IsScript, events_of};

    ghost Value = { ConnState };

    ghost view = { λ c. record {
      events = events_of c.script;
      fail_writes = c.fail_writes.items;
      writes = c.writes;
      number = c.number;
      listener = c.listener;
      from = c.from;
      to = c.to;
      came = c.came;
      went = c.went;
      ended = c.ended;
      faults = c.faults;
      waits = c.waits;
      unkept = c.unkept;
    } };

    ghost invariant = { λ c. IsScript c.script × (c.ended ≡ true → events_of c.script ≡ []) };
}

impl MemConn {
    ghost use Rattle.unit_io.specs.MemConn.{ConnState, IsSomeEvent, opened};

    /// A connection to which nothing happened yet. Its number is 0.
    pub fn open(
        alloc: Global,
        script: Vec<Event>,
        fail_writes: Vec<u64>,
        listener: Bytes,
        from: Addr,
        to: Addr,
    ) -> MemConn
        requires { All IsSomeEvent script.items }
        ensures { result ≡ opened script.items fail_writes.items listener from to }
    {
        MemConn {
            script: Script {
                current: Bytes::of(Vec::new(alloc)),
                at: 0,
                rest: VecDeque::from(script),
            },
            fail_writes,
            writes: 0,
            number: 0,
            listener,
            from,
            to,
            came: Bytes::of(Vec::new(alloc)),
            went: Bytes::of(Vec::new(alloc)),
            ended: false,
            faults: 0,
            waits: 0,
            unkept: 0,
        }
    }

    /// The connection with that number.
    pub(crate) fn numbered(self, number: u64) -> MemConn
        ensures { result ≡ record self { number = number } }
    {
        let mut conn = self;
        conn.number = number;
        conn
    }
}

impl Conn for MemConn {
    ghost use Rattle.std.specs.Prelude.{Some};
    ghost use Rattle.unit_io.specs.MemConn.{IsConnRead, IsConnWrite, IsConnCheck};

    type Ticket = MemTicket;

    ghost number = { λ c. c.number };

    ghost listener_name = { λ c. c.listener };

    ghost from_addr = { λ c. c.from };

    ghost to_addr = { λ c. c.to };

    ghost came = { λ c. Some c.came };

    ghost went = { λ c. Some c.went };

    ghost ended = { λ c. c.ended };

    ghost faults = { λ c. c.faults };

    ghost waits = { λ c. c.waits };

    fn read(&mut self, buf: &mut [u8]) -> ConnRead
        requires { 0 < length buf.old }
        ensures exact { IsConnRead self.old (length buf.old) result self.new }

        ensures some { (n : ℕ) → result ≡ ConnRead.Got n → (1 ≤ n) × (n ≤ length buf.old) }
        ensures got { (n : ℕ) → result ≡ ConnRead.Got n
            → Adds (Some self.old.came) (Some self.new.came) (take n buf.new) }
        ensures open { (n : ℕ) → result ≡ ConnRead.Got n → self.new.ended ≡ self.old.ended }
        ensures size { length buf.new ≡ length buf.old }
        ensures behind { (n : ℕ) → result ≡ ConnRead.Got n → drop n buf.new ≡ drop n buf.old }
        ensures end { result ≡ ConnRead.End → self.new.ended ≡ true }
        ensures end_came { result ≡ ConnRead.End → Some self.new.came ≡ Some self.old.came }
        ensures end_buf { result ≡ ConnRead.End → buf.new ≡ buf.old }
        ensures past_end { self.old.ended ≡ true
            → (result ≡ ConnRead.End) ⊎ (result ≡ ConnRead.Failed) }
        ensures not_yet { result ≡ ConnRead.NotYet → Rose self.old.waits self.new.waits }
        ensures not_yet_came { result ≡ ConnRead.NotYet → Some self.new.came ≡ Some self.old.came }
        ensures not_yet_buf { result ≡ ConnRead.NotYet → buf.new ≡ buf.old }
        ensures not_yet_open { result ≡ ConnRead.NotYet → self.new.ended ≡ self.old.ended }
        ensures ready { result ≢ ConnRead.NotYet → self.new.waits ≡ self.old.waits }
        ensures failed { result ≡ ConnRead.Failed → Rose self.old.faults self.new.faults }
        ensures failed_came { result ≡ ConnRead.Failed → Some self.new.came ≡ Some self.old.came }
        ensures failed_buf { result ≡ ConnRead.Failed → buf.new ≡ buf.old }
        ensures failed_open { result ≡ ConnRead.Failed → self.new.ended ≡ self.old.ended }
        ensures sound { result ≢ ConnRead.Failed → self.new.faults ≡ self.old.faults }
        ensures went { Some self.new.went ≡ Some self.old.went }
        ensures number { self.new.number ≡ self.old.number }
        ensures listener { self.new.listener ≡ self.old.listener }
        ensures addresses { (self.new.from ≡ self.old.from) × (self.new.to ≡ self.old.to) }
    {
        match self.script.next() {
            Met::Bytes => {
                let at = self.script.at;
                match give(&mut self.came, self.script.current.as_slice(), at, buf) {
                    Ok(n) => {
                        self.script.at += n;
                        ConnRead::Got(n)
                    }
                    Err(_) => {
                        self.faults = one_more(self.faults);
                        self.unkept = one_more(self.unkept);
                        ConnRead::Failed
                    }
                }
            }
            Met::NotYet => {
                self.waits = one_more(self.waits);
                ConnRead::NotYet
            }
            Met::Fail => {
                self.faults = one_more(self.faults);
                ConnRead::Failed
            }
            Met::End => {
                self.ended = true;
                ConnRead::End
            }
        }
    }

    fn write(&mut self, bytes: &[u8]) -> ConnWrite
        requires { 0 < length bytes.now }
        ensures exact { IsConnWrite self.old bytes.now result self.new }

        ensures some { (n : ℕ) → result ≡ ConnWrite.Wrote n → (1 ≤ n) × (n ≤ length bytes.now) }
        ensures wrote { (n : ℕ) → result ≡ ConnWrite.Wrote n
            → Adds (Some self.old.went) (Some self.new.went) (take n bytes.now) }
        ensures not_yet { result ≡ ConnWrite.NotYet → Rose self.old.waits self.new.waits }
        ensures not_yet_went { result ≡ ConnWrite.NotYet → Some self.new.went ≡ Some self.old.went }
        ensures ready { result ≢ ConnWrite.NotYet → self.new.waits ≡ self.old.waits }
        ensures failed { result ≡ ConnWrite.Failed → Rose self.old.faults self.new.faults }
        ensures failed_went { result ≡ ConnWrite.Failed → Some self.new.went ≡ Some self.old.went }
        ensures sound { result ≢ ConnWrite.Failed → self.new.faults ≡ self.old.faults }
        ensures came { Some self.new.came ≡ Some self.old.came }
        ensures ended { self.new.ended ≡ self.old.ended }
        ensures number { self.new.number ≡ self.old.number }
        ensures listener { self.new.listener ≡ self.old.listener }
        ensures addresses { (self.new.from ≡ self.old.from) × (self.new.to ≡ self.old.to) }
    {
        let call = self.writes;
        self.writes = one_more(call);
        if self.fail_writes.as_slice().contains(&call) {
            self.faults = one_more(self.faults);
            return ConnWrite::Failed;
        }
        let n = bytes.len().min(WRITE_LIMIT);
        if self.went.append(&bytes[..n]).is_err() {
            self.faults = one_more(self.faults);
            self.unkept = one_more(self.unkept);
            return ConnWrite::Failed;
        }
        ConnWrite::Wrote(n)
    }

    fn check(&mut self) -> ConnCheck
        ensures exact { IsConnCheck self.old result self.new }

        ensures failed { result ≡ ConnCheck.Failed → Rose self.old.faults self.new.faults }
        ensures sound { result ≢ ConnCheck.Failed → self.new.faults ≡ self.old.faults }
        ensures came { Some self.new.came ≡ Some self.old.came }
        ensures went { Some self.new.went ≡ Some self.old.went }
        ensures ended { self.new.ended ≡ self.old.ended }
        ensures waits { self.new.waits ≡ self.old.waits }
        ensures number { self.new.number ≡ self.old.number }
        ensures listener { self.new.listener ≡ self.old.listener }
        ensures addresses { (self.new.from ≡ self.old.from) × (self.new.to ≡ self.old.to) }
    {
        if self.script.fails_next() {
            self.faults = one_more(self.faults);
            return ConnCheck::Failed;
        }
        ConnCheck::Alive
    }

    fn from(&self) -> Addr {
        self.from
    }

    fn to(&self) -> Addr {
        self.to
    }

    fn listener(&self) -> &[u8] {
        self.listener.as_slice()
    }

    fn close(self) -> MemTicket {
        MemTicket {
            number: self.number,
            listener: self.listener,
            from: self.from,
            to: self.to,
            came: self.came,
            went: self.went,
            ended: self.ended,
            faults: self.faults,
        }
    }
}

#[cfg(test)]
mod tests {
    use super::*;
    use crate::trial::{copied, room};
    use std::alloc::AllocGlobal;
    use std::process::Abort;

    const FROM: Addr = Addr {
        ip: 0x7F00_0001,
        port: 40000,
    };

    const TO: Addr = Addr {
        ip: 0x7F00_0001,
        port: 8080,
    };

    // A connection that gives three bytes, then each other event, and a byte behind the end. Its first write fails.
    fn connection(rt: &(impl Abort + AllocGlobal)) -> MemConn {
        let mut script = room(rt, 5);
        script
            .push(Event::Give(copied(rt, b"abc")))
            .expect(rt, "pushed");
        script.push(Event::NotYet).expect(rt, "pushed");
        script.push(Event::Fail).expect(rt, "pushed");
        script.push(Event::End).expect(rt, "pushed");
        script.push(Event::NotYet).expect(rt, "pushed");
        let mut fail_writes = room(rt, 1);
        fail_writes.push(0).expect(rt, "pushed");
        MemConn::open(
            rt.alloc(),
            script,
            fail_writes,
            copied(rt, b"web"),
            FROM,
            TO,
        )
    }

    // A read that meets bytes. One that finds no memory counts a fault and moves nothing, and the next one has the same bytes.
    fn read_at_last(rt: &impl Abort, conn: &mut MemConn, buf: &mut [u8]) -> ConnRead
        requires { 0 < length buf.old }
    {
        let came = conn.came.as_slice().len();
        let faults = conn.faults;
        let front = buf[0];
        let first = conn.read(buf);
        if first != ConnRead::Failed {
            return first;
        }
        assert_eq!(rt; conn.came.as_slice().len(), came);
        assert_eq!(rt; conn.faults, one_more(faults));
        assert_eq!(rt; buf[0], front);
        conn.read(buf)
    }

    // And so a write that wasn't told to fail.
    fn written_at_last(rt: &impl Abort, conn: &mut MemConn, bytes: &[u8]) -> ConnWrite
        requires { 0 < length bytes.now }
    {
        let went = conn.went.as_slice().len();
        let faults = conn.faults;
        let first = conn.write(bytes);
        if first != ConnWrite::Failed {
            return first;
        }
        assert_eq!(rt; conn.went.as_slice().len(), went);
        assert_eq!(rt; conn.faults, one_more(faults));
        conn.write(bytes)
    }

    // What the reads behind the bytes answer; the last one is asked twice.
    fn meets_the_rest(rt: &impl Abort, conn: &mut MemConn, buf: &mut [u8; 4]) {
        assert_eq!(rt; conn.check(), ConnCheck::Alive);
        assert_eq!(rt; conn.read(buf), ConnRead::NotYet);
        assert_eq!(rt; conn.check(), ConnCheck::Failed);
        assert_eq!(rt; conn.read(buf), ConnRead::Failed);
        assert_eq!(rt; conn.read(buf), ConnRead::End);
        assert_eq!(rt; conn.read(buf), ConnRead::End);
    }

    #[test]
    fn meets_each_event_in_parts(rt: HostRuntime) {
        let mut conn = connection(&rt);
        let mut small = [0u8; 2];
        assert_eq!(rt; read_at_last(&rt, &mut conn, &mut small), ConnRead::Got(2));
        assert_eq!(rt; read_at_last(&rt, &mut conn, &mut small), ConnRead::Got(1));
        assert!(rt; small.as_slice() == b"cb".as_slice());
        meets_the_rest(&rt, &mut conn, &mut [0; 4]);
        assert!(rt; conn.listener() == b"web".as_slice());
        assert!(rt; conn.from() == FROM && conn.to() == TO);
        let unkept = conn.unkept;
        let ticket = conn.close();
        assert!(rt; ticket.came.as_slice() == b"abc".as_slice());
        assert!(rt; ticket.faults == unkept.saturating_add(2));
        assert!(rt; ticket.ended && ticket.number == 0);
    }

    #[test]
    fn meets_each_event_whole(rt: HostRuntime) {
        let mut conn = connection(&rt);
        let mut buf = [9u8; 4];
        assert_eq!(rt; read_at_last(&rt, &mut conn, &mut buf), ConnRead::Got(3));
        meets_the_rest(&rt, &mut conn, &mut buf);
        assert!(rt; buf.as_slice() == b"abc\x09".as_slice());
        let text = [7u8; 79];
        assert_eq!(rt; conn.write(&text), ConnWrite::Failed);
        assert_eq!(rt;
            written_at_last(&rt, &mut conn, &text),
            ConnWrite::Wrote(64)
        );
        assert_eq!(rt;
            written_at_last(&rt, &mut conn, &text[64..]),
            ConnWrite::Wrote(15)
        );
        let unkept = conn.unkept;
        let ticket = conn.close();
        assert!(rt; ticket.went.as_slice() == text.as_slice());
        assert!(rt; ticket.faults == unkept.saturating_add(3));
    }
}
