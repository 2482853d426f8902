//! Hand-overs between engines and workers in threads.

use crate::seat::{Pair, TestLink};
use std::alloc::AllocError;
use std::io::{ErrorKind, Read};
use std::net::{Net, TcpStream};
use std::sync::Wait;
use std::sync::atomic::{AtomicU64, Ordering};
use std::test::Fail;
use std::thread::{Threads, join};
use std::{io, time};
use unit_io::{Clock, Conn, Gate, Link, Point};
use unit_net::{FreeGate, NetLink, SystemClock};

// What an engine asked last, and what was answered last.
#[derive(Drop)]
struct Desk {
    asked: AtomicU64,
    answered: AtomicU64,
}

impl Desk {
    fn new() -> Desk {
        Desk {
            asked: AtomicU64::new(0),
            answered: AtomicU64::new(0),
        }
    }

    // Whether the last question is answered.
    fn is_done(&self) -> bool {
        self.answered.load(Ordering::SeqCst) == ROUNDS
    }

    // Answers what is asked; whether there was something.
    fn answer(&self, gate: &FreeGate) -> bool {
        let asked = self.asked.load(Ordering::SeqCst);
        if asked == self.answered.load(Ordering::SeqCst) {
            return false;
        }
        gate.at(Point::BeforeReply(asked));
        self.answered.store(asked, Ordering::SeqCst);
        gate.at(Point::AfterReply(asked));
        true
    }

    // Asks, and has the engine rest until the answer is there.
    fn ask<R: Wait>(&self, rt: &R, link: &mut TestLink, number: u64) {
        self.asked.store(number, Ordering::SeqCst);
        for _ in rt.forever() {
            if self.answered.load(Ordering::SeqCst) == number {
                break;
            }
            link.rest(rt);
        }
    }
}

// The desks of two engines.
#[derive(Drop)]
struct Desks {
    first: Desk,
    second: Desk,
}

impl Desks {
    fn new() -> Desks {
        Desks {
            first: Desk::new(),
            second: Desk::new(),
        }
    }
}

// One byte of the client to the connection, a hand-over, and one byte back; how many milliseconds it took.
fn round<R: Wait, K: time::Clock + Drop>(
    rt: &R,
    pair: &mut Pair,
    desk: &Desk,
    clock: &mut SystemClock<K>,
    number: u64,
) -> io::Result<u64> {
    let start = clock.now();
    pair.hears(rt, b"x")?;
    desk.ask(rt, &mut pair.seat.link, number);
    pair.seat.conn.write(b"y");
    pair.near.read_exact(&mut [0u8; 1])?;
    Ok(clock.now().saturating_sub(start))
}

// How often each engine hands over.
const ROUNDS: u64 = 50_000;

// Hands over at two engines by turns; the longest hand-over in milliseconds.
fn longest_round<R: Wait, K: time::Clock + Drop>(
    rt: &R,
    first: &mut Pair,
    second: &mut Pair,
    desks: &Desks,
    clock: &mut SystemClock<K>,
) -> io::Result<u64> {
    let mut longest = 0;
    for number in 1..=ROUNDS {
        longest = longest.max(round(rt, first, &desks.first, clock, number)?);
        longest = longest.max(round(rt, second, &desks.second, clock, number)?);
    }
    Ok(longest)
}

// Answers at both desks until each has answered its last.
fn work<R: Wait>(rt: &R, gate: &FreeGate, desks: &Desks) {
    for _ in rt.forever() {
        let answered = [desks.first.answer(gate), desks.second.answer(gate)];
        if desks.first.is_done() && desks.second.is_done() {
            break;
        }
        if answered == [false, false] {
            gate.rest(rt);
        }
    }
}

// Two links under one gate.
fn linked(rt: &HostRuntime) -> Result<(Vec<TestLink>, FreeGate), AllocError> {
    let mut links = Vec::with_capacity(rt.alloc(), 2)?;
    links.push(NetLink::open(rt, 0, None))?;
    links.push(NetLink::open(rt, 0, None))?;
    let gate = FreeGate::open(rt.alloc(), links.as_mut_slice(), 1)?;
    Ok((links, gate))
}

// The last of the links with a client.
fn last_pair<R: Wait + Net<Stream = TcpStream>>(
    rt: &R,
    links: &mut Vec<TestLink>,
) -> io::Result<Pair> {
    match links.pop() {
        Some(link) => Pair::of(rt, link),
        None => Err(io::Error::from(ErrorKind::NotFound)),
    }
}

// Two engines in one thread and a worker in another; the longest hand-over in milliseconds.
fn handed_over<R: Wait + Threads + time::Clock + Copy + Send + Sync>(
    rt: &R,
    first: &mut Pair,
    second: &mut Pair,
    gate: &FreeGate,
) -> io::Result<u64> {
    let mut clock = SystemClock::open(*rt);
    let desks = Desks::new();
    let (longest, ()) = join(
        rt,
        || longest_round(rt, first, second, &desks, &mut clock),
        || work(rt, gate, &desks),
    );
    longest
}

// The longest hand-over at two links under their gate.
fn longest_of<R>(rt: &R, links: Vec<TestLink>, gate: &FreeGate) -> io::Result<u64>
where
    R: Wait + Threads + Net<Stream = TcpStream> + time::Clock + Copy + Send + Sync,
{
    let mut links = links;
    let mut second = last_pair(rt, &mut links)?;
    let mut first = last_pair(rt, &mut links)?;
    handed_over(rt, &mut first, &mut second, gate)
}

#[test]
fn no_wake_is_lost(rt: HostRuntime) -> Result<(), Fail> {
    let (links, gate) = linked(&rt)?;
    let longest = longest_of(&rt, links, &gate)?;
    assert!(rt; longest < 1_000);
    Ok(())
}

// What roles in threads ask of the outside.
fn crosses<L: Link + Send, C: Clock + Send, G: Gate + Sync>(_link: &L, _clock: &C, _gate: &G)
where
    L::Conn: Send,
{}

#[test]
fn all_that_roles_need_crosses_threads(rt: HostRuntime) -> Result<(), Fail> {
    let mut links = [NetLink::open(&rt, 0, None)];
    let gate = FreeGate::open(rt.alloc(), &mut links, 1)?;
    crosses(&links[0], &SystemClock::open(rt), &gate);
    Ok(())
}
