//! Pushes and pops of a ring against those of `ArrayQueue`, by one thread and by two.
ghost use Rattle.std.specs.Prelude.{◌≡◌, ◌<◌, ◌≤◌, ℕ};
ghost use Rattle.unit_model.specs.Sharing.{Holds};
ghost use Rattle.nncq_ring.specs.Seats.{BelongsTo, knows};
ghost use Rattle.nncq_ring.specs.Views.{held_by};

use crossbeam_queue::ArrayQueue;
use nncq_ring::{PopEnd, PushEnd, Ring, RingSeat};
use std::io;
use std::sync::Wait;
use std::thread::{self, Threads};
use std::time::Instant;
use timed_sides::{Side, Timed, Times, least_times, report};

pub const RUNS: u32 = 7;

pub const ROUNDS: u64 = 1_000_000;

pub const SIZE: u32 = 64;

/// One thread that pushes a number and pops it, again and again. It waits by `threads`.
pub fn alone<R: Wait>(rt: &HostRuntime, threads: &R) -> io::Result<()> {
    let times = least_times(rt, RUNS, &RingAlone { threads }, &QueueAlone { threads })?;
    report(rt, "ring, one thread", 150, times)
}

/// Two threads, each with half of the numbers, that push and pop at the same time. They are started by `threads`.
pub fn shared<R: Threads + Wait + Sync>(rt: &HostRuntime, threads: &R) -> io::Result<()> {
    let mut least = Times::untaken();
    for _ in 0..RUNS {
        let measured = ring_shared_run(rt, threads)?;
        let base = queue_shared_run(rt, threads)?;
        least = least.after(measured, base);
    }
    report(rt, "ring, two threads", 200, least)
}

#[derive(Drop)]
pub struct RingAlone<'a, R> {
    pub threads: &'a R,
}

impl<R: Wait> Side for RingAlone<'_, R> {
    fn run(&self, rt: &HostRuntime) -> io::Result<Timed> {
        let (ring, mut seat) = Ring::open(rt.alloc(), SIZE, SIZE as u64)?;
        let start = Instant::now(rt)?;
        let done = ring_rounds(self.threads, &ring, &mut seat, 0);
        Timed::since(rt, &start, done == ROUNDS)
    }
}

#[derive(Drop)]
pub struct QueueAlone<'a, R> {
    pub threads: &'a R,
}

impl<R: Wait> Side for QueueAlone<'_, R> {
    fn run(&self, rt: &HostRuntime) -> io::Result<Timed> {
        let queue = ArrayQueue::new(rt.alloc(), SIZE as usize)?;
        let start = Instant::now(rt)?;
        let done = queue_rounds(self.threads, &queue, 0);
        Timed::since(rt, &start, done == ROUNDS)
    }
}

fn ring_shared_run<R: Threads + Wait + Sync>(rt: &HostRuntime, threads: &R) -> io::Result<Timed> {
    let (ring, mut seat) = Ring::open(rt.alloc(), SIZE, SIZE as u64)?;
    let mut other = ring.split(&mut seat);
    pass_half(&ring, &mut seat, &mut other);
    let start = Instant::now(rt)?;
    let (one, two) = thread::join(
        threads,
        || ring_rounds(threads, &ring, &mut seat, 0),
        || ring_rounds(threads, &ring, &mut other, SIZE / 2),
    );
    Timed::since(rt, &start, one.min(two) == ROUNDS)
}

fn queue_shared_run<R: Threads + Wait + Sync>(rt: &HostRuntime, threads: &R) -> io::Result<Timed> {
    let queue = ArrayQueue::new(rt.alloc(), SIZE as usize)?;
    let start = Instant::now(rt)?;
    let (one, two) = thread::join(
        threads,
        || queue_rounds(threads, &queue, 0),
        || queue_rounds(threads, &queue, SIZE / 2),
    );
    Timed::since(rt, &start, one.min(two) == ROUNDS)
}

fn queue_rounds<R: Wait>(rt: &R, queue: &ArrayQueue<u32>, first: u32) -> u64 {
    let mut number = first;
    for round in 0..ROUNDS {
        if queue.push(rt, number).is_err() {
            return round;
        }
        let Some(next) = queue.pop(rt) else {
            return round;
        };
        number = next;
    }
    ROUNDS
}

fn ring_rounds<R: Wait>(rt: &R, ring: &Ring, seat: &mut RingSeat, first: u32) -> u64
    requires own { BelongsTo seat.old ring.now }
    requires held { Holds held_by first (knows seat.old) }
{
    let mut number = first;
    for round in 0..ROUNDS {
        let PushEnd::Done(_) = ring.push(rt, seat, number) else {
            return round;
        };
        let PopEnd::Got { value, .. } = ring.pop(rt, seat) else {
            return round;
        };
        number = value;
    }
    ROUNDS
}

// Passes the upper half of the numbers.
fn pass_half(ring: &Ring, seat: &mut RingSeat, other: &mut RingSeat)
    requires own { BelongsTo seat.old ring.now × BelongsTo other.old ring.now }
    requires held { (i : ℕ) → i < 64 → Holds held_by i (knows seat.old) }
    ensures own { BelongsTo seat.new ring.now × BelongsTo other.new ring.now }
    ensures kept { Holds held_by 0 (knows seat.new) }
    ensures come { Holds held_by 32 (knows other.new) }
{
    for number in SIZE / 2..SIZE {
        ring.pass(seat, other, number);
    }
}
