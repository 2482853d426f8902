//! A link and two workers at rest.

use std::alloc::AllocGlobal;
use std::net::Net;
use std::sync::Wait;
use std::sync::atomic::{AtomicBool, Ordering};
use std::thread::{Threads, join};
use std::time::{Duration, Instant};
use std::{io, time};
use unit_io::{Gate, Link};
use unit_net::{FreeGate, NetLink};

/// Rests for so many milliseconds with one link and two workers, each in a thread.
pub fn rest_for<R>(rt: &R, millis: u64) -> io::Result<()>
where
    R: Wait + Threads + Net + AllocGlobal + time::Clock + Copy + Send + Sync,
{
    let mut links = Vec::with_capacity(rt.alloc(), 1)?;
    links.push(NetLink::open(rt, 0, None))?;
    let gate = FreeGate::open(rt.alloc(), links.as_mut_slice(), 2)?;
    let Some(link) = links.pop() else {
        return Ok(());
    };
    let ended = AtomicBool::new(false);
    let start = Instant::now(rt)?;
    join(
        rt,
        || engine(rt, link, start, millis, &ended),
        || { join(rt, || work(rt, &gate, &ended), || work(rt, &gate, &ended)) },
    );
    Ok(())
}

// Rests until the run has ended.
fn work<R: Wait>(rt: &R, gate: &FreeGate, ended: &AtomicBool) {
    for _ in rt.forever() {
        if ended.load(Ordering::SeqCst) {
            break;
        }
        gate.rest(rt);
    }
}

// Rests for so many milliseconds, and then ends the run.
fn engine<R: Wait + time::Clock, K: time::Clock + Drop>(
    rt: &R,
    link: NetLink<K>,
    start: Instant,
    millis: u64,
    ended: &AtomicBool,
) {
    let mut link = link;
    for _ in rt.forever() {
        link.accept();
        link.rest(rt);
        match start.elapsed(rt) {
            Ok(spent) if spent < Duration::from_millis(millis) => {}
            _ => break,
        }
    }
    ended.store(true, Ordering::SeqCst);
}
