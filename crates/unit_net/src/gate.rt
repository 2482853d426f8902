//! The gate of a run over sockets, which holds no point.
ghost use Rattle.std.specs.Prelude.{◌≡◌, OnOk};

use crate::bell::WorkBell;
use crate::link::NetLink;
use crate::side::EngineSide;
use std::alloc::{AllocError, Global};
use std::sync::atomic::{AtomicU64, Ordering};
use std::sync::{Arc, Wait};
use std::time;
use unit_io::{Gate, Point};

// Has the link ring for the workers, and puts its side behind the others, where it listens.
fn tie<K: time::Clock + Drop>(
    link: &mut NetLink<K>,
    work: &Arc<WorkBell>,
    sides: &mut Vec<Arc<EngineSide>>,
) -> Result<(), AllocError>
    ensures { link.new ≡ link.old }
{
    link.ring_at(work)?;
    if let Some(side) = link.side() {
        sides.push(Arc::try_clone(side)?)?;
    }
    Ok(())
}

/// A gate that holds no point. It rings the engines behind each reply, and workers rest at its bell.
#[derive(Drop)]
pub struct FreeGate {
    sides: Vec<Arc<EngineSide>>,
    work: Arc<WorkBell>,
    begun: AtomicU64,
    finished: AtomicU64,
}

impl FreeGate {
    /// A gate for the engines of these links and for so many workers. The links then ring the workers.
    ///
    /// Fails for want of memory alone; what the links tell stays.
    pub fn open<K: time::Clock + Drop>(
        alloc: Global,
        links: &mut [NetLink<K>],
        workers: u32,
    ) -> Result<FreeGate, AllocError>
        ensures { links.new ≡ links.old }
    {
        let work = Arc::new(alloc, WorkBell::new(workers))?;
        let mut sides = Vec::with_capacity(alloc, links.len())?;
        for link in links.iter_mut() {
            tie(link, &work, &mut sides)?;
        }
        Ok(FreeGate {
            sides,
            work,
            begun: AtomicU64::new(0),
            finished: AtomicU64::new(0),
        })
    }

    // Rings each engine for which a worker has to do something.
    fn ring_engines(&self) {
        for side in &self.sides {
            if side.is_asking() {
                side.bell().ring();
            }
        }
    }

    // Rings each engine that sleeps.
    fn ring_sleepers(&self) {
        for side in &self.sides {
            if side.bell().is_asleep() {
                side.bell().ring();
            }
        }
    }
}

impl Gate for FreeGate {
    fn at(&self, point: Point) {
        match point {
            Point::BeforeTake(_) => {}
            Point::BeforeReply(_) => {
                self.begun.fetch_add(1, Ordering::SeqCst);
            }
            Point::AfterReply(_) => {
                self.finished.fetch_add(1, Ordering::SeqCst);
                self.ring_engines();
            }
        }
    }

    // A worker that rests inside a reply waits for room, and the engine that makes it may sleep.
    fn rest<R: Wait>(&self, rt: &R) {
        if self.begun.load(Ordering::SeqCst) != self.finished.load(Ordering::SeqCst) {
            self.ring_sleepers();
        }
        self.work.rest(rt);
    }
}
