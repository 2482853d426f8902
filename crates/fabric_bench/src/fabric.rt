//! A ring and the segments of a fabric's table, by one thread, against a ring and a map with tables of their own.
ghost use Rattle.std.specs.Prelude.{◌≡◌, ◌≢◌, ◌≤◌, []};
ghost use Rattle.unit_model.specs.Shapes.{IsValid, role_in};
ghost use Rattle.fabric_rule.specs.SegmentMaps.{MayTakeChunks};
ghost use Rattle.fabric_rule.specs.Turns.{SameWorks};
ghost use Rattle.fabric_rule.specs.declared.event.Segments.TheVariants.{Out};

use crate::maps::ClaimRounds;
use crate::rings::{ROUNDS, RUNS, RingAlone, SIZE};
use chunk_map::Claim;
use fabric_rule::{FabricSeat, FabricTable, Segments};
use fabric_words::{Layout, Place};
use nncq_ring::{PopTurn, PushTurn};
use std::alloc::{AllocError, Global};
use std::io;
use std::sync::Wait;
use std::time::Instant;
use timed_sides::{Letters, Side, Timed, least_times, report};
use unit_model::{Run, Shape};

/// Gets an item of a free ring and gives it back, against a push and a pop of a ring, which waits by `threads`.
pub fn measure_turns<R: Wait>(rt: &HostRuntime, threads: &R) -> io::Result<()> {
    let times = least_times(rt, RUNS, &TurnRounds {}, &RingAlone { threads })?;
    report(rt, "a fabric's ring", 130, times)
}

/// Claims one chunk of a half-full segment and gives it back, against the same of a chunk map.
pub fn measure_claims(rt: &HostRuntime) -> io::Result<()> {
    let times = least_times(rt, RUNS, &ChunkRounds {}, &ClaimRounds {})?;
    report(rt, "a fabric's chunk", 130, times)
}

// A table of one engine and one worker, and the engine's seat, which drew a stream.
#[derive(Drop)]
struct Engine {
    table: FabricTable<Letters>,
    layout: Layout,
    seat: FabricSeat<Letters>,
    ghost own: { seat.seat.table_id ≡ table.table.shared.table_id },
    ghost laid: { layout.shape ≡ table.table.shared.key },
    ghost works: { seat.seat.me.0.works ≢ [] },
    ghost role: { role_in table.table.shared.key seat.seat.me.0.seat ≡ 0 },
    ghost one: { 1 ≤ table.table.shared.key.engines },
}

fn shape() -> Shape
    ensures valid { IsValid result }
    ensures one { (result.engines ≡ 1) × (result.workers ≡ 1) }
{
    Shape {
        items: SIZE,
        back_items: SIZE,
        out_segments: 1,
        back_segments: 1,
        engines: 1,
        workers: 1,
        start: SIZE as u64,
    }
}

fn opened(alloc: Global) -> Result<Option<Engine>, AllocError> {
    let shape = shape();
    let layout = Layout::of(shape);
    let (table, mut first) = FabricTable::open(alloc, &shape)?;
    let mut seat = table.first_main(&mut first, 0);
    let found = table.draw(&mut seat, layout.offset(Place::NextStream), 1);
    Ok(if found == 1 {
        Some(Engine {
            table,
            layout,
            seat,
        })
    } else {
        None
    })
}

#[derive(Drop)]
struct TurnRounds {}

impl Side for TurnRounds {
    fn run(&self, rt: &HostRuntime) -> io::Result<Timed> {
        let drawn = opened(rt.alloc())?;
        let start = Instant::now(rt)?;
        let done = match drawn {
            Some(engine) => turn_rounds(engine),
            None => 0,
        };
        Timed::since(rt, &start, done == ROUNDS)
    }
}

#[derive(Drop)]
struct ChunkRounds {}

impl Side for ChunkRounds {
    fn run(&self, rt: &HostRuntime) -> io::Result<Timed> {
        let Some(engine) = opened(rt.alloc())? else {
            return Timed::since(rt, &Instant::now(rt)?, false);
        };
        let Engine {
            table,
            layout,
            mut seat,
        } = engine;
        fill_half(&table, &layout, &mut seat);
        let start = Instant::now(rt)?;
        let done = chunk_rounds(&table, &layout, &mut seat);
        Timed::since(rt, &start, done == ROUNDS)
    }
}

fn turn_rounds(engine: Engine) -> u64 {
    let Engine {
        table,
        layout,
        mut seat,
    } = engine;
    for round in 0..ROUNDS {
        let PopTurn::Got { value, .. } = table.get_item_turn(&layout, &mut seat, 0) else {
            return round;
        };
        let PushTurn::Done(_) = table.give_turn(&layout, &mut seat, 0, value) else {
            return round;
        };
    }
    ROUNDS
}

// Claims two neighbouring chunks, and gives the first one back.
fn take_second(table: &FabricTable<Letters>, layout: &Layout, seat: &mut FabricSeat<Letters>)
    requires own { seat.old.seat.table_id ≡ table.now.table.shared.table_id }
    requires laid { layout.now.shape ≡ table.now.table.shared.key }
    requires may { MayTakeChunks table.now.table.shared.key Out seat.old.seat.me.0 }
    ensures own { seat.new.seat.table_id ≡ seat.old.seat.table_id }
    ensures works { SameWorks seat.old.seat.me.0 seat.new.seat.me.0 }
{
    let Claim::Run(run) = table.claim(layout, seat, Segments::Out, 16385) else {
        return;
    };
    table.release(layout, seat, Segments::Out, Run { size: 1, ..run });
}

fn fill_half(table: &FabricTable<Letters>, layout: &Layout, seat: &mut FabricSeat<Letters>)
    requires own { seat.old.seat.table_id ≡ table.now.table.shared.table_id }
    requires laid { layout.now.shape ≡ table.now.table.shared.key }
    requires may { MayTakeChunks table.now.table.shared.key Out seat.old.seat.me.0 }
    ensures own { seat.new.seat.table_id ≡ seat.old.seat.table_id }
    ensures works { SameWorks seat.old.seat.me.0 seat.new.seat.me.0 }
{
    for _ in 0..320 {
        take_second(table, layout, seat);
    }
}

fn chunk_rounds(
    table: &FabricTable<Letters>,
    layout: &Layout,
    seat: &mut FabricSeat<Letters>,
) -> u64
    requires own { seat.old.seat.table_id ≡ table.now.table.shared.table_id }
    requires laid { layout.now.shape ≡ table.now.table.shared.key }
    requires may { MayTakeChunks table.now.table.shared.key Out seat.old.seat.me.0 }
{
    for round in 0..ROUNDS {
        match table.claim(layout, seat, Segments::Out, 16384) {
            Claim::Run(run) => table.release(layout, seat, Segments::Out, run),
            Claim::Full(_) => return round,
        }
    }
    ROUNDS
}
