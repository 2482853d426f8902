//! A fabric and how it is opened.
ghost use Rattle.std.specs.Prelude.{◌≡◌, ◌≤◌, ◌<◌, ◌+◌, IfOk, OnOk, map};
ghost use Rattle.std.specs.List.{All, range_with_len};
ghost use Rattle.unit_model.specs.Shapes.{IsValid};

use crate::seats::{EngineSeat, WorkerSeat};
use fabric_rule::{FabricSeat, FabricTable};
use fabric_words::Layout;
use std::alloc::{AllocError, Global};
use unit_model::Shape;
use unit_types::Handlers;

/// The chunks, queues and streams that engines and workers share. Its calls wait for nobody, and none but `open` takes memory.
#[derive(Drop)]
pub struct Fabric<H: Handlers> {
    pub(crate) table: FabricTable<H>,
    pub(crate) layout: Layout,
    ghost same: { layout.shape ≡ table.table.shared.key },
}

impl<H: Handlers> Fabric<H> {
    ghost use Rattle.fabric_rule.specs.Opening.{fresh_ledger};
    ghost use Rattle.fabric_rule.specs.Seats.{first_from};
    ghost use Rattle.port_fabric.specs.Seats.{IsEngineOf, IsWorkerOf, account, shape_of, worker_account};

    /// A fabric of this shape, which is valid, with a seat for each engine and one for each worker, in the order of their
    /// numbers; those of the workers follow those of the engines. All chunks and items are free.
    ///
    /// Fails for want of memory alone.
    pub fn open(
        alloc: Global,
        shape: &Shape,
    ) -> Result<(Fabric<H>, Vec<EngineSeat<H>>, Vec<WorkerSeat<H>>), AllocError>
        requires { IsValid shape.now }
        ensures shape { IfOk result (λ r. shape_of r.0 ≡ shape.now) }
        ensures engines { IfOk result (λ r. All (IsEngineOf r.0) r.1.items
            × (map account r.1.items ≡ map fresh_ledger (range_with_len 0 shape.now.engines))) }
        ensures workers { IfOk result (λ r. All (IsWorkerOf r.0) r.2.items
            × (map worker_account r.2.items
            ≡ map fresh_ledger (range_with_len shape.now.engines shape.now.workers))) }
    {
        let (table, mut first) = FabricTable::open(alloc, shape)?;
        let fabric = Fabric {
            table,
            layout: Layout::of(*shape),
        };
        let engines = fabric.engine_seats(alloc, &mut first)?;
        let workers = fabric.worker_seats(alloc, &mut first)?;
        Ok((fabric, engines, workers))
    }

    // The main seat of the next engine, whose lists go there.
    fn engine_seat(&self, first: &mut FabricSeat<H>, number: u32) -> EngineSeat<H>
        requires own { first.old.seat.table_id ≡ self.now.table.table.shared.table_id }
        requires there { number < (shape_of self.now).engines }
        requires from { first.old.seat.me.0 ≡ first_from (shape_of self.now) number }
        ensures own { (first.new.seat.table_id ≡ first.old.seat.table_id)
            × IsEngineOf self.now result }
        ensures from { first.new.seat.me.0 ≡ first_from (shape_of self.now) (number + 1) }
        ensures fresh { account result ≡ fresh_ledger number }
    {
        EngineSeat {
            seat: self.table.first_main(first, number),
            number,
        }
    }

    // The main seats of the engines.
    fn engine_seats(
        &self,
        alloc: Global,
        first: &mut FabricSeat<H>,
    ) -> Result<Vec<EngineSeat<H>>, AllocError>
        requires own { first.old.seat.table_id ≡ self.now.table.table.shared.table_id }
        requires from { first.old.seat.me.0 ≡ first_from (shape_of self.now) 0 }
        requires valid { IsValid (shape_of self.now) }
        ensures own { first.new.seat.table_id ≡ first.old.seat.table_id }
        ensures from { OnOk result
            (first.new.seat.me.0 ≡ first_from (shape_of self.now) (shape_of self.now).engines) }
        ensures seats { IfOk result (λ seats. All (IsEngineOf self.now) seats.items
            × (map account seats.items
            ≡ map fresh_ledger (range_with_len 0 (shape_of self.now).engines))) }
    {
        let count = self.layout.shape().engines;
        let mut seats = Vec::with_capacity(alloc, count as usize)?;
        for number in 0..count {
            seats.push(self.engine_seat(first, number))?;
        }
        Ok(seats)
    }

    // The main seat of the next worker.
    fn worker_seat(&self, first: &mut FabricSeat<H>, number: u32) -> WorkerSeat<H>
        requires own { first.old.seat.table_id ≡ self.now.table.table.shared.table_id }
        requires there { ((shape_of self.now).engines ≤ number)
            × (number < (shape_of self.now).engines + (shape_of self.now).workers) }
        requires from { first.old.seat.me.0 ≡ first_from (shape_of self.now) number }
        ensures own { (first.new.seat.table_id ≡ first.old.seat.table_id)
            × IsWorkerOf self.now result }
        ensures from { first.new.seat.me.0 ≡ first_from (shape_of self.now) (number + 1) }
        ensures fresh { worker_account result ≡ fresh_ledger number }
    {
        WorkerSeat {
            seat: self.table.first_main(first, number),
            number,
        }
    }

    // The main seats of the workers.
    fn worker_seats(
        &self,
        alloc: Global,
        first: &mut FabricSeat<H>,
    ) -> Result<Vec<WorkerSeat<H>>, AllocError>
        requires own { first.old.seat.table_id ≡ self.now.table.table.shared.table_id }
        requires from { first.old.seat.me.0
            ≡ first_from (shape_of self.now) (shape_of self.now).engines }
        requires valid { IsValid (shape_of self.now) }
        ensures seats { IfOk result (λ seats. All (IsWorkerOf self.now) seats.items
            × (map worker_account seats.items
            ≡ map fresh_ledger
            (range_with_len (shape_of self.now).engines (shape_of self.now).workers))) }
    {
        let shape = self.layout.shape();
        let mut seats = Vec::with_capacity(alloc, shape.workers as usize)?;
        for number in shape.engines..shape.engines + shape.workers {
            seats.push(self.worker_seat(first, number))?;
        }
        Ok(seats)
    }
}
