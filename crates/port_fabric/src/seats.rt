//! The seats of engines and workers.
ghost use Rattle.port_fabric.specs.States.{IsMainSeat};

use fabric_rule::FabricSeat;
use unit_types::Handlers;

/// What an engine makes its calls with. Its account is seen by contracts alone: what it drew, posted, cancelled, abandoned and
/// received, what it was refused, and how many of its states are unspent.
#[derive(Drop)]
pub struct EngineSeat<H: Handlers> {
    pub(crate) seat: FabricSeat<H>,
    pub(crate) number: u32,
    ghost main: { IsMainSeat 0 number seat.seat.me.0 },
}

/// What a worker makes its calls with. Its account is seen by contracts alone: what it took, sent and closed, what it was
/// refused, and how many of its states are unspent.
#[derive(Drop)]
pub struct WorkerSeat<H: Handlers> {
    pub(crate) seat: FabricSeat<H>,
    pub(crate) number: u32,
    ghost main: { IsMainSeat 1 number seat.seat.me.0 },
}
