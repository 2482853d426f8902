//! The outside as it really is: standard streams, sockets of the loopback interface, the system's clock, and bells by which
//! engines and workers wake each other.
//!
//! What these give and take is the system's, and nothing is told of it. Each counts a fault where it answers `Failed`, and
//! nowhere else.
#![tactic(auto)]

mod bell;
mod clock;
mod conn;
mod door;
mod flags;
mod gate;
mod link;
mod side;
mod silent;
mod standard;

pub use clock::SystemClock;
pub use conn::{NetConn, NetTicket};
pub use gate::FreeGate;
pub use link::NetLink;
pub use standard::{StdSink, StdSource};
