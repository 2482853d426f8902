//! The outside as the program sees it: where bytes come from and where they go, with a count of the faults met.
#![tactic(auto)]

mod clock;
mod conn;
mod gate;
mod input;
mod link;
mod list_clock;
mod mem_conn;
mod mem_link;
mod memory;
mod output;
mod stop;
mod stream;
#[cfg(test)]
mod trial;

pub use clock::Clock;
pub use conn::{Conn, ConnCheck, ConnRead, ConnWrite, Ticket};
pub use gate::{Gate, Point};
pub use input::{INPUT_LIMIT, read_all};
pub use link::{Accepted, Link};
pub use list_clock::ListClock;
pub use mem_conn::{Event, MemConn, MemTicket};
pub use mem_link::{LinkEvent, MemLink};
pub use memory::{MemSink, MemSource};
pub use output::{write_all, write_both};
pub use stop::{Stop, write_line};
pub use stream::{Failed, Sink, Source};
