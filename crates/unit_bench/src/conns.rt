//! Reads of a connection over memory, at twice the script.
ghost use Rattle.std.specs.Prelude.{◌<◌, All, IfOk, length};
ghost use Rattle.unit_io.specs.MemConn.{IsSomeEvent};

use std::alloc::{AllocError, Global};
use std::io;
use std::time::Instant;
use timed_sides::{Side, Timed, least_times, report};
use unit_io::{Conn, ConnRead, Event, MemConn};
use unit_types::{Addr, Bytes};

const RUNS: u32 = 20;

/// The bytes of an event, and of a read.
const PIECE: usize = 65_536;

/// How many events the shorter script has.
const PIECES: u32 = 128;

/// Reads of 65,536 bytes of a script: twice as many take at most 2.2 times as long.
pub fn measure(rt: &HostRuntime) -> io::Result<()> {
    let double = Reads { pieces: 2 * PIECES };
    let single = Reads { pieces: PIECES };
    let times = least_times(rt, RUNS, &double, &single)?;
    report(rt, "reads of a connection", 220, times)
}

/// Reads a connection of so many events to its end; only the reads are timed.
#[derive(Drop)]
struct Reads {
    pieces: u32,
}

impl Side for Reads {
    fn run(&self, rt: &HostRuntime) -> io::Result<Timed> {
        let mut conn = connection(rt.alloc(), self.pieces)?;
        let mut buf = vec![in rt.alloc(); 0u8; PIECE]?;
        let start = Instant::now(rt)?;
        let pieces = count_reads(&mut conn, buf.as_mut_slice());
        Timed::since(rt, &start, pieces == self.pieces)
    }
}

fn connection(alloc: Global, pieces: u32) -> Result<MemConn, AllocError> {
    let address = Addr {
        ip: 0x7f00_0001,
        port: 8080,
    };
    Ok(MemConn::open(
        alloc,
        script(alloc, pieces)?,
        Vec::new(alloc),
        Bytes::of(Vec::new(alloc)),
        address,
        address,
    ))
}

fn script(alloc: Global, pieces: u32) -> Result<Vec<Event>, AllocError>
    ensures { IfOk result (λ events. All IsSomeEvent events.items) }
{
    let mut events = Vec::new(alloc);
    for _ in 0..pieces {
        events.push(piece(alloc)?)?;
    }
    Ok(events)
}

fn piece(alloc: Global) -> Result<Event, AllocError>
    ensures { IfOk result IsSomeEvent }
{
    let bytes = vec![in alloc; b'x'; PIECE]?;
    Ok(Event::Give(Bytes::of(bytes)))
}

// How many reads gave bytes before another answer came.
fn count_reads(conn: &mut MemConn, buf: &mut [u8]) -> u32
    requires room { 0 < length buf.old }
{
    for reads in 0..u32::MAX {
        match conn.read(buf) {
            ConnRead::Got(_) => {}
            _ => return reads,
        }
    }
    u32::MAX
}
