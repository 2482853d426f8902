//! How many connections a link has, and which ends where all places are taken.

use crate::seat::{TestLink, client, next_conn};
use std::alloc::{AllocError, AllocGlobal, Global};
use std::collections::VecDeque;
use std::io::{Read, Write};
use std::net::{Net, TcpStream};
use std::sync::Wait;
use std::test::Fail;
use std::time::{Duration, Instant};
use std::{io, thread, time};
use unit_io::{Accepted, Conn, ConnRead, ConnWrite, Link};
use unit_net::{NetConn, NetLink};

// Whether three clients get connections in the order of their numbers, and the link is at its end behind them and listens
// no more.
fn ends_after_three<R: Wait + Net<Stream = TcpStream>>(rt: &R, link: TestLink) -> io::Result<bool> {
    let mut link = link;
    for number in 0..3u64 {
        let _near = client(rt, &link)?;
        let got = next_conn(rt, &mut link).map(|conn| conn.close().number);
        if got != Some(number) {
            return Ok(false);
        }
    }
    let ended = matches!(link.accept(), Accepted::End) && matches!(link.accept(), Accepted::End);
    Ok(ended && client(rt, &link).is_err())
}

#[test]
fn a_link_ends_after_its_number(rt: HostRuntime) -> Result<(), Fail> {
    let ended = ends_after_three(&rt, NetLink::open(&rt, 0, Some(3)))?;
    assert!(rt; ended);
    Ok(())
}

/// A link with its connections.
#[derive(Drop)]
struct Hall {
    link: TestLink,
    conns: VecDeque<NetConn>,
}

impl Hall {
    fn of(alloc: Global, link: TestLink) -> Hall {
        Hall {
            link,
            conns: VecDeque::new(alloc),
        }
    }

    // Takes in who comes, until nobody has come for a few rests.
    fn take_in<R: Wait>(&mut self, rt: &R) -> Result<(), AllocError> {
        let mut idle = 0u32;
        for _ in rt.forever() {
            match self.link.accept() {
                Accepted::Conn(conn) => self.conns.push_back(conn)?,
                Accepted::NotYet if idle < 5 => {
                    idle = idle.saturating_add(1);
                    self.link.rest(rt);
                }
                _ => break,
            }
        }
        Ok(())
    }

    // Reads of each connection once, and answers what came; one that fails or ends is closed.
    fn serve(&mut self) -> Result<(), AllocError> {
        for _ in 0..self.conns.len() {
            if let Some(conn) = self.conns.pop_front() {
                let mut conn = conn;
                if stays(&mut conn) {
                    self.conns.push_back(conn)?;
                }
            }
        }
        Ok(())
    }

    // One turn of an engine.
    fn turn<R: Wait>(&mut self, rt: &R) -> Result<(), AllocError> {
        self.serve()?;
        if self.conns.len() < 256 {
            if let Accepted::Conn(conn) = self.link.accept() {
                self.conns.push_back(conn)?;
            }
        }
        self.link.rest(rt);
        Ok(())
    }
}

// Reads of the connection once, and answers what came; whether it stays.
fn stays(conn: &mut NetConn) -> bool {
    let mut buf = [0u8; 8];
    match conn.read(&mut buf) {
        ConnRead::Got(_) => conn.write(b"reply") == ConnWrite::Wrote(5),
        ConnRead::NotYet => true,
        ConnRead::End | ConnRead::Failed => false,
    }
}

// So many clients, connected.
fn clients_of<R: Net<Stream = TcpStream> + AllocGlobal>(
    rt: &R,
    link: &TestLink,
    count: usize,
) -> io::Result<Vec<TcpStream>> {
    let mut clients = Vec::new(rt.alloc());
    for _ in 0..count {
        clients.push(client(rt, link)?)?;
    }
    Ok(clients)
}

// How many connections are taken in, and how many when all but 200 of them have ended.
fn taken_in<R: Wait>(rt: &R, hall: Hall) -> Result<(usize, usize), AllocError> {
    let mut hall = hall;
    hall.take_in(rt)?;
    let first = hall.conns.len();
    hall.conns.truncate(200);
    hall.take_in(rt)?;
    Ok((first, hall.conns.len()))
}

#[test]
fn the_last_of_300_are_accepted_when_others_end(rt: HostRuntime) -> Result<(), Fail> {
    let link = NetLink::open(&rt, 0, None);
    let _clients = clients_of(&rt, &link, 300)?;
    let (first, then) = taken_in(&rt, Hall::of(rt.alloc(), link))?;
    assert!(rt; first == 256 && then == 244);
    Ok(())
}

// Turns until that client has its reply; the other one asks in each turn.
fn serves<R: Wait + time::Clock>(
    rt: &R,
    hall: &mut Hall,
    near: &mut TcpStream,
    busy: &mut TcpStream,
) -> io::Result<()> {
    let mut buf = [0u8; 8];
    for _ in rt.forever() {
        busy.write_all(b"ask")?;
        hall.turn(rt)?;
        thread::sleep(rt, Duration::from_millis(5));
        let _ = busy.read(&mut buf);
        if matches!(near.read(&mut buf), Ok(5)) {
            break;
        }
    }
    Ok(())
}

// How long a client waits for its reply where all places are taken.
fn waited<R: Wait + Net<Stream = TcpStream> + time::Clock>(
    rt: &R,
    hall: &mut Hall,
    busy: &mut TcpStream,
) -> io::Result<Duration> {
    let start = Instant::now(rt)?;
    let mut near = client(rt, &hall.link)?;
    near.write_all(b"ask")?;
    near.set_nonblocking(true)?;
    serves(rt, hall, &mut near, busy)?;
    start.elapsed(rt)
}

// Closes all connections; whether the first one is there, and never failed.
fn has_first(hall: Hall) -> bool {
    let mut conns = hall.conns;
    for _ in 0..conns.len() {
        if let Some(conn) = conns.pop_front() {
            let ticket = conn.close();
            if ticket.number == 0 {
                return ticket.faults == 0;
            }
        }
    }
    false
}

// How long a client waits for its reply where all places are taken, and whether one connection made room: not the first
// one, whose client asks again and again.
fn room_made<R: Wait + Net<Stream = TcpStream> + time::Clock>(
    rt: &R,
    hall: Hall,
    busy: TcpStream,
) -> io::Result<(Duration, bool)> {
    let (mut hall, mut busy) = (hall, busy);
    busy.set_nonblocking(true)?;
    hall.take_in(rt)?;
    let before = hall.conns.len();
    let waited = waited(rt, &mut hall, &mut busy)?;
    let after = hall.conns.len();
    Ok((waited, before == 256 && after == 256 && has_first(hall)))
}

#[test]
fn silent_clients_make_room(rt: HostRuntime) -> Result<(), Fail> {
    let link = NetLink::open(&rt, 0, None);
    let busy = client(&rt, &link)?;
    let _silent = clients_of(&rt, &link, 255)?;
    let (waited, made) = room_made(&rt, Hall::of(rt.alloc(), link), busy)?;
    assert!(rt; made);
    assert!(rt; waited > Duration::from_secs(9) && waited < Duration::from_secs(12));
    Ok(())
}
