//! A server over a link: an engine's loop that answers each request at once.
ghost use Rattle.std.specs.Prelude.{◌≡◌, ◌<◌, length};

use crate::{END, REPLY, room};
use std::alloc::AllocGlobal;
use std::net::Net;
use std::sync::Wait;
use std::{io, time};
use unit_io::{Accepted, Conn, ConnRead, Link};
use unit_net::{NetConn, NetLink};

/// How many connections a server has at most.
const PLACES: usize = 256;

/// Serves on that port until the process is ended, or until the link fails.
pub fn serve<R: Wait + Net + AllocGlobal + time::Clock + Copy>(
    rt: &R,
    port: u16,
) -> io::Result<()> {
    let mut link = NetLink::open(rt, port, None);
    let mut conns = Vec::new(rt.alloc());
    let mut buf = room(rt.alloc())?;
    for _ in rt.forever() {
        let moved = turn(&mut conns, buf.as_mut_slice());
        let came = match accepted(&mut link, &mut conns)? {
            Some(came) => came,
            None => break,
        };
        if !moved && !came {
            link.rest(rt);
        }
    }
    Ok(())
}

// Takes in one connection, if there is a place for it; whether one came, and None where the link failed.
fn accepted<K: time::Clock + Drop>(
    link: &mut NetLink<K>,
    conns: &mut Vec<NetConn>,
) -> io::Result<Option<bool>> {
    if conns.len() >= PLACES {
        return Ok(Some(false));
    }
    match link.accept() {
        Accepted::Conn(conn) => {
            conns.push(conn)?;
            Ok(Some(true))
        }
        Accepted::NotYet => Ok(Some(false)),
        Accepted::End | Accepted::Failed => Ok(None),
    }
}

// One read of each connection; whether a byte moved or a connection ended.
fn turn(conns: &mut Vec<NetConn>, buf: &mut [u8]) -> bool
    requires { 0 < length buf.old }
    ensures { length buf.new ≡ length buf.old }
{
    let mut moved = false;
    let mut at = 0;
    while at < conns.len() {
        match conns[at].read(buf) {
            ConnRead::NotYet => at += 1,
            ConnRead::Got(n) => {
                moved = true;
                if buf[..n].ends_with(END) {
                    conns[at].write(REPLY);
                }
                at += 1;
            }
            ConnRead::End | ConnRead::Failed => {
                moved = true;
                conns.swap_remove(at);
            }
        }
    }
    moved
}
