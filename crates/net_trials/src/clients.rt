//! Clients that end early, that are slow, and that don't read.

use crate::seat::{Pair, Seat, TestLink};
use std::io::Read;
use std::net::{Net, Shutdown, TcpStream};
use std::sync::Wait;
use std::test::Fail;
use std::time::Duration;
use std::{io, thread, time};
use unit_io::{Accepted, Conn, ConnCheck, ConnRead, ConnWrite, Link};
use unit_net::{NetLink, NetTicket};

// How long the reply is that comes to a client which has asked and shut its sending side, and what its connection was; no
// length where the connection answered otherwise than it should.
fn half_closed<R: Wait>(rt: &R, pair: Pair) -> io::Result<(Option<usize>, NetTicket)> {
    let Pair { seat, near } = pair;
    let (mut seat, mut near) = (seat, near);
    near.shutdown(Shutdown::Write)?;
    let stands = seat.hears(rt) == ConnRead::End
        && seat.conn.check() == ConnCheck::Alive
        && seat.conn.write(b"reply") == ConnWrite::Wrote(5);
    let came = if stands {
        Some(near.read(&mut [0u8; 8])?)
    } else {
        None
    };
    Ok((came, seat.conn.close()))
}

#[test]
fn one_that_shuts_its_sending_side_has_its_reply(rt: HostRuntime) -> Result<(), Fail> {
    let mut pair = Pair::of(&rt, NetLink::open(&rt, 0, None))?;
    let asked = pair.hears(&rt, b"ask")?;
    let (came, ticket) = half_closed(&rt, pair)?;
    assert!(rt; asked == ConnRead::Got(3));
    assert!(rt; came == Some(5));
    assert!(rt; ticket.ended && ticket.faults == 0);
    Ok(())
}

// What a look gives once it fails, for which the link rests, but not for ever.
fn looks<R: Wait>(rt: &R, seat: &mut Seat) -> ConnCheck {
    for _ in 0..100 {
        if seat.conn.check() == ConnCheck::Failed {
            return ConnCheck::Failed;
        }
        seat.link.rest(rt);
    }
    ConnCheck::Alive
}

// How many calls fail at a connection whose client resets: bytes that the client never reads make of its close a reset.
fn faults_at_reset<R: Wait>(rt: &R, pair: Pair) -> u64 {
    let Pair { seat, near } = pair;
    let mut seat = seat;
    let unread = seat.conn.write(b"unread");
    drop(near);
    if unread == ConnWrite::Wrote(6)
        && looks(rt, &mut seat) == ConnCheck::Failed
        && seat.hears(rt) == ConnRead::Failed
        && seat.conn.write(b"more") == ConnWrite::Failed
    {
        seat.conn.close().faults
    } else {
        0
    }
}

#[test]
fn one_that_resets_is_gone(rt: HostRuntime) -> Result<(), Fail> {
    let pair = Pair::of(&rt, NetLink::open(&rt, 0, None))?;
    let faults = faults_at_reset(&rt, pair);
    assert!(rt; faults == 3);
    Ok(())
}

// Whether the client is heard, byte by byte, with a second before each.
fn is_heard<R: Wait + time::Clock>(rt: &R, pair: Pair) -> io::Result<bool> {
    let mut pair = pair;
    for byte in 0..3u8 {
        thread::sleep(rt, Duration::from_secs(1));
        if pair.hears(rt, &[byte])? != ConnRead::Got(1) {
            return Ok(false);
        }
    }
    Ok(true)
}

#[test]
fn one_that_sends_a_byte_a_second_is_heard(rt: HostRuntime) -> Result<(), Fail> {
    let pair = Pair::of(&rt, NetLink::open(&rt, 0, None))?;
    let heard = is_heard(&rt, pair)?;
    assert!(rt; heard);
    Ok(())
}

// Writes until the connection takes no more; whether that was `NotYet`, and the connection stands.
fn fills<R: Wait>(rt: &R, seat: &mut Seat) -> bool {
    let piece = [7u8; 64];
    for _ in rt.forever() {
        match seat.conn.write(&piece) {
            ConnWrite::Wrote(_) => {}
            ConnWrite::NotYet => return seat.conn.check() == ConnCheck::Alive,
            ConnWrite::Failed => return false,
        }
    }
    false
}

// What the bytes of another client give beside a connection that is full, and how many calls of this one failed.
fn heard_beside<R: Wait + Net<Stream = TcpStream>>(
    rt: &R,
    full: Seat,
) -> io::Result<(ConnRead, u64)> {
    let Seat { link, conn } = full;
    let mut other = Pair::of(rt, link)?;
    let heard = other.hears(rt, b"ask")?;
    Ok((heard, conn.close().faults))
}

#[test]
fn one_that_never_reads_delays_no_other(rt: HostRuntime) -> Result<(), Fail> {
    let Pair { seat, near: _deaf } = Pair::of(&rt, NetLink::open(&rt, 0, None))?;
    let mut seat = seat;
    let filled = fills(&rt, &mut seat);
    let (heard, faults) = heard_beside(&rt, seat)?;
    assert!(rt; filled && faults == 0);
    assert!(rt; heard == ConnRead::Got(3));
    Ok(())
}

// Whether the link doesn't listen, and fails at each accept.
fn fails<R: Wait>(rt: &R, link: TestLink) -> bool {
    let mut link = link;
    let first = matches!(link.accept(), Accepted::Failed);
    link.rest(rt);
    first && matches!(link.accept(), Accepted::Failed) && link.port() == 0
}

// What the client's bytes give.
fn heard<R: Wait>(rt: &R, pair: Pair) -> io::Result<ConnRead> {
    let mut pair = pair;
    pair.hears(rt, b"ask")
}

#[test]
fn a_port_that_is_taken_is_a_fault(rt: HostRuntime) -> Result<(), Fail> {
    let pair = Pair::of(&rt, NetLink::open(&rt, 0, None))?;
    let failed = fails(&rt, NetLink::open(&rt, pair.seat.link.port(), None));
    // The first one serves on.
    let heard = heard(&rt, pair)?;
    assert!(rt; failed);
    assert!(rt; heard == ConnRead::Got(3));
    Ok(())
}
