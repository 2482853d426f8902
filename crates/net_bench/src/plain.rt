//! A server over the kit's own poll, as the measure: it waits for events, and answers each request in the turn of its event.

use crate::{END, REPLY, room};
use mio::net::{TcpListener, TcpStream};
use mio::{Events, Interest, Poll, Token};
use std::alloc::AllocGlobal;
use std::io;
use std::io::{ErrorKind, Read, Write};
use std::net::{Ipv4Addr, Net, SocketAddr};
use std::sync::Wait;

const LISTENER: Token = Token(usize::MAX);

/// How many connections it keeps.
const PLACES: usize = 1_024;

/// Serves on that port until the process is ended, or until the poll fails.
pub fn serve<R: Wait + Net + AllocGlobal>(rt: &R, port: u16) -> io::Result<()> {
    let mut poll = Poll::new(rt)?;
    let mut events = Events::with_capacity(rt.alloc(), 512)?;
    let mut listener = TcpListener::bind(rt, SocketAddr::from((Ipv4Addr::LOCALHOST, port)))?;
    poll.registry()
        .register(&mut listener, LISTENER, Interest::READABLE)?;
    let mut conns: Vec<Option<TcpStream>> = Vec::new(rt.alloc());
    let mut buf = room(rt.alloc())?;
    for _ in rt.forever() {
        poll.poll(&mut events, None)?;
        for event in &events {
            let token = event.token();
            if token == LISTENER {
                accept_all(&poll, &listener, &mut conns)?;
            } else {
                answer(&mut conns, token.0, buf.as_mut_slice());
            }
        }
    }
    unreachable!()
}

// Accepts until none is there, each under its place.
fn accept_all(
    poll: &Poll,
    listener: &TcpListener,
    conns: &mut Vec<Option<TcpStream>>,
) -> io::Result<()> {
    for _ in 0..PLACES {
        let mut stream = match listener.accept() {
            Ok((stream, _)) => stream,
            Err(error) if error.kind() == ErrorKind::WouldBlock => break,
            Err(error) => return Err(error),
        };
        stream.set_nodelay(true)?;
        let place = match conns.iter().position(|conn| conn.is_none()) {
            Some(place) => place,
            None => {
                conns.push(None)?;
                conns.len() - 1
            }
        };
        poll.registry()
            .register(&mut stream, Token(place), Interest::READABLE)?;
        conns[place] = Some(stream);
    }
    Ok(())
}

// Reads once, and answers what ends a request; a short read has emptied the socket.
fn answer(conns: &mut Vec<Option<TcpStream>>, place: usize, buf: &mut [u8]) {
    let Some(slot) = conns.get_mut(place) else {
        return;
    };
    let stays = match slot {
        Some(stream) => match stream.read(buf) {
            Ok(0) => false,
            Ok(n) => !buf[..n].ends_with(END) || stream.write(REPLY).is_ok(),
            Err(error) => error.kind() == ErrorKind::WouldBlock,
        },
        None => true,
    };
    if !stays {
        *slot = None;
    }
}
