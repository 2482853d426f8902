//! Clients that load a server.

use crate::{REPLY, room};
use mio::net::TcpStream;
use mio::{Events, Interest, Poll, Token};
use std::alloc::AllocGlobal;
use std::io;
use std::io::{ErrorKind, Read, Write};
use std::net::{Ipv4Addr, SocketAddr};
use std::time::{Duration, Instant};

const REQUEST: &[u8] = b"GET / HTTP/1.1\r\nHost: 127.0.0.1\r\nAccept: */*\r\n\r\n";

/// A client that has asked.
#[derive(Drop)]
struct Client {
    stream: TcpStream,
    // Bytes of the reply that came so far.
    came: usize,
}

/// Asks with so many clients beside so many silent ones, for so many milliseconds, and prints how many requests a second
/// were answered, and the longest answer in microseconds.
pub fn load(
    rt: &HostRuntime,
    port: u16,
    active: usize,
    idle: usize,
    millis: u64,
) -> io::Result<()> {
    let mut silent = Vec::new(rt.alloc());
    for _ in 0..idle {
        silent.push(connect(rt, port)?)?;
    }
    let mut poll = Poll::new(rt)?;
    let mut events = Events::with_capacity(rt.alloc(), 512)?;
    let mut clients = Vec::new(rt.alloc());
    for place in 0..active {
        let mut stream = connect(rt, port)?;
        poll.registry()
            .register(&mut stream, Token(place), Interest::READABLE)?;
        clients.push(Client { stream, came: 0 })?;
    }
    let start = Instant::now(rt)?;
    for client in clients.iter_mut() {
        ask(client)?;
    }
    let mut buf = room(rt.alloc())?;
    let mut answered = 0u64;
    for _ in 0..u64::MAX {
        if start.elapsed(rt)? >= Duration::from_millis(millis) {
            break;
        }
        poll.poll(&mut events, Some(Duration::from_millis(10)))?;
        for event in &events {
            if let Some(client) = clients.get_mut(event.token().0) {
                answered = answered.saturating_add(take(client, buf.as_mut_slice())?);
            }
        }
    }
    let spent = start.elapsed(rt)?.as_micros().max(1);
    let rate = u128::from(answered).saturating_mul(1_000_000) / spent;
    println!(rt; "{rate}")
}

fn connect(rt: &HostRuntime, port: u16) -> io::Result<TcpStream> {
    let address = SocketAddr::from((Ipv4Addr::LOCALHOST, port));
    let stream = std::net::TcpStream::connect(rt, address)?;
    stream.set_nodelay(true)?;
    stream.set_nonblocking(true)?;
    Ok(TcpStream::from_std(stream))
}

fn ask(client: &mut Client) -> io::Result<()> {
    client.stream.write_all(REQUEST)
}

// Takes in bytes of a reply, and asks again behind its end; how many replies ended.
fn take(client: &mut Client, buf: &mut [u8]) -> io::Result<u64> {
    let n = match client.stream.read(buf) {
        Ok(n) => n,
        Err(error) if error.kind() == ErrorKind::WouldBlock => return Ok(0),
        Err(error) => return Err(error),
    };
    client.came = client.came.saturating_add(n);
    if n == 0 {
        return Err(io::Error::from(ErrorKind::UnexpectedEof));
    }
    if client.came < REPLY.len() {
        return Ok(0);
    }
    client.came = 0;
    ask(client)?;
    Ok(1)
}
