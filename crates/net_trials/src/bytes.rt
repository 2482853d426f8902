//! Bytes in both directions.

use crate::seat::{Pair, Seat};
use std::alloc::{AllocError, Global};
use std::io;
use std::io::{Read, Write};
use std::net::TcpStream;
use std::sync::Wait;
use std::test::Fail;
use std::thread::{Threads, join};
use unit_io::{Conn, ConnRead, ConnWrite, Link};
use unit_net::NetLink;

// So many bytes that tell their places.
fn places(alloc: Global, size: usize) -> Result<Vec<u8>, AllocError> {
    let mut bytes = Vec::with_capacity(alloc, size)?;
    for place in 0..size {
        bytes.push((place % 251) as u8)?;
    }
    Ok(bytes)
}

// The bytes behind a piece that they begin with.
fn behind<'a>(bytes: &'a [u8], piece: &[u8]) -> Option<&'a [u8]> {
    bytes.strip_prefix(piece)
}

// Whether these bytes come.
fn takes<R: Wait>(rt: &R, seat: &mut Seat, bytes: &[u8]) -> bool {
    let mut rest = bytes;
    let mut buf = [0u8; 64];
    for _ in rt.forever() {
        if rest.is_empty() {
            break;
        }
        match seat.conn.read(&mut buf) {
            ConnRead::Got(n) => match behind(rest, &buf[..n]) {
                Some(more) => rest = more,
                None => return false,
            },
            ConnRead::NotYet => seat.link.rest(rt),
            ConnRead::End | ConnRead::Failed => return false,
        }
    }
    true
}

// Whether these bytes go.
fn gives<R: Wait>(rt: &R, seat: &mut Seat, bytes: &[u8]) -> bool {
    let mut rest = bytes;
    for _ in rt.forever() {
        if rest.is_empty() {
            break;
        }
        match seat.conn.write(rest) {
            ConnWrite::Wrote(n) => rest = &rest[n..],
            ConnWrite::NotYet => seat.link.rest(rt),
            ConnWrite::Failed => return false,
        }
    }
    true
}

// Whether the client sends these bytes, and has them back.
fn has_back(near: &mut TcpStream, bytes: &[u8], back: &mut [u8]) -> io::Result<bool> {
    near.write_all(bytes)?;
    near.read_exact(back)?;
    Ok(&*back == bytes)
}

// Whether the client has these bytes back, and whether they came to the connection and went.
fn exchange<R: Wait + Threads + Sync>(
    rt: &R,
    near: &mut TcpStream,
    seat: &mut Seat,
    bytes: &[u8],
    back: &mut [u8],
) -> (io::Result<bool>, bool) {
    join(
        rt,
        || has_back(near, bytes, back),
        || takes(rt, seat, bytes) && gives(rt, seat, bytes),
    )
}

// Whether so many bytes come and go.
fn pass<R: Wait + Threads + Sync>(
    rt: &R,
    alloc: Global,
    pair: &mut Pair,
    size: usize,
) -> io::Result<bool> {
    let bytes = places(alloc, size)?;
    let mut back = vec![in alloc; 0u8; size]?;
    let Pair { seat, near } = pair;
    let (came, went) = exchange(rt, near, seat, bytes.as_slice(), back.as_mut_slice());
    Ok(came? && went)
}

// Whether bytes come and go, one, a piece, and a million.
fn passes<R: Wait + Threads + Sync>(rt: &R, alloc: Global, pair: Pair) -> io::Result<bool> {
    let mut pair = pair;
    for size in [1usize, 16_384, 1_000_000] {
        if !pass(rt, alloc, &mut pair, size)? {
            return Ok(false);
        }
    }
    Ok(pair.seat.conn.close().faults == 0)
}

#[test]
fn bytes_come_and_go(rt: HostRuntime) -> Result<(), Fail> {
    let pair = Pair::of(&rt, NetLink::open(&rt, 0, None))?;
    let passed = passes(&rt, rt.alloc(), pair)?;
    assert!(rt; passed);
    Ok(())
}
