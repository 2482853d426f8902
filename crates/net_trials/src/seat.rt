//! A link with a connection, and its client.

use std::io;
use std::io::{ErrorKind, Write};
use std::net::{Ipv4Addr, Net, SocketAddr, TcpStream};
use std::sync::Wait;
use unit_io::{Accepted, Conn, ConnRead, Link};
use unit_net::{NetConn, NetLink};

/// A link of a test.
pub(crate) type TestLink = NetLink<HostRuntime>;

/// A client of that link, connected.
pub(crate) fn client<R: Net<Stream = TcpStream>>(rt: &R, link: &TestLink) -> io::Result<TcpStream> {
    TcpStream::connect(rt, SocketAddr::from((Ipv4Addr::LOCALHOST, link.port())))
}

/// A link with a connection.
#[derive(Drop)]
pub(crate) struct Seat {
    pub(crate) link: TestLink,
    pub(crate) conn: NetConn,
}

/// The next connection, for which the link rests; None where no more come.
pub(crate) fn next_conn<R: Wait>(rt: &R, link: &mut TestLink) -> Option<NetConn> {
    for _ in rt.forever() {
        match link.accept() {
            Accepted::Conn(conn) => return Some(conn),
            Accepted::NotYet => link.rest(rt),
            Accepted::End | Accepted::Failed => return None,
        }
    }
    None
}

impl Seat {
    /// What a read gives once it isn't `NotYet`, for which the link rests.
    pub(crate) fn hears<R: Wait>(&mut self, rt: &R) -> ConnRead {
        let mut buf = [0u8; 8];
        for _ in rt.forever() {
            match self.conn.read(&mut buf) {
                ConnRead::NotYet => self.link.rest(rt),
                other => return other,
            }
        }
        ConnRead::NotYet
    }
}

/// A link with its first connection, and the client of that.
#[derive(Drop)]
pub(crate) struct Pair {
    pub(crate) seat: Seat,
    pub(crate) near: TcpStream,
}

impl Pair {
    /// A client of that link, accepted.
    pub(crate) fn of<R: Wait + Net<Stream = TcpStream>>(
        rt: &R,
        link: TestLink,
    ) -> io::Result<Pair> {
        let mut link = link;
        let near = client(rt, &link)?;
        match next_conn(rt, &mut link) {
            Some(conn) => Ok(Pair {
                seat: Seat { link, conn },
                near,
            }),
            None => Err(io::Error::from(ErrorKind::NotConnected)),
        }
    }

    /// What the connection hears of these bytes, which the client sends.
    pub(crate) fn hears<R: Wait>(&mut self, rt: &R, bytes: &[u8]) -> io::Result<ConnRead> {
        self.near.write_all(bytes)?;
        Ok(self.seat.hears(rt))
    }
}
