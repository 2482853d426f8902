//! Requests and replies (RFC 9110, section 3.4).
ghost use Rattle.std.specs.Prelude.{◌≡◌, ◌↔◌, IfOk, IsTrue};

use crate::bytes::Bytes;
use crate::field::Fields;
use std::alloc::{AllocError, Global};

/// An IPv4 address with a port.
#[derive(Debug, Clone, Copy, PartialEq, Eq, Drop)]
pub struct Addr {
    /// The address; its first number stands in the highest eight bits.
    pub ip: u32,
    /// The port.
    pub port: u16,
}

/// A request as a handler sees it.
#[derive(Debug, Drop)]
pub struct Request {
    /// The method (RFC 9110, section 9.1), as it came.
    pub method: Bytes,
    /// The request target (RFC 9112, section 3.2), as it came.
    pub target: Bytes,
    /// The path of the target, decoded and in its normal form (RFC 3986, section 6.2.2).
    pub path: Bytes,
    /// What stands in the target behind the first `?`, as it came (RFC 3986, section 3.4).
    pub query: Bytes,
    /// The host that the request is for (RFC 9110, section 7.2), in lower case, without port and final period.
    pub host: Bytes,
    /// The minor version: 0 for HTTP/1.0, 1 for HTTP/1.1 (RFC 9112, section 2.3).
    pub minor: u8,
    /// The field lines, their names in lower case.
    pub fields: Fields,
    /// The client's address.
    pub from: Addr,
    /// The address at which the connection was accepted.
    pub to: Addr,
    /// The content (RFC 9110, section 6.4), without its transfer coding.
    pub body: Bytes,
}

impl Request {
    /// A copy.
    ///
    /// Fails for want of memory alone.
    pub fn another(&self, alloc: Global) -> Result<Request, AllocError>
        ensures { IfOk result (λ request. request ≡ self.now) }
    {
        Ok(Request {
            method: Bytes::copy_of(alloc, self.method.as_slice())?,
            target: Bytes::copy_of(alloc, self.target.as_slice())?,
            path: Bytes::copy_of(alloc, self.path.as_slice())?,
            query: Bytes::copy_of(alloc, self.query.as_slice())?,
            host: Bytes::copy_of(alloc, self.host.as_slice())?,
            minor: self.minor,
            fields: self.fields.another(alloc)?,
            from: self.from,
            to: self.to,
            body: Bytes::copy_of(alloc, self.body.as_slice())?,
        })
    }

    /// Whether both ask the same: all parts are equal, the addresses too.
    pub fn is_equal(&self, other: &Request) -> bool
        ensures { IsTrue result ↔ (self.now ≡ other.now) }
    {
        self.method.is_equal(&other.method)
            && self.target.is_equal(&other.target)
            && self.path.is_equal(&other.path)
            && self.query.is_equal(&other.query)
            && self.host.is_equal(&other.host)
            && self.minor == other.minor
            && self.fields.is_equal(&other.fields)
            && self.from == other.from
            && self.to == other.to
            && self.body.is_equal(&other.body)
    }
}

/// A reply as a handler gives it.
#[derive(Debug, Drop)]
pub struct Reply {
    /// The status code (RFC 9110, section 15).
    pub status: u16,
    /// The field lines.
    pub fields: Fields,
    /// The content.
    pub body: Bytes,
}

impl Reply {
    /// A copy.
    ///
    /// Fails for want of memory alone.
    pub fn another(&self, alloc: Global) -> Result<Reply, AllocError>
        ensures { IfOk result (λ reply. reply ≡ self.now) }
    {
        Ok(Reply {
            status: self.status,
            fields: self.fields.another(alloc)?,
            body: Bytes::copy_of(alloc, self.body.as_slice())?,
        })
    }

    /// Whether both have the same status, fields and content.
    pub fn is_equal(&self, other: &Reply) -> bool
        ensures { IsTrue result ↔ (self.now ≡ other.now) }
    {
        self.status == other.status
            && self.fields.is_equal(&other.fields)
            && self.body.is_equal(&other.body)
    }
}

#[cfg(test)]
mod tests {
    use super::*;

    #[test]
    fn a_reply_is_its_copy(rt: HostRuntime) {
        let reply = Reply {
            status: 200,
            fields: Fields::of(Vec::new(rt.alloc())),
            body: Bytes::copy_of(rt.alloc(), b"hello").expect(&rt, "copied"),
        };
        let mut again = reply.another(rt.alloc()).expect(&rt, "copied");
        assert!(rt; again.is_equal(&reply));
        again.status = 201;
        assert!(rt; !again.is_equal(&reply));
    }
}
