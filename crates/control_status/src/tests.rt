ghost use Rattle.std.specs.Prelude.{All, IfOk};
ghost use Rattle.unit_types.specs.Limits.{IsShortName};

use crate::control_status;
use conf_book::Book;
use status_book::Looks;
use std::alloc::{AllocError, Global};
use std::process::Abort;
use std::test::Fail;
use unit_types::Bytes;

fn hello(alloc: Global) -> Result<[Bytes; 1], AllocError>
    ensures { IfOk result (λ names. All IsShortName names) }
{
    Ok([Bytes::copy_of(alloc, b"hello")?])
}

/// The request has exactly this reply.
fn is_answered(
    rt: &(impl Abort + AllocGlobal),
    looks: &Looks,
    request: &str,
    wanted: &[u8],
) -> Result<(), AllocError> {
    let alloc = rt.alloc();
    let mut book = Book::open(alloc, &hello(alloc)?)?;
    let bytes = format!(in alloc; "{request} HTTP/1.1\r\nHost: u\r\n\r\n")?;
    let reply = control_status(alloc, &mut book, looks, bytes.as_str().as_bytes())?;
    assert!(rt; reply.as_slice() == wanted, "another reply: {request}");
    assert!(rt; book.documents().len() == 1);
    Ok(())
}

fn nothing() -> &'static [u8] {
    b"HTTP/1.1 200 OK\r\nContent-Type: application/json\r\nContent-Length: 92\r\nConnection: close\r\n\r\n{\"connections\":0,\"requests\":{\"app\":0,\"busy\":0,\"cut\":0,\"gone\":0,\"late\":0,\"memory\":0,\"own\":0}}"
}

fn some() -> &'static [u8] {
    b"HTTP/1.1 200 OK\r\nContent-Type: application/json\r\nContent-Length: 118\r\nConnection: close\r\n\r\n{\"connections\":48,\"requests\":{\"app\":52,\"busy\":56,\"cut\":60,\"gone\":64,\"late\":68,\"memory\":72,\"own\":73786976294838206460}}"
}

fn no_method() -> &'static [u8] {
    b"HTTP/1.1 405 Method Not Allowed\r\nContent-Type: application/json\r\nContent-Length: 27\r\nConnection: close\r\n\r\n{\"error\":\"Invalid method.\"}"
}

fn no_method_to_head() -> &'static [u8] {
    b"HTTP/1.1 405 Method Not Allowed\r\nContent-Type: application/json\r\nContent-Length: 27\r\nConnection: close\r\n\r\n"
}

fn absent() -> &'static [u8] {
    b"HTTP/1.1 404 Not Found\r\nContent-Type: application/json\r\nContent-Length: 32\r\nConnection: close\r\n\r\n{\"error\":\"Value doesn't exist.\"}"
}

fn empty_object() -> &'static [u8] {
    b"HTTP/1.1 200 OK\r\nContent-Type: application/json\r\nContent-Length: 2\r\nConnection: close\r\n\r\n{}"
}

#[test]
fn tells_the_status(rt: HostRuntime) -> Result<(), Fail> {
    let none = Looks { counts: [0; 32] };
    is_answered(&rt, &none, "GET /status", nothing())?;
    is_answered(&rt, &none, "GET /status/", nothing())?;
    is_answered(&rt, &none, "GET /status/?a", nothing())?;
    is_answered(&rt, &none, "POST /status", no_method())?;
    is_answered(&rt, &none, "HEAD /status", no_method_to_head())?;
    is_answered(&rt, &none, "GET /status/x", absent())?;
    is_answered(&rt, &none, "GET /config", empty_object())?;
    Ok(())
}

#[test]
fn adds_up_the_engines(rt: HostRuntime) -> Result<(), Fail> {
    let mut looks = Looks { counts: [0; 32] };
    for engine in 0..4usize {
        for kind in 0..7usize {
            looks.counts[8 * engine + kind] = (8 * engine + kind) as u64;
        }
        looks.counts[8 * engine + 7] = u64::MAX;
    }
    is_answered(&rt, &looks, "GET /status", some())?;
    Ok(())
}
