use super::*;
use std::alloc::{AllocError, Global};
use std::test::*;

// The record of stream 2, a GET of / for the handler `hello`, from 127.0.0.1:40000 at 10.0.0.1:8080.
pub(crate) fn request_bytes() -> &'static [u8] {
    &[
        0, 0, 0, 0, 0, 0, 0, 2, 0, 0, 0, 5, 104, 101, 108, 108, 111, 1, 0, 0, 0, 3, 71, 69, 84, 0,
        0, 0, 1, 47, 0, 0, 0, 1, 47, 0, 0, 0, 0, 0, 0, 0, 1, 97, 127, 0, 0, 1, 156, 64, 10, 0, 0,
        1, 31, 144, 0, 0, 0, 1, 0, 0, 0, 4, 104, 111, 115, 116, 0, 0, 0, 1, 97, 0, 0, 0, 0,
    ]
}

// The record of a 200 reply with `Content-Type: text/plain` and the content `Hello, world!`, LF.
fn reply_bytes() -> &'static [u8] {
    &[
        0, 200, 0, 0, 0, 1, 0, 0, 0, 12, 67, 111, 110, 116, 101, 110, 116, 45, 84, 121, 112, 101,
        0, 0, 0, 10, 116, 101, 120, 116, 47, 112, 108, 97, 105, 110, 0, 0, 0, 14, 72, 101, 108,
        108, 111, 44, 32, 119, 111, 114, 108, 100, 33, 10,
    ]
}

// The record of stream 1, an HTTP/1.0 request with empty texts, no fields and no content.
fn empty_bytes() -> &'static [u8] {
    &[
        0, 0, 0, 0, 0, 0, 0, 1, 0, 0, 0, 0, 0, 0, 0, 0, 0, 0, 0, 0, 0, 0, 0, 0, 0, 0, 0, 0, 0, 0,
        0, 0, 0, 127, 0, 0, 1, 156, 64, 10, 0, 0, 1, 31, 144, 0, 0, 0, 0, 0, 0, 0, 0,
    ]
}

// What stands before 300,000 bytes of content in a reply of `Content-Type: application/octet-stream`.
fn bytes_before_content() -> &'static [u8] {
    &[
        0, 200, 0, 0, 0, 1, 0, 0, 0, 12, 67, 111, 110, 116, 101, 110, 116, 45, 84, 121, 112, 101,
        0, 0, 0, 24, 97, 112, 112, 108, 105, 99, 97, 116, 105, 111, 110, 47, 111, 99, 116, 101,
        116, 45, 115, 116, 114, 101, 97, 109, 0, 4, 147, 224,
    ]
}

fn is_hello(asked: &Asked) -> bool {
    let request = &asked.request;
    let texts = asked.name.as_slice() == b"hello".as_slice()
        && request.method.as_slice() == b"GET".as_slice()
        && request.path.as_slice() == b"/".as_slice()
        && request.host.as_slice() == b"a".as_slice();
    texts
        && asked.stream == 2
        && request.minor == 1
        && request.from.ip == 0x7f00_0001
        && request.from.port == 40000
        && request.to.ip == 0x0a00_0001
        && request.to.port == 8080
        && request.fields.as_slice().len() == 1
}

fn reads_hello(alloc: Global, bytes: &[u8]) -> Result<bool, AllocError> {
    match read_record(alloc, bytes)? {
        Some(asked) => Ok(is_hello(&asked)),
        None => Ok(false),
    }
}

// Whether the bytes are the record of a request, which is then written again.
fn is_request(alloc: Global, bytes: &[u8]) -> Result<bool, AllocError> {
    match read_record(alloc, bytes)? {
        Some(asked) => Ok(write_record(alloc, &asked)?.as_slice() == bytes),
        None => Ok(false),
    }
}

// The length of the content in the reply's record, which is then written again.
fn content_length(alloc: Global, bytes: &[u8]) -> Result<Option<usize>, AllocError> {
    match read_reply(alloc, bytes)? {
        Some(reply) if write_reply(alloc, &reply)?.as_slice() == bytes => {
            Ok(Some(reply.body.as_slice().len()))
        }
        _ => Ok(None),
    }
}

#[test]
fn requests(rt: HostRuntime) -> Result<(), Fail> {
    assert!(rt; reads_hello(rt.alloc(), request_bytes())?);
    assert!(rt; is_request(rt.alloc(), request_bytes())?);
    assert!(rt; is_request(rt.alloc(), empty_bytes())?);
    Ok(())
}

#[test]
fn no_record(rt: HostRuntime) -> Result<(), Fail> {
    let bytes = request_bytes();
    for len in 0..bytes.len() {
        assert!(rt;
            !is_request(rt.alloc(), &bytes[..len])?,
            "the first {len} bytes"
        );
    }
    let mut longer = Vec::from_slice(rt.alloc(), bytes)?;
    longer.push(0)?;
    assert!(rt; !is_request(rt.alloc(), &longer)?);
    Ok(())
}

#[test]
fn replies(rt: HostRuntime) -> Result<(), Fail> {
    assert_eq!(rt; content_length(rt.alloc(), reply_bytes())?, Some(14));
    let mut long = Vec::from_slice(rt.alloc(), bytes_before_content())?;
    long.resize(300_054, b'x')?;
    assert_eq!(rt; content_length(rt.alloc(), &long)?, Some(300_000));
    Ok(())
}
