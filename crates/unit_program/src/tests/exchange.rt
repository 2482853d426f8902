//! Worked rows of `exchange`.

use super::{Faults, GET, NO_FAULTS, Outcome, run};
use std::alloc::AllocError;
use unit_types::Bytes;

// A configuration that sends each request to `hello`, by its only step.
pub(super) const PUT: &[u8] =
    b"PUT /config HTTP/1.1\r\nHost: u\r\nContent-Length: 152\r\n\r\n{\"applications\":{\"h\":{\"executable\":\"hello\",\"type\":\"external\"}},\"listeners\":{\"*:8080\":{\"pass\":\"routes\"}},\"routes\":[{\"action\":{\"pass\":\"applications/h\"}}]}";

const DELETE: &[u8] = b"DELETE /config/routes/0 HTTP/1.1\r\nHost: u\r\n\r\n";

// Replies behind their lengths.
const DONE: &[u8] =
    b"125\nHTTP/1.1 200 OK\r\nContent-Type: application/json\r\nContent-Length: 35\r\nConnection: close\r\n\r\n{\"success\":\"Reconfiguration done.\"}";

const GREETED: &[u8] =
    b"79\nHTTP/1.1 200 OK\r\nContent-Type: text/plain\r\nContent-Length: 14\r\n\r\nHello, world!\n";

const NOT_FOUND: &[u8] =
    b"84\nHTTP/1.1 404 Not Found\r\nContent-Type: text/plain\r\nContent-Length: 12\r\n\r\nError 404.\r\n";

pub(super) fn joined(rt: &HostRuntime, parts: &[&[u8]]) -> Result<Bytes, AllocError> {
    let mut text = Bytes::of(Vec::new(rt.alloc()));
    for part in parts {
        text.append(part)?;
    }
    Ok(text)
}

fn exchange(rt: &HostRuntime, frames: &[&[u8]], faults: Faults<'_>) -> Result<Outcome, AllocError> {
    let script = joined(rt, frames)?;
    run(rt, &["exchange"], script.as_slice(), faults)
}

// Whether the script writes these replies.
fn writes(rt: &HostRuntime, frames: &[&[u8]], replies: &[&[u8]]) -> Result<bool, AllocError> {
    let outcome = exchange(rt, frames, NO_FAULTS)?;
    let wanted = joined(rt, replies)?;
    Ok(outcome.is(0, wanted.as_slice(), b""))
}

#[test]
fn a_change_between_two_requests(rt: HostRuntime) {
    let frames: [&[u8]; 8] = [
        b"C 206\n",
        PUT,
        b"H *:8080 27\n",
        GET,
        b"C 45\n",
        DELETE,
        b"H *:8080 27\n",
        GET,
    ];
    let replies = [DONE, GREETED, DONE, NOT_FOUND];
    assert!(rt; writes(&rt, &frames, &replies).expect(&rt, "memory"));
}

#[test]
fn a_client_that_has_hung_up(rt: HostRuntime) {
    let frames: [&[u8]; 6] = [
        b"C 206\n",
        PUT,
        b"G *:8080 27\n",
        GET,
        b"H *:8080 27\n",
        GET,
    ];
    let replies = [DONE, b"0\n".as_slice(), GREETED];
    assert!(rt; writes(&rt, &frames, &replies).expect(&rt, "memory"));
}

#[test]
fn scripts_without_a_configuration(rt: HostRuntime) {
    assert!(rt; writes(&rt, &[], &[]).expect(&rt, "memory"));
    let frames = [b"H x 27\n".as_slice(), GET, b"H *:8080 0\n"];
    let replies = [NOT_FOUND, b"0\n".as_slice()];
    assert!(rt; writes(&rt, &frames, &replies).expect(&rt, "memory"));
}

#[test]
fn broken_frames(rt: HostRuntime) {
    let first: [&[u8]; 2] = [b"H *:8080 28\n", GET];
    let outcome = exchange(&rt, &first, NO_FAULTS).expect(&rt, "memory");
    assert!(rt; outcome.is(6, b"", b"unit: input 0\n"));
    let third: [&[u8]; 5] = [b"C 206\n", PUT, b"H *:8080 27\n", GET, b"C 01\nx"];
    let outcome = exchange(&rt, &third, NO_FAULTS).expect(&rt, "memory");
    assert!(rt; outcome.is(6, b"", b"unit: input 251\n"));
}

#[test]
fn faults_of_a_script(rt: HostRuntime) {
    let frames = [b"H x 27\n".as_slice(), GET];
    let faults = Faults {
        reads: &[1],
        ..NO_FAULTS
    };
    let outcome = exchange(&rt, &frames, faults).expect(&rt, "memory");
    assert!(rt; outcome.is(3, b"", b"unit: read\n"));
    let faults = Faults {
        writes: &[2],
        ..NO_FAULTS
    };
    let outcome = exchange(&rt, &frames, faults).expect(&rt, "memory");
    assert!(rt; outcome.is(4, &NOT_FOUND[..3], b"unit: write\n"));
}
