//! Worked rows of `trace`.

use super::check::TRACE;
use super::exchange::{PUT, joined};
use super::{Faults, GET, NO_FAULTS, Outcome, put_times, run};
use std::alloc::AllocError;

fn trace(rt: &HostRuntime, frames: &[&[u8]], faults: Faults<'_>) -> Result<Outcome, AllocError> {
    let script = joined(rt, frames)?;
    run(rt, &["trace"], script.as_slice(), faults)
}

// A change of the configuration, a client that has hung up, and one that waits for its reply.
fn two_clients() -> [&'static [u8]; 6] {
    [
        b"C 206\n",
        PUT,
        b"G *:8080 27\n",
        GET,
        b"H *:8080 27\n",
        GET,
    ]
}

// Whether the text has these bytes, of which there are some.
fn has(text: &[u8], bytes: &[u8]) -> bool {
    if bytes.is_empty() {
        return false;
    }
    text.windows(bytes.len()).any(|window| window == bytes)
}

#[test]
fn a_hung_up_client_and_an_answered_one(rt: HostRuntime) {
    let outcome = trace(&rt, &two_clients(), NO_FAULTS).expect(&rt, "memory");
    assert!(rt; outcome.is(0, TRACE, b""));
    let outcome = run(&rt, &["trace"], b"", NO_FAULTS).expect(&rt, "memory");
    assert!(rt; outcome.is(0, b"", b""));
}

// A sink in memory takes 64 bytes a write, so its first write was all that was kept.
#[test]
fn a_sink_that_fails_at_its_second_write(rt: HostRuntime) {
    let faults = Faults {
        writes: &[1],
        ..NO_FAULTS
    };
    let outcome = trace(&rt, &two_clients(), faults).expect(&rt, "memory");
    assert!(rt; outcome.is(4, &TRACE[..64], b"unit: write\n"));
}

// Its first target is a return, its second one an application.
#[test]
fn a_target_without_an_application(rt: HostRuntime) {
    let put =
        b"PUT /config HTTP/1.1\r\nHost: u\r\nContent-Length: 200\r\n\r\n{\"applications\":{\"h\":{\"executable\":\"hello\",\"type\":\"external\"}},\"listeners\":{\"*:8080\":{\"pass\":\"routes\"}},\"routes\":[{\"action\":{\"return\":204},\"match\":{\"uri\":\"/no\"}},{\"action\":{\"pass\":\"applications/h\"}}]}";
    let no = b"GET /no HTTP/1.1\r\nHost: a\r\n\r\n";
    let frames: [&[u8]; 8] = [
        b"C 254\n",
        put,
        b"G *:8080 56\n",
        no,
        GET,
        b"H *:8080 56\n",
        no,
        GET,
    ];
    let outcome = trace(&rt, &frames, NO_FAULTS).expect(&rt, "memory");
    assert!(rt; outcome.is(0, TRACE, b""));
}

#[test]
fn a_rewritten_request(rt: HostRuntime) {
    let put =
        b"PUT /config HTTP/1.1\r\nHost: u\r\nContent-Length: 172\r\n\r\n{\"applications\":{\"h\":{\"executable\":\"hello\",\"type\":\"external\"}},\"listeners\":{\"*:8080\":{\"pass\":\"routes\"}},\"routes\":[{\"action\":{\"pass\":\"applications/h\",\"rewrite\":\"/v1$uri\"}}]}";
    let get = b"H *:8080 32\nGET /a?x=1 HTTP/1.1\r\nHost: a\r\n\r\n";
    let outcome = trace(&rt, &[b"C 206\n", PUT, get], NO_FAULTS).expect(&rt, "memory");
    assert!(rt; outcome.status == 0);
    assert!(rt; has(outcome.out.as_slice(), b"\nsetrun 0 0 0 0 0 86\n"));
    let outcome = trace(&rt, &[b"C 226\n", put, get], NO_FAULTS).expect(&rt, "memory");
    assert!(rt; outcome.status == 0);
    assert!(rt; has(outcome.out.as_slice(), b"\nsetrun 0 0 0 0 0 92\n"));
}

// 19 chunks of the request, 16 and 3 of the two parts of the reply.
#[test]
fn a_large_echo(rt: HostRuntime) {
    let put =
        b"PUT /config HTTP/1.1\r\nHost: u\r\nContent-Length: 151\r\n\r\n{\"applications\":{\"h\":{\"executable\":\"echo\",\"type\":\"external\"}},\"listeners\":{\"*:8080\":{\"pass\":\"routes\"}},\"routes\":[{\"action\":{\"pass\":\"applications/h\"}}]}";
    let head = b"H *:8080 300052\nPOST / HTTP/1.1\r\nHost: a\r\nContent-Length: 300000\r\n\r\n";
    let mut script = joined(&rt, &[b"C 205\n", put, head]).expect(&rt, "memory");
    put_times(&mut script, b"0123456789", 30_000).expect(&rt, "memory");
    let outcome = run(&rt, &["trace"], script.as_slice(), NO_FAULTS).expect(&rt, "memory");
    assert!(rt; outcome.status == 0);
    let text = outcome.out.as_slice();
    assert!(rt; text.iter().filter(|byte| **byte == b'\n').count() == 101);
    assert!(rt; has(text, b"\nsetrun 0 0 0 0 0 300105\n"));
    assert!(rt; has(text, b"\nsetrun 1 1 0 1 0 262144\n"));
    assert!(rt; has(text, b"\nsetrun 1 1 1 1 0 37910\n"));
}
