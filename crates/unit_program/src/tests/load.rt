//! Worked rows of `load`.

use super::{Faults, NO_FAULTS, Outcome, run};
use std::alloc::AllocError;

fn load(
    rt: &HostRuntime,
    requests: &str,
    seed: &str,
    faults: Faults<'_>,
) -> Result<Outcome, AllocError> {
    run(rt, &["load", requests, seed], b"not read", faults)
}

#[test]
fn one_request_for_which_there_is_no_step(rt: HostRuntime) {
    let outcome = load(&rt, "1", "0", NO_FAULTS).expect(&rt, "memory");
    assert!(rt; outcome.is(0, b"frames 2\nin 514\nout 216\nsteps 0\n", b""));
}

#[test]
fn requests_of_each_kind(rt: HostRuntime) {
    let outcome = load(&rt, "9", "7", NO_FAULTS).expect(&rt, "memory");
    assert!(rt; outcome.is(0, b"frames 10\nin 2273\nout 1751\nsteps 147\n", b""));
    let outcome = load(&rt, "5", "18446744073709551615", NO_FAULTS).expect(&rt, "memory");
    assert!(rt; outcome.is(0, b"frames 6\nin 1313\nout 1153\nsteps 63\n", b""));
}

#[test]
fn words_that_are_no_load(rt: HostRuntime) {
    for (requests, seed) in [
        ("0", "1"),
        ("10001", "1"),
        ("1", "00"),
        ("01", "1"),
        ("1", "18446744073709551616"),
        ("", "1"),
        ("1", "+1"),
    ] {
        let outcome = load(&rt, requests, seed, NO_FAULTS).expect(&rt, "memory");
        assert!(rt; outcome.is(2, b"", b"unit: usage\n"));
    }
    let outcome = run(&rt, &["load", "1"], b"", NO_FAULTS).expect(&rt, "memory");
    assert!(rt; outcome.is(2, b"", b"unit: usage\n"));
}

#[test]
fn faults_of_a_load(rt: HostRuntime) {
    let faults = Faults {
        reads: &[0],
        ..NO_FAULTS
    };
    let outcome = load(&rt, "1", "0", faults).expect(&rt, "memory");
    assert!(rt; outcome.is(0, b"frames 2\nin 514\nout 216\nsteps 0\n", b""));
    let faults = Faults {
        writes: &[0],
        ..NO_FAULTS
    };
    let outcome = load(&rt, "1", "0", faults).expect(&rt, "memory");
    assert!(rt; outcome.is(4, b"", b"unit: write\n"));
}
