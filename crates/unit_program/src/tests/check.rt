//! Worked rows of `check`.

use super::{Faults, NO_FAULTS, Outcome, run};
use std::alloc::AllocError;

// One request that its client left, and one that is answered.
pub(super) const TRACE: &[u8] =
    b"draw 0 1\nclaim 0 0 0\ngetitem 0 0 0 8\nsetrun 0 0 0 0 0 77\nsetpart 0 0 0 0\narm 0 0 0 1\npush 0 0 0 8\nsettle 0 0 0 1\nrelease 0 0 0\npop 1 0 0 8\ngiveitem 1 0 0 16\ndraw 0 2\nclaim 0 0 0\ngetitem 0 0 1 9\nsetrun 0 0 1 0 0 77\nsetpart 0 0 1 0\narm 0 0 1 2\npush 0 0 1 9\npop 1 0 1 9\nsettle 1 0 1 2\nrelease 1 0 0\ngiveitem 1 0 1 17\nclaim 1 1 0\ngetitem 1 1 0 8\nsetrun 1 1 0 1 0 54\nsetpart 1 1 0 1\narm 1 1 0 2\npush 1 1 0 8\npop 0 1 0 8\nsettle 0 1 0 2\nrelease 0 1 0\ngiveitem 0 1 0 16\n";

const LEGAL: &[u8] = b"legal 32\nchunks 1280 1280\nstreams 2 1 1 0 0 0\n";

const TWICE: &[u8] = b"draw 0 1\ndraw 0 1\n";

fn check(rt: &HostRuntime, trace: &[u8], faults: Faults<'_>) -> Result<Outcome, AllocError> {
    run(rt, &["check"], trace, faults)
}

#[test]
fn legal_traces(rt: HostRuntime) {
    let outcome = check(&rt, TRACE, NO_FAULTS).expect(&rt, "memory");
    assert!(rt; outcome.is(0, LEGAL, b""));
    let outcome = check(&rt, b"", NO_FAULTS).expect(&rt, "memory");
    let nothing = b"legal 0\nchunks 1280 1280\nstreams 0 0 0 0 0 0\n";
    assert!(rt; outcome.is(0, nothing, b""));
}

#[test]
fn illegal_traces(rt: HostRuntime) {
    for (trace, told) in [
        (TWICE, b"illegal 2 2 2 1\n".as_slice()),
        (b"shape 1 1 2 1 1 1 1\nclaim 0 1 0\n", b"illegal 2 12 1 1\n"),
    ] {
        let outcome = check(&rt, trace, NO_FAULTS).expect(&rt, "memory");
        assert!(rt; outcome.is(8, told, b"unit: illegal\n"));
    }
}

#[test]
fn broken_traces(rt: HostRuntime) {
    for (trace, line) in [
        (b"draw 0 01\n".as_slice(), b"unit: input 0\n".as_slice()),
        (b"draw 0 1\ndraw 0 2", b"unit: input 9\n"),
        (b"draw 0 1\ndraw 0 01\ndraw 0 1\n", b"unit: input 9\n"),
    ] {
        let outcome = check(&rt, trace, NO_FAULTS).expect(&rt, "memory");
        assert!(rt; outcome.is(6, b"", line));
    }
}

// The first read decides; the second would fail.
#[test]
fn reads_no_more_once_a_line_decided(rt: HostRuntime) {
    let faults = Faults {
        reads: &[1],
        ..NO_FAULTS
    };
    let outcome = check(&rt, TWICE, faults).expect(&rt, "memory");
    assert!(rt; outcome.is(8, b"illegal 2 2 2 1\n", b"unit: illegal\n"));
}

#[test]
fn a_source_that_fails_before(rt: HostRuntime) {
    let faults = Faults {
        reads: &[0],
        ..NO_FAULTS
    };
    let outcome = check(&rt, TWICE, faults).expect(&rt, "memory");
    assert!(rt; outcome.is(3, b"", b"unit: read\n"));
}

#[test]
fn a_sink_that_fails(rt: HostRuntime) {
    let faults = Faults {
        writes: &[0],
        ..NO_FAULTS
    };
    let outcome = check(&rt, TWICE, faults).expect(&rt, "memory");
    assert!(rt; outcome.is(4, b"", b"unit: write\n"));
    let outcome = check(&rt, TRACE, faults).expect(&rt, "memory");
    assert!(rt; outcome.is(4, b"", b"unit: write\n"));
}
