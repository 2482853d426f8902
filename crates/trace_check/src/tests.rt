use super::*;
use std::alloc::AllocGlobal;
use std::process::Abort;
use std::test::*;

// One request that its client left, and one that is answered.
fn two_requests() -> &'static [u8] {
    b"draw 0 1\nclaim 0 0 0\ngetitem 0 0 0 8\nsetrun 0 0 0 0 0 77\nsetpart 0 0 0 0\narm 0 0 0 1\npush 0 0 0 8\nsettle 0 0 0 1\nrelease 0 0 0\npop 1 0 0 8\ngiveitem 1 0 0 16\ndraw 0 2\nclaim 0 0 0\ngetitem 0 0 1 9\nsetrun 0 0 1 0 0 77\nsetpart 0 0 1 0\narm 0 0 1 2\npush 0 0 1 9\npop 1 0 1 9\nsettle 1 0 1 2\nrelease 1 0 0\ngiveitem 1 0 1 17\nclaim 1 1 0\ngetitem 1 1 0 8\nsetrun 1 1 0 1 0 54\nsetpart 1 1 0 1\narm 1 1 0 2\npush 1 1 0 8\npop 0 1 0 8\nsettle 0 1 0 2\nrelease 0 1 0\ngiveitem 0 1 0 16\n"
}

const ANSWERED: Verdict = Verdict::Legal {
    steps: 32,
    free: 1280,
    chunks: 1280,
    drawn: 2,
    accepted: 1,
    cancelled: 1,
    abandoned: 0,
    refused: 0,
    left_open: 0,
};

fn verdict_of(rt: &(impl Abort + AllocGlobal), text: &[u8]) -> Verdict {
    let mut checker = Checker::open(rt.alloc()).expect(rt, "opened");
    checker.feed(rt.alloc(), text).expect(rt, "fed");
    checker.finish()
}

// The verdict of a text that comes byte by byte.
fn verdict_by_bytes(rt: &(impl Abort + AllocGlobal), text: &[u8]) -> Verdict {
    let mut checker = Checker::open(rt.alloc()).expect(rt, "opened");
    for byte in text {
        checker.feed(rt.alloc(), &[*byte]).expect(rt, "fed");
    }
    checker.finish()
}

#[test]
fn requests_are_legal(rt: HostRuntime) {
    assert_eq!(rt; verdict_of(&rt, two_requests()), ANSWERED);
}

#[test]
fn pieces_change_nothing(rt: HostRuntime) {
    assert_eq!(rt; verdict_by_bytes(&rt, two_requests()), ANSWERED);
}

#[test]
fn nothing_is_legal(rt: HostRuntime) {
    let nothing = Verdict::Legal {
        steps: 0,
        free: 1280,
        chunks: 1280,
        drawn: 0,
        accepted: 0,
        cancelled: 0,
        abandoned: 0,
        refused: 0,
        left_open: 0,
    };
    assert_eq!(rt; verdict_of(&rt, b""), nothing);
}

#[test]
fn a_stream_is_drawn_once(rt: HostRuntime) {
    let twice = Verdict::Illegal {
        line: 2,
        rule: 2,
        want: 2,
        found: 1,
    };
    assert_eq!(rt; verdict_of(&rt, b"draw 0 1\ndraw 0 1\n"), twice);
}

#[test]
fn lines_that_are_broken(rt: HostRuntime) {
    for (text, place) in [
        (b"draw 0 01\n".as_slice(), 0),
        (b"draw 0 2", 0),
        (b"\n", 0),
        (b"draw 0 1\ndraw 0  2\n", 9),
        (b"draw 0 1\nshape 8 8 1 1 1 1 8\n", 9),
        (b"shape 8 8 9 1 1 1 8\n", 0),
        (b"open 0 4294967296\n", 0),
        (b"Draw 0 1\n", 0),
        (b"draw 0 1 \n", 0),
    ] {
        assert_eq!(rt; verdict_of(&rt, text), Verdict::Broken(place), "at {place}");
    }
}

#[test]
fn a_shape_line_counts(rt: HostRuntime) {
    let closed = Verdict::Illegal {
        line: 2,
        rule: 12,
        want: 1,
        found: 1,
    };
    assert_eq!(rt;
        verdict_of(&rt, b"shape 1 1 2 1 1 1 1\nclaim 0 1 0\n"),
        closed
    );
}

// A line of 256 bytes without LF.
fn long_line() -> &'static [u8] {
    b"draw 0 2\n0123456701234567012345670123456701234567012345670123456701234567012345670123456701234567012345670123456701234567012345670123456701234567012345670123456701234567012345670123456701234567012345670123456701234567012345670123456701234567012345670123456701234567"
}

#[test]
fn a_long_line_decides(rt: HostRuntime) {
    let mut checker = Checker::open(rt.alloc()).expect(&rt, "opened");
    checker.feed(rt.alloc(), b"draw 0 1\n").expect(&rt, "fed");
    assert!(rt; !checker.decided());
    checker.feed(rt.alloc(), long_line()).expect(&rt, "fed");
    assert!(rt; checker.decided());
    assert!(rt; !checker.failed());
    assert_eq!(rt; checker.finish(), Verdict::Broken(18));
}
