use super::*;
use std::alloc::AllocError;

// A C, an H and a G frame, each with its bytes.
const SCRIPT: &[u8] = b"C 3\nabcH *:8080 0\nG a:1 2\n\n\n";

#[test]
fn frames_come_in_turn(rt: HostRuntime) {
    let mut frames = frames_in(SCRIPT);
    assert!(rt; matches!(frames.next(), Some(Frame::Control(b"abc"))));
    assert!(rt;
        matches!(
            frames.next(),
            Some(Frame::Connection {
                listener: b"*:8080",
                bytes: b"",
            })
        )
    );
    assert!(rt;
        matches!(
            frames.next(),
            Some(Frame::HungUp {
                listener: b"a:1",
                bytes: b"\n\n",
            })
        )
    );
    assert!(rt; frames.next().is_none());
    assert!(rt; broken_at(SCRIPT).is_none());
}

#[test]
fn places_of_broken_frames(rt: HostRuntime) {
    for (input, place) in [
        (b"".as_slice(), None),
        (b"C 0\n", None),
        (b"H *:8080 1\n", Some(0)),
        (b"C 1\naC 2\na", Some(5)),
        (b"C 1\naC 1\naX", Some(10)),
        (b"C 01\na", Some(0)),
        (b"C 00\n", Some(0)),
        (b"C +1\na", Some(0)),
        (b"C 1000000000\n", Some(0)),
        (b"C  1\na", Some(0)),
        (b"C 1 \na", Some(0)),
        (b"C 1\r\na", Some(0)),
        (b"C\n", Some(0)),
        (b"c 0\n", Some(0)),
        (b"H 0\n", Some(0)),
        (b"H  0\n", Some(0)),
        (b"H a b 0\n", Some(0)),
        (b"C 0", Some(0)),
        (b"C 0\n\nC 0\n", Some(4)),
    ] {
        assert_eq!(rt; broken_at(input), place);
    }
}

// `H `, a name of so many letters, ` 0` and LF.
fn named(rt: &HostRuntime, letters: usize) -> Result<Vec<u8>, AllocError> {
    let mut line = Vec::from_slice(rt.alloc(), b"H ")?;
    for _ in 0..letters {
        line.push(b'a')?;
    }
    line.extend_from_slice(b" 0\n")?;
    Ok(line)
}

#[test]
fn names_have_at_most_255_bytes(rt: HostRuntime) {
    let longest = named(&rt, 255).expect(&rt, "made");
    assert!(rt; broken_at(longest.as_slice()).is_none());
    let longer = named(&rt, 256).expect(&rt, "made");
    assert_eq!(rt; broken_at(longer.as_slice()), Some(0));
}
