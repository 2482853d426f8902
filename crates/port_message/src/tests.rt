use super::*;
use std::test::*;
use unit_model::Run;

fn run(segment: u16, chunk: u16, size: u32) -> Run {
    Run {
        segment,
        chunk,
        size,
    }
}

#[test]
fn run_words(rt: HostRuntime) {
    assert_eq!(rt; pack(run(3, 5, 16385)), 844446404984833);
    assert_eq!(rt; unpack(844446404984833), Some(run(3, 5, 16385)));
    assert_eq!(rt; unpack(pack(run(0, 639, 16385))), None);
    assert_eq!(rt;
        unpack(pack(run(15, 639, 16384))),
        Some(run(15, 639, 16384))
    );
    assert_eq!(rt; unpack(pack(run(16, 0, 1))), None);
}

#[test]
fn part_words(rt: HostRuntime) {
    assert_eq!(rt; part_word(0, false), 0);
    assert_eq!(rt; part_word(1, true), 3);
    assert_eq!(rt; part_of(3), (1, true));
    assert_eq!(rt; part_of(8589934591), (u32::MAX, true));
}
