use super::*;
use std::alloc::AllocError;
use std::test::*;
use std::thread;

#[test]
fn a_settle_by_another_seat_wins_once(rt: HostRuntime) -> Result<(), AllocError> {
    let (tags, mut seat) = Tags::open(rt.alloc(), 1)?;
    tags.arm(&mut seat, 0, 1);
    let mut other = tags.split(&mut seat);
    assert_eq!(rt; tags.settle(&mut other, 0, 1), Settle::Won);
    assert_eq!(rt; tags.settle(&mut other, 0, 1), Settle::Gone(0));
    tags.join(&mut seat, other);
    assert_eq!(rt; tags.close(seat).tag(0), 0);
    Ok(())
}

#[test]
fn of_two_threads_one_wins(rt: HostRuntime) -> Result<(), AllocError> {
    let (tags, mut seat) = Tags::open(rt.alloc(), 2)?;
    tags.arm(&mut seat, 1, 7);
    let mut other = tags.split(&mut seat);
    let (mine, theirs) = thread::join(
        &rt,
        || tags.settle(&mut seat, 1, 7),
        || tags.settle(&mut other, 1, 7),
    );
    assert!(rt; (mine == Settle::Won) != (theirs == Settle::Won));
    assert!(rt; mine == Settle::Gone(0) || theirs == Settle::Gone(0));
    Ok(())
}
