//! For each step and each of its conditions, a core on which that condition is the first that isn't met.

use super::*;
use crate::tests::{
    abandon, arm, claim, draw, get_item, give_item, open, pop, push, release, set_part, set_run,
    settle, trace, wide,
};
use std::alloc::AllocGlobal;
use std::process::Abort;
use std::test::*;

// What a step is refused for behind the first steps of the trace.
#[derive(Drop)]
struct Refusal {
    // How many steps of the trace come before.
    after: usize,
    // A further step before it.
    also: Option<Step>,
    step: Step,
    // The number of the condition, what it wants, and what was found.
    unmet: (u8, u64, u64),
}

fn at(after: usize, step: Step, unmet: (u8, u64, u64)) -> Refusal {
    Refusal {
        after,
        also: None,
        step,
        unmet,
    }
}

fn behind(after: usize, also: Step, step: Step, unmet: (u8, u64, u64)) -> Refusal {
    Refusal {
        after,
        also: Some(also),
        step,
        unmet,
    }
}

fn check(rt: &(impl Abort + AllocGlobal), refusals: &[Refusal]) {
    let shape = wide();
    assert!(rt; shape.valid());
    let steps = trace(2);
    for refusal in refusals {
        let mut core = Core::open(rt.alloc(), &shape).expect(rt, "opened");
        assert!(rt; refusal.after <= 32);
        let (before, _) = steps.split_at(refusal.after);
        assert!(rt; run_core(&mut core, before).is_ok());
        if let Some(step) = &refusal.also {
            assert_eq!(rt; step_core(&mut core, step), Ok(()));
        }
        let (rule, want, found) = refusal.unmet;
        let fault = StepFault::NotEnabled { rule, want, found };
        assert_eq!(rt;
            step_core(&mut core, &refusal.step),
            Err(fault),
            "{:?}",
            refusal.step
        );
    }
}

#[test]
fn of_draw(rt: HostRuntime) {
    let refusals = [
        at(0, draw(1, 1), (1, 0, 1)),
        at(0, draw(2, 1), (1, 0, 3)),
        at(0, draw(0, 2), (2, 1, 2)),
    ];
    check(&rt, &refusals);
}

#[test]
fn of_claim(rt: HostRuntime) {
    let refusals = [
        at(0, claim(2, 0, 0), (1, 2, 3)),
        at(0, claim(0, 2, 0), (3, 1280, 1280)),
        at(0, claim(1, 0, 5), (3, 1280, 5)),
        at(0, claim(0, 0, 640), (3, 1280, 4294967296)),
        at(0, claim(0, 1, 0), (12, 1, 1)),
        at(2, claim(0, 0, 0), (4, 0, 1)),
        at(6, claim(0, 0, 0), (4, 0, 65536)),
    ];
    check(&rt, &refusals);
}

#[test]
fn of_release(rt: HostRuntime) {
    let refusals = [
        at(2, release(2, 0, 0), (1, 2, 3)),
        at(2, release(0, 3, 0), (3, 1920, 1920)),
        at(2, release(1, 0, 0), (4, 2, 1)),
        at(0, release(0, 0, 0), (4, 1, 0)),
        at(6, release(0, 0, 0), (4, 1, 65536)),
    ];
    check(&rt, &refusals);
}

#[test]
fn of_open(rt: HostRuntime) {
    let refusals = [
        at(0, open(2, 1), (1, 2, 3)),
        at(0, open(0, 0), (13, 1, 0)),
        at(0, open(1, 1), (13, 4294967296, 1)),
        behind(0, open(0, 1), open(0, 2), (13, 4294967296, 2)),
    ];
    check(&rt, &refusals);
}

#[test]
fn of_get_item(rt: HostRuntime) {
    let refusals = [
        at(2, get_item(2, 0, 0, 8), (1, 2, 3)),
        at(2, get_item(1, 0, 0, 8), (5, 1, 0)),
        at(2, get_item(0, 0, 8, 8), (5, 1, 0)),
        at(2, get_item(0, 0, 0, 9), (6, 8, 9)),
        at(2, get_item(0, 0, 1, 8), (7, 0, 1)),
    ];
    check(&rt, &refusals);
}

#[test]
fn of_set_run(rt: HostRuntime) {
    let refusals = [
        at(3, set_run(2, 0, 0, (0, 0, 77)), (1, 2, 3)),
        at(3, set_run(1, 0, 0, (0, 0, 77)), (5, 1, 0)),
        at(2, set_run(0, 0, 0, (0, 0, 77)), (8, 1, 0)),
        at(7, set_run(0, 0, 0, (0, 0, 77)), (8, 1, 4294967296)),
        at(6, set_run(0, 0, 0, (0, 0, 77)), (9, 0, 1)),
        at(3, set_run(0, 0, 0, (0, 0, 0)), (10, 1, 0)),
        at(3, set_run(0, 0, 0, (0, 639, 16385)), (10, 1, 0)),
        at(3, set_run(0, 0, 0, (2, 0, 77)), (10, 1, 0)),
        at(3, set_run(0, 0, 0, (0, 1, 77)), (4, 1, 0)),
    ];
    check(&rt, &refusals);
}

#[test]
fn of_set_part(rt: HostRuntime) {
    let refusals = [
        at(3, set_part(2, 0, 0, 0), (1, 2, 3)),
        at(3, set_part(1, 0, 0, 0), (5, 1, 0)),
        at(2, set_part(0, 0, 0, 0), (8, 1, 0)),
        at(6, set_part(0, 0, 0, 0), (9, 0, 1)),
    ];
    check(&rt, &refusals);
}

#[test]
fn of_arm(rt: HostRuntime) {
    let refusals = [
        at(5, arm(2, 0, 0, 1), (1, 2, 3)),
        at(5, arm(1, 0, 0, 1), (5, 1, 0)),
        at(2, arm(0, 0, 0, 1), (8, 1, 0)),
        at(6, arm(0, 0, 0, 1), (9, 0, 1)),
        at(3, arm(0, 0, 0, 1), (10, 1, 0)),
        behind(5, release(0, 0, 0), arm(0, 0, 0, 1), (4, 1, 0)),
        at(5, arm(0, 0, 0, 2), (11, 1, 0)),
        behind(5, set_part(0, 0, 0, 1), arm(0, 0, 0, 1), (11, 1, 0)),
        at(16, arm(0, 0, 1, 1), (11, 1, 0)),
        at(26, arm(1, 1, 0, 1), (11, 1, 0)),
        behind(26, set_part(1, 1, 0, 2), arm(1, 1, 0, 2), (11, 1, 0)),
    ];
    check(&rt, &refusals);
}

#[test]
fn of_push(rt: HostRuntime) {
    let refusals = [
        at(6, push(2, 0, 0, 8), (1, 2, 3)),
        at(6, push(1, 0, 0, 8), (5, 1, 0)),
        at(2, push(0, 0, 0, 8), (8, 1, 0)),
        at(5, push(0, 0, 0, 8), (9, 9223372036854775808, 0)),
        at(6, push(0, 0, 0, 9), (6, 8, 9)),
    ];
    check(&rt, &refusals);
}

#[test]
fn of_pop(rt: HostRuntime) {
    let refusals = [
        at(7, pop(0, 0, 0, 8), (1, 1, 0)),
        at(28, pop(1, 1, 0, 8), (1, 0, 1)),
        at(7, pop(1, 0, 8, 8), (5, 1, 0)),
        at(7, pop(1, 0, 0, 9), (6, 8, 9)),
        at(7, pop(1, 0, 1, 8), (7, 0, 1)),
        at(0, pop(1, 0, 0, 8), (7, 4294967296, 0)),
    ];
    check(&rt, &refusals);
}

#[test]
fn of_settle(rt: HostRuntime) {
    let refusals = [
        at(7, settle(2, 0, 0, 1), (1, 2, 3)),
        at(7, settle(0, 0, 8, 1), (5, 1, 0)),
        at(7, settle(0, 0, 0, 2), (9, 2, 1)),
        at(5, settle(0, 0, 0, 0), (11, 1, 0)),
        at(7, settle(1, 0, 0, 1), (11, 1, 0)),
        at(28, settle(0, 1, 0, 2), (11, 1, 0)),
        at(28, settle(1, 1, 0, 2), (11, 1, 0)),
    ];
    check(&rt, &refusals);
}

#[test]
fn of_give_item(rt: HostRuntime) {
    let refusals = [
        at(10, give_item(2, 0, 0, 16), (1, 2, 3)),
        at(10, give_item(1, 0, 8, 16), (5, 1, 0)),
        at(10, give_item(0, 0, 0, 16), (8, 1, 2)),
        at(19, give_item(1, 0, 1, 17), (9, 0, 2)),
        at(10, give_item(1, 0, 0, 17), (6, 16, 17)),
    ];
    check(&rt, &refusals);
}

#[test]
fn of_abandon(rt: HostRuntime) {
    let refusals = [
        at(7, abandon(1, 1), (1, 0, 1)),
        at(7, abandon(0, 1), (11, 1, 0)),
        at(11, abandon(0, 1), (11, 1, 0)),
        at(22, abandon(0, 3), (11, 1, 0)),
        behind(22, abandon(0, 2), abandon(0, 2), (11, 1, 0)),
        at(32, abandon(0, 2), (11, 1, 0)),
    ];
    check(&rt, &refusals);
}
