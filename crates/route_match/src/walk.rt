//! The walk over passes. No call takes memory.
ghost use Rattle.std.specs.Prelude.{◌≡◌, MatchOption, Some, None, slice_get};
ghost use Rattle.conf_validate.specs.Configuration.{listener_index, plain_goal};
ghost use Rattle.route_match.specs.Target.{any_address_at, any_address_for, listener_for, step_taken, timeout_of, arrived, refused, goal_of, at_action, advance, walk, outcome_of};

use crate::chained::Chained;
use crate::matching::request_matches;
use crate::target::Target;
use conf_validate::{Action, Conf, Goal, Step, port_text};
use path_normal::expansion_in;
use unit_types::Request;

/// How many passes a request may take.
const MOST_PASSES: u8 = 255;

/// Where a request goes, and by which step.
#[derive(Debug, Clone, Copy, PartialEq, Eq, Drop)]
pub struct Outcome {
    /// Where it goes.
    pub target: Target,
    /// The index of the step by which it came to an application or a return. None where it came to neither, and where
    /// the listener's own pass leads to an application.
    pub step: Option<usize>,
}

/// What a pass comes to.
#[derive(Clone, Copy, Drop)]
enum Progress {
    /// The walk ends.
    Ends(Outcome),
    /// This step passes on, to what its pass names.
    Passes(usize, Option<Goal>),
}

/// Where a listener's request goes, and by which step.
pub(crate) fn outcome_of(conf: &Conf, listener: &[u8], request: &Request) -> Outcome
    ensures { result ≡ outcome_of conf.now listener.now request.now }
{
    let Some(index) = listener_for(conf, listener) else {
        return refused(404);
    };
    let Some(listener) = conf.listeners().get(index) else {
        return refused(404);
    };
    let known = conf.listener_goal(index);
    let goal = goal_of(conf, known, listener.pass.as_slice(), request);
    walk(conf, goal, request)
}

/// The index of the listener of this name, else of the one named `*:` and the same port.
fn listener_for(conf: &Conf, name: &[u8]) -> Option<usize>
    ensures { result ≡ listener_for conf.now name.now }
{
    if let Some(index) = named(conf, name) {
        return Some(index);
    }
    any_address_for(conf, name)
}

/// The index of the listener of exactly this name.
fn named(conf: &Conf, name: &[u8]) -> Option<usize>
    ensures { result ≡ listener_index name.now conf.now.listeners }
{
    conf.listener(Chained::of(name, b""))
}

/// The index of the listener named `*:` and the port of this name.
fn any_address_for(conf: &Conf, name: &[u8]) -> Option<usize>
    ensures { result ≡ any_address_for conf.now name.now }
{
    any_address_at(conf, port_text(name)?)
}

/// The index of the listener named `*:` and this port.
fn any_address_at(conf: &Conf, port: &[u8]) -> Option<usize>
    ensures { result ≡ any_address_at conf.now port.now }
{
    conf.listener(Chained::of(b"*:", port))
}

/// The walk from what the listener's pass names.
fn walk(conf: &Conf, first: Option<Goal>, request: &Request) -> Outcome
    ensures { result ≡ walk (goal_of conf.now request.now) conf.now request.now 255 None first }
{
    let mut step = None;
    let mut goal = first;
    for _ in 0..MOST_PASSES {
        match advance(conf, step, goal, request) {
            Progress::Ends(outcome) => return outcome,
            Progress::Passes(taken, next) => {
                step = Some(taken);
                goal = next;
            }
        }
    }
    refused(500)
}

/// What the pass of this step, or of the listener, comes to, by what it names.
fn advance(conf: &Conf, step: Option<usize>, goal: Option<Goal>, request: &Request) -> Progress
    ensures { result ≡ advance (goal_of conf.now request.now) conf.now request.now step goal }
{
    match goal {
        Some(Goal::Application(app)) => Progress::Ends(arrived(conf, step, app)),
        Some(Goal::Route { first, count }) => match step_taken(conf, first, count, request) {
            Some((index, step)) => at_action(conf, index, step, request),
            None => Progress::Ends(refused(404)),
        },
        None => Progress::Ends(refused(404)),
    }
}

/// What a step does that is taken.
fn at_action(conf: &Conf, index: usize, step: &Step, request: &Request) -> Progress
    requires { slice_get conf.now.steps index ≡ Some step.now }
    ensures { result ≡ at_action (goal_of conf.now request.now) index step.now.action }
{
    match &step.action {
        Action::Pass(pass) => {
            let known = conf.step_goal(index);
            Progress::Passes(index, goal_of(conf, known, pass.as_slice(), request))
        }
        Action::Return(status) => Progress::Ends(Outcome {
            target: Target::Return {
                step: index,
                status: *status,
            },
            step: Some(index),
        }),
    }
}

/// The first step of a route whose conditions hold, with its index.
fn step_taken<'a>(
    conf: &'a Conf,
    first: usize,
    count: usize,
    request: &Request,
) -> Option<(usize, &'a Step)>
    ensures { MatchOption result (step_taken conf.now request.now first count ≡ None)
        (λ taken. (step_taken conf.now request.now first count ≡ Some (taken.0, taken.1.now))
        × (slice_get conf.now.steps taken.0 ≡ Some taken.1.now)) }
{
    let steps = conf.steps().get(first..)?;
    for (at, step) in steps.iter().enumerate() {
        if at == count {
            return None;
        }
        if request_matches(&step.conditions, request) {
            return Some((first + at, step));
        }
    }
    None
}

/// An application, to which the pass of this step leads.
fn arrived(conf: &Conf, step: Option<usize>, app: usize) -> Outcome
    ensures { result ≡ arrived conf.now step app }
{
    Outcome {
        target: Target::App {
            app,
            timeout: timeout_of(conf, app),
        },
        step,
    }
}

fn timeout_of(conf: &Conf, app: usize) -> Option<u64>
    ensures { result ≡ timeout_of conf.now app }
{
    conf.applications().get(app)?.timeout
}

/// An end that no step leads to.
fn refused(status: u16) -> Outcome
    ensures { result ≡ refused status }
{
    Outcome {
        target: Target::Status(status),
        step: None,
    }
}

/// What a pass names in a request; it is known already where the pass has no `$`.
fn goal_of(conf: &Conf, known: Option<Goal>, pass: &[u8], request: &Request) -> Option<Goal>
    requires { known ≡ plain_goal conf.now pass.now }
    ensures { result ≡ goal_of conf.now request.now pass.now }
{
    match known {
        Some(goal) => Some(goal),
        None => conf.goal(expansion_in(pass, request)),
    }
}
