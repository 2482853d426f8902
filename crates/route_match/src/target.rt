//! Where a configuration sends a request.
ghost use Rattle.std.specs.Prelude.{◌≡◌, IfOk};
ghost use Rattle.route_match.specs.Target.{target_of, last_step_of, location_of, outcome_of};
ghost use Rattle.route_match.specs.There.{IsOutcome, IsTargetThere};

use crate::laws::{outcomes_are_there, targets_are_there};
use crate::walk::{Outcome, outcome_of};
use conf_validate::Conf;
use path_normal::expand;
use std::alloc::{AllocError, Global};
use unit_types::{Bytes, Request};

/// Where a request goes.
#[derive(Debug, Clone, Copy, PartialEq, Eq, Drop)]
pub enum Target {
    /// To an application.
    App {
        /// Its index.
        app: usize,
        /// After how many seconds the request is late.
        timeout: Option<u64>,
    },
    /// Nowhere: the step of this index answers it.
    Return {
        /// The index of the step.
        step: usize,
        /// The status of the reply.
        status: u16,
    },
    /// Nowhere: the reply is the error reply of this status. It is 404 where there is no such listener, a pass names
    /// nothing or no step of a route matches, and 500 where a pass is the 256th one.
    Status(u16),
}

/// Where a request to this listener goes, and by which step: the walk over passes, of which the listener's is the first.
/// It takes no memory.
///
/// The listener is the one of exactly this name, else the one named `*:` and the same port, which is what stands behind
/// the last `:`. Each pass is expanded with the request. A route takes its first step whose conditions hold.
///
/// An application that the target names is there and has this timeout, and the step passes to it; a return is what the step
/// does, and has its status; a status without a step is 404 or 500 (`IsOutcome`).
pub fn outcome(conf: &Conf, listener: &[u8], request: &Request) -> Outcome
    ensures outcome { result ≡ outcome_of conf.now listener.now request.now }
    ensures facts { IsOutcome conf.now request.now result }
{
    // What holds of each configuration holds of where its passes lead.
    conf.is_kept();
    outcomes_are_there();
    outcome_of(conf, listener, request)
}

/// Where a request to this listener goes, as `outcome` tells. An application or a step that the target names is there.
pub fn route(conf: &Conf, listener: &[u8], request: &Request) -> Target
    ensures target { result ≡ target_of conf.now listener.now request.now }
    ensures there { IsTargetThere conf.now result }
{
    targets_are_there();
    conf.is_kept();
    outcome(conf, listener, request).target
}

/// The step by which the walk came to an application or a return, as `outcome` tells. None where it came to neither, and
/// where the listener's own pass leads to an application. It takes no memory.
pub fn last_step(conf: &Conf, listener: &[u8], request: &Request) -> Option<usize>
    ensures { result ≡ last_step_of conf.now listener.now request.now }
{
    outcome(conf, listener, request).step
}

/// The location of a step's reply: its text expanded with the request, each byte of a value outside 0x21 to 0x7E written
/// `%XX`. None where the step has none.
///
/// Fails for want of memory alone.
pub fn location_of(
    alloc: Global,
    conf: &Conf,
    step: usize,
    request: &Request,
) -> Result<Option<Bytes>, AllocError>
    ensures { IfOk result (λ location. location ≡ location_of conf.now step request.now) }
{
    match conf.location(step) {
        Some(text) => Ok(Some(expand(alloc, text, request, true)?)),
        None => Ok(None),
    }
}
