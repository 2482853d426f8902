//! Requests that wait for the reply of a handler.
ghost use Rattle.std.specs.Prelude.{◌≡◌, IfOk, true};
ghost use Rattle.route_match.specs.There.{IsOutcome};
ghost use Rattle.conn_machine.specs.Asking.{is_app};
ghost use Rattle.conn_machine.specs.Shows.{IsPendingBy};
ghost use Rattle.header_rewrite.specs.Rewrite.{with_rewrite};

use conf_validate::Conf;
use header_rewrite::{NewTarget, rewrite};
use route_match::{Outcome, Target};
use std::alloc::{AllocError, Global};
use unit_types::{Bytes, Request};

/// A request that waits for the reply of a handler.
#[derive(Drop)]
pub struct Pending {
    /// The name of the handler, and the request as the step by which it came there rewrites it.
    pub asks: (Bytes, Request),
    /// Its path and its target as they came, where the step rewrites them.
    pub rewrite: Option<NewTarget>,
    /// The step by which it came there.
    pub step: Option<usize>,
    /// After how many seconds it is late.
    pub timeout: Option<u64>,
}

/// A request that came by this outcome to an application. Fails for want of memory alone.
pub(crate) fn pending_by(
    alloc: Global,
    conf: &Conf,
    outcome: Outcome,
    request: Request,
) -> Result<Pending, AllocError>
    requires outcome { IsOutcome conf.now request outcome }
    requires goes { is_app outcome.target ≡ true }
    ensures { IfOk result (λ pending. IsPendingBy conf.now outcome pending request) }
{
    let Target::App { app, timeout } = outcome.target else {
        unreachable!();
    };
    let name = Bytes::copy_of(alloc, conf.handler(app))?;
    let mut request = request;
    let mut rewrite = rewrite(alloc, conf, outcome.step, &request)?;
    exchange(&mut rewrite, &mut request);
    Ok(Pending {
        asks: (name, request),
        rewrite,
        step: outcome.step,
        timeout,
    })
}

/// Exchanges the path and the target of the request with those of the rewrite, if there is one; nothing is copied.
pub(crate) fn exchange(rewrite: &mut Option<NewTarget>, request: &mut Request)
    ensures request { request.new ≡ with_rewrite request.old rewrite.old }
    ensures back { with_rewrite request.new rewrite.new ≡ request.old }
{
    if let Some(new) = rewrite {
        new.exchange(request);
    }
}
