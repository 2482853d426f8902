//! What holds of the traces that are written. The function does nothing: its contract is the law.
ghost use Rattle.unit_top.specs.Laws.{TracesAreLegal};

use plain_fabric::any_trace_is_legal;
use trace_check::{legal_where_steps_run, traces_are_read_back};

/// The lines of the steps that requests make in the plain shape, one after another, are a legal trace. Behind it all chunks
/// are free, and no stream is open.
pub fn traces_are_legal()
    ensures { TracesAreLegal }
{
    any_trace_is_legal();
    traces_are_read_back();
    legal_where_steps_run();
}
