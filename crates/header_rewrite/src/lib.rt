//! What a step changes: the path and the target of a request, and the header fields of its reply.
#![tactic(auto)]

mod laws;
mod response_headers;
mod targets;
#[cfg(test)]
mod tests;

pub use laws::{
    rewritten_targets_are_short, rewritten_targets_have_their_paths,
    steps_that_change_nothing_leave_all,
};
pub use response_headers::{changed_fields, fielded, fielded_if_changed};
pub use targets::{NewTarget, rewrite, rewritten};
