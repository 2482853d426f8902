//! What one thread does that plays an engine and a worker in turn: the steps of each request, from
//! the engine to the worker and back.
#![tactic(auto)]

mod carrying;
mod contents;
mod laws;
mod message;
mod plain;
mod schedule;
mod store;
mod words;

pub use laws::{
    a_plain_core_begins_at_rest, a_request_is_answered_from_rest_to_rest,
    a_request_is_cancelled_from_rest_to_rest, any_trace_is_legal, no_stream_is_left_open,
};
pub use message::Message;
pub use plain::Plain;
pub use schedule::{answered_steps, hung_up_steps};

#[cfg(test)]
mod plain_tests;
#[cfg(test)]
mod tests;
