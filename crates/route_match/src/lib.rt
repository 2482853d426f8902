//! Routing: which requests meet the conditions of a step, and where a configuration sends a request.
#![tactic(auto)]

mod chained;
mod laws;
mod matching;
mod target;
#[cfg(test)]
mod tests;
mod walk;

pub use laws::{
    outcomes_are_there, outcomes_follow_passes, plain_documents_need_no_variables,
    plain_locations_stay, plain_passes_need_no_variables, targets_are_there,
};
pub use matching::request_matches;
pub use target::{Target, last_step, location_of, outcome, route};
pub use walk::Outcome;
