//! Configurations: which trees are valid, and the first broken rule of the others.
#![tactic(auto)]

mod applications;
mod compile;
mod conf;
mod current;
mod destinations;
mod entries;
mod fault;
mod fault_laws;
mod forms;
mod laws;
mod lower;
mod matching;
mod members;
mod names;
mod patterns;
mod place;
mod ports;
mod references;
mod routes;
mod rules;
mod search;
#[cfg(test)]
mod tests;
mod validation;
mod values;
mod walk;

pub use conf::{Action, Application, Changes, Conf, Destination, Goal, Listener, Step};
pub use current::Current;
pub use fault::{ConfFault, Invalid};
pub use fault_laws::paths_of_faults_are_texts;
pub use forms::is_log_format;
pub use laws::{
    configurations_ask_for_handlers, documents_without_changes_change_nothing, passes_have_goals,
    plain_documents_change_nothing, plain_documents_keep_the_plain_rules,
    plain_passes_find_their_targets, plain_passes_lead_somewhere,
};
pub use matching::{Match, NamedPatterns, NamedSet, NamedSets};
pub use ports::{port_of, port_text};
pub use validation::validate;
pub use walk::first_fault;
