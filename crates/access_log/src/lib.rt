//! The access log: formats, and the line that a format says for a request with its reply.
#![tactic(auto)]

mod buffer;
mod format;
mod laws;
mod lines;
#[cfg(test)]
mod tests;
mod values;

pub use format::Format;
pub use laws::log_lines_end_once;
pub use lines::line;
