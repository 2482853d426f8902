//! The front of a server: requests out of the bytes of a connection, and replies into them (RFC 9112).
#![tactic(auto)]

mod arriving;
mod checks;
mod chunk;
mod closing;
mod content;
mod fields;
mod framing;
mod head;
mod host;
mod laws;
mod lines;
mod next_unit;
mod number;
mod progress;
mod reader;
mod request;
mod search;
mod slices;
mod target;
mod written;

pub use closing::{is_head_request, is_last_request};
pub use head::laws_of_heads;
pub use laws::{laws_of_answers, laws_of_chunk_lines, laws_of_sessions, laws_of_units};
pub use next_unit::Next;
pub use reader::Reader;
pub use target::raw_path_of;
pub use written::{content_len, continue_reply, error_reply, write_http};

#[cfg(test)]
mod tests;
