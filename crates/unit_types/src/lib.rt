//! The types that every layer speaks of: byte texts, fields, requests, replies and the handlers that answer.
//!
//! Beside them stands what several crates need alike: the parts of a text, decimal numbers, and the limits that more
//! than one crate keeps.
#![tactic(auto)]

mod bytes;
mod field;
mod framing;
mod handlers;
mod limits;
mod message;
mod numeral;
mod slice;
mod text;

pub use bytes::Bytes;
pub use field::{Field, Fields};
pub use framing::{CONNECTION, CONTENT_LENGTH, TRANSFER_ENCODING, frames_message};
pub use handlers::Handlers;
pub use limits::{
    CHUNK_SIZE, CONTENT_LIMIT_MAX, DEFAULT_CONTENT_LIMIT, FIELD_LIMIT, HEAD_LIMIT, NAME_LIMIT,
    RECORD_LIMIT,
};
pub use message::{Addr, Reply, Request};
pub use numeral::{decimal, plain_decimal};
pub use slice::SliceBytes;
pub use text::{cut, lowercase};
