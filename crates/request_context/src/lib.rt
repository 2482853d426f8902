//! The records in which requests and replies cross between engines and workers.
//!
//! A request record is what an engine hands to a worker, a reply record what the worker hands back. Each is a list of
//! bytes that spells its value in one way, and none begins another one.
#![tactic(auto)]

mod accepting;
mod answering;
mod asked;
mod asking;
mod collector;
mod comparing;
mod fronts;
mod kept;
mod laws;
mod piece;
mod pieces;
mod reading;
mod reply_parts;
mod stretches;
mod writing;

pub use accepting::{Part, Stray};
pub use answering::parts;
pub use asked::Asked;
pub use asking::{ask_bytes, ask_pieces};
pub use collector::Collector;
pub use laws::{
    parts_join, pieces_join, reply_record_length, reply_records_differ, request_record_length,
    request_records_differ, short_requests_can_be_written,
};
pub use piece::{Parcel, Piece};
pub use pieces::Pieces;
pub use reading::{read_record, read_reply};
pub use reply_parts::Parts;
pub use stretches::PART_SIZE;
pub use writing::{record_of, write_record, write_reply};

#[cfg(test)]
mod part_tests;
#[cfg(test)]
mod tests;
