//! Words that track items: each item has a tag, 0 or the stream that its holder armed it with. Any seat may settle a tag,
//! by one exchange from the stream to 0, so that of all who try exactly one wins.
//!
//! `Tags` has a table of its own. The laws stand in public modules that name no table (`Words`, `Parts`), so that a table
//! with more words in it can be ruled by the same parts.
#![tactic(auto)]

mod closing;
mod laws;
mod seat;
mod tags;
mod view;

pub use closing::ClosedTags;
pub use laws::wins_match_arms;
pub use seat::TagSeat;
pub use tags::{Settle, Tags};
pub use view::{TagEvent, TagView};

#[cfg(test)]
mod tests;
