//! JSON documents as trees: read, written, looked up and changed by path.
#![tactic(auto)]

mod append_item;
mod copy;
mod index;
mod laws;
mod lookup;
mod outcomes;
mod path;
mod put_value;
mod read;
mod remove_value;
#[cfg(test)]
mod tests;
mod tree;
mod write;

pub use append_item::append;
pub use laws::{appended_is_got, put_is_got, removed_is_gone};
pub use lookup::get;
pub use outcomes::{Append, Put, Remove};
pub use path::Path;
pub use put_value::put;
pub use read::read_tree;
pub use remove_value::remove;
pub use tree::{Member, Tree, TreeList, TreeMap};
pub use write::write_tree;
