//! Paths in their normal form, the arguments of a query, cookies, and the variables of a text.
#![tactic(auto)]

mod address;
mod cut;
mod expansion;
mod laws;
mod normal;
mod pairs;
mod pieces;
mod text;
mod value;

pub use expansion::{Expansion, expand, expansion_in};
pub use laws::{
    escaped_expansions_stay_in_line, escaped_values_are_visible, normal_path_begins_with_slash,
    normal_path_has_plain_segments, normal_path_joins_its_segments, normal_path_stays,
    plain_text_stays,
};
pub use normal::normal_path;
pub use pairs::{FieldCookies, Pair, QueryArguments, arguments, arguments_in, cookies, cookies_in};
pub use pieces::{Piece, Pieces, is_variable, pieces_in, variable_count};
pub use text::TextBytes;
pub use value::{Value, value_of};

#[cfg(test)]
mod tests;
