//! Numbers as a trace spells them.
ghost use Rattle.std.specs.Prelude.{◌≡◌, ◌≤◌, option_map, IfSome};
ghost use Rattle.trace_check.specs.Numbers.{first_number};

use unit_types::{cut, plain_decimal};

/// The number in front of the first space, and the text behind the space.
pub(crate) fn first_number(text: &[u8], limit: u64) -> Option<(u64, &[u8])>
    ensures value { option_map (λ parts. (parts.0, parts.1.now)) result
        ≡ first_number limit text.now }
    ensures small { IfSome result (λ parts. parts.0 ≤ limit) }
{
    let (number, rest) = cut(text, b' ')?;
    Some((plain_decimal(number, limit)?, rest))
}
