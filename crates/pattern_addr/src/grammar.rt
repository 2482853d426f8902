//! The parts of an address pattern, read from a text.
ghost use Rattle.std.specs.Prelude.{◌≡◌, ◌≤◌, IfSome};
ghost use Rattle.pattern_addr.specs.AddressPattern.{address_of, block_of, block_at, span_at, single_at, addresses_of, port_of, port_span_at, single_port_at, ports_of};
ghost use Rattle.unit_types.specs.Numeral.{decimal_within};

use unit_types::{cut, decimal};

/// The numbers from the first one to the last one; none where the first is above the last.
#[derive(Debug, Clone, Copy, Drop)]
pub(crate) struct Range {
    pub(crate) first: u32,
    pub(crate) last: u32,
}

impl Range {
    ghost use Rattle.pattern_addr.specs.AddressPattern.{is_within};

    /// Whether the number is one of them.
    pub(crate) fn contains(&self, number: u32) -> bool
        ensures { result ≡ is_within self.now number }
    {
        self.first <= number && number <= self.last
    }
}

/// The decimal number of at most `limit` that the text spells.
fn number_of(text: &[u8], limit: u16) -> Option<u16>
    ensures value { result ≡ decimal_within limit text.now }
    ensures small { IfSome result (λ n. n ≤ limit) }
{
    let number = decimal(text, u64::from(limit))?;
    u16::try_from(number).ok()
}

/// The address that four numbers with periods between them spell.
#[tactic(auto, unfolding(crate::specs::AddressPattern::address_of))]
fn address_of(text: &[u8]) -> Option<u32>
    ensures { result ≡ address_of text.now }
{
    let (first, rest) = cut(text, b'.')?;
    let (second, rest) = cut(rest, b'.')?;
    let (third, fourth) = cut(rest, b'.')?;
    let a = u32::from(number_of(first, 255)?);
    let b = u32::from(number_of(second, 255)?);
    let c = u32::from(number_of(third, 255)?);
    let d = u32::from(number_of(fourth, 255)?);
    Some(((a * 256 + b) * 256 + c) * 256 + d)
}

/// The addresses that agree with this one in their first `length` bits.
fn block_of(address: u32, length: u16) -> Range
    requires { length ≤ 32 }
    ensures { result ≡ block_of address length }
{
    let size = 1u64 << (32 - length);
    let first = u64::from(address) - u64::from(address) % size;
    Range {
        first: first as u32,
        last: (first + (size - 1)) as u32,
    }
}

/// The block of an address.
#[tactic(auto, unfolding(crate::specs::AddressPattern::block_at))]
fn block_at(address: &[u8], length: &[u8]) -> Option<Range>
    ensures { result ≡ block_at (address.now, length.now) }
{
    let address = address_of(address)?;
    let length = number_of(length, 32)?;
    Some(block_of(address, length))
}

/// From an address to an address.
#[tactic(auto, unfolding(crate::specs::AddressPattern::span_at))]
fn span_at(first: &[u8], last: &[u8]) -> Option<Range>
    ensures { result ≡ span_at (first.now, last.now) }
{
    let first = address_of(first)?;
    let last = address_of(last)?;
    Some(Range { first, last })
}

/// One address.
#[tactic(auto, unfolding(crate::specs::AddressPattern::single_at))]
fn single_at(text: &[u8]) -> Option<Range>
    ensures { result ≡ single_at text.now }
{
    let address = address_of(text)?;
    Some(Range {
        first: address,
        last: address,
    })
}

/// The addresses that the text names.
#[tactic(auto, unfolding(crate::specs::AddressPattern::addresses_of))]
pub(crate) fn addresses_of(text: &[u8]) -> Option<Range>
    ensures { result ≡ addresses_of text.now }
{
    if let [b'*'] = text {
        return Some(Range {
            first: 0,
            last: u32::MAX,
        });
    }
    if let Some((address, length)) = cut(text, b'/') {
        return block_at(address, length);
    }
    match cut(text, b'-') {
        Some((first, last)) => span_at(first, last),
        None => single_at(text),
    }
}

/// A port from 1 on.
fn port_of(text: &[u8]) -> Option<u32>
    ensures { result ≡ port_of text.now }
{
    match number_of(text, u16::MAX)? {
        0 => None,
        port => Some(u32::from(port)),
    }
}

/// From a port to a port.
#[tactic(auto, unfolding(crate::specs::AddressPattern::port_span_at))]
fn port_span_at(first: &[u8], last: &[u8]) -> Option<Range>
    ensures { result ≡ port_span_at (first.now, last.now) }
{
    let first = port_of(first)?;
    let last = port_of(last)?;
    Some(Range { first, last })
}

/// One port.
#[tactic(auto, unfolding(crate::specs::AddressPattern::single_port_at))]
fn single_port_at(text: &[u8]) -> Option<Range>
    ensures { result ≡ single_port_at text.now }
{
    let port = port_of(text)?;
    Some(Range {
        first: port,
        last: port,
    })
}

/// The ports that the text names.
#[tactic(auto, unfolding(crate::specs::AddressPattern::ports_of))]
pub(crate) fn ports_of(text: &[u8]) -> Option<Range>
    ensures { result ≡ ports_of text.now }
{
    match cut(text, b'-') {
        Some((first, last)) => port_span_at(first, last),
        None => single_port_at(text),
    }
}
