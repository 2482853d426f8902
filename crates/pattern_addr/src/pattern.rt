//! Address patterns and lists of them.
ghost use Rattle.std.specs.Prelude.{◌≡◌};
ghost use Rattle.pattern_addr.specs.AddressPattern.{plain_pattern_of, with_ports, without_ports};

use crate::grammar::{Range, addresses_of, ports_of};
use std::marker::Model;
use unit_types::{Addr, cut};

/// A pattern of IPv4 addresses and ports, as a configuration's `source` and `destination` have them.
///
/// Contracts see which addresses and ports it names, and whether it is negated.
#[derive(Debug, Drop)]
pub struct AddrPattern {
    negated: bool,
    addresses: Range,
    ports: Range,
}

impl Model for AddrPattern {
    ghost use Rattle.pattern_addr.specs.AddressPattern.{AddressPattern};

    ghost Value = { AddressPattern };

    ghost view = { λ p. record { negated = p.negated; addresses = p.addresses; ports = p.ports } };
}

impl AddrPattern {
    ghost use Rattle.pattern_addr.specs.AddressPattern.{address_pattern_of, holds_of, list_matches};
    ghost use Rattle.std.specs.Prelude.{[], ◌∷◌};

    /// The pattern that the text says: `!` or not, then `*`, `A`, `A/len` with a length of 0 to 32 or `A-B`, then
    /// nothing, `:p` or `:p-q`. An address `A` is four decimal numbers up to 255, a port `p` is 1 to 65535, and
    /// numbers may have leading zeros. `None` comes exactly where the text has not this form.
    pub fn parse(text: &[u8]) -> Option<AddrPattern>
        ensures { result ≡ address_pattern_of text.now }
    {
        if text.starts_with(b"!") {
            plain_pattern_of(true, &text[1..])
        } else {
            plain_pattern_of(false, text)
        }
    }

    /// Whether a list of this pattern alone matches the address.
    pub fn matches(&self, addr: Addr) -> bool
        ensures { result ≡ list_matches (self.now ∷ []) addr }
    {
        self.holds(addr) != self.negated
    }

    /// Whether the address and its port lie in the ranges; the negation is left aside.
    fn holds(&self, addr: Addr) -> bool
        ensures { result ≡ holds_of addr self.now }
    {
        self.addresses.contains(addr.ip) && self.ports.contains(u32::from(addr.port))
    }
}

/// The pattern behind the `!`, or at the front of the text.
#[tactic(auto, unfolding(crate::specs::AddressPattern::plain_pattern_of))]
fn plain_pattern_of(negated: bool, text: &[u8]) -> Option<AddrPattern>
    ensures { result ≡ plain_pattern_of negated text.now }
{
    match cut(text, b':') {
        Some((addresses, ports)) => with_ports(negated, addresses, ports),
        None => without_ports(negated, text),
    }
}

/// Addresses with ports.
#[tactic(auto, unfolding(crate::specs::AddressPattern::with_ports))]
fn with_ports(negated: bool, addresses: &[u8], ports: &[u8]) -> Option<AddrPattern>
    ensures { result ≡ with_ports negated (addresses.now, ports.now) }
{
    let addresses = addresses_of(addresses)?;
    let ports = ports_of(ports)?;
    Some(AddrPattern {
        negated,
        addresses,
        ports,
    })
}

/// Addresses alone, at every port.
#[tactic(auto, unfolding(crate::specs::AddressPattern::without_ports))]
fn without_ports(negated: bool, text: &[u8]) -> Option<AddrPattern>
    ensures { result ≡ without_ports negated text.now }
{
    let addresses = addresses_of(text)?;
    let ports = Range {
        first: 0,
        last: u32::from(u16::MAX),
    };
    Some(AddrPattern {
        negated,
        addresses,
        ports,
    })
}

/// A list of address patterns: some pattern without `!` matches or there is none, and no negated pattern's rest
/// matches. Contracts see the list of the patterns.
#[derive(Debug, Drop)]
pub struct AddrPatterns {
    list: Vec<AddrPattern>,
}

impl Model for AddrPatterns {
    ghost use Rattle.std.specs.Prelude.{List};
    ghost use Rattle.pattern_addr.specs.AddressPattern.{AddressPattern};

    ghost Value = { List AddressPattern };

    ghost view = { λ p. p.list.items };
}

impl AddrPatterns {
    ghost use Rattle.pattern_addr.specs.AddressPattern.{list_matches, holds_of};
    ghost use Rattle.std.specs.Prelude.{not, ◌&&◌};
    ghost use Rattle.std.specs.List.{list_any, list_all};

    /// The patterns of `list`, without a copy.
    pub fn of(list: Vec<AddrPattern>) -> AddrPatterns
        ensures { result ≡ list.items }
    {
        AddrPatterns { list }
    }

    /// The patterns as a slice.
    pub fn as_slice(&self) -> &[AddrPattern]
        ensures { result.now ≡ self.now }
    {
        self.list.as_slice()
    }

    /// Whether the list matches the address.
    pub fn matches(&self, addr: Addr) -> bool
        ensures { result ≡ list_matches self.now addr }
    {
        (self.some_plain_holds(addr) || self.all_negated()) && !self.some_negated_holds(addr)
    }

    fn some_plain_holds(&self, addr: Addr) -> bool
        ensures { result ≡ list_any (λ p. not p.negated && holds_of addr p) self.now }
    {
        self.list.iter().any(|p| !p.negated && p.holds(addr))
    }

    fn all_negated(&self) -> bool
        ensures { result ≡ list_all (λ p. p.negated) self.now }
    {
        self.list.iter().all(|p| p.negated)
    }

    fn some_negated_holds(&self, addr: Addr) -> bool
        ensures { result ≡ list_any (λ p. p.negated && holds_of addr p) self.now }
    {
        self.list.iter().any(|p| p.negated && p.holds(addr))
    }
}

#[cfg(test)]
mod tests {
    use super::*;

    fn addr(a: u8, b: u8, c: u8, d: u8, port: u16) -> Addr {
        Addr {
            ip: u32::from_be_bytes([a, b, c, d]),
            port,
        }
    }

    #[test]
    fn refuses_other_forms(rt: HostRuntime) {
        let broken: [&[u8]; 24] = [
            b"",
            b"!",
            b"!!*",
            b"**",
            b"*:",
            b"*:0",
            b"*:65536",
            b"*:1-",
            b"*:1:2",
            b"1.2.3",
            b"1.2.3.4.5",
            b"1.2.3.256",
            b"1.2.3.",
            b".1.2.3",
            b"1.2.3.4/33",
            b"1.2.3.4/",
            b"1.2.3.4-5",
            b"1.2.3.4-1.2.3.5/8",
            b"1.2.3.4-1.2.3.5-1.2.3.6",
            b"*/8",
            b" 1.2.3.4",
            b"1.2.3.4 ",
            b"+1.2.3.4",
            b"1.2.3.4:80-80-80",
        ];
        for text in broken {
            assert!(rt; AddrPattern::parse(text).is_none(), "{text:?}");
        }
    }

    #[test]
    fn matches_addresses_and_ports(rt: HostRuntime) {
        let rows: [(&[u8], Addr, bool); 26] = [
            (b"10.0.0.0/8:80-90", addr(10, 1, 2, 3, 80), true),
            (b"10.0.0.0/8:80-90", addr(10, 1, 2, 3, 91), false),
            (b"10.0.0.0/8:80-90", addr(11, 0, 0, 1, 80), false),
            (b"10.0.0.0/8:80-90", addr(10, 255, 255, 255, 90), true),
            (b"10.9.8.7/8", addr(10, 0, 0, 0, 0), true),
            (b"1.2.3.4/0", addr(255, 255, 255, 255, 65535), true),
            (b"1.2.3.4/32", addr(1, 2, 3, 4, 5), true),
            (b"1.2.3.4/32", addr(1, 2, 3, 5, 5), false),
            (b"1.2.3.4/31", addr(1, 2, 3, 5, 5), true),
            (b"255.255.255.255", addr(255, 255, 255, 255, 1), true),
            (b"255.255.255.255", addr(255, 255, 255, 254, 1), false),
            (b"*", addr(0, 0, 0, 0, 0), true),
            (b"!*", addr(0, 0, 0, 0, 0), false),
            (b"*:1", addr(9, 9, 9, 9, 1), true),
            (b"*:1", addr(9, 9, 9, 9, 0), false),
            (b"*:65535", addr(9, 9, 9, 9, 65535), true),
            (b"*:0080", addr(9, 9, 9, 9, 80), true),
            (b"001.02.3.0004/08", addr(1, 200, 3, 4, 80), true),
            (b"1.2.3.4-1.2.3.6", addr(1, 2, 3, 4, 0), true),
            (b"1.2.3.4-1.2.3.6", addr(1, 2, 3, 6, 0), true),
            (b"1.2.3.4-1.2.3.6", addr(1, 2, 3, 7, 0), false),
            (b"1.2.3.6-1.2.3.4", addr(1, 2, 3, 5, 0), false),
            (b"1.2.3.4:9-8", addr(1, 2, 3, 4, 9), false),
            (b"!1.2.3.4:9", addr(1, 2, 3, 4, 9), false),
            (b"!1.2.3.4:9", addr(1, 2, 3, 4, 8), true),
            (b"!1.2.3.6-1.2.3.4", addr(1, 2, 3, 5, 0), true),
        ];
        for (text, addr, wanted) in rows {
            let pattern = AddrPattern::parse(text).expect(&rt, "of the form");
            assert!(rt; pattern.matches(addr) == wanted, "{text:?} {addr:?}");
        }
    }

    #[test]
    fn lists_need_a_plain_one_and_no_negated_one(rt: HostRuntime) {
        let texts: [(&[&[u8]], bool); 6] = [
            (&[], true),
            (&[b"1.2.3.4"], true),
            (&[b"1.2.3.5"], false),
            (&[b"!1.2.3.5"], true),
            (&[b"1.2.3.5", b"!1.2.3.6"], false),
            (&[b"1.2.3.0/24", b"!1.2.3.4"], false),
        ];
        for (texts, wanted) in texts {
            let mut list = Vec::new(rt.alloc());
            for text in texts {
                let pattern = AddrPattern::parse(text).expect(&rt, "of the form");
                list.push(pattern).expect(&rt, "pushed");
            }
            let patterns = AddrPatterns::of(list);
            assert!(rt; patterns.as_slice().len() == texts.len());
            assert!(rt;
                patterns.matches(addr(1, 2, 3, 4, 80)) == wanted,
                "{texts:?}"
            );
        }
    }
}
