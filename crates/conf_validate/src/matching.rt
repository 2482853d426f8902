//! What a step asks of a request.

use pattern_addr::AddrPatterns;
use pattern_text::TextPatterns;
use std::marker::Model;
use unit_types::Bytes;

/// What a step asks of a request: each member that is there has to hold.
#[derive(Debug, Drop)]
pub struct Match {
    /// Of the path.
    pub uri: Option<TextPatterns>,
    /// Of the host, whatever its case.
    pub host: Option<TextPatterns>,
    /// Of the method, whatever its case.
    pub method: Option<TextPatterns>,
    /// Of the scheme, whatever its case.
    pub scheme: Option<TextPatterns>,
    /// Of the query.
    pub query: Option<TextPatterns>,
    /// Of the client's address.
    pub source: Option<AddrPatterns>,
    /// Of the address at which the connection was accepted.
    pub destination: Option<AddrPatterns>,
    /// Of the arguments.
    pub arguments: Option<NamedSets>,
    /// Of the cookies.
    pub cookies: Option<NamedSets>,
    /// Of the fields, whatever the case of their values; the names are in lower case.
    pub headers: Option<NamedSets>,
}

/// Patterns for the values of a name.
#[derive(Debug, Drop)]
pub struct NamedPatterns {
    /// The name.
    pub name: Bytes,
    /// The patterns, one of whose name's values has to match.
    pub patterns: TextPatterns,
}

/// Names with their patterns, each of which has to hold. Contracts see the list.
#[derive(Debug, Drop)]
pub struct NamedSet {
    list: Vec<NamedPatterns>,
}

impl Model for NamedSet {
    ghost use Rattle.std.specs.Prelude.{List};
    ghost use Rattle.conf_validate.specs.declared.matching.NamedPatterns.{NamedPatterns};

    ghost Value = { List NamedPatterns };

    ghost view = { λ s. s.list.items };
}

impl NamedSet {
    ghost use Rattle.std.specs.Prelude.{◌≡◌};

    pub(crate) fn of(list: Vec<NamedPatterns>) -> NamedSet
        ensures { result ≡ list.items }
    {
        NamedSet { list }
    }

    /// The names with their patterns.
    pub fn as_slice(&self) -> &[NamedPatterns]
        ensures { result.now ≡ self.now }
    {
        self.list.as_slice()
    }
}

/// Sets of names, one of which has to hold. Contracts see the list of lists.
#[derive(Debug, Drop)]
pub struct NamedSets {
    list: Vec<NamedSet>,
}

impl Model for NamedSets {
    ghost use Rattle.std.specs.Prelude.{List};
    ghost use Rattle.conf_validate.specs.declared.matching.NamedPatterns.{NamedPatterns};

    ghost Value = { List (List NamedPatterns) };

    ghost view = { λ s. s.list.items };
}

impl NamedSets {
    ghost use Rattle.std.specs.Prelude.{◌≡◌};

    pub(crate) fn of(list: Vec<NamedSet>) -> NamedSets
        ensures { result ≡ list.items }
    {
        NamedSets { list }
    }

    /// The sets.
    pub fn as_slice(&self) -> &[NamedSet]
        ensures { result.now ≡ self.now }
    {
        self.list.as_slice()
    }
}
