//! The search for the end of a head, in bytes that come in pieces (RFC 9112, sections 2.1 and 2.2).
ghost use Rattle.std.specs.Prelude.{◌≡◌, ◌+◌, ◌-◌, ◌≤◌, length, drop, Some, IfSome};
ghost use Rattle.std.specs.List.{position};
ghost use Rattle.http_front.specs.Head.{is_line_feed};
ghost use Rattle.http_front.specs.Progress.{IsSearched};

use crate::lines::{blank_len, feed_place, is_empty_line};
use crate::slices::behind;

/// How far the search for the end of the head at the front of some bytes has come.
#[derive(Clone, Copy, Debug, PartialEq, Eq, Drop)]
pub(crate) struct Search {
    /// How many bytes the empty lines at the front have.
    pub(crate) blank: usize,
    /// Where the line begins whose LF is looked for.
    pub(crate) line: usize,
    /// Up to where that LF does not stand.
    pub(crate) searched: usize,
}

impl Search {
    /// A search that has not begun.
    pub(crate) const START: Search = Search {
        blank: 0,
        line: 0,
        searched: 0,
    };

    /// The same behind the empty lines that it has passed.
    pub(crate) fn from_blank(self) -> Search
        requires { (self.blank ≤ self.line) × (self.blank ≤ self.searched) }
        ensures { result
            ≡ record {
              blank = 0;
              line = self.line - self.blank;
              searched = self.searched - self.blank;
            } }
    {
        Search {
            blank: 0,
            line: self.line - self.blank,
            searched: self.searched - self.blank,
        }
    }
}

/// The search once it has gone through all bytes. `None` where a whole block ends in them.
pub(crate) fn search_on(search: Search, bytes: &[u8]) -> Option<Search>
    requires { IsSearched search bytes.now }
    ensures is { IfSome result (λ s. IsSearched s bytes.now) }
    ensures all { IfSome result (λ s. s.searched ≡ length bytes.now) }
{
    let mut search = pass_blank(search, bytes);
    while let Some(len) = feed_place(behind(bytes, search.searched)) {
        search = behind_line(search, len, bytes)?;
    }
    search.searched = bytes.len();
    Some(search)
}

// the search behind the empty lines that come next: a loop over their bytes, however many there are
fn pass_blank(search: Search, bytes: &[u8]) -> Search
    requires { IsSearched search bytes.now }
    ensures { IsSearched result bytes.now }
{
    if search.line != search.blank {
        return search;
    }
    let len = blank_len(behind(bytes, search.line));
    if len == 0 {
        return search;
    }
    let end = search.line + len;
    Search {
        blank: end,
        line: end,
        searched: end,
    }
}

// the search behind the line whose LF stands `len` bytes further
fn behind_line(search: Search, len: usize, bytes: &[u8]) -> Option<Search>
    requires searched { IsSearched search bytes.now }
    requires first { Some len ≡ position is_line_feed (drop search.searched bytes.now) }
    ensures is { IfSome result (λ s. IsSearched s bytes.now) }
    ensures further { IfSome result (λ s. s.searched ≡ search.searched + len + 1) }
{
    let end = search.searched + len;
    if !is_empty_line(&bytes[search.line..end]) {
        Some(Search {
            blank: search.blank,
            line: end + 1,
            searched: end + 1,
        })
    } else if search.line == search.blank {
        Some(Search {
            blank: end + 1,
            line: end + 1,
            searched: end + 1,
        })
    } else {
        None
    }
}
