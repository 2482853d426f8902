//! How far the reading of a request has come, while more bytes are needed.
ghost use Rattle.std.specs.Prelude.{◌≡◌, IfSome};
ghost use Rattle.http_front.specs.Progress.{IsSearched, SearchedOn};

use crate::search::{Search, search_on};
use unit_types::HEAD_LIMIT;

/// How far the reading of the request at the front has come.
#[derive(Clone, Copy, Debug, PartialEq, Eq, Drop)]
pub(crate) enum Progress {
    /// The end of its head is looked for.
    Head(Search),
    /// Its head is complete and gone, and its content arrives.
    Content,
}

impl Progress {
    /// Of bytes that were not looked at.
    pub(crate) const START: Progress = Progress::Head(Search::START);
}

/// The search once the end of the head was looked for in all bytes.
pub(crate) fn head_search(bytes: &[u8]) -> Search
    ensures { IsSearched result bytes.now }
{
    match search_on(Search::START, bytes) {
        Some(search) => search,
        None => Search::START,
    }
}

/// The search once it has gone through all bytes, where more are needed. `None` where they may tell something new.
pub(crate) fn search_over(search: Search, bytes: &[u8]) -> Option<Search>
    requires { IsSearched search bytes.now }
    ensures { IfSome result (λ s. SearchedOn s bytes.now) }
{
    let search = search_on(search, bytes)?;
    if bytes.len() - search.blank < HEAD_LIMIT {
        Some(search)
    } else {
        None
    }
}
