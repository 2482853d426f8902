//! Refusals.

use conf_validate::Invalid;

/// Why a control request is refused.
#[derive(Debug, Drop)]
pub enum Refusal {
    /// The bytes are no request that is served; the reader refuses them with this status.
    BadRequest(u16),
    /// The path is another one, a key is no text, or there is no such value or parent.
    NotFound,
    /// The method is another one, or a value is appended to what is no array.
    BadMethod,
    /// The content is no document.
    NoDocument,
    /// As many changes as may be were accepted.
    TooManyChanges,
    /// The changed document breaks a rule.
    Broken(Invalid),
}
