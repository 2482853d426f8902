//! The limits that more than one crate keeps.

/// Field lines of a head, the request line not counted. Kept where a head is read; a head with more is refused with 431
/// (RFC 6585, section 5).
pub const FIELD_LIMIT: usize = 100;

/// Bytes of a head with its empty line. Kept where a head is read; a longer one is refused with 431 (RFC 6585,
/// section 5).
pub const HEAD_LIMIT: usize = 16_384;

/// Bytes of a request's content where the configuration sets no other limit. Kept where a request is read; a longer one
/// is refused with 413 (RFC 9110, section 15.5.14).
pub const DEFAULT_CONTENT_LIMIT: u64 = 8_388_608;

/// The highest limit of a request's content, in bytes, that a configuration may set. Kept where a configuration is
/// validated; a higher one is a fault of the document.
pub const CONTENT_LIMIT_MAX: u64 = 10_000_000;

/// Bytes of a name: of a handler, and of what a configuration names. Kept by the handlers themselves, and where a
/// configuration is validated.
pub const NAME_LIMIT: usize = 255;

/// Bytes of the record of a request or a reply. Kept by the handlers themselves, and where a record is written.
pub const RECORD_LIMIT: usize = 1_073_741_824;

/// Bytes of a chunk of shared memory, in each of which stands one piece of a record.
pub const CHUNK_SIZE: usize = 16_384;
