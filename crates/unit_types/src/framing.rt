//! The fields that say where a message ends and whether its connection stays (RFC 9112, sections 6 and 9).
ghost use Rattle.std.specs.Prelude.{◌≡◌};
ghost use Rattle.unit_types.specs.Framing.{frames_message};

/// The name of the field that gives the length of the content (RFC 9110, section 8.6).
pub const CONTENT_LENGTH: &[u8] = b"content-length";

/// The name of the field that lists the transfer codings of the content (RFC 9112, section 6.1).
pub const TRANSFER_ENCODING: &[u8] = b"transfer-encoding";

/// The name of the field that says what becomes of the connection (RFC 9110, section 7.6.1).
pub const CONNECTION: &[u8] = b"connection";

/// Whether the name, in any case, is that of a field that frames a message: Content-Length, Transfer-Encoding or
/// Connection.
pub fn frames_message(name: &[u8]) -> bool
    ensures { result ≡ frames_message name.now }
{
    name.eq_ignore_ascii_case(CONTENT_LENGTH)
        || name.eq_ignore_ascii_case(CONNECTION)
        || name.eq_ignore_ascii_case(TRANSFER_ENCODING)
}

#[cfg(test)]
mod tests {
    use super::*;

    #[test]
    fn knows_the_three_names(rt: HostRuntime) {
        assert!(rt; frames_message(b"Content-Length"));
        assert!(rt; frames_message(b"TRANSFER-ENCODING"));
        assert!(rt; frames_message(b"connection"));
        assert!(rt; !frames_message(b"content-type"));
    }
}
