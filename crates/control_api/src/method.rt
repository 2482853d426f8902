//! Methods (RFC 9110, section 9.3).
ghost use Rattle.std.specs.Prelude.{◌≡◌};
ghost use Rattle.control_api.specs.Control as spec;

/// A method of the control interface.
#[derive(Clone, Copy, Debug, Drop)]
pub(crate) enum Method {
    /// A value is shown.
    Get,
    /// A value is put.
    Put,
    /// A value is put behind the items of an array.
    Post,
    /// A value is removed.
    Delete,
}

/// The method of this name, in capitals as it stands; None where there is none.
pub(crate) fn method_of(name: &[u8]) -> Option<Method>
    ensures { result ≡ spec.method_of name.now }
{
    if name == b"GET".as_slice() {
        Some(Method::Get)
    } else if name == b"PUT".as_slice() {
        Some(Method::Put)
    } else if name == b"POST".as_slice() {
        Some(Method::Post)
    } else if name == b"DELETE".as_slice() {
        Some(Method::Delete)
    } else {
        None
    }
}
