//! Bytes in part.
ghost use Rattle.std.specs.Prelude.{◌≡◌, take, drop};

/// The first `most` bytes, or all where there are fewer.
pub(crate) fn first_bytes(bytes: &[u8], most: usize) -> &[u8]
    ensures { result.now ≡ take most bytes.now }
{
    if bytes.len() <= most {
        bytes
    } else {
        &bytes[..most]
    }
}

/// What stands behind the first `n` bytes.
pub(crate) fn behind(bytes: &[u8], n: usize) -> &[u8]
    ensures { result.now ≡ drop n bytes.now }
{
    if bytes.len() <= n {
        b"".as_slice()
    } else {
        &bytes[n..]
    }
}
