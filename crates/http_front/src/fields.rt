//! The fields of a message by their names (RFC 9110, section 5.1).
ghost use Rattle.std.specs.Prelude.{◌≡◌};
ghost use Rattle.http_front.specs.Fields as spec;

use unit_types::Field;

fn is_named(field: &Field, name: &[u8]) -> bool
    ensures { result ≡ spec.is_named name.now field.now }
{
    field.name.as_slice() == name
}

/// How many fields have that name.
pub(crate) fn count_of(fields: &[Field], name: &[u8]) -> usize
    ensures { result ≡ spec.count_of name.now fields.now }
{
    fields.iter().filter(|field| is_named(field, name)).count()
}

/// The value of the first field of that name, or nothing.
pub(crate) fn value_of<'a>(fields: &'a [Field], name: &[u8]) -> &'a [u8]
    ensures { result.now ≡ spec.value_of name.now fields.now }
{
    for field in fields {
        if is_named(field, name) {
            return field.value.as_slice();
        }
    }
    b"".as_slice()
}
