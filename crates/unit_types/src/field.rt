//! Header fields (RFC 9110, section 5).
ghost use Rattle.std.specs.Prelude.{◌≡◌, ◌↔◌, IfOk, IsTrue};

use crate::bytes::Bytes;
use std::alloc::{AllocError, Global};
use std::marker::Model;

/// One field line: a name and a value (RFC 9110, section 5).
///
/// In a request the name is in lower case and the value has no spaces or tabs at its ends.
#[derive(Debug, Drop)]
pub struct Field {
    /// The field's name.
    pub name: Bytes,
    /// The field's value.
    pub value: Bytes,
}

impl Field {
    /// A copy.
    ///
    /// Fails for want of memory alone.
    pub fn another(&self, alloc: Global) -> Result<Field, AllocError>
        ensures { IfOk result (λ field. field ≡ self.now) }
    {
        Ok(Field {
            name: Bytes::copy_of(alloc, self.name.as_slice())?,
            value: Bytes::copy_of(alloc, self.value.as_slice())?,
        })
    }

    /// Whether both have the same name and the same value.
    pub fn is_equal(&self, other: &Field) -> bool
        ensures { IsTrue result ↔ (self.now ≡ other.now) }
    {
        self.name.is_equal(&other.name) && self.value.is_equal(&other.value)
    }
}

/// The field lines of a message in their order; a name may stand more than once. Contracts see the list itself.
#[derive(Debug, Drop)]
pub struct Fields {
    list: Vec<Field>,
}

impl Model for Fields {
    ghost use Rattle.std.specs.Prelude.{List, ℕ};
    ghost use Rattle.unit_types.specs.declared.field.Field.{Field};

    ghost Value = { List Field };

    ghost view = { λ f. f.list.items };
}

impl Fields {
    /// The field lines of `list`, without a copy.
    pub fn of(list: Vec<Field>) -> Fields
        ensures { result ≡ list.items }
    {
        Fields { list }
    }

    /// The field lines as a slice.
    pub fn as_slice(&self) -> &[Field]
        ensures { result.now ≡ self.now }
    {
        self.list.as_slice()
    }

    /// A copy.
    ///
    /// Fails for want of memory alone.
    pub fn another(&self, alloc: Global) -> Result<Fields, AllocError>
        ensures { IfOk result (λ fields. fields ≡ self.now) }
    {
        let mut list = Vec::with_capacity(alloc, self.list.len())?;
        for field in &self.list {
            list.push(field.another(alloc)?)?;
        }
        Ok(Fields { list })
    }

    /// Whether both are the same field lines in the same order.
    pub fn is_equal(&self, other: &Fields) -> bool
        ensures { IsTrue result ↔ (self.now ≡ other.now) }
    {
        let others = other.list.as_slice();
        if self.list.len() != others.len() {
            return false;
        }
        for (i, field) in self.list.iter().enumerate() {
            if !field.is_equal(&others[i]) {
                return false;
            }
        }
        true
    }

    /// The field lines as a vector, without a copy.
    pub fn into_vec(self) -> Vec<Field>
        ensures { result.items ≡ self }
    {
        self.list
    }
}

#[cfg(test)]
mod tests {
    use super::*;

    #[test]
    fn keeps_the_order(rt: HostRuntime) {
        let mut list = Vec::new(rt.alloc());
        for value in [b"x=1", b"y=2"] {
            let field = Field {
                name: Bytes::copy_of(rt.alloc(), b"cookie").expect(&rt, "copied"),
                value: Bytes::copy_of(rt.alloc(), value).expect(&rt, "copied"),
            };
            list.push(field).expect(&rt, "pushed");
        }
        let fields = Fields::of(Fields::of(list).into_vec());
        assert!(rt; fields.as_slice().len() == 2);
        assert!(rt; fields.as_slice()[1].value.as_slice() == b"y=2".as_slice());
        let again = fields.another(rt.alloc()).expect(&rt, "copied");
        assert!(rt; again.is_equal(&fields));
        assert!(rt; !again.is_equal(&Fields::of(Vec::new(rt.alloc()))));
    }
}
