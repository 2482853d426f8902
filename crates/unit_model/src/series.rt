//! Lists that contracts see as lists.
ghost use Rattle.std.specs.Prelude.{◌≡◌, ◌∷◌, ◌++◌, [], OnOk, OnErr, drop, slice_set};

use std::alloc::{AllocError, Global};
use std::marker::Model;

/// A list of values. Contracts see the list itself.
#[derive(Debug, Drop)]
pub struct Series<T> {
    pub(crate) values: Vec<T>,
}

impl<T> Model for Series<T> {
    ghost use Rattle.std.specs.Prelude.{List};

    ghost Value = { List T };

    ghost view = { λ s. s.values.items };
}

impl<T> Series<T> {
    /// The values of `values`, without a copy.
    pub fn of(values: Vec<T>) -> Series<T>
        ensures { result ≡ values.items }
    {
        Series { values }
    }

    /// The values as a slice.
    pub fn as_slice(&self) -> &[T]
        ensures { result.now ≡ self.now }
    {
        self.values.as_slice()
    }
}

impl<T: Drop> Series<T> {
    /// Puts a value behind the others.
    ///
    /// Fails for want of memory alone; the list is then as before.
    pub fn append(&mut self, value: T) -> Result<(), AllocError>
        ensures ok { OnOk result (self.new ≡ self.old ++ value ∷ []) }
        ensures err { OnErr result (self.new ≡ self.old) }
    {
        match self.values.push(value) {
            Ok(()) => Ok(()),
            Err(_) => Err(AllocError),
        }
    }

    /// Takes the first value away, where there is one.
    pub fn drop_first(&mut self)
        ensures { self.new ≡ drop 1 self.old }
    {
        if !self.values.is_empty() {
            drop(self.values.remove(0));
        }
    }
}

impl<T: Copy> Series<T> {
    /// Puts a value in the place of the one at `at`, where there is one.
    pub fn replace(&mut self, at: usize, value: T)
        ensures { self.new ≡ slice_set self.old at value }
    {
        if at < self.values.len() {
            self.values[at] = value;
        }
    }
}
