//! A value that lies where threads meet.

ghost use Rattle.std.specs.Prelude.{◌≡◌};
ghost use base.Fml.{ftrue};

use std::marker::Model;

/// A value that nobody reads through a shared reference: it is moved in and out. So threads share its place wherever it may go from one to another.
pub(crate) struct Sole<T> {
    value: T,
}

impl<T> Model for Sole<T> {
    ghost also_owns = { λ _. ftrue };
}

impl<T> Sole<T> {
    pub(crate) fn new(value: T) -> Sole<T>
        ensures { result.value ≡ value }
    {
        Sole { value }
    }

    pub(crate) fn into_inner(self) -> T
        ensures { result ≡ self.value }
    {
        let Sole { value } = self;
        value
    }
}

impl<T: Drop> Drop for Sole<T> {
    fn drop(self) {
        drop(self.into_inner());
    }
}

unsafe impl<T: Send> Send for Sole<T> {}

unsafe impl<T: Send> Sync for Sole<T> {}
