// A value that only clauses read.
ghost use Rattle.std.specs.Prelude.{◌≡◌};
ghost use base.Fml.{ftrue};

use std::marker::{Model, PhantomData};

/// A `T` as clauses see it. It has no bytes.
///
/// Only clauses tie its value: whoever makes one says which it is.
pub struct Told<T> {
    marker: PhantomData<T>,
    pub ghost value: { T },
}

impl<T> Model for Told<T> {
    ghost also_owns = { λ _. ftrue };
}

impl<T> Told<T> {
    /// The value behind a reference.
    pub fn of(x: &T) -> Told<T>
        ensures { result.value ≡ x.now }
    {
        let _ = x;
        Told {
            marker: PhantomData,
        }
    }
}

impl<T> Told<T> {
    /// Any value that whoever calls it says, as it follows from what the reference shows.
    pub fn about<X>(x: &X) -> Told<T>
        ghost told: { T }
        ensures { result.value ≡ told }
    {
        let _ = x;
        Told {
            marker: PhantomData,
        }
    }
}

unsafe impl<T> Send for Told<T> {}

unsafe impl<T> Sync for Told<T> {}

impl<T> Drop for Told<T> {
    fn drop(self) {
        let Self { marker: _ } = self;
    }
}
