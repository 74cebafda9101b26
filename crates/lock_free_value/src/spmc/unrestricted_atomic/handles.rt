//! A value with a pass of it, whose calls ask for no proof.
ghost use Rattle.lock_free_value.specs.Calls.{IsPassOf};

use super::{Pass, UnrestrictedAtomic};
use steps::words::Words;

mod calls;

/// A handle has a value and a pass of it. Its calls are those of the value, and ask for nothing; `Producer` stores.
/// Each thread has a handle of its own, by `split`. This project's own.
pub struct Handle<'a, T: Words> {
    value: &'a UnrestrictedAtomic<T>,
    pass: Pass<T>,
    ghost of: { IsPassOf value.now pass },
}

impl<'a, T: Words> Drop for Handle<'a, T> {
    fn drop(self) {
        let Self {
            value: _,
            pass: _pass,
        } = self;
    }
}
