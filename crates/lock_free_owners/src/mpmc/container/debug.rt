//! What `Debug` shows of each type: its name, and the capacity.

use super::{Container, FixedSizeContainer, Handle, Pass};
use std::fmt;
use std::fmt::{Debug, Formatter};
use steps::words::Words;

impl<T: Words> Debug for Container<T> {
    fn fmt<W: fmt::Write>(&self, f: &mut Formatter<W>) -> fmt::Result {
        f.debug_struct("Container")
            .field("capacity", &self.capacity)
            .finish_non_exhaustive()
    }
}

impl<T: Words, const CAPACITY: usize> Debug for FixedSizeContainer<T, CAPACITY> {
    fn fmt<W: fmt::Write>(&self, f: &mut Formatter<W>) -> fmt::Result {
        f.debug_struct("FixedSizeContainer")
            .field("capacity", &self.container.capacity)
            .finish_non_exhaustive()
    }
}

impl<T: Words> Debug for Pass<T> {
    fn fmt<W: fmt::Write>(&self, f: &mut Formatter<W>) -> fmt::Result {
        f.debug_struct("Pass").finish_non_exhaustive()
    }
}

impl<T: Words> Debug for Handle<'_, T> {
    fn fmt<W: fmt::Write>(&self, f: &mut Formatter<W>) -> fmt::Result {
        f.debug_struct("Handle").finish_non_exhaustive()
    }
}
