//! What `Debug` shows of each type: its name or what it is, and the capacity.

use super::rule::Kind;
use super::{Consumer, FixedSize, Handle, Pass, Producer, Ring};
use std::fmt;
use std::fmt::{Debug, Formatter};
use steps::words::Words;

impl<E: Kind, T: Words> Debug for Ring<E, T> {
    fn fmt<W: fmt::Write>(&self, f: &mut Formatter<W>) -> fmt::Result {
        f.debug_struct("Queue")
            .field("capacity", &self.capacity)
            .finish_non_exhaustive()
    }
}

impl<E: Kind, T: Words, const CAPACITY: usize> Debug for FixedSize<E, T, CAPACITY> {
    fn fmt<W: fmt::Write>(&self, f: &mut Formatter<W>) -> fmt::Result {
        f.debug_struct("FixedSize")
            .field("capacity", &self.ring.capacity)
            .finish_non_exhaustive()
    }
}

impl<E: Kind, T: Words> Debug for Pass<E, T> {
    fn fmt<W: fmt::Write>(&self, f: &mut Formatter<W>) -> fmt::Result {
        f.debug_struct("Pass").finish_non_exhaustive()
    }
}

impl<E: Kind, T: Words> Debug for Handle<'_, E, T> {
    fn fmt<W: fmt::Write>(&self, f: &mut Formatter<W>) -> fmt::Result {
        f.debug_struct("Handle").finish_non_exhaustive()
    }
}

impl<E: Kind, T: Words> Debug for Producer<'_, E, T> {
    fn fmt<W: fmt::Write>(&self, f: &mut Formatter<W>) -> fmt::Result {
        f.debug_struct("Producer").finish_non_exhaustive()
    }
}

impl<E: Kind, T: Words> Debug for Consumer<'_, E, T> {
    fn fmt<W: fmt::Write>(&self, f: &mut Formatter<W>) -> fmt::Result {
        f.debug_struct("Consumer").finish_non_exhaustive()
    }
}
