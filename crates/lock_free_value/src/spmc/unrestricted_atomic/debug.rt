//! What `Debug` shows of each type: its name.

use super::{Handle, Pass, Producer, UnrestrictedAtomic};
use std::fmt;
use std::fmt::{Debug, Formatter};
use steps::words::Words;

impl<T: Words> Debug for UnrestrictedAtomic<T> {
    fn fmt<W: fmt::Write>(&self, f: &mut Formatter<W>) -> fmt::Result {
        f.debug_struct("UnrestrictedAtomic").finish_non_exhaustive()
    }
}

impl<T: Words> Debug for Pass<T> {
    fn fmt<W: fmt::Write>(&self, f: &mut Formatter<W>) -> fmt::Result {
        f.debug_struct("Pass").finish_non_exhaustive()
    }
}

impl<T: Words> Debug for Handle<'_, T> {
    fn fmt<W: fmt::Write>(&self, f: &mut Formatter<W>) -> fmt::Result {
        f.debug_struct("Handle").finish_non_exhaustive()
    }
}

impl<T: Words> Debug for Producer<'_, T> {
    fn fmt<W: fmt::Write>(&self, f: &mut Formatter<W>) -> fmt::Result {
        f.debug_struct("Producer").finish_non_exhaustive()
    }
}
