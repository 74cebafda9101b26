//! What `Debug` shows of each type: its name.

use super::{Received, Receiver, Sender, Sent};
use crate::element::Element;
use std::fmt;
use std::fmt::{Debug, Formatter};
use steps::words::Words;

impl<T: Copy> Debug for Sender<'_, T>
where
    Element<T>: Words,
{
    fn fmt<W: fmt::Write>(&self, f: &mut Formatter<W>) -> fmt::Result {
        f.debug_struct("Sender").finish_non_exhaustive()
    }
}

impl<T: Copy> Debug for Sent<T>
where
    Element<T>: Words,
{
    fn fmt<W: fmt::Write>(&self, f: &mut Formatter<W>) -> fmt::Result {
        f.debug_struct("Sent").finish_non_exhaustive()
    }
}

impl<T: Copy> Debug for Receiver<'_, T>
where
    Element<T>: Words,
{
    fn fmt<W: fmt::Write>(&self, f: &mut Formatter<W>) -> fmt::Result {
        f.debug_struct("Receiver").finish_non_exhaustive()
    }
}

impl<T: Copy> Debug for Received<T>
where
    Element<T>: Words,
{
    fn fmt<W: fmt::Write>(&self, f: &mut Formatter<W>) -> fmt::Result {
        f.debug_struct("Received").finish_non_exhaustive()
    }
}
