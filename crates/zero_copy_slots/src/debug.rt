//! What `Debug` shows of each type: the number and the value that is read, or the number of the slot or of all slots.

use crate::{Keeps, Reading, Slots, Writing};
use std::fmt;
use std::fmt::{Debug, Formatter};

impl<X, K: Keeps<X>> Debug for Slots<X, K> {
    fn fmt<W: fmt::Write>(&self, f: &mut Formatter<W>) -> fmt::Result {
        f.debug_struct("Slots")
            .field("number", &self.number)
            .finish_non_exhaustive()
    }
}

impl<X: Debug, K: Keeps<X>> Debug for Reading<'_, X, K> {
    fn fmt<W: fmt::Write>(&self, f: &mut Formatter<W>) -> fmt::Result {
        f.debug_struct("Reading")
            .field("number", &self.number())
            .field("value", self.get())
            .finish_non_exhaustive()
    }
}

impl<X, K: Keeps<X>> Debug for Writing<'_, X, K> {
    fn fmt<W: fmt::Write>(&self, f: &mut Formatter<W>) -> fmt::Result {
        f.debug_struct("Writing")
            .field("slot", &self.slot)
            .finish_non_exhaustive()
    }
}
