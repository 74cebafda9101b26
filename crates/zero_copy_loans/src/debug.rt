//! What `Debug` shows of each type: the place or the number with the value in hand, or the type's name alone.

use crate::channel::Channel;
use crate::pool::{Buffer, Lender, Pool};
use crate::receiver::Receiver;
use crate::sender::{Loan, Sender};
use std::fmt;
use std::fmt::{Debug, Formatter};
use zero_copy_slots::Keeps;

impl<X: Debug + Drop, K: Keeps<X>> Debug for Loan<'_, X, K> {
    fn fmt<W: fmt::Write>(&self, f: &mut Formatter<W>) -> fmt::Result {
        f.debug_struct("Loan")
            .field("place", &self.place())
            .field("value", &self.value)
            .finish_non_exhaustive()
    }
}

impl<X: Debug, K: Keeps<X>> Debug for Buffer<'_, X, K> {
    fn fmt<W: fmt::Write>(&self, f: &mut Formatter<W>) -> fmt::Result {
        f.debug_struct("Buffer")
            .field("number", &self.number)
            .field("value", &self.value)
            .finish_non_exhaustive()
    }
}

impl<X: Drop, K: Keeps<X>> Debug for Channel<X, K> {
    fn fmt<W: fmt::Write>(&self, f: &mut Formatter<W>) -> fmt::Result {
        f.debug_struct("Channel").finish_non_exhaustive()
    }
}

impl<X: Drop, K: Keeps<X>> Debug for Sender<'_, X, K> {
    fn fmt<W: fmt::Write>(&self, f: &mut Formatter<W>) -> fmt::Result {
        f.debug_struct("Sender").finish_non_exhaustive()
    }
}

impl<X: Drop, K: Keeps<X>> Debug for Receiver<'_, X, K> {
    fn fmt<W: fmt::Write>(&self, f: &mut Formatter<W>) -> fmt::Result {
        f.debug_struct("Receiver").finish_non_exhaustive()
    }
}

impl<X: Drop, K: Keeps<X>> Debug for Pool<X, K> {
    fn fmt<W: fmt::Write>(&self, f: &mut Formatter<W>) -> fmt::Result {
        f.debug_struct("Pool").finish_non_exhaustive()
    }
}

impl<X, K: Keeps<X>> Debug for Lender<'_, X, K> {
    fn fmt<W: fmt::Write>(&self, f: &mut Formatter<W>) -> fmt::Result {
        f.debug_struct("Lender").finish_non_exhaustive()
    }
}
