//! What `Debug` shows of a sender: its name.

use super::LoanSender;
use std::fmt;
use std::fmt::{Debug, Formatter};

impl Debug for LoanSender<'_> {
    fn fmt<W: fmt::Write>(&self, f: &mut Formatter<W>) -> fmt::Result {
        f.debug_struct("LoanSender").finish_non_exhaustive()
    }
}
