//! A loan channel, this project's own. Its sender loans indices of a set, sends them through an overflowing queue, and
//! gets them back through an index queue. The receiver has the two other guards. Make the index queue as long as the
//! set, which `new` does not ask: else a receiver's push may find it full.
//!
//! Clauses `steps` and `queue_steps` say how many atomic steps a call takes, but not of `new`, `finish` and the pops of
//! `reclaim`.
ghost use Rattle.lock_free_sets.specs.UniqueIndexSet.{view, IsPassOf};
ghost use Rattle.lock_free_loans.specs.Loan.Places.{IsBookOf};

use self::places::Place;
use lock_free_queues::spsc::{index_queue, safely_overflowing_index_queue as overflow};
use lock_free_sets::mpmc::unique_index_set::{Pass, UniqueIndexSet};
use thiserror::Error;

mod calls;
mod debug;
mod places;

/// The end of a loan channel that loans and sends. It keeps a table of where each index is: Free, Loaned, which is
/// here, or Sent. Its pass holds exactly the indices that are Loaned or Sent, each once (`holds` says so).
///
/// ```rust
/// let slot = sender.loan(&rt)?;
/// // .. the sender writes its data into the buffer of this number
/// sender.send(slot);
/// let came = receiver.pop(&rt).ok_or("nothing came")?;
/// // .. the receiver reads them there
/// assert!(rt; returner.push(came) && sender.take_back() == Some(slot as u64));
/// ```
pub struct LoanSender<'a> {
    set: &'a UniqueIndexSet,
    pass: Pass,
    submission: overflow::Producer<'a>,
    completion: index_queue::Consumer<'a>,
    places: Vec<Place>,
    ghost of: { IsPassOf set.now pass },
    ghost book: { IsBookOf (view pass) places.items },
}

impl<'a> Drop for LoanSender<'a> {
    fn drop(self) {
        let Self {
            set: _,
            pass: _pass,
            submission: _submission,
            completion: _completion,
            places: _places,
        } = self;
    }
}

/// Why there is no sender.
#[derive(Debug, Clone, Copy, PartialEq, Eq, Error)]
pub enum LoanError {
    #[error("there is no memory")]
    NoMemory,
}
