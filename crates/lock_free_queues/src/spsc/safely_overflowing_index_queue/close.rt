//! How an overflowing queue ends. `close` returns the numbers that waited at one moment of the call, as a
//! queue of one caller. If one more than the capacity waits, in the middle of a push, the oldest is left out.
//! Each number that the pass has seen published stands in this list, was left out or was taken out. With the
//! whole share nothing was published after what the pass had seen, and none is left out.
ghost use Rattle.std.specs.Prelude.{◌≡◌, IfOk, IfErr};
ghost use Rattle.steps.specs.declared.enums.UniqueIndexCreationError.TheVariants.{NoMemory};
ghost use Rattle.model.specs.declared.event.Item.TheVariants.{Index};
ghost use Rattle.lock_free_queues.specs.Queues.Overflowing.{capacity_of, inner, view, IsPassOf};
ghost use Rattle.lock_free_queues.specs.Queues.Closes.{Closes, IsNewestThatWaits};

use super::{FixedSizeSafelyOverflowingIndexQueue, Pass, SafelyOverflowingIndexQueue};
use crate::spsc::ring;
use plain_queues::SafelyOverflowingIndexQueue as List;
use steps::enums::UniqueIndexCreationError;
use steps::queues::ring::{FIRST_CELL, READ, WRITE};

impl SafelyOverflowingIndexQueue {
    /// Turns the queue into one of a single caller (`plain`), with the numbers that are still in it. Other passes may
    /// live on, but no producer and no consumer.
    ///
    /// Refused is memory (`NoMemory`), before the first atomic step; the queue and the pass are gone then too. Else one
    /// growth, and capacity + 4 atomic steps, and all but the first again if something was published meanwhile. This
    /// project's own.
    pub fn close(self, pass: Pass) -> Result<List, UniqueIndexCreationError>
        requires { IsPassOf self pass }
        ensures list { IfOk result (λ q. Closes Index (capacity_of self) (view pass) q) }
        ensures waits { IfOk result (λ q. IsNewestThatWaits (capacity_of self) pass q) }
        ensures refused { IfErr result (λ e. e ≡ NoMemory) }
    {
        let capacity = self.capacity;
        let mut words = self.last_words(pass, FIRST_CELL + (capacity as usize + 1))?;
        // While a push is under way one number more than the capacity can wait. Then the list
        // leaves the oldest out.
        let write = words.as_slice()[WRITE];
        let read = words.as_slice()[READ];
        let oldest = write.saturating_sub(capacity as u64);
        words[READ] = read.max(oldest);
        Ok(List::of_words(words, capacity))
    }
}

impl<const CAPACITY: usize> FixedSizeSafelyOverflowingIndexQueue<CAPACITY> {
    /// Calls `close` of the queue that it has. This project's own.
    pub fn close(self, pass: Pass) -> Result<List, UniqueIndexCreationError>
        requires { IsPassOf (inner self) pass }
        ensures list { IfOk result (λ q. Closes Index CAPACITY (view pass) q) }
        ensures waits { IfOk result (λ q. IsNewestThatWaits CAPACITY pass q) }
        ensures refused { IfErr result (λ e. e ≡ NoMemory) }
    {
        self.into_ring().close(pass)
    }
}
