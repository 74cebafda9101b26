//! How a queue of numbers ends. `close` returns the numbers that waited at one moment of the call, whoever
//! pushed them, as a queue of one caller. What was published before them was popped until then. So each
//! number that the pass has seen published stands in this list or was popped, and with the whole share
//! nothing was published after what the pass had seen.
ghost use Rattle.std.specs.Prelude.{◌≡◌, IfOk, IfErr};
ghost use Rattle.steps.specs.declared.enums.UniqueIndexCreationError.TheVariants.{NoMemory};
ghost use Rattle.model.specs.declared.event.Item.TheVariants.{Index};
ghost use Rattle.lock_free_queues.specs.Queues.Calls.{capacity_of, inner, view, IsPassOf};
ghost use Rattle.lock_free_queues.specs.Queues.Closes.{Closes, IsWhatWaits};

use super::{FixedSizeIndexQueue, IndexQueue, Pass};
use crate::spsc::ring;
use plain_queues::IndexQueue as List;
use steps::enums::UniqueIndexCreationError;
use steps::queues::ring::FIRST_CELL;

impl IndexQueue {
    /// Turns the queue into one of a single caller (`plain`), with the numbers that are still in it. Other passes may
    /// live on, but no producer and no consumer.
    ///
    /// Refused is memory (`NoMemory`), before the first atomic step; the queue and the pass are gone then too. Else one
    /// growth, and capacity + 3 atomic steps, and all but the first again if something was published meanwhile; without
    /// a producer nothing is. This project's own.
    pub fn close(self, pass: Pass) -> Result<List, UniqueIndexCreationError>
        requires { IsPassOf self pass }
        ensures list { IfOk result (λ q. Closes Index (capacity_of self) (view pass) q) }
        ensures waits { IfOk result (λ q. IsWhatWaits Index pass q) }
        ensures refused { IfErr result (λ e. e ≡ NoMemory) }
    {
        let words = self.last_words(pass, FIRST_CELL + self.capacity as usize)?;
        Ok(List::of_words(words, self.capacity))
    }
}

impl<const CAPACITY: usize> FixedSizeIndexQueue<CAPACITY> {
    /// Calls `close` of the queue that it has. This project's own.
    pub fn close(self, pass: Pass) -> Result<List, UniqueIndexCreationError>
        requires { IsPassOf (inner self) pass }
        ensures list { IfOk result (λ q. Closes Index CAPACITY (view pass) q) }
        ensures waits { IfOk result (λ q. IsWhatWaits Index pass q) }
        ensures refused { IfErr result (λ e. e ≡ NoMemory) }
    {
        self.into_ring().close(pass)
    }
}
