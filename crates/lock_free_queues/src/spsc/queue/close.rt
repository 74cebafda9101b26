//! How a queue of values ends. `close` returns the values that waited at one moment of the call, whoever
//! pushed them, as a queue of one caller. What was published before them was popped until then. So each value
//! that the pass has seen published stands in this list or was popped, and with the whole share nothing was
//! published after what the pass had seen.
ghost use Rattle.std.specs.Prelude.{◌≡◌, IfOk, IfErr};
ghost use Rattle.steps.specs.declared.enums.UniqueIndexCreationError.TheVariants.{NoMemory};
ghost use Rattle.model.specs.declared.event.Item.TheVariants.{Value};
ghost use Rattle.lock_free_queues.specs.Queues.Values.{capacity_of, inner, view, IsPassOf};
ghost use Rattle.lock_free_queues.specs.Queues.Closes.{Closes, IsWhatWaits};

use super::{Pass, Queue, Ring};
use crate::spsc::ring;
use plain_queues::Queue as List;
use steps::enums::UniqueIndexCreationError;
use steps::queues::ring::FIRST_CELL;
use steps::words::Words;

impl<T: Words> Ring<T> {
    /// Turns the queue into one of a single caller (`plain`), with the values that are still in it. Other passes may
    /// live on, but no producer and no consumer.
    ///
    /// Refused is memory (`NoMemory`), before the first atomic step; the queue and the pass are gone then too. Else one
    /// growth, and 3 + `T::WORDS` times the capacity atomic steps, and all but the first again if something was
    /// published meanwhile; without a producer nothing is. This project's own.
    pub fn close(self, pass: Pass<T>) -> Result<List<T>, UniqueIndexCreationError>
        requires { IsPassOf self pass }
        ensures list { IfOk result (λ q. Closes Value (capacity_of self) (view pass) q) }
        ensures waits { IfOk result (λ q. IsWhatWaits Value pass q) }
        ensures refused { IfErr result (λ e. e ≡ NoMemory) }
    {
        let count = FIRST_CELL + T::WORDS * self.capacity as usize;
        let words = self.last_words(pass, count)?;
        Ok(List::of_words(words, self.capacity))
    }
}

impl<T: Words, const CAPACITY: usize> Queue<T, CAPACITY> {
    /// Calls `close` of the ring that it has. This project's own.
    pub fn close(self, pass: Pass<T>) -> Result<List<T>, UniqueIndexCreationError>
        requires { IsPassOf (inner self) pass }
        ensures list { IfOk result (λ q. Closes Value CAPACITY (view pass) q) }
        ensures waits { IfOk result (λ q. IsWhatWaits Value pass q) }
        ensures refused { IfErr result (λ e. e ≡ NoMemory) }
    {
        self.into_ring().close(pass)
    }
}
