//! The values that a receiver waits for, as an iterator.
ghost use Rattle.std.specs.Prelude.{◌≡◌, ℕ};
ghost use Rattle.std.specs.Iterator.{at_most};
ghost use Rattle.uses_streams.specs.Ends.{receiver_queue, received_so_far, is_at_end};
ghost use Rattle.uses_streams.specs.Values.{turns_left, GivesNext, values_queue, given_so_far, has_given_all};

use super::Receiver;
use crate::element::Element;
use std::sync::{Forever, Wait};
use steps::words::Words;

/// An iterator over the values of a receiver: it waits for each value, and ends at the end of the stream.
pub struct Values<'a, T: Copy, R: Wait>
where
    Element<T>: Words,
{
    receiver: Receiver<'a, T>,
    rt: &'a R,
    turns: Forever<'a, R>,
}

impl<'a, T: Copy, R: Wait> Drop for Values<'a, T, R>
where
    Element<T>: Words,
{
    fn drop(self) {
        let Self {
            receiver: _receiver,
            rt: _,
            turns: _turns,
        } = self;
    }
}

impl<'a, T: Copy> Receiver<'a, T>
where
    Element<T>: Words,
{
    /// The values that come from here on, each as soon as it is there, until the end.
    pub fn values<R: Wait>(self, rt: &'a R) -> Values<'a, T, R>
        ensures queue { values_queue result ≡ receiver_queue self.entry }
        ensures received { given_so_far result ≡ received_so_far self.entry }
        ensures end { has_given_all result ≡ is_at_end self.entry }
    {
        Values {
            receiver: self,
            rt,
            turns: rt.forever(),
        }
    }
}

impl<'a, T: Copy, R: Wait> Values<'a, T, R>
where
    Element<T>: Words,
{
    /// The receiver of the values that are still to come.
    pub fn into_receiver(self) -> Receiver<'a, T>
        ensures queue { receiver_queue result ≡ values_queue self.entry }
        ensures received { received_so_far result ≡ given_so_far self.entry }
        ensures end { is_at_end result ≡ has_given_all self.entry }
    {
        let Values {
            receiver,
            rt: _,
            turns: _turns,
        } = self;
        receiver
    }
}

impl<'a, T: Copy, R: Wait> Iterator for Values<'a, T, R>
where
    Element<T>: Words,
{
    type Item = T;

    ghost next_gives = { GivesNext };

    ghost remaining = { λ s. at_most (turns_left s) };

    fn next(&mut self) -> Option<T> {
        self.turns.next();
        self.receiver.receive_waiting(self.rt)
    }
}
