//! A queue with a pass of it, whose calls ask for no proof.
ghost use Rattle.lock_free_queues.specs.Queues.Rings.{IsPassOf};

use super::rule::Kind;
use super::{Pass, Ring};
use steps::words::Words;

mod calls;

/// A handle has a queue and a pass of it. Its calls are those of the queue, and ask for nothing; `Producer` pushes and
/// `Consumer` pops. Each thread has a handle of its own, by `split`. This project's own.
pub struct Handle<'a, E: Kind, T: Words> {
    ring: &'a Ring<E, T>,
    pass: Pass<E, T>,
    ghost of: { IsPassOf ring.now pass },
}

impl<'a, E: Kind, T: Words> Drop for Handle<'a, E, T> {
    fn drop(self) {
        let Self {
            ring: _,
            pass: _pass,
        } = self;
    }
}
