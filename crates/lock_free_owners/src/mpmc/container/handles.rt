//! A container with a pass of it, whose calls ask for no proof.
ghost use Rattle.lock_free_owners.specs.Container.Names.{IsPassOf};

use super::{Container, Pass};
use steps::words::Words;

mod calls;
mod states;
mod visits;

/// A handle has a container and a pass of it. Its calls are those of the container. They ask for nothing but a state of
/// it, which an `if` with `is_state_of` shows, and closures that may be called. Each thread has a handle of its own, by
/// `split`. This project's own.
pub struct Handle<'a, T: Words> {
    container: &'a Container<T>,
    pass: Pass<T>,
    ghost of: { IsPassOf container.now pass },
}

impl<'a, T: Words> Drop for Handle<'a, T> {
    fn drop(self) {
        let Self {
            container: _,
            pass: _pass,
        } = self;
    }
}
