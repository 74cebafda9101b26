//! Two things that are waited for at once.
ghost use Rattle.std.specs.Prelude.{◌≡◌};
ghost use Rattle.lock_free_waits.specs.Either.{CameOfEither};

use crate::waits::Tries;
use std::sync::Wait;

/// What came, and of which.
#[derive(Debug, Clone, Copy, PartialEq, Eq)]
pub enum Either<T, U> {
    One(T),
    Two(U),
}

/// Two things to try. A try tries the first, and then, if that brought nothing, the second.
#[derive(Drop)]
pub struct Both<A: Drop, B: Drop> {
    pub one: A,
    pub two: B,
}

impl<T, U, A: Tries<T> + Drop, B: Tries<U> + Drop> Tries<Either<T, U>> for Both<A, B> {
    ghost came = { λ x old new. CameOfEither A.came A.nothing B.came x old new };

    ghost nothing = { λ old new. A.nothing old.one new.one × B.nothing old.two new.two };

    fn try_once(&mut self, rt: &impl Wait) -> Option<Either<T, U>> {
        match self.one.try_once(rt) {
            Some(came) => Some(Either::One(came)),
            None => match self.two.try_once(rt) {
                Some(came) => Some(Either::Two(came)),
                None => None,
            },
        }
    }
}
