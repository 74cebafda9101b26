//! The calls of a value at a seat, but the load. They take the role, give it back, store, and look at the
//! role and the version.
ghost use Rattle.std.specs.Prelude.{◌≡◌, ◌+◌, IsTrue, IsFalse};
ghost use Rattle.history.specs.Steps.{TakesAtMost};
ghost use Rattle.history_value.specs.Value.{HasProducer};
ghost use Rattle.lock_free_value.specs.Calls.{seen, IsSame, WasAtEnd};
ghost use Rattle.lock_free_value.specs.Roles.{Moved};
ghost use Rattle.lock_free_value.specs.ValueContracts.{HasAcquired, HasReleased, HasStored, HasSeenProducer, HasSeenVersion};

use super::Held;
use super::drives::{LeavesProducer, LooksAtProducer, LooksAtVersion, Stores, TakesProducer};
use super::rule::ValueRule;
use steps::atomic::version::Version;
use steps::atomic::{PRODUCER, Store};
use steps::queues::roles::{AcquireRole, LookRole, ReleaseRole};
use steps::routine::Routine;
use steps::words::Words;

impl<T: Words> Held<T, ValueRule<T>> {
    /// Takes the producer's role, and returns whether it was free.
    pub fn take_producer(&mut self) -> bool
        ensures same { IsSame self.old self.new }
        ensures acquired { HasAcquired result (seen self.old) (seen self.new) }
        ensures taken { IsTrue result → Moved 1 0 (seen self.old).made (seen self.new).made }
        ensures refused { IsFalse result → Moved 0 0 (seen self.old).made (seen self.new).made }
        ensures steps { TakesAtMost 1 (seen self.old) (seen self.new) }
    {
        let call = AcquireRole { word: PRODUCER };
        self.seated
            .drive::<AcquireRole, TakesProducer>(call, &(), &mut ())
    }

    /// Gives the producer's role back.
    pub fn leave_producer(&mut self)
        requires { HasProducer (seen self.old).made }
        ensures same { IsSame self.old self.new }
        ensures left { HasReleased (seen self.old) (seen self.new) }
        ensures role { Moved 0 1 (seen self.old).made (seen self.new).made }
        ensures steps { TakesAtMost 1 (seen self.old) (seen self.new) }
    {
        let call = ReleaseRole { word: PRODUCER };
        self.seated
            .drive::<ReleaseRole, LeavesProducer>(call, &(), &mut ());
    }

    /// Stores a value and returns true, or returns false where the version is at its end.
    pub fn store(&mut self, value: &T) -> bool
        requires { HasProducer (seen self.old).made }
        ensures same { IsSame self.old self.new }
        ensures stored { IsTrue result → HasStored value.now (seen self.old) (seen self.new) }
        ensures end { IsFalse result → WasAtEnd (seen self.old) (seen self.new) }
        ensures role { Moved 0 0 (seen self.old).made (seen self.new).made }
        ensures steps { TakesAtMost (2 + T.WORDS) (seen self.old) (seen self.new) }
    {
        let end = self
            .seated
            .drive::<Store<T>, Stores<T>>(Store::new(), value, &mut ());
        Store::<T>::answer(end, value, &())
    }

    /// Returns whether the producer's role is taken.
    pub fn see_producer(&mut self) -> bool
        ensures same { IsSame self.old self.new }
        ensures answer { HasSeenProducer result (seen self.old) (seen self.new) }
        ensures role { Moved 0 0 (seen self.old).made (seen self.new).made }
        ensures steps { TakesAtMost 1 (seen self.old) (seen self.new) }
    {
        let call = LookRole { word: PRODUCER };
        self.seated
            .drive::<LookRole, LooksAtProducer>(call, &(), &mut ())
    }

    /// Returns the version, by one load.
    pub fn see_version(&mut self) -> u64
        ensures same { IsSame self.old self.new }
        ensures answer { HasSeenVersion result (seen self.old) (seen self.new) }
        ensures role { Moved 0 0 (seen self.old).made (seen self.new).made }
        ensures steps { TakesAtMost 1 (seen self.old) (seen self.new) }
    {
        self.seated
            .drive::<Version, LooksAtVersion>(Version, &(), &mut ())
    }
}
