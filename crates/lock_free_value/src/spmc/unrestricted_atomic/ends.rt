//! The calls of an unrestricted atomic value.
ghost use Rattle.std.specs.Prelude.{◌+◌, true, false, IsTrue, IsFalse, IfOk, IfErr};
ghost use Rattle.lock_free_value.specs.Calls.{view, IsPassOf, producer_view, WasAtEnd};
ghost use Rattle.lock_free_value.specs.Calls.{SamePass, SameProducer, ToProducer, FromProducer};
ghost use Rattle.history.specs.Steps.{TakesAtMost, TakesAlone};
ghost use Rattle.lock_free_value.specs.ValueContracts.{HasAcquired, HasReleased, HasStored, HasLoaded};
ghost use Rattle.lock_free_value.specs.ValueContracts.{HasSeenProducer, HasSeenVersion};

use super::{Pass, Producer, UnrestrictedAtomic};
use std::sync::Wait;
use steps::words::Words;

impl<T: Words> UnrestrictedAtomic<T> {
    /// Takes the producer's role and returns its guard, or returns the pass if another has the role. At most one atomic
    /// step. After `acquire_producer` of the Rust crate.
    pub fn acquire_producer(&self, pass: Pass<T>) -> Result<Producer<'_, T>, Pass<T>>
        requires { IsPassOf self.now pass }
        ensures acquired { IfOk result (λ p. ToProducer pass p
            × HasAcquired true (view pass) (producer_view p)
            × TakesAtMost 1 (view pass) (producer_view p)) }
        ensures refused { IfErr result (λ p. SamePass pass p
            × HasAcquired false (view pass) (view p)
            × TakesAtMost 1 (view pass) (view p)) }
    {
        let mut token = pass.into_token();
        if token.take_producer() {
            Ok(Producer { value: self, token })
        } else {
            Err(Pass { token })
        }
    }

    /// Returns the value at one moment of the call, which is the last that was stored before it. At most 2 + `T::WORDS`
    /// atomic steps, and 1 + `T::WORDS` more for each change of a word of the value by others during the call. After
    /// `load` of the Rust crate.
    pub fn load(&self, rt: &impl Wait, pass: &mut Pass<T>) -> T
        requires { IsPassOf self.now pass.old }
        ensures same { SamePass pass.old pass.new }
        ensures loaded { HasLoaded result (view pass.old) (view pass.new) }
        ensures steps { TakesAlone (2 + T.WORDS) (1 + T.WORDS) (view pass.old) (view pass.new) }
    {
        pass.token.load(rt)
    }

    /// Returns whether a producer has the role as the call ends. It changes nothing. At most one atomic step. This
    /// project's own.
    pub fn has_producer(&self, pass: &mut Pass<T>) -> bool
        requires { IsPassOf self.now pass.old }
        ensures same { SamePass pass.old pass.new }
        ensures answer { HasSeenProducer result (view pass.old) (view pass.new) }
        ensures steps { TakesAtMost 1 (view pass.old) (view pass.new) }
    {
        pass.token.see_producer()
    }

    /// Returns the version as the call ends. It is 1 more than the number of the stores by then, among them that of `new`.
    /// So between two calls that return the same version nothing was stored. It changes nothing. At most one atomic step.
    /// This project's own.
    pub fn version(&self, pass: &mut Pass<T>) -> u64
        requires { IsPassOf self.now pass.old }
        ensures same { SamePass pass.old pass.new }
        ensures answer { HasSeenVersion result (view pass.old) (view pass.new) }
        ensures steps { TakesAtMost 1 (view pass.old) (view pass.new) }
    {
        pass.token.see_version()
    }
}

impl<'a, T: Words> Producer<'a, T> {
    /// Stores a value and returns true, or returns false without a change if the version is u64::MAX. At most 2 +
    /// `T::WORDS` atomic steps. After `Producer::store` of the Rust crate.
    pub fn store(&mut self, value: T) -> bool
        ensures same { SameProducer self.old self.new }
        ensures stored { IsTrue result
            → HasStored value (producer_view self.old) (producer_view self.new) }
        ensures end { IsFalse result → WasAtEnd (producer_view self.old) (producer_view self.new) }
        ensures steps { TakesAtMost (2 + T.WORDS) (producer_view self.old) (producer_view self.new) }
    {
        self.token.store(&value)
    }

    /// Gives the role back and hands the pass out. At most one atomic step. This project's own, beside the drop.
    pub fn release(self) -> Pass<T>
        ensures same { FromProducer self.entry result }
        ensures released { HasReleased (producer_view self.entry) (view result) }
        ensures steps { TakesAtMost 1 (producer_view self.entry) (view result) }
    {
        let Producer {
            value: _,
            mut token,
        } = self;
        token.leave_producer();
        Pass { token }
    }
}
