//! The calls by a handle: those of its value.
ghost use Rattle.std.specs.Prelude.{◌≡◌, ◌+◌, true, false, IfSome, IfNone, IfOk, IfErr};
ghost use Rattle.model.specs.declared.turn.Kind.TheVariants as kinds;
ghost use Rattle.history.specs.History.{Knows};
ghost use Rattle.history.specs.Steps.{TakesAtMost, TakesAlone};
ghost use Rattle.lock_free_value.specs.Calls.{HasHistory, IsPassOf, code_of, value_of_pass, producer_view, ToProducer};
ghost use Rattle.lock_free_value.specs.ValueContracts.{HasAcquired, HasLoaded, HasSeenProducer, HasSeenVersion, HasSplit};
ghost use Rattle.lock_free_value.specs.Handles.{value_in, pass_in, knows, SameHandle};

use super::Handle;
use crate::spmc::unrestricted_atomic::{Pass, Producer, UnrestrictedAtomic};
use std::sync::Wait;
use steps::words::Words;

impl<T: Words> UnrestrictedAtomic<T> {
    /// Makes a handle of this value and a pass of it. No atomic step. This project's own.
    pub fn handle(&self, pass: Pass<T>) -> Handle<'_, T>
        requires { IsPassOf self.now pass }
        ensures value { value_in result ≡ self.now }
        ensures pass { pass_in result ≡ pass }
    {
        Handle { value: self, pass }
    }
}

impl<'a, T: Words> Handle<'a, T> {
    /// Returns the pass. No atomic step.
    pub fn into_pass(self) -> Pass<T>
        ensures { result ≡ pass_in self.entry }
    {
        let Handle { value: _, pass } = self;
        pass
    }

    /// What the handle's pass has seen is a history, as `history` of the pass says. It does nothing.
    pub fn history(&self)
        ensures run { Knows (code_of (pass_in self.now).token) kinds.Atomic 1 (knows self.now) }
        ensures history { HasHistory (code_of (pass_in self.now).token) (knows self.now) }
    {
        self.pass.history();
    }

    /// Makes a further handle of the value, with a pass that it gets by `Pass::split`.
    pub fn split(&mut self) -> Option<Handle<'a, T>>
        ensures value { value_in self.new ≡ value_in self.old }
        ensures pass { value_of_pass (pass_in self.new) ≡ value_of_pass (pass_in self.old) }
        ensures new { IfSome result (λ h. value_in h ≡ value_in self.old) }
        ensures cut { IfSome result (λ h. HasSplit (knows self.old) (knows self.new) (knows h)) }
        ensures none { IfNone result (knows self.new ≡ knows self.old) }
        ensures steps { TakesAtMost 1 (knows self.old) (knows self.new) }
    {
        let pass = self.pass.split()?;
        Some(Handle {
            value: self.value,
            pass,
        })
    }

    /// Calls `UnrestrictedAtomic::acquire_producer`, and returns the guard, which owns the pass, or the handle.
    pub fn acquire_producer(self) -> Result<Producer<'a, T>, Handle<'a, T>>
        ensures acquired { IfOk result (λ p. ToProducer (pass_in self.entry) p
            × HasAcquired true (knows self.entry) (producer_view p)
            × TakesAtMost 1 (knows self.entry) (producer_view p)) }
        ensures refused { IfErr result (λ h. SameHandle self.entry h
            × HasAcquired false (knows self.entry) (knows h)
            × TakesAtMost 1 (knows self.entry) (knows h)) }
    {
        let Handle { value, pass } = self;
        match value.acquire_producer(pass) {
            Ok(producer) => Ok(producer),
            Err(pass) => Err(value.handle(pass)),
        }
    }

    /// Calls `UnrestrictedAtomic::load`, with its pass.
    pub fn load(&mut self, rt: &impl Wait) -> T
        ensures same { SameHandle self.old self.new }
        ensures loaded { HasLoaded result (knows self.old) (knows self.new) }
        ensures steps { TakesAlone (2 + T.WORDS) (1 + T.WORDS) (knows self.old) (knows self.new) }
    {
        self.value.load(rt, &mut self.pass)
    }

    /// Calls `UnrestrictedAtomic::has_producer`, with its pass.
    pub fn has_producer(&mut self) -> bool
        ensures same { SameHandle self.old self.new }
        ensures answer { HasSeenProducer result (knows self.old) (knows self.new) }
        ensures steps { TakesAtMost 1 (knows self.old) (knows self.new) }
    {
        self.value.has_producer(&mut self.pass)
    }

    /// Calls `UnrestrictedAtomic::version`, with its pass.
    pub fn version(&mut self) -> u64
        ensures same { SameHandle self.old self.new }
        ensures answer { HasSeenVersion result (knows self.old) (knows self.new) }
        ensures steps { TakesAtMost 1 (knows self.old) (knows self.new) }
    {
        self.value.version(&mut self.pass)
    }

    /// Calls `Pass::look`, with its pass.
    pub fn look(&mut self)
        ensures same { SameHandle self.old self.new }
        ensures made { (knows self.new).made ≡ (knows self.old).made }
        ensures steps { TakesAtMost 1 (knows self.old) (knows self.new) }
    {
        self.pass.look();
    }
}
