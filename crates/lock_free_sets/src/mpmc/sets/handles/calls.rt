//! The calls by a handle: those of its set.
ghost use Rattle.std.specs.Prelude.{◌≡◌, IfSome, IfNone};
ghost use Rattle.lock_free_sets.specs.Sets.Calls.{capacity_of, set_of, HasHistory, IsPassOf};
ghost use Rattle.model.specs.Coding.{one_word};
ghost use Rattle.history.specs.History.{Knows};
ghost use Rattle.history.specs.Passes.{HasSplit};
ghost use Rattle.lock_free_sets.specs.Sets.Kinds.{machine_kind};
ghost use Rattle.lock_free_sets.specs.Sets.Handles.{set_in, pass_in, knows};
ghost use Rattle.history.specs.Steps.{TakesAtMost};

use super::Handle;
use crate::mpmc::sets::rule::Kind;
use crate::mpmc::sets::{Pass, Set};

impl<E: Kind> Set<E> {
    /// Makes a handle of this set and a pass of it. No atomic step. This project's own.
    pub fn handle(&self, pass: Pass<E>) -> Handle<'_, E>
        requires { IsPassOf self.now pass }
        ensures set { set_in result ≡ self.now }
        ensures pass { pass_in result ≡ pass }
    {
        Handle { set: self, pass }
    }
}

impl<'a, E: Kind> Handle<'a, E> {
    /// Returns the pass. No atomic step.
    pub fn into_pass(self) -> Pass<E>
        ensures { result ≡ pass_in self.entry }
    {
        let Handle { set: _, pass } = self;
        pass
    }

    /// What the handle's pass has seen is a history, as `history` of the pass says. It does nothing.
    pub fn history(&self)
        ensures run { Knows one_word (machine_kind E.KIND) (set_of (pass_in self.now)).capacity (knows self.now) }
        ensures history { HasHistory (pass_in self.now) }
    {
        self.pass.history();
    }

    /// Makes a further handle of the set, with a pass that it gets by `Pass::split`.
    pub fn split(&mut self) -> Option<Handle<'a, E>>
        ensures set { set_in self.new ≡ set_in self.old }
        ensures new { IfSome result (λ h. set_in h ≡ set_in self.old) }
        ensures cut { IfSome result (λ h. HasSplit (knows self.old) (knows self.new) (knows h)) }
        ensures none { IfNone result (knows self.new ≡ knows self.old) }
        ensures steps { TakesAtMost 1 (knows self.old) (knows self.new) }
    {
        let pass = self.pass.split()?;
        Some(Handle {
            set: self.set,
            pass,
        })
    }

    /// Calls `capacity` of its set.
    pub fn capacity(&self) -> usize
        ensures { result ≡ capacity_of (set_in self.now) }
    {
        self.set.capacity()
    }
}
