//! The calls by a handle on states.
ghost use Rattle.std.specs.Prelude.{◌≡◌, ◌↔◌, IsTrue, IsFalse, IfOk, IfErr};
ghost use Rattle.lock_free_owners.specs.Container.Bare.{IsCounted};
ghost use Rattle.lock_free_owners.specs.Container.Calls.{GetStateDone, UpdateDone};
ghost use Rattle.lock_free_owners.specs.Container.Names.{capacity_of, IsStateOf, IsLeft, IsLatestState};
ghost use Rattle.lock_free_owners.specs.Container.Steps.{LookTakes};
ghost use Rattle.lock_free_owners.specs.Container.Handles.{container_in, pass_in, knows, UpdateKeepsHandle};

use super::Handle;
use crate::mpmc::container::{ContainerState, ContainerStateError};
use std::sync::Wait;
use steps::words::Words;

impl<'a, T: Words> Handle<'a, T> {
    /// Calls `Container::get_state`, with its pass.
    pub fn get_state(&mut self, rt: &impl Wait) -> Result<ContainerState<T>, ContainerStateError>
        ensures container { container_in self.new ≡ container_in self.old }
        ensures got { IfOk result (λ state. GetStateDone (container_in self.old) state (pass_in self.old) (pass_in self.new)) }
        ensures refused { IfErr result (λ failure. knows self.new ≡ knows self.old) }
        ensures steps { IfOk result (λ state. LookTakes T.WORDS (capacity_of (container_in self.old))
            (knows self.old) (knows self.new)) }
    {
        self.container.get_state(rt, &mut self.pass)
    }

    /// Calls `Container::update_state`, with its pass.
    pub fn update_state(&mut self, rt: &impl Wait, state: &mut ContainerState<T>) -> bool
        requires { IsStateOf (container_in self.old) state.old }
        ensures same { UpdateKeepsHandle self.old self.new state.new }
        ensures updated { IsLatestState (pass_in self.old) state.old
            → UpdateDone result state.new (pass_in self.old) (pass_in self.new) }
        ensures beside { (IsLatestState (pass_in self.old) state.old → ⊥) → IsCounted (knows self.old) (knows self.new) }
        ensures left { IsFalse result → IsLeft state.old state.new }
        ensures steps { IsLatestState (pass_in self.old) state.old
            → LookTakes T.WORDS (capacity_of (container_in self.old)) (knows self.old) (knows self.new) }
    {
        self.container.update_state(rt, state, &mut self.pass)
    }

    /// Calls `Container::is_state_of`.
    pub fn is_state_of(&self, state: &ContainerState<T>) -> bool
        ensures { IsTrue result ↔ IsStateOf (container_in self.now) state.now }
    {
        self.container.is_state_of(state)
    }
}
