//! The calls by a handle that come to the values of an owner.
ghost use Rattle.std.specs.Prelude.{◌≡◌, ℕ, false, List};
ghost use Rattle.model.specs.Families.Indices.Reading.{is_locked};
ghost use Rattle.lock_free_owners.specs.Container.Callable.{Visit, TakesVisits, HasFound};
ghost use Rattle.lock_free_owners.specs.Container.Calls.{FindKeepsPass, KeepsPass, RecoverDone};
ghost use Rattle.lock_free_owners.specs.Container.FindContract.{HasSearched};
ghost use Rattle.lock_free_owners.specs.Container.Questions.{TakesValues};
ghost use Rattle.lock_free_owners.specs.Container.Steps.{FindTakes, RecoverTakes};
ghost use Rattle.lock_free_owners.specs.Container.Names.{history, capacity_of, IsHandleFor};
ghost use Rattle.lock_free_owners.specs.Container.Handles.{container_in, pass_in, knows, KeepsHandle};

use super::Handle;
use crate::mpmc::container::{CallbackProgression, ContainerHandle, OwnerId};
use std::sync::Wait;
use steps::indices::enums::{ReleaseMode, ReleaseState};
use steps::words::Words;

impl<'a, T: Words> Handle<'a, T> {
    /// Calls `Container::find`, with its pass.
    pub fn find<F: FnMut(T, ContainerHandle) -> CallbackProgression>(
        &mut self,
        owner: OwnerId,
        visit: &mut F,
    ) -> usize
        requires { TakesVisits F.pre (λ p x h a q. F.step p x h a q)
            (IsHandleFor (container_in self.old) owner) visit.old }
        ensures same { KeepsHandle FindKeepsPass self.old self.new }
        ensures found { (visits : List (Visit T)) × (bound : ℕ)
            × HasSearched (capacity_of (container_in self.old)) owner result
            bound visits (knows self.old) (knows self.new)
            × HasFound (λ p x h a q. F.step p x h a q) (capacity_of (container_in self.old))
            (IsHandleFor (container_in self.old) owner) visit.old result bound visits visit.new }
        ensures steps { FindTakes T.WORDS (capacity_of (container_in self.old)) (knows self.old) (knows self.new) }
    {
        self.container.find(owner, visit, &mut self.pass)
    }

    /// Calls `Container::recover`, with its pass.
    pub fn recover<F: FnMut(T) -> bool>(
        &mut self,
        rt: &impl Wait,
        owner: OwnerId,
        predicate: &mut F,
        mode: ReleaseMode,
    ) -> ReleaseState
        requires { is_locked (history (pass_in self.old)) ≡ false → TakesValues F.pre
            (λ p x b q. F.step p x b q) (capacity_of (container_in self.old)) predicate.old }
        ensures same { KeepsHandle KeepsPass self.old self.new }
        ensures recovered { RecoverDone (λ p x b q. F.step p x b q)
            (record { owner = owner; mode = mode }) result (capacity_of (container_in self.old)) predicate.old
            predicate.new (knows self.old) (knows self.new) }
        ensures steps { RecoverTakes T.WORDS (capacity_of (container_in self.old)) mode
            (knows self.old) (knows self.new) }
    {
        self.container
            .recover(rt, owner, predicate, mode, &mut self.pass)
    }
}
