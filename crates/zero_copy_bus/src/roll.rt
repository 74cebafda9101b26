//! Who takes part in a bus. The registry is a container with a record for each subscriber: the place of its
//! lane, at an index that its owner holds.
ghost use Rattle.std.specs.Prelude.{◌≡◌, ◌↔◌, ℕ, None, Some, IsSome, IsTrue, IsFalse, OnOk};
ghost use Rattle.lock_free_owners.specs.Container.Handles.{container_in, knows};
ghost use Rattle.lock_free_owners.specs.Container.Names.{container_id, container_of, container_refusal, unnumbered, IsPassOf, IsStateOf};

use lock_free_owners::mpmc::container::{Container, ContainerState, Handle, OwnerId, Pass};
use lock_free_sets::mpmc::unique_index_set_enums::{ReleaseMode, UniqueIndexCreationError};
use std::alloc::Global;
use std::sync::Wait;

/// The registry, with a pass of which one is split off for each who takes part.
pub struct Members {
    all: Container<u64>,
    pass: Pass<u64>,
    ghost of: { IsPassOf all pass },
}

impl Drop for Members {
    fn drop(self) {
        let Self {
            all: _all,
            pass: _pass,
        } = self;
    }
}

impl Members {
    /// An empty registry, with room for the records of `subscribers` subscribers.
    pub fn new(alloc: Global, subscribers: usize) -> Result<Members, UniqueIndexCreationError>
        ensures { OnOk result (container_refusal subscribers ≡ None) }
    {
        let (all, pass) = Container::new(alloc, subscribers, 0)?;
        Ok(Members { all, pass })
    }

    /// A further handle of the registry. None where no further pass can be counted.
    pub fn member(&mut self) -> Option<Handle<'_, u64>> {
        let pass = self.pass.split()?;
        Some(self.member_with(pass))
    }

    /// A handle of the registry, of this pass.
    fn member_with(&self, pass: Pass<u64>) -> Handle<'_, u64>
        requires { container_of pass ≡ container_id (self.now).all }
    {
        self.all.handle(pass)
    }
}

/// What the publisher has seen of the registry: the state that it copied last. It copies with a handle of its
/// own (`looks`), which makes no other call, so that what the state shows is known to be copied by it.
pub struct Roll<'a> {
    looks: Handle<'a, u64>,
    members: Handle<'a, u64>,
    state: ContainerState<u64>,
    ghost of: { IsStateOf (container_in looks) state },
    ghost party: { IsSome (knows looks).party },
    ghost latest: { (knows looks).state ≡ Some (unnumbered state) },
}

impl<'a> Drop for Roll<'a> {
    fn drop(self) {
        let Self {
            looks: _looks,
            members: _members,
            state: _state,
        } = self;
    }
}

impl<'a> Roll<'a> {
    ghost use Rattle.zero_copy_bus.specs.Rolls.{look_view, HasLooked, HasNotLooked, HasTakenOut, IsShown};

    /// A roll with a first copy of the registry's state. None where there is no memory, or no further pass
    /// can be counted.
    pub fn new(rt: &impl Wait, mut members: Handle<'a, u64>) -> Option<Roll<'a>> {
        let mut looks = members.split()?;
        let state = looks.get_state(rt).ok()?;
        Some(Roll {
            looks,
            members,
            state,
        })
    }

    /// A handle of the registry for one more subscriber. None where no further pass can be counted.
    pub fn member(&mut self) -> Option<Handle<'a, u64>>
        ensures shown { (place : ℕ) → IsShown self.old place → IsShown self.new place }
        ensures looks { HasNotLooked self.old self.new }
    {
        self.members.split()
    }

    /// Copies what has changed in the registry into the state, and answers whether anything has.
    pub fn update(&mut self, rt: &impl Wait) -> bool
        ensures looked { HasLooked result self.old self.new }
        ensures left { IsFalse result → (place : ℕ) → IsShown self.old place → IsShown self.new place }
    {
        self.looks.update_state(rt, &mut self.state)
    }

    /// Whether the last look showed a record of this place.
    pub fn has(&self, place: u64) -> bool
        ensures { IsTrue result ↔ IsShown self.now place }
    {
        for index in 0..self.looks.capacity() {
            if let Some(found) = self.state.get(index) {
                if *found == place {
                    return true;
                }
            }
        }
        false
    }

    /// Frees each record of an owner that is dead.
    pub fn recover(&mut self, rt: &impl Wait, dead: OwnerId)
        ensures taken { HasTakenOut dead self.old self.new }
        ensures shown { (place : ℕ) → IsShown self.old place → IsShown self.new place }
        ensures looks { look_view self.new ≡ look_view self.old }
    {
        self.members
            .recover(rt, dead, &mut |_| true, ReleaseMode::Default);
    }
}
