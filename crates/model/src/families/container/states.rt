//! What each party knows of the container: its own state.
ghost use Rattle.std.specs.Prelude.{◌≡◌, [], true, false, is_some, option_copied};
ghost use Rattle.model.specs.Families.Container.States.{state_of, with_state, fresh};
ghost use Rattle.model.specs.Coding.{coding_by};

use std::alloc::Global;
use std::collections::BTreeMap;
use std::marker::Model;
use steps::container::state::ContainerState;
use steps::words::Words;

/// The states of the parties, by party. A party has none before its first look. One is looked up and added in
/// logarithmic time.
#[derive(Drop)]
pub struct States<T> {
    alloc: Global,
    pub of: BTreeMap<u32, ContainerState<T>>,
}

impl<T> Model for States<T> {
    ghost use Rattle.std.specs.Prelude.{ℕ, List};
    ghost use Rattle.steps.specs.declared.container.state.ContainerState.{ContainerState};

    ghost Value = { List (ℕ × ContainerState T) };

    ghost view = { λ s. s.of.entries };
}

impl<T> States<T> {
    /// No party has a state.
    pub fn new(alloc: Global) -> States<T>
        ensures { result ≡ [] }
    {
        States {
            alloc,
            of: BTreeMap::new(alloc),
        }
    }

    /// The party's state.
    pub fn get(&self, number: u32) -> Option<&ContainerState<T>>
        ensures { option_copied result ≡ state_of number self.now }
    {
        self.of.get(&number)
    }

    /// Whether the party has a state.
    pub fn has(&self, number: u32) -> bool
        ensures { result ≡ is_some (state_of number self.now) }
    {
        self.of.contains_key(&number)
    }
}

impl<T: Words> States<T> {
    /// The party has a state that shows nothing from now on, unless memory for it is refused. Then nothing changes.
    pub fn renew(&mut self, number: u32, capacity: u32) -> bool
        ensures renewed { result ≡ true
            → self.new ≡ with_state number (fresh (coding_by T.Words) capacity) self.old }
        ensures same { result ≡ false → self.new ≡ self.old }
    {
        let Ok(state) = ContainerState::new(self.alloc, 0, capacity) else {
            return false;
        };
        self.of.insert(number, state).is_ok()
    }
}
