//! The entries of a state, as an iterator.
ghost use Rattle.std.specs.Prelude.{◌≡◌, ◌≤◌, ◌<◌, ◌^◌, length, ⊤};
ghost use Rattle.std.specs.Iterator.{YieldsFirstBy, item_count};
ghost use Rattle.steps.specs.Container.State.{shown_from};
ghost use Rattle.lock_free_owners.specs.Container.Entries.{entries_of};

use super::ContainerState;
use std::alloc::AllocError;
use std::iter::FusedIterator;
use std::marker::Model;
use steps::words::Words;

/// The entries of a state that are still to come, ascending. `entries` makes it. This project's own.
#[derive(Drop)]
pub struct StateEntries<'a, T: Words> {
    state: &'a ContainerState<T>,
    // The index to which it comes next.
    index: u32,
}

impl<'a, T: Words> Model for StateEntries<'a, T> {
    ghost use Rattle.std.specs.Prelude.{ℕ, List};

    ghost Value = { List (ℕ × T) };

    ghost use Rattle.lock_free_owners.specs.Container.Entries.{entries_from};

    ghost view = { λ it. entries_from it.state.now it.index };
}

/// Returns an iterator over the values that a state shows, each with its index, ascending. `for_each` calls
/// its closure with the same values, unless the state has elements past its capacity; `new` makes none past
/// it, and no call adds any.
///
/// It looks at each index below the capacity once. No atomic step, and no memory. This project's own.
#[inline(always)]
pub fn entries<'a, T: Words>(state: &'a ContainerState<T>) -> StateEntries<'a, T>
    ensures entries { result ≡ entries_of state.now }
    ensures all { length state.now.shown.elements ≤ state.now.capacity
        → result ≡ shown_from 0 state.now.shown.elements }
    ensures most { length result < 2 ^ 32 }
{
    let _capacity = state.capacity;
    StateEntries { state, index: 0 }
}

impl<'a, T: Words> Clone for StateEntries<'a, T> {
    ghost is_clone = { λ it copy. copy ≡ it };

    ghost is_infallible = { λ _. ⊤ };

    fn clone(&self) -> Result<Self, AllocError> {
        Ok(StateEntries {
            state: self.state,
            index: self.index,
        })
    }
}

impl<'a, T: Words> Iterator for StateEntries<'a, T> {
    type Item = (usize, &'a T);

    ghost next_gives = { YieldsFirstBy (λ item. (item.0, item.1.now)) (λ rest. rest) };

    ghost remaining = { item_count (λ rest. rest) };

    fn next(&mut self) -> Option<(usize, &'a T)> {
        let state = self.state;
        let capacity = state.capacity;
        while self.index < capacity {
            let index = self.index as usize;
            self.index += 1;
            if let Some(value) = state.get(index) {
                return Some((index, value));
            }
        }
        None
    }
}

impl<'a, T: Words> FusedIterator for StateEntries<'a, T> {}
