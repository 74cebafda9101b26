//! Values at indices that have owners, which threads share. The indices of a dead owner are recovered.
//!
//! The clause `steps` of a call bounds its atomic steps (not of an update of a state that the pass has not).
//! It gives a number for a call *alone*, and one for each change by others of any word of the container
//! during the call. All calls but `find` take one step more where the last call of the pass rested.
use self::rule::ContainerRule;
use self::token::Token;
use history::view::View;
use std::alloc::Global;
use steps::words::Words;
use threaded::driver::seated::Home;

mod calls;
mod counts;
mod debug;
mod drives;
mod elements;
mod fixed;
mod handles;
mod listing;
mod looks;
mod make;
mod passes;
mod recovery;
pub mod rule;
pub mod token;
mod visits;

pub use handles::Handle;
pub use listing::{StateEntries, entries};
pub use steps::container::enums::{ContainerAddFailure, ContainerRemoveError, ContainerStateError};
pub use steps::container::handle::ContainerHandle;
pub use steps::container::state::ContainerState;
pub use steps::enums::{CallbackProgression, OwnerId, OwnerIdNewError};

/// A container of values, at indices below its capacity, which threads share by reference. After `Container` of the
/// Rust crate.
///
/// ```rust
/// let owner = OwnerId::new(7)?;
/// let (container, pass) = Container::new(rt.alloc(), 4, 1)?;
/// let mut values = container.handle(pass);
/// let key = values.add(&rt, 50u64, owner)?;
/// let state = values.get_state(&rt)?;
/// assert!(rt; state.get(key.index()) == Some(&50));
/// ```
///
/// No contract asks for these rules. If one is broken a value can be torn, hidden, or another's:
///
/// - A handle is given back at most once, by its holder.
/// - No remove and no replace of a handle begins while a replace of it is under way.
/// - Nobody acts for an owner once its recovery has begun.
pub struct Container<T: Words> {
    home: Home<View<T>, u64, ContainerRule<T>>,
    capacity: u32,
    id: u64,
    alloc: Global,
}

impl<T: Words> Drop for Container<T> {
    fn drop(self) {
        let Self {
            home: _home,
            capacity: _,
            id: _,
            alloc: _,
        } = self;
    }
}

/// A `Container` whose type names its capacity: CAPACITY, from 1 to 2^32 - 1. It is used as the container that it has.
/// After `FixedSizeContainer` of the Rust crate.
pub struct FixedSizeContainer<T: Words, const CAPACITY: usize> {
    container: Container<T>,
}

impl<T: Words, const CAPACITY: usize> Drop for FixedSizeContainer<T, CAPACITY> {
    fn drop(self) {
        let Self {
            container: _container,
        } = self;
    }
}

/// A pass permits its owner to call a container. It knows which container it is for, how much of the container's one
/// history it has seen, and what of it is its own doing. Each call but `capacity` and `is_state_of` is made with a pass
/// of its container, which is the caller's concern. Once it has seen the lock its adds answer `IsLocked`, its lengths 0
/// and its `is_locked` true, and its recoveries ask about nothing. This project's own.
pub struct Pass<T: Words> {
    token: Token<T>,
}

impl<T: Words> Drop for Pass<T> {
    fn drop(self) {
        let Self { token: _token } = self;
    }
}
